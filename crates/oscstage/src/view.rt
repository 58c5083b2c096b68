// How what comes in is shown.
use jiff_core::Offset;
use osc_console::Calendar;
use osc_edge::system_moment;
use osc_show::{look_at, zone_offset};
use osc_shown::{Look, day_line};
use std::alloc::AllocError;
use std::io::Write;

/// The look of lines on this machine's standard output: in the zone of the machine as it is at this
/// moment, and in colours on a terminal unless `NO_COLOR` is set.
pub(crate) fn look_of(rt: &HostRuntime, moment: Option<u64>, quiet: bool) -> Look {
    look_at(rt, zone_offset(rt, moment).unwrap_or(Offset::UTC), quiet)
}

/// Prints the line of the day, which is the last that was shown then.
pub(crate) fn print_day(
    rt: &HostRuntime,
    look: Look,
    calendar: &Calendar,
) -> Result<(), AllocError> {
    if let Some(moment) = system_moment(rt) {
        let mut line = Vec::new(rt.alloc());
        day_line(&mut line, look, moment)?;
        calendar.turns_to(&line)?;
        rt.stdout().write_all(&line).ok();
    }
    Ok(())
}
