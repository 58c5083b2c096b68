// Reads a sheet of cues, and shows what would be sent.
use crate::bundle::{Timed, bundles_of};
use crate::patch::read_patch;
use crate::playback::play_sheet;
use crate::report::{report_cues, report_long_sheet, report_moment};
use crate::score::write_score;
use crate::words::{Playing, Way};
use jiff_core::Offset;
use osc_cues::{MAX_SHEET, Setting, Sheet, SheetError};
use osc_edge::{StdSource, system_moment};
use osc_ends::status::{EDGE_FAILED, REFUSED, USAGE};
use osc_ends::{Whole, read_input};
use osc_packet::{MAX_PACKET, Packet};
use osc_patch::{Patch, PatchMethod};
use osc_pattern::Address;
use osc_show::{Page, look_at, setting_at_offset, zone_offset};
use osc_shown::{Answered, Arrival, Look, Route, day_line, day_number, unit_lines};
use osc_words::default_capacities;
use std::alloc::{AllocError, Global};
use std::sync::Wait;
use std::thread::Threads;

/// How far ahead now is where cues are sent: half a second.
const AHEAD: u64 = 1 << 31;

/// A sheet that was read, and its patch.
#[derive(Drop)]
pub(crate) struct SheetRead {
    pub(crate) patch: Patch,
    pub(crate) sheet: Sheet,
    /// When and where it was read.
    setting: Setting,
    /// The time tag of the sheet at which play begins, if one is said.
    from: Option<u64>,
}

impl SheetRead {
    /// The time tag at which what stands at this one is played; none where it is left out.
    pub(crate) fn played_at(&self, tag: u64) -> Option<u64> {
        match self.from {
            Some(from) if tag < from => None,
            Some(from) => Some(self.setting.now.saturating_add(tag - from)),
            None => Some(tag),
        }
    }
}

/// Reads the sheet on standard input, and does with it what is to be done; or reports all its wrong
/// lines.
pub(crate) fn play_cues<W: Threads + Wait + Sync>(
    rt: &HostRuntime,
    threads: &W,
    playing: &Playing,
) -> Result<u8, AllocError> {
    let read = match read_sheet(rt, playing)? {
        Ok(read) => read,
        Err(status) => return Ok(status),
    };
    let look = look_at(rt, read.setting.offset, false);
    match playing.way {
        Way::Check => show_cues(rt, look, &read),
        Way::Score => write_score(rt, &read),
        Way::Send => play_sheet(rt, threads, look, playing, &read),
    }
}

/// Reads the patch and the sheet; the `Err` inside is the status, where one can't be read or is
/// refused, which is reported.
fn read_sheet(rt: &HostRuntime, playing: &Playing) -> Result<Result<SheetRead, u8>, AllocError> {
    let alloc = rt.alloc();
    let patch = match read_patch(rt, &playing.patch, default_capacities().methods)? {
        Ok(patch) => patch,
        Err(status) => return Ok(Err(status)),
    };
    let bytes = match read_input(alloc, MAX_SHEET, &mut StdSource::open(rt)) {
        Ok(Whole::Bytes(bytes)) => bytes,
        Ok(Whole::TooLong) => return Ok(Err(refuse_long(rt))),
        Err(status) => return Ok(Err(status)),
    };
    let Some(setting) = setting_for(rt, playing) else {
        return Ok(Err(EDGE_FAILED));
    };
    let addresses = addresses_of(alloc, &patch)?;
    let sheet = match Sheet::read(alloc, &bytes, &addresses, setting) {
        Ok(sheet) => sheet,
        Err(SheetError::NoMemory) => return Err(AllocError),
        Err(SheetError::TooLong) => return Ok(Err(refuse_long(rt))),
        Err(SheetError::Lines(lines)) => {
            report_cues(rt, lines.as_slice(), setting.offset, &addresses)?;
            return Ok(Err(REFUSED));
        }
    };
    match start_of(rt, playing, &sheet, setting) {
        Ok(from) => Ok(Ok(SheetRead {
            patch,
            sheet,
            setting,
            from,
        })),
        Err(status) => Ok(Err(status)),
    }
}

/// The time tag of the sheet at which play begins, if one is said. The `Err` is the status, where
/// the word is no moment, which is reported.
fn start_of(
    rt: &HostRuntime,
    playing: &Playing,
    sheet: &Sheet,
    setting: Setting,
) -> Result<Option<u64>, u8> {
    let Some(word) = &playing.from else {
        return Ok(None);
    };
    match sheet.start(setting, word.as_bytes()) {
        Ok(from) => Ok(Some(from)),
        Err(_) => {
            report_moment(rt, word);
            Err(USAGE)
        }
    }
}

/// When and where the sheet is read. Where cues are to be sent, now is a moment ahead, so that
/// there is time to open what sends them.
fn setting_for(rt: &HostRuntime, playing: &Playing) -> Option<Setting> {
    let now = match playing.way {
        Way::Send => system_moment(rt)?.saturating_add(AHEAD),
        Way::Check | Way::Score => system_moment(rt)?,
    };
    let setting = setting_at(rt, now)?;
    let skip = match (&playing.from, playing.skip) {
        (Some(_), _) => Some(0),
        (None, true) => Some(now),
        (None, false) => None,
    };
    Some(Setting { skip, ..setting })
}

/// At this moment, in the zone of the machine.
pub(crate) fn setting_at(rt: &HostRuntime, now: u64) -> Option<Setting> {
    setting_at_offset(now, zone_offset(rt, Some(now)).unwrap_or(Offset::UTC))
}

fn refuse_long(rt: &HostRuntime) -> u8 {
    report_long_sheet(rt);
    REFUSED
}

pub(crate) fn addresses_of(alloc: Global, patch: &Patch) -> Result<Vec<Address>, AllocError> {
    let mut addresses = Vec::with_capacity(alloc, patch.methods().len())?;
    for method in patch.methods() {
        addresses.push(method.address.copied(alloc)?)?;
    }
    Ok(addresses)
}

/// Where the methods of a patch send, by address.
pub(crate) fn routes_of(alloc: Global, patch: &Patch) -> Result<Vec<Route>, AllocError> {
    let mut routes = Vec::with_capacity(alloc, patch.methods().len())?;
    for method in patch.methods() {
        routes.push(Route {
            address: method.address.copied(alloc)?,
            to: places_of(alloc, method)?,
        })?;
    }
    routes.sort_unstable_by(|one, other| one.address.bytes().cmp(other.address.bytes()));
    Ok(routes)
}

/// The hosts and ports of a method, as the patch has them.
fn places_of(alloc: Global, method: &PatchMethod) -> Result<Vec<u8>, AllocError> {
    let mut places = Vec::new(alloc);
    for route in method.routes.as_slice() {
        if !places.is_empty() {
            places.extend_from_slice(b", ")?;
        }
        let port = route.port;
        places.extend_from_slice(route.host.as_slice())?;
        places.extend_from_slice(format!(in alloc; ":{port}")?.as_bytes())?;
    }
    Ok(places)
}

/// What is shown of a sheet.
#[derive(Drop)]
struct Listing<'a> {
    page: Page,
    look: Look,
    routes: &'a [Route],
    /// The day of the last line.
    day: Option<u64>,
    /// How many cues were shown.
    cues: u64,
}

/// Prints the lines of the cues, a bundle for each moment, and how many there are.
fn show_cues(rt: &HostRuntime, look: Look, read: &SheetRead) -> Result<u8, AllocError> {
    let alloc = rt.alloc();
    let routes = routes_of(alloc, &read.patch)?;
    let mut listing = Listing {
        page: Page::open(rt),
        look,
        routes: &routes,
        day: None,
        cues: 0,
    };
    let bundles = bundles_of(alloc, read)?;
    for bundle in &bundles {
        listing.add_bundle(bundle)?;
    }
    let (count, moments) = (listing.cues, bundles.len());
    let total = format!(in alloc; "-- {count} cues at {moments} moments\n")?;
    listing.page.add(total.as_bytes())?;
    Ok(listing.page.close())
}

impl Listing<'_> {
    /// Adds the lines of a bundle.
    fn add_bundle(&mut self, bundle: &Timed) -> Result<(), AllocError> {
        let Ok(packet) = Packet::check(bundle.packet.as_slice(), MAX_PACKET) else {
            return Ok(());
        };
        self.add_day(bundle.tag)?;
        let arrival = Arrival {
            moment: Some(bundle.tag),
            sender: None,
        };
        for unit in packet.units() {
            let mut lines = Vec::new(self.page.alloc());
            unit_lines(
                &mut lines,
                self.look,
                arrival,
                Answered::Due,
                &unit,
                self.routes,
            )?;
            self.page.add(&lines)?;
            self.cues = self.cues.saturating_add(u64::from(unit.count()));
        }
        Ok(())
    }

    /// Adds the line of a day before its first line.
    fn add_day(&mut self, moment: u64) -> Result<(), AllocError> {
        let day = day_number(self.look.clock, moment);
        if self.day == Some(day) {
            return Ok(());
        }
        self.day = Some(day);
        let mut line = Vec::new(self.page.alloc());
        day_line(&mut line, self.look, moment)?;
        self.page.add(&line)
    }
}
