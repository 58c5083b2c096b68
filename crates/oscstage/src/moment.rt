// A moment in words, and as a time tag.
use crate::cues::setting_at;
use jiff_core::Offset;
use jiff_fmt::temporal::DateTimePrinter;
use osc_cues::read_moment;
use osc_edge::system_moment;
use osc_ends::status::{DONE, EDGE_FAILED, USAGE};
use osc_show::{time_of, zone_offset};
use std::alloc::AllocError;

/// How many digits a time tag has.
const DIGITS: usize = 16;

/// Half a unit of a time tag, in billionths of one.
const HALF: u128 = 500_000_000;

/// Prints the time tag of a moment, or the moment of a time tag, in the zone of the machine then.
pub(crate) fn print_moment(rt: &HostRuntime, word: &str) -> Result<u8, AllocError> {
    match tag_in(word) {
        Some(tag) => Ok(print_time(rt, tag)),
        None => print_tag(rt, word),
    }
}

/// The time tag, where the word is its digits.
fn tag_in(word: &str) -> Option<u64> {
    let is_digits = word.len() == DIGITS && word.bytes().all(|byte| byte.is_ascii_hexdigit());
    if is_digits {
        u64::from_str_radix(word, 16).ok()
    } else {
        None
    }
}

fn print_time(rt: &HostRuntime, tag: u64) -> u8 {
    let Some(time) = time_of(tag) else {
        return USAGE;
    };
    let offset = zone_offset(rt, Some(tag)).unwrap_or(Offset::UTC);
    let text = DateTimePrinter::new().timestamp_with_offset_text(time, offset);
    println!(rt; "{text}").ok();
    DONE
}

fn print_tag(rt: &HostRuntime, word: &str) -> Result<u8, AllocError> {
    let Some(setting) = system_moment(rt).and_then(|now| setting_at(rt, now)) else {
        return Ok(EDGE_FAILED);
    };
    match read_moment(setting, None, None, word.as_bytes()) {
        Ok(moment) => {
            let tag = ((moment + HALF) / 1_000_000_000) as u64;
            println!(rt; "{tag:016x}").ok();
            Ok(DONE)
        }
        Err(_) => {
            eprintln!(rt;
                "oscstage: {word} is no moment: write 2026-11-29T20:00:00, 20:00:00.5, now, or a time tag of 16 digits"
            ).ok();
            Ok(USAGE)
        }
    }
}
