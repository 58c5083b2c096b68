// The recordings of a show: at which size one gives way to the next, and which file that is.
use crate::words::Serving;
use osc_show::{is_there, part_name};
use osc_words::Capacities;
use std::alloc::AllocError;

/// How many bytes what is carried on takes at most: so many, and so many for each method, each unit
/// and each block (`osc_carry`, `carrying_is_small`).
const HEAD: u64 = 108;

const METHOD: u64 = 299;

const UNIT: u64 = 119;

const BLOCK: u64 = 64;

/// The size at which a show never goes on in another recording.
pub(crate) const NEVER: u64 = u64::MAX;

/// The least size at which one goes on: twice what is carried on.
pub(crate) fn least_size(caps: Capacities) -> u64 {
    let methods = METHOD * u64::from(caps.methods);
    let units = UNIT * u64::from(caps.units);
    let blocks = BLOCK * u64::from(caps.blocks);
    2 * (HEAD + methods + units + blocks)
}

/// The size at which the show goes on in another recording: as it is said, or nine tenths of the
/// room, if that is enough.
pub(crate) fn size_of(serving: &Serving) -> u64 {
    let room = u64::from(serving.caps.recording);
    let most = room - room / 10;
    match serving.size {
        Some(size) => u64::from(size),
        None if most >= least_size(serving.caps) => most,
        None => NEVER,
    }
}

/// Whether the size that is said is one at which a show can go on.
pub(crate) fn is_size(serving: &Serving) -> bool {
    match serving.size {
        Some(size) => {
            u64::from(size) >= least_size(serving.caps) && size <= serving.caps.recording
        }
        None => true,
    }
}

/// The number after this one whose file isn't there.
pub(crate) fn next_part(rt: &HostRuntime, file: &str, part: u32) -> Result<u32, AllocError> {
    for next in part..u32::MAX {
        let name = part_name(rt.alloc(), file, next + 1)?;
        if !is_there(rt, &name) {
            return Ok(next + 1);
        }
    }
    Ok(u32::MAX)
}
