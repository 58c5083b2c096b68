//! Why a recording isn't replayed.
ghost use Rattle.std.specs.Prelude.{◌≡◌};
ghost use Rattle.osc_replay.specs.declared.fault.ReplayFault.TheVariants.{Malformed as MalformedAt};
ghost use Rattle.osc_replay.specs.declared.fault.ReplayFault.TheVariants.{NoMemory};

use osc_atoms::Bytes;
use osc_record::Malformed;
use std::alloc::AllocError;

/// The bytes aren't the recording of a server, or there is no memory.
#[derive(Drop)]
pub enum ReplayFault {
    /// The place of the header, or of the first entry, that is malformed (docs/FORMATS.md, "The
    /// recording").
    Malformed {
        at: u32,
    },
    /// The first entry, counted from 0, whose bytes aren't those that the server computes for its
    /// caller and event. `computed` is empty where the caller isn't enrolled or the server adds no
    /// entry.
    Disagrees {
        entry: u32,
        kept: Bytes,
        computed: Bytes,
    },
    NoMemory,
}

impl From<AllocError> for ReplayFault {
    ghost from_gives = { λ _ fault. fault ≡ NoMemory };

    fn from(_error: AllocError) -> ReplayFault {
        ReplayFault::NoMemory
    }
}

impl From<Malformed> for ReplayFault {
    ghost from_gives = { λ malformed fault. fault ≡ MalformedAt malformed.at };

    fn from(malformed: Malformed) -> ReplayFault {
        ReplayFault::Malformed { at: malformed.at }
    }
}
