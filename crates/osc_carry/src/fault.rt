//! Why a recording isn't carried on.
ghost use Rattle.std.specs.Prelude.{◌≡◌};
ghost use Rattle.osc_carry.specs.declared.fault.CarryFault.TheVariants.{NoMemory};
ghost use Rattle.osc_carry.specs.Answers.{refused_as};

use osc_atoms::Bytes;
use osc_replay::ReplayFault;
use std::alloc::AllocError;

/// The bytes aren't the recording of a server, its script is too long, or there is no memory.
#[derive(Drop)]
pub enum CarryFault {
    /// The place of the header, or of the first entry, that is malformed (docs/FORMATS.md, "The
    /// recording").
    Malformed {
        at: u32,
    },
    /// The first entry, counted from 0, whose bytes aren't those that the server computes for its
    /// caller and event. `computed` is empty where the caller isn't enrolled or the server adds no
    /// entry.
    Disagrees {
        entry: u32,
        kept: Bytes,
        computed: Bytes,
    },
    /// The script has more than 67,108,864 bytes.
    TooLong,
    NoMemory,
}

impl From<AllocError> for CarryFault {
    ghost from_gives = { λ _ fault. fault ≡ NoMemory };

    fn from(_error: AllocError) -> CarryFault {
        CarryFault::NoMemory
    }
}

impl From<ReplayFault> for CarryFault {
    ghost from_gives = { λ refused fault. fault ≡ refused_as refused };

    fn from(refused: ReplayFault) -> CarryFault {
        match refused {
            ReplayFault::Malformed { at } => CarryFault::Malformed { at },
            ReplayFault::Disagrees {
                entry,
                kept,
                computed,
            } => CarryFault::Disagrees {
                entry,
                kept,
                computed,
            },
            ReplayFault::NoMemory => CarryFault::NoMemory,
        }
    }
}
