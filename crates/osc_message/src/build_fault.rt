//! Why a message isn't built.
ghost use Rattle.std.specs.Prelude.{◌≡◌};
ghost use Rattle.osc_message.specs.declared.build_fault.BuildFault.TheVariants.{NoMemory};

use osc_pattern::PatternFault;
use std::alloc::AllocError;

/// Why a message isn't built.
#[derive(Clone, Copy, Debug, PartialEq, Eq)]
pub enum BuildFault {
    /// The bytes are no address pattern: the pattern's first fault.
    Pattern(PatternFault),
    /// A pattern, string or symbol has a zero byte, the first of them at `at`.
    HasNull { at: u32 },
    /// The pattern is over 65,000 bytes, or the message would be over 65,504 bytes.
    TooLong,
    /// The array brackets don't balance.
    Brackets,
    /// There was no memory.
    NoMemory,
}

impl From<AllocError> for BuildFault {
    ghost from_gives = { λ _ fault. fault ≡ NoMemory };

    fn from(_error: AllocError) -> BuildFault {
        BuildFault::NoMemory
    }
}
