//! Why a message isn't pushed.
ghost use Rattle.std.specs.Prelude.{◌≡◌};
ghost use Rattle.osc_packet.specs.declared.bundle_fault.BundleFault.TheVariants.{NoMemory};

use std::alloc::AllocError;

/// Why a message isn't pushed.
#[derive(Clone, Copy, Debug, PartialEq, Eq)]
pub enum BundleFault {
    /// The bundle would be over 65,504 bytes.
    TooLong,
    /// There was no memory.
    NoMemory,
}

impl From<AllocError> for BundleFault {
    ghost from_gives = { λ _ fault. fault ≡ NoMemory };

    fn from(_error: AllocError) -> BundleFault {
        BundleFault::NoMemory
    }
}
