//! How far a recording was written while it grew.
ghost use Rattle.std.specs.Prelude.{◌≡◌};
ghost use Rattle.osc_growing.specs.Growing.{growth_of};

/// How far a recording was written while it grew.
#[derive(Clone, Copy, Debug, PartialEq, Eq)]
pub enum Growth {
    /// So many bytes, from the first on.
    Written(u32),
    /// The sink failed, and nothing was written to it since.
    Failed,
    /// The sink had no memory, and nothing was written to it since.
    NoMemory,
}

/// How far it was written by whoever has looked, if someone has.
pub fn growth_of(looked: Option<Growth>) -> Growth
    ensures { result ≡ growth_of looked }
{
    match looked {
        Some(growth) => growth,
        None => Growth::Written(0),
    }
}
