//! What a refusal for want of room tells.
ghost use Rattle.std.specs.Prelude.{◌≡◌, ◌<◌};

/// How much was needed and how much is free, in the unit of the call that refuses.
#[derive(Clone, Copy, Debug, PartialEq, Eq)]
pub struct Room {
    /// How much was needed, more than is free.
    pub need: u64,
    /// How much is free.
    pub free: u64,
    pub ghost wanting: { free < need },
}

impl Room {
    /// The room that is lacking where so much is needed and so much is free.
    pub fn new(need: u64, free: u64) -> Room
        requires { free < need }
        ensures need { result.need ≡ need }
        ensures free { result.free ≡ free }
    {
        Room { need, free }
    }
}
