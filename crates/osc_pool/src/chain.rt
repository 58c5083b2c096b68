//! What a pool hands out for bytes that it stores.
ghost use Rattle.std.specs.Prelude.{◌≡◌};

/// The blocks in which a pool stores bytes. Whoever drops a chain, and doesn't give it back, leaves its blocks taken.
#[derive(Drop, Debug)]
pub struct Chain {
    /// The block in which the bytes begin, where there are any.
    pub(crate) first: u32,
    pub(crate) len: u32,
}

impl Chain {
    /// How many bytes are stored.
    pub fn len(&self) -> usize
        ensures { result ≡ self.now.len }
    {
        self.len as usize
    }
}
