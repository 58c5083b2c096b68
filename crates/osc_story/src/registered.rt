//! A method that is there.
ghost use Rattle.std.specs.Prelude.{◌≡◌};

use osc_atoms::Bytes;
use std::alloc::{AllocError, Global};
use std::marker::Model;

/// A method that was added and not removed since. A contract sees its id and its address.
#[derive(Drop)]
pub struct Registered {
    id: u32,
    address: Bytes,
}

impl Model for Registered {
    ghost use Rattle.osc_pattern.specs.Methods.{Method};

    ghost Value = { Method };

    ghost view = { λ r. record { id = r.id; address = r.address } };
}

impl Registered {
    ghost use Rattle.std.specs.Prelude.{◌≡◌, not, IfOk};
    ghost use Rattle.std.specs.Str.{bytes_eq};

    pub(crate) fn new(alloc: Global, id: u32, address: &[u8]) -> Result<Registered, AllocError>
        ensures { IfOk result (λ method. method ≡ record { id = id; address = address.now }) }
    {
        Ok(Registered {
            id,
            address: Bytes::copied(alloc, address)?,
        })
    }

    /// The method's id.
    pub fn id(&self) -> u32
        ensures { result ≡ self.now.id }
    {
        self.id
    }

    /// The method's address.
    pub fn address(&self) -> &[u8]
        ensures { result.now ≡ self.now.address }
    {
        self.address.as_slice()
    }

    /// Whether it has another address.
    pub(crate) fn is_elsewhere(&self, address: &[u8]) -> bool
        ensures { result ≡ not (bytes_eq self.now.address address.now) }
    {
        self.address.as_slice() != address
    }
}
