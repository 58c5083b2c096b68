//! A method that a message called.
ghost use Rattle.std.specs.Prelude.{◌≡◌};

use std::marker::Model;

/// The address of a method that a message called. A contract sees the address.
#[derive(Drop)]
pub struct Place<'a> {
    address: &'a [u8],
}

impl<'a> Model for Place<'a> {
    ghost use Rattle.std.specs.Prelude.{List, ℕ};

    ghost Value = { List ℕ };

    ghost view = { λ p. p.address.now };
}

impl<'a> Place<'a> {
    ghost use Rattle.std.specs.Prelude.{◌≡◌};

    /// The place of the method at this address.
    pub fn at(address: &'a [u8]) -> Place<'a>
        ensures { result ≡ address.now }
    {
        Place { address }
    }

    /// The address.
    pub fn bytes(&self) -> &'a [u8]
        ensures { result.now ≡ self.now }
    {
        self.address
    }
}
