//! A message of a unit that waits.
ghost use Rattle.std.specs.Prelude.{◌≡◌, IfOk};

use osc_atoms::Bytes;
use osc_message::Message;
use std::alloc::{AllocError, Global};
use std::marker::Model;

/// A message that is kept until it is called. A contract sees its bytes.
#[derive(Drop)]
pub struct KeptMessage {
    bytes: Bytes,
}

impl Model for KeptMessage {
    ghost use Rattle.std.specs.Prelude.{List, ℕ, IsTrue};
    ghost use Rattle.osc_atoms.specs.declared.limits.TheConstants.{MAX_BYTES};
    ghost use Rattle.osc_message.specs.Reading.{is_message};

    ghost Value = { List ℕ };

    ghost view = { λ k. k.bytes };

    ghost invariant = { λ k. IsTrue (is_message MAX_BYTES k.bytes) };
}

impl KeptMessage {
    ghost use Rattle.std.specs.Prelude.{◌≡◌, IfOk};

    /// A copy of the message.
    pub(crate) fn copied(alloc: Global, message: &Message<'_>) -> Result<KeptMessage, AllocError>
        ensures { IfOk result (λ kept. kept ≡ message.now) }
    {
        Ok(KeptMessage {
            bytes: Bytes::copied(alloc, message.bytes())?,
        })
    }

    /// The message. Looks at no argument.
    pub fn message(&self) -> Message<'_>
        ensures { result ≡ self.now }
    {
        Message::known(self.bytes.as_slice())
    }

    /// The bytes.
    pub fn as_slice(&self) -> &[u8]
        ensures { result.now ≡ self.now }
    {
        self.bytes.as_slice()
    }
}
