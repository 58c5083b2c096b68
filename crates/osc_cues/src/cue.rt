//! Cues, and lists of them.
use osc_atoms::Bytes;
use std::alloc::{AllocError, Global};
use std::marker::Model;

/// A message that is sent at a moment.
#[derive(Drop)]
pub struct Cue {
    /// The time tag of the moment.
    pub tag: u64,
    /// The message's bytes.
    pub message: Bytes,
}

/// Cues, one after another. A contract sees the list.
#[derive(Drop)]
pub(crate) struct Cues {
    items: Vec<Cue>,
}

impl Model for Cues {
    ghost use Rattle.std.specs.Prelude.{List};
    ghost use Rattle.osc_cues.specs.declared.cue.Cue.{Cue};

    ghost Value = { List Cue };

    ghost view = { λ c. c.items.items };
}

impl Cues {
    ghost use Rattle.std.specs.Prelude.{◌≡◌, ◌++◌, ◌∷◌, [], OnOk};

    /// No cues.
    pub(crate) fn new(alloc: Global) -> Cues
        ensures { result ≡ [] }
    {
        Cues {
            items: Vec::new(alloc),
        }
    }

    /// Adds a cue.
    pub(crate) fn push(&mut self, cue: Cue) -> Result<(), AllocError>
        ensures { OnOk result (self.new ≡ self.old ++ cue ∷ []) }
    {
        self.items.push(cue)?;
        Ok(())
    }

    /// The cues. Takes no memory.
    pub(crate) fn as_slice(&self) -> &[Cue]
        ensures { result.now ≡ self.now }
    {
        &self.items
    }
}
