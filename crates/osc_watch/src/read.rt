//! How a watcher reads and learns.
ghost use Rattle.std.specs.Prelude.{◌≡◌, length, IfOk};
ghost use Rattle.osc_turn.specs.History.{StartsWith};
ghost use Rattle.osc_watch.specs.Listing.{listing};
ghost use Rattle.osc_watch.specs.Watching.{watched, noticed, IsOfOneBoard, IsForWatcher};
ghost use Rattle.osc_watch.specs.Watching.{longer_edits};

use crate::reach::compare;
use crate::rows::copied_rows;
use crate::rule::Sees;
use crate::told::Told;
use crate::watcher::{Methods, Notice, Watcher};
use core::mem::replace_with;
use std::alloc::{AllocError, Global};

impl Watcher {
    /// How many edits it has read or was told of.
    pub fn edits(&self) -> u64
        ensures { result ≡ length (watched self.now) }
    {
        self.told.reached.edits
    }

    /// The methods that stand after the edits that are now published. It never waits. The `Err` means that there is no
    /// memory for the copy.
    pub fn list(&mut self, alloc: Global) -> Result<Methods, AllocError>
        ensures board { IsOfOneBoard self.old self.new }
        ensures goes_on { StartsWith (watched self.new) (watched self.old) }
        ensures edits { IfOk result (λ methods. methods.edits ≡ length (watched self.new)) }
        ensures rows { IfOk result (λ methods. methods.rows.items ≡ listing (watched self.new)) }
    {
        replace_with(&mut self.told, alloc, |told, alloc| read(told, alloc))
    }

    /// Takes in what the board told. Takes no memory.
    pub fn learn(&mut self, notice: Notice)
        requires ours { IsForWatcher self.old notice }
        ensures board { IsOfOneBoard self.old self.new }
        ensures longer { watched self.new ≡ longer_edits (watched self.old) (noticed notice) }
        ensures own { StartsWith (watched self.new) (watched self.old) }
        ensures told { StartsWith (watched self.new) (noticed notice) }
    {
        let Notice { told } = notice;
        compare(&self.told.reached, &told.reached);
        if self.told.reached.edits < told.reached.edits {
            self.told = told;
        }
    }
}

/// Reads all that is published.
fn read(told: Told, alloc: Global) -> (Told, Result<Methods, AllocError>)
    ensures board { told.reached.seen.book ≡ result.0.reached.seen.book }
    ensures goes_on { StartsWith result.0.reached.seen.log told.reached.seen.log }
    ensures edits { IfOk result.1 (λ methods. methods.edits ≡ length result.0.reached.seen.log) }
    ensures rows { IfOk result.1
        (λ methods. methods.rows.items ≡ listing result.0.reached.seen.log) }
{
    let Told { reader, reached } = told;
    match reader.enter_as::<Sees>() {
        Ok(reading) => {
            let sheet = reading.get();
            let reached = sheet.reached.again();
            let copied = copied_rows(alloc, sheet.rows.as_slice());
            let reader = reading.leave();
            let edits = reached.edits;
            let told = Told { reader, reached };
            match copied {
                Ok(rows) => (told, Ok(Methods { edits, rows })),
                Err(none) => (told, Err(none)),
            }
        }
        Err(reader) => (Told { reader, reached }, Err(AllocError)),
    }
}
