//! A reader of what is published, and the edits that it has seen or was told of.
ghost use Rattle.std.specs.Prelude.{◌≡◌, Some, IfOk};
ghost use Rattle.left_right.specs.Sides.{view};

use crate::reached::{Change, Reached};
use crate::rule::{Learns, Published, Tells, View};
use crate::sheet::Sheet;
use left_right::reader::Reader;
use left_right::writer::Writer;
use std::alloc::AllocError;

pub(crate) type SheetWriter = Writer<Sheet, Change, View, Published>;

/// A reader, and how far it was told of the list of edits.
#[derive(Drop)]
pub struct Told {
    pub(crate) reader: Reader<Sheet, View, Published>,
    pub(crate) reached: Reached,
    ghost knows: { view reader.place ≡ Some reached },
}

/// A new reader that was told of all edits that are published.
pub(crate) fn new_reader(writer: &mut SheetWriter) -> Result<Told, AllocError>
    requires { view writer.old.desk.place ≡ Some writer.old.desk.shown.value.reached }
    ensures shown { writer.new.desk.shown ≡ writer.old.desk.shown }
    ensures log { writer.new.log ≡ writer.old.log }
    ensures behind { writer.new.behind ≡ writer.old.behind }
    ensures view { view writer.new.desk.place ≡ view writer.old.desk.place }
    ensures told { IfOk result (λ told. told.reached ≡ writer.old.desk.shown.value.reached) }
{
    let mut reader = writer.factory().reader()?;
    reader.learn::<Learns>(writer.tell::<Tells>());
    let reached = writer.published().reached.again();
    Ok(Told { reader, reached })
}
