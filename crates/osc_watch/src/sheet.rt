//! What is published: the rows that stand after some edits, and which edits these are.
ghost use Rattle.std.specs.Prelude.{◌≡◌};

use crate::reached::{Change, Reached};
use crate::row::MethodRow;
use crate::rows::change;
use left_right::Absorb;
use std::alloc::{AllocError, Global};
use std::collections::LinkedList;

/// The rows of the methods that stand after the edits that were reached.
#[derive(Drop)]
pub struct Sheet {
    pub(crate) alloc: Global,
    pub(crate) rows: Vec<MethodRow>,
    pub(crate) reached: Reached,
}

/// What two copies of a sheet have in common. No value of it is made.
pub struct Standing {
    pub rows: LinkedList<MethodRow>,
    pub reached: Reached,
}

impl Absorb<Change> for Sheet {
    ghost use Rattle.osc_watch.specs.Listing.{edited, edit_of};

    type State = Standing;

    ghost state = { λ sheet. record { rows = sheet.rows.items; reached = sheet.reached } };

    ghost applied = { λ standing change. record {
      rows = edited standing.rows (edit_of change.edit);
      reached = change.reached;
    } };

    fn absorb_first(&mut self, operation: &Change, _other: &Sheet) -> Result<(), AllocError> {
        change(self.alloc, &mut self.rows, &operation.edit)?;
        self.reached = operation.reached.again();
        Ok(())
    }
}
