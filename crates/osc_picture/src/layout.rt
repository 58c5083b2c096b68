// Where everything stands.
ghost use Rattle.std.specs.Prelude.{◌≡◌, ◌++◌, IfOk};
ghost use Rattle.osc_picture.specs.Layouts as spec;

use crate::picture::Picture;
use crate::shelf::{Shelf, Shelves, lay_out, lay_out_unheard};
use std::alloc::{AllocError, Global};
use std::marker::Model;

/// Where the rows stand, and below them the patterns that called nothing.
#[derive(Drop)]
pub(crate) struct Layout {
    top: u32,
    upper: Shelves,
    lower: Shelves,
}

impl Model for Layout {
    ghost use Rattle.osc_picture.specs.Layouts.{Places};

    ghost Value = { Places };

    ghost view = { λ l. record {
      top = l.top;
      upper = l.upper.items.items;
      middle = l.upper.end;
      lower = l.lower.items.items;
      end = l.lower.end;
    } };
}

impl Layout {
    ghost use Rattle.std.specs.Prelude.{◌≡◌};

    /// Where the first row stands.
    pub(crate) fn top(&self) -> u32
        ensures { result ≡ self.now.top }
    {
        self.top
    }

    pub(crate) fn upper(&self) -> &[Shelf]
        ensures { result.now ≡ self.now.upper }
    {
        &self.upper.items
    }

    /// Where the rows end.
    pub(crate) fn middle(&self) -> u32
        ensures { result ≡ self.now.middle }
    {
        self.upper.end
    }

    pub(crate) fn lower(&self) -> &[Shelf]
        ensures { result.now ≡ self.now.lower }
    {
        &self.lower.items
    }

    /// Where all end.
    pub(crate) fn end(&self) -> u32
        ensures { result ≡ self.now.end }
    {
        self.lower.end
    }
}

/// Lays out all rows of a picture from a top on.
pub(crate) fn layout_of(alloc: Global, top: u32, picture: &Picture) -> Result<Layout, AllocError>
    ensures { IfOk result (λ layout. layout ≡ spec.layout_of top picture.now) }
{
    let upper = lay_out(alloc, &picture.rows, top)?;
    let lower = lay_out_unheard(alloc, &picture.unheard, upper.end)?;
    Ok(Layout { top, upper, lower })
}

/// All of them, one after another.
pub(crate) fn all_shelves(alloc: Global, layout: &Layout) -> Result<Vec<Shelf>, AllocError>
    ensures { IfOk result (λ shelves. shelves.items ≡ layout.now.upper ++ layout.now.lower) }
{
    let mut shelves = Vec::from_slice(alloc, layout.upper())?;
    shelves.extend_from_slice(layout.lower())?;
    Ok(shelves)
}
