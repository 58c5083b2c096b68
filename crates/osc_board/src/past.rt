//! What the recordings before this one have shown.
ghost use Rattle.std.specs.Prelude.{◌≡◌, option_map, bytes_eq};
ghost use Rattle.osc_board.specs.Pasts as spec;

use osc_page::Row;
use osc_story::Totals;
use std::alloc::Global;
use std::marker::Model;

/// What the recordings before this one have shown, of a show in several: the methods with their last
/// calls at the end of the one before, and how much all of them told.
pub struct Past {
    pub(crate) rows: Vec<Row>,
    pub(crate) totals: Totals,
}

impl Drop for Past {
    fn drop(self) {
        let Past { rows: _, totals: _ } = self;
    }
}

impl Model for Past {
    ghost use Rattle.osc_board.specs.Pasts.{Past};

    ghost Value = { Past };

    ghost view = { λ p. record { rows = p.rows.items; totals = p.totals } };
}

impl Past {
    ghost use Rattle.std.specs.Prelude.{◌≡◌};
    ghost use Rattle.osc_board.specs.Pasts.{no_past};

    /// There was none. Takes no memory.
    pub fn none(alloc: Global) -> Past
        ensures { result ≡ no_past }
    {
        Past {
            rows: Vec::new(alloc),
            totals: Totals::none(),
        }
    }
}

/// The row of the method at an address, if there was one.
pub(crate) fn row_at<'a>(rows: &'a [Row], address: &[u8]) -> Option<&'a Row>
    ensures { option_map (λ row. row.now) result ≡ spec.row_at rows.now address.now }
{
    rows.iter().find(|row| is_at(row, address))
}

fn is_at(row: &Row, address: &[u8]) -> bool
    ensures { result ≡ bytes_eq row.now.address address.now }
{
    row.address.as_slice() == address
}
