//! Lines that are gathered until something else comes.
ghost use Rattle.std.specs.Prelude.{◌≡◌, ◌++◌, ◌∷◌, [], position, OnOk, OnErr};
ghost use Rattle.osc_runs.specs.Gathering.{enter, gathered_of, goes_on, is_of};
ghost use Rattle.osc_runs.specs.Telling.{rows_text};

use crate::Step;
use crate::limits::GAP;
use crate::row::Row;
use crate::span::millis_of;
use std::alloc::{AllocError, Global};
use std::marker::Model;

/// Why a line isn't taken.
#[derive(Clone, Copy, Debug, PartialEq, Eq)]
pub enum TakeFault {
    /// It comes too late after the line before it: the run is to be told first.
    TooLate,
    NoMemory,
}

/// Lines that are gathered by their addresses until something else comes. A contract sees what is
/// kept of them.
pub struct Runs {
    alloc: Global,
    rows: Vec<Row>,
    latest: Option<u64>,
}

impl Drop for Runs {
    fn drop(self) {
        let Runs {
            alloc: _,
            rows: _,
            latest: _,
        } = self;
    }
}

impl Model for Runs {
    ghost use Rattle.osc_runs.specs.Gathering.{Run};

    ghost Value = { Run };

    ghost view = { λ r. record { rows = r.rows.items; latest = r.latest } };
}

impl Runs {
    ghost use Rattle.std.specs.Prelude.{◌≡◌, ◌++◌, true, false, OnOk, OnErr, Err};
    ghost use Rattle.osc_runs.specs.declared.runs.TakeFault.{TakeFault};
    ghost use Rattle.osc_runs.specs.Gathering.{none, goes_on, gather};
    ghost use Rattle.osc_runs.specs.Telling.{rows_text};

    /// No line yet. Takes no memory.
    pub fn open(alloc: Global) -> Runs
        ensures { result ≡ none }
    {
        Runs {
            alloc,
            rows: Vec::new(alloc),
            latest: None,
        }
    }

    /// Whether a line of this moment goes on with those that were taken.
    pub fn goes_on(&self, moment: u64) -> bool
        ensures { result ≡ goes_on self.now.latest moment }
    {
        goes_on(self.latest, moment)
    }

    /// Takes a line.
    pub fn take(&mut self, step: &Step<'_>) -> Result<(), TakeFault>
        ensures goes_on { OnOk result (goes_on self.old.latest step.now.moment ≡ true) }
        ensures ok { OnOk result (self.new ≡ gather self.old step.now) }
        ensures late { goes_on self.old.latest step.now.moment ≡ false
            → result ≡ Err TakeFault.TooLate }
        ensures why { result ≡ Err TakeFault.TooLate
            → goes_on self.old.latest step.now.moment ≡ false }
        ensures err { OnErr result (self.new ≡ self.old) }
    {
        if !self.goes_on(step.moment) {
            return Err(TakeFault::TooLate);
        }
        match self.gather(step) {
            Ok(()) => Ok(()),
            Err(_) => Err(TakeFault::NoMemory),
        }
    }

    /// Adds what is told of the lines that were taken, and lets them go. An `Err` means out of
    /// memory.
    pub fn flush(&mut self, text: &mut Vec<u8>) -> Result<(), AllocError>
        ensures ok { OnOk result (text.new.items ≡ text.old.items ++ rows_text self.old.rows) }
        ensures none { OnOk result (self.new ≡ none) }
        ensures err { OnErr result ((self.new ≡ self.old) × (text.new.items ≡ text.old.items)) }
    {
        let mut told = Vec::new(self.alloc);
        add_rows(&mut told, &self.rows)?;
        text.extend_from_slice(&told)?;
        self.clear();
        Ok(())
    }

    /// Lets go what was taken.
    pub fn clear(&mut self)
        ensures { self.new ≡ none }
    {
        self.rows.clear();
        self.latest = None;
    }

    /// What was taken, by addresses, in the order in which they came first.
    pub fn rows(&self) -> &[Row]
        ensures { result.now ≡ self.now.rows }
    {
        &self.rows
    }

    /// When the line was called that came last, as a time tag.
    pub fn latest(&self) -> Option<u64>
        ensures { result ≡ self.now.latest }
    {
        self.latest
    }

    /// Takes a line, whenever it comes. An `Err` means out of memory.
    pub fn gather(&mut self, step: &Step<'_>) -> Result<(), AllocError>
        ensures ok { OnOk result (self.new ≡ gather self.old step.now) }
        ensures err { OnErr result (self.new ≡ self.old) }
    {
        enter(&mut self.rows, self.alloc, step)?;
        self.latest = Some(step.moment);
        Ok(())
    }
}

/// Whether a line of this moment goes on with one of the other.
fn goes_on(latest: Option<u64>, moment: u64) -> bool
    ensures { result ≡ goes_on latest moment }
{
    match latest {
        Some(latest) => millis_of(moment).saturating_sub(millis_of(latest)) <= GAP,
        None => true,
    }
}

/// The place of an address.
fn place_of(rows: &[Row], address: &[u8]) -> Option<usize>
    ensures { result ≡ position (is_of address.now) rows.now }
{
    rows.iter().position(|row| row.is_of(address))
}

/// One line more.
fn enter(rows: &mut Vec<Row>, alloc: Global, step: &Step<'_>) -> Result<(), AllocError>
    ensures ok { OnOk result (rows.new.items ≡ enter rows.old.items step.now) }
    ensures err { OnErr result (rows.new.items ≡ rows.old.items) }
{
    match place_of(rows, step.address) {
        Some(place) => rows[place].again(alloc, step),
        None => add_row(rows, alloc, step),
    }
}

/// The first line of an address.
fn add_row(rows: &mut Vec<Row>, alloc: Global, step: &Step<'_>) -> Result<(), AllocError>
    ensures ok { OnOk result (rows.new.items ≡ rows.old.items ++ gathered_of step.now ∷ []) }
    ensures err { OnErr result (rows.new.items ≡ rows.old.items) }
{
    rows.push(Row::open(alloc, step)?)?;
    Ok(())
}

/// Adds what is told of each.
fn add_rows(out: &mut Vec<u8>, rows: &[Row]) -> Result<(), AllocError>
    ensures { OnOk result (out.new.items ≡ out.old.items ++ rows_text rows.now) }
{
    let mut rest = rows;
    while let Some((row, others)) = rest.split_first() {
        row.add_text(out)?;
        rest = others;
    }
    Ok(())
}
