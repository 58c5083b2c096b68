//! The lines of one address in a run.
ghost use Rattle.std.specs.Prelude.{◌≡◌, OnOk, OnErr};
ghost use Rattle.osc_runs.specs.Gathering.{kept_second};
ghost use Rattle.osc_runs.specs.Telling.{head_at};

use crate::Step;
use crate::span::add_span;
use osc_shown::{Head, Look, note_line, number_words};
use std::alloc::{AllocError, Global};
use std::marker::Model;

/// What is kept of the lines of one address: of the first and the last what they say, the first
/// two whole, and how many there are.
pub struct Row {
    look: Look,
    address: Vec<u8>,
    since: u64,
    first: Vec<u8>,
    till: u64,
    last: Vec<u8>,
    count: u64,
    line: Vec<u8>,
    second: Vec<u8>,
}

impl Drop for Row {
    fn drop(self) {
        let Row {
            look: _,
            address: _,
            since: _,
            first: _,
            till: _,
            last: _,
            count: _,
            line: _,
            second: _,
        } = self;
    }
}

impl Model for Row {
    ghost use Rattle.osc_runs.specs.Gathering.{Gathered};

    ghost Value = { Gathered };

    ghost view = { λ r. record {
      look = r.look;
      address = r.address.items;
      since = r.since;
      first = r.first.items;
      till = r.till;
      last = r.last.items;
      count = r.count;
      line = r.line.items;
      second = r.second.items;
    } };
}

impl Row {
    ghost use Rattle.std.specs.Prelude.{◌≡◌, ◌++◌, IfOk, OnOk, OnErr};
    ghost use Rattle.osc_runs.specs.Gathering.{gathered_of, again, is_of};
    ghost use Rattle.osc_runs.specs.Telling.{is_many, row_words, row_tail, row_text};

    /// One line of its address.
    pub(crate) fn open(alloc: Global, step: &Step<'_>) -> Result<Row, AllocError>
        ensures { IfOk result (λ row. row ≡ gathered_of step.now) }
    {
        Ok(Row {
            look: step.look,
            address: Vec::from_slice(alloc, step.address)?,
            since: step.moment,
            first: Vec::from_slice(alloc, step.words)?,
            till: step.moment,
            last: Vec::from_slice(alloc, step.words)?,
            count: 1,
            line: Vec::from_slice(alloc, step.line)?,
            second: Vec::new(alloc),
        })
    }

    /// Whether it is of this address.
    pub(crate) fn is_of(&self, address: &[u8]) -> bool
        ensures { result ≡ is_of address.now self.now }
    {
        self.address.as_slice() == address
    }

    /// One line more of its address.
    pub(crate) fn again(&mut self, alloc: Global, step: &Step<'_>) -> Result<(), AllocError>
        ensures ok { OnOk result (self.new ≡ again self.old step.now) }
        ensures err { OnErr result (self.new ≡ self.old) }
    {
        let last = Vec::from_slice(alloc, step.words)?;
        let Some(count) = self.count.checked_add(1) else {
            return Err(AllocError);
        };
        keep_line(&mut self.second, self.count, step.line)?;
        self.till = step.moment;
        self.last = last;
        self.count = count;
        Ok(())
    }

    /// The address of its lines.
    pub fn address(&self) -> &[u8]
        ensures { result.now ≡ self.now.address }
    {
        &self.address
    }

    /// When the first of its lines was called, as a time tag.
    pub fn since(&self) -> u64
        ensures { result ≡ self.now.since }
    {
        self.since
    }

    /// When the last of its lines was called, as a time tag.
    pub fn till(&self) -> u64
        ensures { result ≡ self.now.till }
    {
        self.till
    }

    /// Whether its lines are told as one, since there are more than two.
    pub fn is_many(&self) -> bool
        ensures { result ≡ is_many self.now }
    {
        self.count > 2
    }

    /// Its first line.
    pub fn line(&self) -> &[u8]
        ensures { result.now ≡ self.now.line }
    {
        &self.line
    }

    /// Its second line, empty where there is none.
    pub fn second(&self) -> &[u8]
        ensures { result.now ≡ self.now.second }
    {
        &self.second
    }

    /// Adds what is told of it. An `Err` means out of memory.
    pub fn add_text(&self, out: &mut Vec<u8>) -> Result<(), AllocError>
        ensures ok { OnOk result (out.new.items ≡ out.old.items ++ row_text self.now) }
        ensures err { OnErr result (out.new.items ≡ out.old.items) }
    {
        let alloc: Global = *out.allocator();
        let mut text = Vec::new(alloc);
        self.tell(&mut text)?;
        out.extend_from_slice(&text)
    }

    fn tell(&self, out: &mut Vec<u8>) -> Result<(), AllocError>
        ensures { OnOk result (out.new.items ≡ out.old.items ++ row_text self.now) }
    {
        if !self.is_many() {
            out.extend_from_slice(&self.line)?;
            return out.extend_from_slice(&self.second);
        }
        let alloc: Global = *out.allocator();
        let words = self.words(alloc)?;
        let tail = self.tail(alloc)?;
        note_line(out, head_at(self.look, self.since), &words, &tail)
    }

    /// The address, and the first and the last argument.
    fn words(&self, alloc: Global) -> Result<Vec<u8>, AllocError>
        ensures { IfOk result (λ words. words.items ≡ row_words self.now) }
    {
        let mut words = Vec::from_slice(alloc, &self.address)?;
        words.extend_from_slice(b" ")?;
        words.extend_from_slice(&self.first)?;
        words.extend_from_slice(b" .. ")?;
        words.extend_from_slice(&self.last)?;
        Ok(words)
    }

    /// How many lines, and how long from the first to the last.
    fn tail(&self, alloc: Global) -> Result<Vec<u8>, AllocError>
        ensures { IfOk result (λ tail. tail.items ≡ row_tail self.now) }
    {
        let mut tail = number_words(alloc, self.count)?;
        tail.extend_from_slice(b" in ")?;
        add_span(&mut tail, self.since, self.till)?;
        Ok(tail)
    }
}

/// The head of a line that tells of several.
fn head_at(look: Look, moment: u64) -> Head
    ensures { result ≡ head_at look moment }
{
    Head {
        look,
        moment: Some(moment),
        mark: b' ',
        join: b' ',
    }
}

/// Keeps a line whole, where it is the second.
fn keep_line(second: &mut Vec<u8>, count: u64, line: &[u8]) -> Result<(), AllocError>
    ensures ok { OnOk result (second.new.items ≡ kept_second count second.old.items line.now) }
    ensures err { OnErr result (second.new.items ≡ second.old.items) }
{
    if count == 1 {
        let alloc: Global = *second.allocator();
        *second = Vec::from_slice(alloc, line)?;
    }
    Ok(())
}
