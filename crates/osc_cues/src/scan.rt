// Finds the words of a line.
ghost use Rattle.std.specs.Prelude.{◌≡◌, ◌≤◌, ◌+◌, IfOk, length, map, filter, take};
ghost use Rattle.osc_cues.specs.Words;
ghost use Rattle.osc_cues.specs.Words.{lines_of, scanned, unscanned, finished_at, spans_of};
ghost use Rattle.osc_cues.specs.Words.{word_at, column_of};
ghost use Rattle.osc_cues.specs.Answers.{Says};

use crate::fault::{Fault, WordError, WordFault};
use std::alloc::{AllocError, Global};
use std::marker::Model;

/// Where a scan of a line is.
#[derive(Clone, Copy)]
pub(crate) enum Mode {
    /// Between two words.
    Between,
    /// After an `s` or `S` that begins a word.
    Letter,
    /// After a colon that follows it.
    Colon,
    /// In a word, outside quotes.
    Plain,
    /// Between quotes.
    Quoted,
    /// After a backslash between quotes.
    Escaped,
    /// In a comment.
    Comment,
}

/// Where a word stands in its line.
#[derive(Clone, Copy)]
pub(crate) struct Span {
    pub(crate) from: usize,
    pub(crate) to: usize,
}

/// Where words stand. A contract sees the list.
#[derive(Drop)]
pub(crate) struct Spans {
    items: Vec<Span>,
}

impl Model for Spans {
    ghost use Rattle.std.specs.Prelude.{List};
    ghost use Rattle.osc_cues.specs.declared.scan.Span.{Span};

    ghost Value = { List Span };

    ghost view = { λ s. s.items.items };
}

impl Spans {
    ghost use Rattle.std.specs.Prelude.{◌≡◌, ◌++◌, ◌∷◌, [], OnOk};

    fn new(alloc: Global) -> Spans
        ensures { result ≡ [] }
    {
        Spans {
            items: Vec::new(alloc),
        }
    }

    fn push(&mut self, span: Span) -> Result<(), AllocError>
        ensures { OnOk result (self.new ≡ self.old ++ span ∷ []) }
    {
        self.items.push(span)?;
        Ok(())
    }

    pub(crate) fn as_slice(&self) -> &[Span]
        ensures { result.now ≡ self.now }
    {
        &self.items
    }
}

/// The words so far, and where the scan is.
#[derive(Drop)]
pub(crate) struct Scan {
    pub(crate) mode: Mode,
    /// Where the last word begins.
    pub(crate) begun: usize,
    /// Where the last quote that opens a text stands.
    pub(crate) opened: usize,
    pub(crate) spans: Spans,
}

impl Scan {
    ghost use Rattle.std.specs.Prelude.{◌≡◌, OnOk};
    ghost use Rattle.osc_cues.specs.Words.{step, between, in_word, after_colon, ended_at, in_mode};
    ghost use Rattle.osc_cues.specs.Words.{begun_at, unscanned, finished_at};
    ghost use Rattle.osc_cues.specs.Answers.{Says};

    fn new(alloc: Global) -> Scan
        ensures { result ≡ unscanned }
    {
        Scan {
            mode: Mode::Between,
            begun: 0,
            opened: 0,
            spans: Spans::new(alloc),
        }
    }

    /// Reads a byte at a place.
    fn step(&mut self, place: usize, byte: u8) -> Result<(), AllocError>
        ensures { OnOk result (self.new ≡ step self.old.mode self.old place byte) }
    {
        match self.mode {
            Mode::Between => {
                self.go_between(place, byte);
                Ok(())
            }
            Mode::Letter => self.go_in_word(place, byte, letter_mode(byte)),
            Mode::Colon => self.go_after_colon(place, byte),
            Mode::Plain => self.go_in_word(place, byte, Mode::Plain),
            Mode::Quoted => {
                self.mode = quoted_mode(byte);
                Ok(())
            }
            Mode::Escaped => {
                self.mode = Mode::Quoted;
                Ok(())
            }
            Mode::Comment => Ok(()),
        }
    }

    /// Reads a byte between words.
    fn go_between(&mut self, place: usize, byte: u8)
        ensures { self.new ≡ between self.old place byte }
    {
        if is_blank(byte) {
            return;
        }
        if byte == b'#' {
            self.mode = Mode::Comment;
            return;
        }
        self.mode = front_mode(byte);
        self.begun = place;
        self.opened = place;
    }

    /// Reads a byte of a word, outside quotes.
    fn go_in_word(&mut self, place: usize, byte: u8, mode: Mode) -> Result<(), AllocError>
        ensures { OnOk result (self.new ≡ in_word self.old place byte mode) }
    {
        if is_blank(byte) {
            return self.end(place);
        }
        self.mode = mode;
        Ok(())
    }

    /// Reads a byte after `s:` or `S:`.
    fn go_after_colon(&mut self, place: usize, byte: u8) -> Result<(), AllocError>
        ensures { OnOk result (self.new ≡ after_colon self.old place byte) }
    {
        if byte == b'"' {
            self.mode = Mode::Quoted;
            self.opened = place;
            return Ok(());
        }
        self.go_in_word(place, byte, Mode::Plain)
    }

    /// Ends a word before a place.
    fn end(&mut self, place: usize) -> Result<(), AllocError>
        ensures { OnOk result (self.new ≡ ended_at self.old place) }
    {
        let span = Span {
            from: self.begun,
            to: place,
        };
        self.mode = Mode::Between;
        self.spans.push(span)
    }

    /// The words of a line that ends at this place.
    fn finish(self, end: usize) -> Result<Spans, WordError>
        ensures { Says result (finished_at self end) }
    {
        match self.mode {
            Mode::Between | Mode::Comment => Ok(self.spans),
            Mode::Quoted | Mode::Escaped => Err(WordError::Wrong(WordFault {
                at: self.opened,
                fault: Fault::OpenText,
            })),
            Mode::Letter | Mode::Colon | Mode::Plain => {
                let mut spans = self.spans;
                spans.push(Span {
                    from: self.begun,
                    to: end,
                })?;
                Ok(spans)
            }
        }
    }
}

fn is_blank(byte: u8) -> bool
    ensures { result ≡ Words.is_blank byte }
{
    byte == b' ' || byte == b'\t'
}

fn front_mode(byte: u8) -> Mode
    ensures { result ≡ Words.front_mode byte }
{
    match byte {
        b'"' => Mode::Quoted,
        b's' | b'S' => Mode::Letter,
        _ => Mode::Plain,
    }
}

fn letter_mode(byte: u8) -> Mode
    ensures { result ≡ Words.letter_mode byte }
{
    if byte == b':' {
        Mode::Colon
    } else {
        Mode::Plain
    }
}

fn quoted_mode(byte: u8) -> Mode
    ensures { result ≡ Words.quoted_mode byte }
{
    match byte {
        b'"' => Mode::Plain,
        b'\\' => Mode::Escaped,
        _ => Mode::Quoted,
    }
}

/// The words of a line, by their places, before a comment.
pub(crate) fn find_words(alloc: Global, line: &[u8]) -> Result<Spans, WordError>
    ensures { Says result (spans_of line.now) }
{
    let scan = scan_line(alloc, line)?;
    scan.finish(line.len())
}

fn scan_line(alloc: Global, line: &[u8]) -> Result<Scan, AllocError>
    ensures { IfOk result (λ scan. scan ≡ scanned 0 unscanned line.now) }
{
    let mut scan = Scan::new(alloc);
    let mut place = 0;
    for byte in line {
        scan.step(place, *byte)?;
        place += 1;
    }
    Ok(scan)
}

/// The word at a place.
pub(crate) fn word_at<'a>(line: &'a [u8], span: Span) -> &'a [u8]
    ensures { result.now ≡ word_at line.now span }
{
    let end = span.to.min(line.len());
    let start = span.from.min(end);
    &line[start..end]
}

/// The column of a place, counted from 1 in characters.
pub(crate) fn column_of(line: &[u8], at: usize) -> usize
    ensures { result ≡ Words.column_of line.now at }
{
    chars_in(front(line, at)) + 1
}

/// The first so many bytes, or all.
pub(crate) fn front(bytes: &[u8], most: usize) -> &[u8]
    ensures { result.now ≡ take most bytes.now }
{
    &bytes[..most.min(bytes.len())]
}

#[tactic(auto, using(crate::proofs::Counts::filter_few))]
fn chars_in(bytes: &[u8]) -> usize
    ensures value { result ≡ length (filter Words.begins_char bytes.now) }
    ensures few { result ≤ length bytes.now }
{
    bytes.iter().filter(|byte| begins_char(**byte)).count()
}

fn begins_char(byte: u8) -> bool
    ensures { result ≡ Words.begins_char byte }
{
    byte < 128 || 192 <= byte
}

/// What stands between line feeds.
pub(crate) fn cut_lines(alloc: Global, bytes: &[u8]) -> Result<Vec<&[u8]>, AllocError>
    ensures lines { IfOk result (λ lines. map (λ line. line.now) lines.items ≡ lines_of bytes.now) }
    ensures few { IfOk result (λ lines. length lines.items ≤ length bytes.now + 1) }
{
    without_mark(bytes)
        .split(|byte| *byte == b'\n')
        .collect(alloc)
}

/// The bytes without the three that may mark their start as UTF-8.
fn without_mark(bytes: &[u8]) -> &[u8]
    ensures value { result.now ≡ Words.without_mark bytes.now }
    ensures few { length result.now ≤ length bytes.now }
{
    match bytes.strip_prefix(&[0xef, 0xbb, 0xbf]) {
        Some(rest) => rest,
        None => bytes,
    }
}

pub(crate) fn without_return(line: &[u8]) -> &[u8]
    ensures value { result.now ≡ Words.without_return line.now }
    ensures few { length result.now ≤ length line.now }
{
    match line.strip_suffix(b"\r") {
        Some(line) => line,
        None => line,
    }
}
