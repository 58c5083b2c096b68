// Shows recordings.
ghost use Rattle.std.specs.Prelude.{◌≤◌, length};
ghost use Rattle.osc_model.specs.Limits.{max_recording};

use crate::asked::{Showing, Zone};
use crate::files::read_recording;
use crate::follower::moment_of;
use crate::report::{report_malformed, report_pattern, report_time, report_unlike};
use crate::view::{look_at, zone_offset};
use crate::window::Window;
use jiff_core::Offset;
use osc_edge::StdSink;
use osc_ends::status::{DONE, REFUSED, USAGE};
use osc_ends::write_text;
use osc_pattern::{MAX_PATTERN, Pattern};
use osc_record::{Entry, Late, Unread};
use osc_replay::{ReplayFault, check};
use osc_report::{Options, Reporter, Selector, ShowFault, Shown};
use osc_shown::{Look, cut_line, opening_line};
use std::alloc::{AllocError, Global};

/// How many bytes of lines are written at once.
const PAGE: usize = 65_536;

/// How far a recording is that of a server.
pub(crate) enum Judged {
    /// All of it.
    Whole,
    /// Up to this byte, where an entry begins that is cut.
    CutAt(usize),
    /// It isn't, which is reported.
    Refused,
}

/// How all recordings are shown: by the first moment of the first.
#[derive(Clone, Copy)]
struct View {
    look: Look,
    window: Window,
}

impl View {
    /// The same of what follows a recording whose first line was at a moment, if one had a time.
    fn since(self, first: Option<u64>) -> View {
        View {
            look: Look {
                since: self.look.since.or(first),
                ..self.look
            },
            ..self
        }
    }
}

/// Shows the recordings one after another, each as far as it is whole, up to one that is refused.
pub fn show_recordings(rt: &HostRuntime, showing: &Showing) -> Result<u8, AllocError> {
    let mut view = None;
    for file in &showing.files {
        let status = show_recording(rt, showing, file, &mut view)?;
        if status != DONE {
            return Ok(status);
        }
    }
    Ok(DONE)
}

/// Shows a recording as far as it is whole, unless it is refused.
fn show_recording(
    rt: &HostRuntime,
    showing: &Showing,
    file: &str,
    view: &mut Option<View>,
) -> Result<u8, AllocError> {
    let recording = match read_recording(rt, file)? {
        Ok(recording) => recording,
        Err(status) => return Ok(status),
    };
    match judge(rt, file, &recording)? {
        Judged::Whole => show_bytes(rt, showing, &recording, None, view),
        Judged::CutAt(at) => show_bytes(rt, showing, &recording, Some(at), view),
        Judged::Refused => Ok(REFUSED),
    }
}

/// Plays the recording again, and reports why it is refused, if it is.
pub(crate) fn judge(rt: &HostRuntime, file: &str, recording: &[u8]) -> Result<Judged, AllocError>
    requires { length recording.now ≤ max_recording }
{
    match check(rt.alloc(), recording) {
        Ok(_) => Ok(Judged::Whole),
        Err(ReplayFault::NoMemory) => Err(AllocError),
        Err(ReplayFault::Malformed { at }) if at > 0 => judge_front(rt, file, recording, at),
        Err(fault) => Ok(refuse(rt, file, &fault)),
    }
}

/// The same of what stands before a byte.
fn judge_front(
    rt: &HostRuntime,
    file: &str,
    recording: &[u8],
    at: u32,
) -> Result<Judged, AllocError>
    requires { length recording.now ≤ max_recording }
{
    let end = (at as usize).min(recording.len());
    match check(rt.alloc(), &recording[..end]) {
        Ok(_) => Ok(Judged::CutAt(end)),
        Err(ReplayFault::NoMemory) => Err(AllocError),
        Err(fault) => Ok(refuse(rt, file, &fault)),
    }
}

fn refuse(rt: &HostRuntime, file: &str, fault: &ReplayFault) -> Judged {
    match fault {
        ReplayFault::Disagrees { entry, .. } => report_unlike(rt, file, *entry),
        _ => report_malformed(rt, file),
    }
    Judged::Refused
}

/// What stands in a recording besides its lines.
#[derive(Clone, Copy)]
struct Facts {
    late: Late,
    entries: u64,
    /// The first moment that the clock was handed.
    first: Option<u64>,
}

/// Shows the bytes up to where they are cut.
fn show_bytes(
    rt: &HostRuntime,
    showing: &Showing,
    recording: &[u8],
    cut: Option<usize>,
    view: &mut Option<View>,
) -> Result<u8, AllocError>
    requires { length recording.now ≤ max_recording }
{
    let Some(facts) = facts_of(recording) else {
        return Ok(REFUSED);
    };
    let Some(shown_by) = view_for(rt, showing, facts.first, *view) else {
        return Ok(USAGE);
    };
    *view = Some(shown_by);
    let Some(options) = options_for(rt, showing, shown_by)? else {
        return Ok(USAGE);
    };
    let look = shown_by.look;
    let mut page = Page::open(rt);
    let size = recording.len() as u64;
    let discards = facts.late == Late::Discard;
    opening_line(&mut page.text, look, size, facts.entries, discards)?;
    let mut reporter = Reporter::open(rt.alloc(), options, facts.late);
    if !show_all(&mut page, &mut reporter, recording)? {
        return Ok(REFUSED);
    }
    reporter.end(&mut page.text)?;
    if showing.relative {
        *view = Some(shown_by.since(reporter.span().first));
    }
    if let Some(at) = cut {
        cut_line(&mut page.text, look, at as u64)?;
    }
    Ok(page.close())
}

/// Which lines are shown. There is no answer where a word is no pattern, which is reported.
fn options_for(
    rt: &HostRuntime,
    showing: &Showing,
    view: View,
) -> Result<Option<Options>, AllocError> {
    let only = match &showing.only {
        Some(word) => match pattern_in(word.as_bytes()) {
            Some(pattern) => Some(Selector::of(rt.alloc(), &pattern)?),
            None => {
                report_pattern(rt, word);
                return Ok(None);
            }
        },
        None => None,
    };
    Ok(Some(Options {
        look: view.look,
        relative: showing.relative,
        callers: showing.callers,
        ticks: showing.ticks,
        from: view.window.from,
        to: view.window.to,
        runs: showing.runs,
        only,
    }))
}

/// The pattern that a word is, if it is one.
fn pattern_in(word: &[u8]) -> Option<Pattern<'_>> {
    if word.len() > MAX_PATTERN {
        return None;
    }
    Pattern::check(word).ok()
}

/// The view of the recordings before, or else by the first moment of this one. There is none where
/// a word is no time, which is reported.
fn view_for(
    rt: &HostRuntime,
    showing: &Showing,
    first: Option<u64>,
    view: Option<View>,
) -> Option<View> {
    if view.is_some() {
        return view;
    }
    let look = look_for(rt, showing, first);
    let window = window_for(rt, showing, first)?;
    Some(View { look, window })
}

/// From when to when recordings are shown, or nothing where a word is no time, which is reported.
pub(crate) fn window_for(
    rt: &HostRuntime,
    showing: &Showing,
    first: Option<u64>,
) -> Option<Window> {
    let offset = offset_for(rt, showing, first);
    let from = showing.from.as_ref().map(|word| word.as_str());
    let to = showing.to.as_ref().map(|word| word.as_str());
    match Window::of(offset, first.unwrap_or(0), from, to) {
        Ok(window) => Some(window),
        Err(word) => {
            report_time(rt, word);
            None
        }
    }
}

/// How far a clock is ahead of UTC in the zone that is said, or in that of the machine at the
/// recording's first moment.
pub(crate) fn offset_for(rt: &HostRuntime, showing: &Showing, first: Option<u64>) -> Offset {
    match showing.zone {
        Zone::At(offset) => offset,
        Zone::Machine => zone_offset(rt, first).unwrap_or(Offset::UTC),
    }
}

/// How lines look in that zone.
pub(crate) fn look_for(rt: &HostRuntime, showing: &Showing, first: Option<u64>) -> Look {
    Look {
        whole: showing.whole,
        ..look_at(rt, offset_for(rt, showing, first), showing.quiet)
    }
}

/// Lines that are to be written, and how it went.
#[derive(Drop)]
pub struct Page {
    out: StdSink,
    text: Vec<u8>,
    status: u8,
}

impl Page {
    /// Nothing is to be written yet. Takes no memory.
    pub fn open(rt: &HostRuntime) -> Page {
        Page {
            out: StdSink::open(rt),
            text: Vec::new(rt.alloc()),
            status: DONE,
        }
    }

    /// Adds lines, and writes them if they are many.
    pub fn add(&mut self, lines: &[u8]) -> Result<(), AllocError> {
        self.text.extend_from_slice(lines)?;
        self.turn();
        Ok(())
    }

    pub fn alloc(&self) -> Global {
        *self.text.allocator()
    }

    /// The exit status so far.
    pub(crate) fn status(&self) -> u8 {
        self.status
    }

    /// Writes the lines, if they are many. After a sink that failed nothing more is written.
    fn turn(&mut self) {
        if self.text.len() >= PAGE {
            self.write();
        }
    }

    /// Writes the lines.
    pub(crate) fn write(&mut self) {
        if self.status == DONE {
            self.status = write_text(DONE, &self.text, &mut self.out);
        }
        self.text.clear();
    }

    /// Writes what is left, and tells how it went.
    pub fn close(mut self) -> u8 {
        self.write();
        self.status
    }
}

/// Adds the lines of all whole entries. Answers whether the reporter took all of them, which it
/// does of a recording that was played again.
pub(crate) fn show_all(
    page: &mut Page,
    reporter: &mut Reporter,
    recording: &[u8],
) -> Result<bool, AllocError>
    requires { length recording.now ≤ max_recording }
{
    let Ok(mut unread) = Unread::open(recording) else {
        return Ok(false);
    };
    // Each stretch but the last has a byte.
    for _ in 0..=recording.len() {
        match reporter.show(&mut page.text, &mut unread) {
            Ok(Shown::Stretch) => page.turn(),
            Ok(_) => return Ok(true),
            Err(ShowFault::NoMemory) => return Err(AllocError),
            Err(ShowFault::Disagrees { .. }) => return Ok(false),
        }
    }
    Ok(true)
}

/// The facts of a recording, if it begins with a header.
fn facts_of(recording: &[u8]) -> Option<Facts>
    requires { length recording.now ≤ max_recording }
{
    let Ok(mut unread) = Unread::open(recording) else {
        return None;
    };
    let mut facts = Facts {
        late: unread.caps().late(),
        entries: 0,
        first: None,
    };
    // Each entry has a byte.
    for _ in 0..recording.len() {
        match unread.next_entry() {
            Ok(Some(entry)) => facts = facts.with(&entry),
            _ => return Some(facts),
        }
    }
    Some(facts)
}

impl Facts {
    /// With an entry more.
    fn with(self, entry: &Entry<'_>) -> Facts {
        Facts {
            entries: self.entries.saturating_add(1),
            first: self.first.or(moment_of(entry)),
            ..self
        }
    }
}
