// Shows a recording that grows.
ghost use Rattle.std.specs.Prelude.{◌≤◌, length, IfOk};
ghost use Rattle.osc_model.specs.Limits.{max_recording};

use crate::asked::Showing;
use crate::recording::{Page, look_for, show_all};
use crate::report::{report_malformed, report_part, report_unread};
use crate::tape::Tape;
use osc_ends::status::{DONE, REFUSED, SOURCE_FAILED, USAGE};
use osc_record::{Answer, Entry, Event, HEADER_SIZE, Late, MAX_RECORDING, Unread};
use osc_report::{Options, Reporter};
use std::alloc::{AllocError, Global};
use std::sync::Wait;
use std::thread;
use std::time::Duration;

/// How long it is from one look to the next, in milliseconds.
const LOOK: u64 = 100;

/// How many bytes are read at once, and how often in a look.
const PIECE: usize = 65_536;

const PIECES: u32 = 32_768;

/// Shows a recording while it grows, and those in which the show goes on, until the program is stopped.
/// A line stands once its moment is known, at the next tick or release.
pub fn follow<W: Wait>(rt: &HostRuntime, threads: &W, showing: &Showing) -> Result<u8, AllocError> {
    let Some(mut tape) = Tape::open(rt, &showing.files)? else {
        return Ok(USAGE);
    };
    let mut page = Page::open(rt);
    // The header, and the bytes that came after the last entry that was shown.
    let mut bytes = Vec::new(rt.alloc());
    let mut screen = Screen {
        reporter: None,
        since: None,
    };
    for _ in threads.forever() {
        if !read_more(&mut tape, &mut bytes)? {
            report_unread(rt, tape.file());
            return Ok(SOURCE_FAILED);
        }
        let is_over = tape.turn(rt, &showing.files)?;
        if !show_more(rt, showing, &mut page, &mut bytes, &mut screen, is_over)? {
            report_malformed(rt, tape.file());
            return Ok(REFUSED);
        }
        page.write();
        if page.status() != DONE {
            return Ok(page.status());
        }
        if is_over {
            report_part(rt, tape.file());
            bytes.clear();
            screen.turn();
        }
        thread::sleep(rt, Duration::from_millis(LOOK));
    }
    unreachable!()
}

/// What shows the recording that is read, and the moment of the show's first line, where the recordings
/// before this one have had one.
#[derive(Drop)]
struct Screen {
    reporter: Option<Reporter>,
    since: Option<u64>,
}

impl Screen {
    /// Another recording follows.
    fn turn(&mut self) {
        if let Some(reporter) = self.reporter.take() {
            self.since = self.since.or(reporter.span().first);
        }
    }
}

/// Reads what has come, and answers whether the file gives it.
fn read_more(tape: &mut Tape, bytes: &mut Vec<u8>) -> Result<bool, AllocError> {
    let alloc: Global = *bytes.allocator();
    let mut piece = vec![in alloc; 0; PIECE]?;
    for _ in 0..PIECES {
        match tape.read(&mut piece) {
            Ok(0) => return Ok(true),
            Ok(count) => bytes.extend_from_slice(&piece[..count.min(piece.len())])?,
            Err(()) => return Ok(false),
        }
    }
    Ok(true)
}

/// Shows the entries up to and with the last tick or release, or all where the recording is over, and
/// keeps the bytes after them. Answers whether they are those of a server.
fn show_more(
    rt: &HostRuntime,
    showing: &Showing,
    page: &mut Page,
    bytes: &mut Vec<u8>,
    screen: &mut Screen,
    is_over: bool,
) -> Result<bool, AllocError> {
    let header = HEADER_SIZE as usize;
    if bytes.len() < header {
        return Ok(true);
    }
    if bytes.len() > MAX_RECORDING as usize {
        return Ok(false);
    }
    let Some(ticks) = ticks_of(bytes) else {
        return Ok(false);
    };
    let mut reporter = match screen.reporter.take() {
        Some(reporter) => reporter,
        None => reporter_of(rt, showing, ticks, screen.since),
    };
    let end = if is_over { bytes.len() } else { ticks.end };
    let end = end.max(header).min(bytes.len());
    let are_shown = show_all(page, &mut reporter, &bytes[..end])?;
    bytes.drain(header..end);
    screen.reporter = Some(reporter);
    Ok(are_shown)
}

/// A reporter that has shown nothing, of a show whose first line was at a moment, if one was.
fn reporter_of(rt: &HostRuntime, showing: &Showing, ticks: Ticks, first: Option<u64>) -> Reporter {
    let mut look = look_for(rt, showing, ticks.first);
    if showing.relative {
        look.since = first;
    }
    let mut options = Options::all(look, showing.ticks);
    options.relative = showing.relative;
    options.callers = showing.callers;
    Reporter::open(rt.alloc(), options, ticks.late)
}

/// What becomes of late units, the first moment that bytes hand the clock, and where their last
/// tick or release ends.
#[derive(Clone, Copy)]
struct Ticks {
    late: Late,
    first: Option<u64>,
    end: usize,
}

/// The ticks of bytes that begin with a header, if they do.
fn ticks_of(bytes: &[u8]) -> Option<Ticks>
    requires { length bytes.now ≤ max_recording }
{
    let Ok(mut unread) = Unread::open(bytes) else {
        return None;
    };
    let mut ticks = Ticks {
        late: unread.caps().late(),
        first: None,
        end: 0,
    };
    let mut ends = false;
    // Each entry has a byte.
    for _ in 0..=bytes.len() {
        let (at, entry) = match unread.next_entry() {
            Ok(Some(entry)) => (entry.at as usize, Some(entry)),
            Ok(None) => (bytes.len(), None),
            Err(malformed) => (malformed.at as usize, None),
        };
        if ends {
            ticks.end = at;
        }
        let Some(entry) = entry else {
            return Some(ticks);
        };
        ends = ends_stretch(&entry);
        ticks.first = ticks.first.or(moment_of(&entry));
    }
    Some(ticks)
}

/// Whether an entry gives those before it their moment.
fn ends_stretch(entry: &Entry<'_>) -> bool {
    matches!(entry.event, Event::Tick(_) | Event::Release)
}

/// The moment that an entry hands the clock.
pub(crate) fn moment_of(entry: &Entry<'_>) -> Option<u64> {
    match (entry.event, entry.answer) {
        (Event::Tick(moment), Answer::Ticked) => Some(moment),
        _ => None,
    }
}
