// Serves a page in the browser that shows a recording while it grows.
use crate::asked::Paging;
use crate::report::{report_door, report_malformed, report_page, report_unread};
use crate::tape::Tape;
use osc_board::Watcher;
use osc_door::{TcpDoor, TcpVisitor};
use osc_ends::status::{EDGE_FAILED, REFUSED, SOURCE_FAILED, USAGE};
use osc_hall::Hall;
use osc_page::{NO_STATE, PAGE, state_text};
use osc_story::{Progress, TakeFault};
use std::alloc::{AllocError, Global};
use std::sync::Wait;
use std::thread;
use std::time::Duration;

/// How long a round lasts, in milliseconds, and how many there are from one look at the recording
/// to the next.
const ROUND: u64 = 10;

const ROUNDS: u32 = 10;

/// How many bytes are read at once, and how often in a look.
const PIECE: usize = 65_536;

const PIECES: u32 = 64;

/// What a look at the recording finds.
#[derive(Clone, Copy)]
enum Look {
    /// Something has come.
    GoesOn,
    /// Nothing has.
    Stands,
    /// It can't be read.
    Unread,
    /// It is none of a server.
    Malformed,
}

/// Serves the page until the program is stopped.
pub fn serve_page<W: Wait>(
    rt: &HostRuntime,
    threads: &W,
    paging: &Paging,
) -> Result<u8, AllocError> {
    let Ok(mut door) = TcpDoor::at(rt, paging.address, paging.port) else {
        report_door(rt, paging);
        return Ok(EDGE_FAILED);
    };
    let Some(mut tape) = Tape::open(rt, &paging.files)? else {
        return Ok(USAGE);
    };
    let mut watcher = Watcher::open(rt.alloc());
    let mut hall = Hall::open(rt.alloc())?;
    let mut piece = vec![in rt.alloc(); 0; PIECE]?;
    let mut state = Vec::new(rt.alloc());
    let mut is_told = false;
    for _ in threads.forever() {
        match read_on(&mut tape, &mut watcher, &mut piece)? {
            Look::GoesOn => state = state_of(rt.alloc(), &watcher)?,
            Look::Stands => turn(rt, &mut tape, &mut watcher, &paging.files)?,
            Look::Unread => {
                report_unread(rt, tape.file());
                return Ok(SOURCE_FAILED);
            }
            Look::Malformed => {
                report_malformed(rt, tape.file());
                return Ok(REFUSED);
            }
        }
        if !is_told {
            report_page(rt, paging);
            is_told = true;
        }
        play_rounds(rt, &mut hall, &mut door, &state);
    }
    unreachable!()
}

/// Reads what has come, and sees what of it is whole.
fn read_on(tape: &mut Tape, watcher: &mut Watcher, piece: &mut [u8]) -> Result<Look, AllocError> {
    let mut found = Look::Stands;
    for _ in 0..PIECES {
        let count = match tape.read(piece) {
            Ok(0) => break,
            Ok(count) => count,
            Err(()) => return Ok(Look::Unread),
        };
        match watcher.take(&piece[..count.min(piece.len())]) {
            Ok(()) => found = Look::GoesOn,
            Err(TakeFault::NoMemory) => return Err(AllocError),
            Err(TakeFault::TooLong) => return Ok(Look::Malformed),
        }
    }
    match watcher.follow() {
        Progress::NoHeader | Progress::CaughtUp => Ok(found),
        Progress::NoMemory => Err(AllocError),
        Progress::Malformed | Progress::TooLong | Progress::Disagrees { .. } => Ok(Look::Malformed),
    }
}

/// Goes on with the next recording, if it is there.
fn turn(
    rt: &HostRuntime,
    tape: &mut Tape,
    watcher: &mut Watcher,
    files: &[String],
) -> Result<(), AllocError> {
    if tape.turn(rt, files)? {
        watcher.go_on()?;
    }
    Ok(())
}

/// What a browser is told of the show.
fn state_of(alloc: Global, watcher: &Watcher) -> Result<Vec<u8>, AllocError> {
    match watcher.board()? {
        Some(board) => state_text(alloc, &board),
        None => Vec::from_slice(alloc, NO_STATE),
    }
}

/// Hears and answers browsers for as long as it is to the next look.
fn play_rounds(rt: &HostRuntime, hall: &mut Hall<TcpVisitor>, door: &mut TcpDoor, state: &[u8]) {
    for _ in 0..ROUNDS {
        hall.round(door, PAGE.as_bytes(), state);
        thread::sleep(rt, Duration::from_millis(ROUND));
    }
}
