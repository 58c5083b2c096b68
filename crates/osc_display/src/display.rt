//! A board of a server's methods, with its watcher.
ghost use Rattle.std.specs.Prelude.{◌≡◌, List, All, length, IfOk, OnOk};
ghost use Rattle.osc_model.specs.Events.{Entry};
ghost use Rattle.osc_model.specs.Limits.{Limits};
ghost use Rattle.osc_turn.specs.Passes.{view};
ghost use Rattle.osc_live.specs.Seen.{history_of};
ghost use Rattle.osc_live.specs.Tokens.{IsOurs};
ghost use Rattle.osc_watch.specs.Listing.{listing};
ghost use Rattle.osc_watch.specs.Refreshing.{HasRead, HasReadPart};
ghost use Rattle.osc_live.specs.Looks.{HasLooked};
ghost use Rattle.osc_watch.specs.Watching.{noted, IsWatcherOf};

use osc_life::Gate;
use osc_live::{Caller, Live};
use osc_method::Method;
use osc_watch::{Board, Methods, Watcher};
use std::alloc::{AllocError, Global};
use std::sync::Wait;

/// The number under which the gate is called round each read of the watcher. No lane of a script
/// has it.
pub const WATCHER_LANE: u32 = 16;

/// A board and its one watcher. It can be closed whatever was done with it.
pub struct Display {
    pub(crate) board: Board,
    pub(crate) watchers: Vec<Watcher>,
    ghost one: { length watchers.items ≡ 1 },
    ghost all: { length watchers.items ≡ board.watchers },
    ghost ours: { All (IsWatcherOf board) watchers.items },
}

/// A board that has read nothing. An `Err` means out of memory.
pub(crate) fn open<W: Wait>(rt: &W, alloc: Global) -> Result<Display, AllocError>
    ensures { IfOk result (λ display. (caps : Limits) (history : List Entry)
        → HasReadPart caps display.board history) }
{
    let (board, watchers) = Board::open(rt, alloc, 1)?;
    Ok(Display { board, watchers })
}

pub(crate) fn close<W: Wait>(display: Display, rt: &W) {
    let Display { board, watchers } = display;
    board.close(rt, watchers);
}

/// Refreshes the board.
pub(crate) fn refresh<M: Method, W: Wait>(
    display: &mut Display,
    rt: &W,
    live: &Live<M>,
    caller: Caller,
) -> (Caller, Result<(), AllocError>)
    requires ours { IsOurs live.now caller }
    requires read { HasReadPart live.now.caps display.old.board (history_of (view caller.pass)) }
    ensures ours { IsOurs live.now result.0 }
    ensures number { result.0.number ≡ caller.number }
    ensures looks { HasLooked (view caller.pass) (view result.0.pass) }
    ensures read { HasReadPart live.now.caps display.new.board (history_of (view result.0.pass)) }
    ensures whole { OnOk result.1
        (HasRead live.now.caps display.new.board (history_of (view result.0.pass))) }
{
    let (caller, fresh) = display.board.refresh(rt, live, caller);
    match fresh {
        Ok(_) => (caller, Ok(())),
        Err(none) => (caller, Err(none)),
    }
}

/// Has the watcher read the list between two calls of the gate.
pub(crate) fn read<G: Gate>(display: &mut Display, alloc: Global, number: u32, gate: &G) -> bool
    ensures board { display.new.board ≡ display.old.board }
{
    gate.enter(WATCHER_LANE, number);
    let read = display.watchers[0].list(alloc);
    gate.leave(WATCHER_LANE, number);
    read.is_ok()
}

/// Tells the watcher of what is published, and lists it.
pub(crate) fn list(display: &mut Display, alloc: Global) -> Result<Methods, AllocError>
    ensures edits { IfOk result (λ methods. methods.edits ≡ length (noted display.old.board)) }
    ensures rows { IfOk result (λ methods. methods.rows.items ≡ listing (noted display.old.board)) }
{
    let notice = display.board.tell()?;
    display.watchers[0].learn(notice);
    let methods = display.watchers[0].list(alloc)?;
    if !display.board.agrees(&display.watchers[0]) {
        return Err(AllocError);
    }
    Ok(methods)
}
