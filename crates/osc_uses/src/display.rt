//! A display next to a live server: the list of its methods, for a watcher that never takes the turn.
ghost use Rattle.std.specs.Prelude.{◌≡◌, length, IfOk};
ghost use Rattle.osc_turn.specs.Passes.{view};
ghost use Rattle.osc_turn.specs.History.{StartsWith};
ghost use Rattle.osc_live.specs.Seen.{history_of};
ghost use Rattle.osc_live.specs.Tokens.{IsOurs};
ghost use Rattle.osc_watch.specs.Edits.{edits_of};
ghost use Rattle.osc_watch.specs.Listing.{listing};
ghost use Rattle.osc_watch.specs.Refreshing.{HasReadPart};
ghost use Rattle.osc_watch.specs.Watching.{watched, IsWatcherOf, IsOneBoard, IsOfOneBoard};

use osc_live::{Caller, Live};
use osc_method::Method;
use osc_watch::{Board, Methods, Watcher};
use std::alloc::{AllocError, Global};
use std::sync::Wait;

/// Reads what is new on the server, tells the watcher of it, and gives the list that the watcher has then: the rows of
/// all edits up to now, or up to a later refresh. The `Err` means that there was no memory; the board goes on from there
/// next time.
pub fn refresh_display<M: Method, W: Wait>(
    rt: &W,
    alloc: Global,
    live: &Live<M>,
    caller: Caller,
    board: &mut Board,
    watcher: &mut Watcher,
) -> (Caller, Result<Methods, AllocError>)
    requires ours { IsOurs live.now caller }
    requires watches { IsWatcherOf board.old watcher.old }
    requires read { HasReadPart live.now.caps board.old (history_of (view caller.pass)) }
    ensures ours { IsOurs live.now result.0 }
    ensures board { IsOneBoard board.old board.new }
    ensures watcher { IsOfOneBoard watcher.old watcher.new }
    ensures read { HasReadPart live.now.caps board.new (history_of (view result.0.pass)) }
    ensures edits { IfOk result.1 (λ methods. methods.edits ≡ length (watched watcher.new)) }
    ensures rows { IfOk result.1 (λ methods. methods.rows.items ≡ listing (watched watcher.new)) }
    ensures told { IfOk result.1 (λ _. StartsWith (watched watcher.new)
        (edits_of (history_of (view result.0.pass)))) }
{
    let (caller, fresh) = board.refresh(rt, live, caller);
    if let Err(none) = fresh {
        return (caller, Err(none));
    }
    match board.tell() {
        Ok(notice) => {
            watcher.learn(notice);
            (caller, watcher.list(alloc))
        }
        Err(none) => (caller, Err(none)),
    }
}
