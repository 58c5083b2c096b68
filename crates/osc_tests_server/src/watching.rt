// A display next to a live server.
ghost use Rattle.std.specs.Prelude.{List};
ghost use Rattle.osc_model.specs.Limits.{Limits};
ghost use Rattle.osc_model.specs.Events.{Entry};
ghost use Rattle.osc_live.specs.Tokens.{IsOurs};
ghost use Rattle.osc_watch.specs.Watching.{IsOneBoard, IsOfOneBoard, IsWatcherOf};
ghost use Rattle.osc_watch.specs.Refreshing.{HasReadPart};

use crate::servers::{address, caps};
use osc_live::{Caller, Live};
use osc_pattern::Address;
use osc_uses::{Fader, refresh_display};
use osc_watch::{Board, Methods, Watcher};
use std::alloc::Global;
use std::sync::Wait;
use std::test::Fail;

/// What a watcher lists: how many edits, and the addresses in a row.
type Look = Option<(u64, Vec<u8>)>;

fn listed(alloc: Global, methods: &Methods) -> Look {
    let mut addresses = Vec::new(alloc);
    for row in &methods.rows {
        addresses.extend_from_slice(row.address.as_slice()).ok()?;
    }
    Some((methods.edits, addresses))
}

fn look(alloc: Global, watcher: &mut Watcher) -> Look
    ensures { IsOfOneBoard watcher.old watcher.new }
{
    listed(alloc, &watcher.list(alloc).ok()?)
}

/// What the watcher lists of a new server, after an add, and what a display of it shows and then goes on to show.
fn looks<W: Wait>(
    rt: &W,
    alloc: Global,
    live: &Live<Fader>,
    caller: Caller,
    place: Address,
    board: &mut Board,
    watcher: &mut Watcher,
) -> [Look; 4]
    requires ours { IsOurs live.now caller }
    requires watches { IsWatcherOf board.old watcher.old }
    requires unread { (caps : Limits) (history : List Entry) → HasReadPart caps board.old history }
    ensures board { IsOneBoard board.old board.new }
    ensures watcher { IsOfOneBoard watcher.old watcher.new }
{
    let opened = look(alloc, watcher);
    let (caller, _) = live.add(rt, caller, place, Fader::new());
    let added = look(alloc, watcher);
    let (_, shown) = refresh_display(rt, alloc, live, caller, board, watcher);
    let shown = match shown {
        Ok(methods) => listed(alloc, &methods),
        Err(_) => None,
    };
    [opened, added, shown, look(alloc, watcher)]
}

/// What the watcher of a new board lists of a new server.
fn display<W: Wait>(rt: &W, alloc: Global) -> Result<[Look; 4], Fail> {
    let place = address(alloc, b"/a")?;
    let (live, caller) = Live::open(alloc, caps(1)?)?;
    let (mut board, mut watchers) = Board::open(rt, alloc, 1)?;
    let looks = looks(
        rt,
        alloc,
        &live,
        caller,
        place,
        &mut board,
        &mut watchers[0],
    );
    board.close(rt, watchers);
    Ok(looks)
}

#[test]
fn a_watcher_lists_what_was_published(rt: HostRuntime) -> Result<(), Fail> {
    let looks = display(&rt, rt.alloc())?;
    let expected: [(u64, &[u8]); 4] = [(0, b""), (0, b""), (1, b"/a"), (1, b"/a")];
    for (look, (edits, addresses)) in looks.into_iter().zip(expected) {
        let (read, listed) = look.ok_or("no memory")?;
        assert_eq!(rt; (read, listed.as_slice()), (edits, addresses));
    }
    Ok(())
}
