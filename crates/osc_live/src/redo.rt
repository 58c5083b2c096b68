// How the entries of a recording are played again.
ghost use Rattle.std.specs.Prelude.{◌≡◌, ◌≤◌, ◌<◌, [], List, IsTrue, length, option_map};
ghost use Rattle.std.specs.Prelude.{IfOk, OnOk, OnErr};
ghost use Rattle.std.specs.VecDeque.{deque_capacity};
ghost use Rattle.osc_model.specs.Events.{Entry as Recorded};
ghost use Rattle.osc_model.specs.History.{IsLawful, Legal, state_of, stepped_in};
ghost use Rattle.osc_record.specs.Left.{placed_of};
ghost use Rattle.osc_record.specs.Reading.{unplaced};
ghost use Rattle.osc_record.specs.Shown.{event_of, answer_of};
ghost use Rattle.osc_core.specs.Redoing.{with_entry};
ghost use Rattle.osc_core.specs.Telling.{told};
ghost use Rattle.osc_live.specs.Resuming.{needed_by, takes_box, added_in};
ghost use Rattle.osc_live.specs.Redone.{Takes, Moves, IsRedone};

use crate::rows::Rows;
use osc_core::Core;
use osc_method::Method;
use osc_pattern::Address;
use osc_record::{Answer, Entry, Event};
use std::alloc::{AllocError, Global};
use std::collections::VecDeque;

/// The address that is handed in again with an entry.
fn address_needed<'a>(entry: &Entry<'a>) -> Option<&'a [u8]>
    ensures { option_map (λ bytes. bytes.now) result
        ≡ needed_by (event_of entry.now.event) (answer_of entry.now.answer) }
{
    match entry.event {
        Event::Add(bytes) if matches!(entry.answer, Answer::Added(_)) => Some(bytes),
        Event::Remove(bytes) if matches!(entry.answer, Answer::Removed(_)) => Some(bytes),
        _ => None,
    }
}

/// Whether a box is handed in again with an entry.
fn box_needed(entry: &Entry<'_>) -> bool
    ensures { result ≡ takes_box (event_of entry.now.event) (answer_of entry.now.answer) }
{
    match entry.event {
        Event::Add(_) => matches!(entry.answer, Answer::Added(_)),
        _ => false,
    }
}

/// The address that is handed in again with an entry, in memory of its own.
fn copy_address(alloc: Global, entry: &Entry<'_>) -> Result<Option<Address>, AllocError>
    ensures { IfOk result (λ address. address
        ≡ needed_by (event_of entry.now.event) (answer_of entry.now.answer)) }
{
    match address_needed(entry) {
        Some(bytes) => match Address::read(alloc, bytes) {
            Ok(address) => Ok(Some(address)),
            Err(_) => Err(AllocError),
        },
        None => Ok(None),
    }
}

/// The box that an entry needs, which is the first of those that are left.
fn take_box<M: Method>(entry: &Entry<'_>, bank: &mut VecDeque<M>) -> Option<M>
    requires { IsTrue (takes_box (event_of entry.now.event) (answer_of entry.now.answer))
        → 0 < length bank.old.items }
    ensures takes { Takes (takes_box (event_of entry.now.event) (answer_of entry.now.answer)) result
        bank.old.items bank.new.items }
    ensures capacity { deque_capacity bank.new ≡ deque_capacity bank.old }
{
    if box_needed(entry) {
        return bank.pop_front();
    }
    None
}

/// Plays an entry again, with the address and the box that it needs. An `Err` means out of memory,
/// and that nothing was played.
fn redo_one<M: Method>(
    alloc: Global,
    core: &mut Core<M>,
    entry: &Entry<'_>,
    bank: &mut VecDeque<M>,
    removed: &mut Vec<(u32, M)>,
) -> Result<(), AllocError>
    requires caller { entry.now.caller < (state_of core.old.performance).callers }
    requires lawful { IsLawful (event_of entry.now.event) }
    requires answer { answer_of entry.now.answer
        ≡ (stepped_in core.old.performance (event_of entry.now.event)).answer }
    requires method { IsTrue (takes_box (event_of entry.now.event) (answer_of entry.now.answer))
        → 0 < length bank.old.items }
    ensures performance { OnOk result
        (core.new.performance ≡ with_entry core.old.performance (placed_of entry.now).entry) }
    ensures moves { OnOk result
        (Moves M.keep M.heard (event_of entry.now.event) (answer_of entry.now.answer)
        (stepped_in core.old.performance (event_of entry.now.event)).invocations bank.old.items
        bank.new.items (told M.keep M.heard core.old.boxes.items)
        (told M.keep M.heard core.new.boxes.items) removed.old.items removed.new.items) }
    ensures still { OnErr result ((core.new ≡ core.old) × (bank.new.items ≡ bank.old.items)
        × (removed.new.items ≡ removed.old.items)) }
    ensures capacity { deque_capacity bank.new ≡ deque_capacity bank.old }
{
    let address = copy_address(alloc, entry)?;
    removed.reserve(1)?;
    let method = take_box(entry, bank);
    let out = core.redo(entry, address, method);
    let Some(method) = out else {
        return Ok(());
    };
    let Answer::Removed(id) = entry.answer else {
        unreachable!()
    };
    removed.push_reserved((id, method));
    Ok(())
}

/// Plays the entries of a history again, on a server that has played none. An `Err` means out of
/// memory: the first of them were played, and some are left.
pub(crate) fn redo_all<M: Method>(
    alloc: Global,
    core: &mut Core<M>,
    rows: Rows<'_>,
    bank: &mut VecDeque<M>,
    removed: &mut Vec<(u32, M)>,
) -> Result<(), AllocError>
    requires legal { Legal core.old.performance.caps (unplaced rows) }
    requires empty { (core.old.performance.history ≡ [])
        × (told M.keep M.heard core.old.boxes.items ≡ []) × (removed.old.items ≡ []) }
    requires bank { added_in (unplaced rows) ≤ length bank.old.items }
    ensures redone { OnOk result (IsRedone M.keep M.heard core.old.performance.caps
        (unplaced rows.entry) bank.old.items [] core.new.performance
        (told M.keep M.heard core.new.boxes.items) bank.new.items removed.new.items) }
    ensures stopped { OnErr result ((left : List Recorded)
        × IsRedone M.keep M.heard core.old.performance.caps (unplaced rows.entry)
        bank.old.items left core.new.performance (told M.keep M.heard core.new.boxes.items)
        bank.new.items removed.new.items) }
    ensures capacity { deque_capacity bank.new ≡ deque_capacity bank.old }
{
    for entry in rows {
        redo_one(alloc, core, &entry, bank, removed)?;
    }
    Ok(())
}
