// How all boxes come back where memory ends in the middle of a recording.
ghost use Rattle.std.specs.Prelude.{◌≡◌, ◌≤◌, ◌<◌, ◌++◌, List, length, option_to_list};
ghost use Rattle.std.specs.VecDeque.{deque_capacity};
ghost use Rattle.osc_core.specs.Telling.{told};
ghost use Rattle.osc_live.specs.Resuming.{marks};
ghost use Rattle.osc_live.specs.Redone.{IsOut, TakesOut, TakesEither};

use osc_core::Core;
use osc_method::Method;
use std::collections::VecDeque;

/// All boxes, in the order of the bank: so many of them were taken from it.
pub(crate) fn put_back<M: Method>(
    core: Core<M>,
    mut removed: Vec<(u32, M)>,
    mut bank: VecDeque<M>,
    taken: u32,
) -> Vec<M>
    ensures { (whole : List M) → IsOut M.keep M.heard whole
        (told M.keep M.heard core.boxes.items) removed.items bank.items taken
        (deque_capacity bank) → marks M.keep M.heard result.items ≡ marks M.keep M.heard whole }
{
    let mut kept = core.close().kept;
    let mut id = taken;
    while id > 0 {
        id -= 1;
        let method = take_either(&mut kept, &mut removed, id);
        put_first(&mut bank, method);
    }
    bank.into_vec()
}

/// Puts a box before the others, if there is one and room for it.
fn put_first<M: Method>(bank: &mut VecDeque<M>, method: Option<M>)
    ensures items { length bank.old.items < deque_capacity bank.old
        → bank.new.items ≡ option_to_list method ++ bank.old.items }
    ensures capacity { deque_capacity bank.old ≤ deque_capacity bank.new }
{
    if let Some(method) = method {
        let _ = bank.push_front(method);
    }
}

/// Takes the box of an id out of boxes, or else out of others, where it is among them.
fn take_either<M: Method>(
    boxes: &mut Vec<(u32, M)>,
    others: &mut Vec<(u32, M)>,
    id: u32,
) -> Option<M>
    ensures { TakesEither id boxes.old.items boxes.new.items others.old.items others.new.items
        result }
{
    match take_of(boxes, id) {
        Some(method) => Some(method),
        None => take_of(others, id),
    }
}

/// Takes the box of an id out of boxes, where it is among them.
fn take_of<M: Method>(boxes: &mut Vec<(u32, M)>, id: u32) -> Option<M>
    ensures { TakesOut id boxes.old.items boxes.new.items result }
{
    let mut place = boxes.len();
    while place > 0 {
        place -= 1;
        if boxes[place].0 == id {
            return Some(boxes.remove(place).1);
        }
    }
    None
}
