// The boxes of the registered methods.
ghost use Rattle.std.specs.Prelude.{◌≡◌, ◌<◌, ◌≤◌, ◌++◌, ◌∷◌, [], List, map, length, Contains};
ghost use Rattle.std.specs.Prelude.{◌↔◌, vec_len, vec_capacity, IsTrue, IfSome, IsSome, Some};
ghost use Rattle.osc_pattern.specs.Methods.{Method as MethodAt};
ghost use Rattle.osc_model.specs.Heard.{Told, hear, reset, without_id};
ghost use Rattle.osc_core.specs.Calls.{invocation_by};
ghost use Rattle.osc_core.specs.Ids.{is_ascending, IsFirstFrom, IsPlaceOf, without};
ghost use Rattle.osc_core.specs.Telling.{told};

use osc_method::{Call, Method};

/// Keeps a box, which is reset, in room that is there.
pub(crate) fn keep_box<M: Method>(boxes: &mut Vec<(u32, M)>, id: u32, mut method: M)
    requires { vec_len boxes.old < vec_capacity boxes.old }
    ensures boxes { told M.keep M.heard boxes.new.items
        ≡ told M.keep M.heard boxes.old.items
        ++ reset (record { id = id; keep = M.keep method; heard = M.heard method }) ∷ [] }
    ensures ids { map (λ one. one.0) boxes.new.items
        ≡ map (λ one. one.0) boxes.old.items ++ id ∷ [] }
    ensures capacity { vec_capacity boxes.old ≤ vec_capacity boxes.new }
{
    method.reset();
    match boxes.push((id, method)) {
        Ok(()) => {}
        Err(_) => unreachable!(),
    }
}

/// Takes the box of an id out.
pub(crate) fn hand_out<M: Method>(boxes: &mut Vec<(u32, M)>, id: u32) -> M
    requires ascending { IsTrue (is_ascending (map (λ one. one.0) boxes.old.items)) }
    requires held { Contains (map (λ one. one.0) boxes.old.items) id }
    ensures removed { Contains {X = Told}
        (map (λ one. record { id = one.0; keep = M.keep one.1; heard = M.heard one.1 })
        boxes.old.items) (record { id = id; keep = M.keep result; heard = M.heard result }) }
    ensures others { told M.keep M.heard boxes.new.items
        ≡ without_id id (told M.keep M.heard boxes.old.items) }
    ensures ids { map (λ one. one.0) boxes.new.items
        ≡ without id (map (λ one. one.0) boxes.old.items) }
    ensures capacity { vec_capacity boxes.old ≤ vec_capacity boxes.new }
{
    match place_of(boxes, id) {
        Some(place) => boxes.remove(place).1,
        None => unreachable!(),
    }
}

/// The box of an id, where there is one.
pub(crate) fn box_of<M: Method>(boxes: &[(u32, M)], id: u32) -> Option<&M>
    requires { IsTrue (is_ascending (map (λ one. one.0) boxes.now)) }
    ensures there { IsSome result ↔ Contains (map (λ one. one.0) boxes.now) id }
    ensures told { IfSome result (λ method. Contains {X = Told} (told M.keep M.heard boxes.now)
        (record { id = id; keep = M.keep method.now; heard = M.heard method.now })) }
{
    let place = place_of(boxes, id)?;
    Some(&boxes[place].1)
}

/// The box of the method with this id hears the call, and no other.
pub(crate) fn invoke_one<M: Method>(boxes: &mut Vec<(u32, M)>, id: u32, call: &Call<'_>)
    requires { IsTrue (is_ascending (map (λ one. one.0) boxes.old.items)) }
    ensures ids { map (λ one. one.0) boxes.new.items ≡ map (λ one. one.0) boxes.old.items }
    ensures capacity { vec_capacity boxes.old ≤ vec_capacity boxes.new }
    ensures boxes { (methods : List MethodAt)
        → told M.keep M.heard boxes.new.items
        ≡ map (λ told. hear told (invocation_by methods call.now id))
        (told M.keep M.heard boxes.old.items) }
{
    if let Some(place) = place_of(boxes, id) {
        invoke(&mut boxes[place], call);
    }
}

/// A box hears a call.
fn invoke<M: Method>(boxed: &mut (u32, M), call: &Call<'_>)
    ensures id { boxed.new.0 ≡ boxed.old.0 }
    ensures told { (methods : List MethodAt)
        → record { id = boxed.new.0; keep = M.keep boxed.new.1; heard = M.heard boxed.new.1 }
        ≡ hear (record { id = boxed.old.0; keep = M.keep boxed.old.1; heard = M.heard boxed.old.1 })
        (invocation_by methods call.now boxed.old.0) }
{
    boxed.1.invoke(call);
}

/// The place of the id among the boxes. It is first looked for at the place of that number, where
/// the ids of the methods added stand until one is removed.
pub(crate) fn place_of<M>(boxes: &[(u32, M)], id: u32) -> Option<usize>
    requires { IsTrue (is_ascending (map (λ one. one.0) boxes.now)) }
    ensures { IsPlaceOf result id (map (λ one. one.0) boxes.now) }
{
    if is_in_its_place(boxes, id) {
        return Some(id as usize);
    }
    let place = first_from(boxes, id);
    if place == boxes.len() {
        return None;
    }
    if boxes[place].0 != id {
        return None;
    }
    Some(place)
}

/// Whether the box that stands at the place of this number has the id.
fn is_in_its_place<M>(boxes: &[(u32, M)], id: u32) -> bool
    ensures { IsTrue result → IsPlaceOf (Some id) id (map (λ one. one.0) boxes.now) }
{
    let place = id as usize;
    place < boxes.len() && boxes[place].0 == id
}

/// The place of the first box whose id isn't below this one, or how many boxes there are.
fn first_from<M>(boxes: &[(u32, M)], id: u32) -> usize
    requires { IsTrue (is_ascending (map (λ one. one.0) boxes.now)) }
    ensures { IsFirstFrom result id (map (λ one. one.0) boxes.now) }
{
    let mut low = 0;
    let mut high = boxes.len();
    while low < high {
        let middle = low + (high - low) / 2;
        if boxes[middle].0 < id {
            low = middle + 1;
        } else {
            high = middle;
        }
    }
    low
}
