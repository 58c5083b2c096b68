// The ids of the methods that match.
ghost use Rattle.std.specs.Prelude.{◌≡◌, ◌≤◌, ◌<◌, ◌+◌, ◌++◌, ◌∷◌, [], vec_len, vec_capacity};

/// Adds an id, in room that is there.
pub(crate) fn add_id(id: u32, ids: &mut Vec<u32>)
    requires { vec_len ids.old < vec_capacity ids.old }
    ensures ids { ids.new.items ≡ ids.old.items ++ id ∷ [] }
    ensures len { vec_len ids.new ≡ vec_len ids.old + 1 }
    ensures capacity { vec_capacity ids.old ≤ vec_capacity ids.new }
{
    match ids.push(id) {
        Ok(()) => {}
        Err(_) => unreachable!(),
    }
}
