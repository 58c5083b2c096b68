// Messages, appended after their size to bytes that have room for them.
ghost use Rattle.osc_model.specs.Limits.{max_recording};
ghost use Rattle.std.specs.Prelude.{◌≡◌, ◌+◌, ◌≤◌, ◌∷◌, ◌++◌, length, map, IsTrue};
ghost use Rattle.std.specs.List.{flat_map};
ghost use Rattle.std.specs.Vec.{vec_len, vec_capacity};
ghost use Rattle.osc_atoms.specs.Atoms.{has_no_zero};
ghost use Rattle.osc_message.specs.Messages.{tag_of, atom_of, AllFit, known, message_text};
ghost use Rattle.osc_record.specs.Shown.{listed};
ghost use Rattle.osc_model.specs.Recordings.{sized};

use osc_atoms::{append_string, append_word, string_size};
use osc_message::{Arg, append_argument, argument_size};

/// Appends the message to the address with these arguments, after its size.
pub(crate) fn append_message(out: &mut Vec<u8>, address: &[u8], tags: &[u8], args: &[Arg<'_>])
    requires address { IsTrue (has_no_zero address.now) }
    requires tags { tags.now ≡ 44 ∷ map tag_of (listed args.now) }
    requires fit { AllFit (listed args.now) }
    requires small { length (message_text (known address.now (listed args.now))) ≤ max_recording }
    requires room { vec_len out.old + length
        (sized (message_text (known address.now (listed args.now)))) ≤ vec_capacity out.old }
    ensures out { out.new.items ≡ out.old.items
        ++ sized (message_text (known address.now (listed args.now))) }
    ensures capacity { vec_capacity out.old ≤ vec_capacity out.new }
{
    let size = string_size(address.len()) + string_size(tags.len()) + atoms_size(args);
    append_word(out, size as u32);
    append_string(out, address);
    append_string(out, tags);
    append_atoms(out, args);
}

/// How many bytes the arguments have after their tags.
fn atoms_size(args: &[Arg<'_>]) -> usize
    requires { length (flat_map atom_of (listed args.now)) ≤ max_recording }
    ensures { result ≡ length (flat_map atom_of (listed args.now)) }
{
    let mut size = 0;
    for arg in args {
        size += argument_size(*arg);
    }
    size
}

/// Appends the arguments' bytes.
fn append_atoms(out: &mut Vec<u8>, args: &[Arg<'_>])
    requires fit { AllFit (listed args.now) }
    requires small { length (flat_map atom_of (listed args.now)) ≤ max_recording }
    requires room { vec_len out.old + length (flat_map atom_of (listed args.now))
        ≤ vec_capacity out.old }
    ensures out { out.new.items ≡ out.old.items ++ flat_map atom_of (listed args.now) }
    ensures capacity { vec_capacity out.old ≤ vec_capacity out.new }
{
    for arg in args {
        append_argument(out, *arg);
    }
}
