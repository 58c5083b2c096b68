//! Array brackets among type tags.
ghost use Rattle.std.specs.Prelude.{◌≡◌, is_ok};
ghost use Rattle.osc_message.specs.Reading.{brackets_read};

/// Whether the array brackets among the tags balance (OSC 1.0, "OSC Type Tag String"). A comma before them is none.
pub fn are_balanced(tags: &[u8]) -> bool
    ensures { result ≡ is_ok (brackets_read 0 0 tags.now 0) }
{
    let mut depth = 0usize;
    for tag in tags {
        match *tag {
            b'[' => depth += 1,
            b']' if depth == 0 => return false,
            b']' => depth -= 1,
            _ => {}
        }
    }
    depth == 0
}
