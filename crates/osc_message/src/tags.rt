// Type tags: which are known, and whether the array brackets among them balance.
ghost use Rattle.std.specs.Prelude.{◌≡◌, ◌+◌, ◌<◌, ◌^◌, length, find, is_some};
ghost use Rattle.std.specs.List.{list_any};
ghost use Rattle.osc_message.specs.Tags;
ghost use Rattle.osc_message.specs.Tags.{is_unknown};
ghost use Rattle.osc_message.specs.Reading.{brackets_read};

use osc_atoms::Fault;

/// A word of four bytes stands under the tag.
pub(crate) fn is_word_tag(tag: u8) -> bool
    ensures { result ≡ Tags.is_word_tag tag }
{
    matches!(tag, b'i' | b'f' | b'c' | b'r' | b'm')
}

/// Eight bytes stand under the tag.
pub(crate) fn is_long_tag(tag: u8) -> bool
    ensures { result ≡ Tags.is_long_tag tag }
{
    matches!(tag, b'h' | b't' | b'd')
}

/// A string stands under the tag.
pub(crate) fn is_text_tag(tag: u8) -> bool
    ensures { result ≡ Tags.is_text_tag tag }
{
    matches!(tag, b's' | b'S')
}

/// No byte stands under the tag.
fn is_bare_tag(tag: u8) -> bool
    ensures { result ≡ Tags.is_bare_tag tag }
{
    matches!(tag, b'T' | b'F' | b'N' | b'I' | b'[' | b']')
}

/// The tag is none of the standard's.
fn is_unknown_tag(tag: u8) -> bool
    ensures { result ≡ is_unknown tag }
{
    !(is_word_tag(tag) || is_long_tag(tag) || is_text_tag(tag) || tag == b'b' || is_bare_tag(tag))
}

/// The first unknown tag.
pub(crate) fn first_unknown(tags: &[u8]) -> Option<u8>
    ensures value { result ≡ find is_unknown tags.now }
    ensures any { is_some result ≡ list_any is_unknown tags.now }
{
    find_unknown(tags)
}

fn find_unknown(tags: &[u8]) -> Option<u8>
    ensures { result ≡ find is_unknown tags.now }
{
    tags.iter().copied().find(|tag| is_unknown_tag(*tag))
}

/// Checks the array brackets of tags that stand from `place` on.
pub(crate) fn check_brackets(tags: &[u8], place: u32) -> Result<(), Fault>
    requires { place + length tags.now < 2 ^ 32 }
    ensures { result ≡ brackets_read 0 place tags.now place }
{
    let mut depth = 0u32;
    let mut outer = place;
    let mut at = place;
    for tag in tags {
        match *tag {
            b'[' => {
                if depth == 0 {
                    outer = at;
                }
                depth += 1;
            }
            b']' if depth == 0 => {
                return Err(Fault {
                    kind: Fault::BRACKETS,
                    at,
                });
            }
            b']' => depth -= 1,
            _ => {}
        }
        at += 1;
    }
    if depth == 0 {
        Ok(())
    } else {
        Err(Fault {
            kind: Fault::BRACKETS,
            at: outer,
        })
    }
}
