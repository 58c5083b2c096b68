// Where a walk goes on, after a name that a part doesn't match.
ghost use Rattle.std.specs.Prelude.{◌≡◌, ◌≤◌, ◌<◌, ◌+◌, ◌++◌, ◌∷◌, ◌==◌, ℕ, List, [], All};
ghost use Rattle.std.specs.Prelude.{Contains, IfSome, MatchOption, false, true, length, take};
ghost use Rattle.std.specs.Prelude.{position, option_map, get_or, nat_eq, Some, if◌then◌else◌};
ghost use Rattle.std.specs.List.{list_any, slice_split, starts_with};
ghost use Rattle.osc_pattern.specs.Items.{is_choice_end, is_comma, is_slash};
ghost use Rattle.osc_pattern.specs.Patterns.{is_special};
ghost use Rattle.osc_pattern.specs.Reading.{cut_at};
ghost use Rattle.osc_tree.specs.Walking.{is_ahead, IsAim, IsReached};

use crate::literal::first_special;

/// A choice with more bytes than this isn't looked into for each name.
const MOST_TEXTS: usize = 64;

/// A text that no later name which the part matches is before: so many bytes of what is left of the
/// address, and what follows them. A plain part has one such name, before a slash or at the end;
/// others begin with what stands before the part's first special byte, and with a text of the
/// choice that follows, if one does.
pub(crate) fn find_aim<'a>(part: &'a [u8], rest: &[u8]) -> Option<(usize, &'a [u8])>
    requires low { All (λ byte. byte < 127) rest.now }
    requires one { list_any is_slash part.now ≡ false }
    ensures kept { IfSome result (λ aim. aim.0 ≤ length rest.now) }
    ensures aim { IfSome result (λ aim. IsAim part.now rest.now
        (take aim.0 rest.now ++ aim.1.now)) }
{
    let Some(end) = first_special(part) else {
        return aim_before(part, b'0', rest);
    };
    if part[end] == b'{' && rest.starts_with(&part[..end]) {
        return aim_among(part, end, rest);
    }
    aim_before(&part[..end], 0x7f, rest)
}

/// The text, where what is left of an address is before it; what no address is after, where it is
/// after the text and the byte.
fn aim_before<'a>(text: &'a [u8], end: u8, rest: &[u8]) -> Option<(usize, &'a [u8])>
    requires low { All (λ byte. byte < 127) rest.now }
    requires one { list_any is_slash text.now ≡ false }
    ensures kept { IfSome result (λ aim. aim.0 ≡ 0) }
    ensures ahead { IfSome result (λ aim. is_ahead rest.now aim.1.now ≡ true) }
    ensures one { IfSome result (λ aim. length (slice_split is_slash aim.1.now) ≡ 1) }
    ensures reach { IfSome result (λ aim. IsReached rest.now end text.now aim.1.now) }
{
    if rest.cmp(text).is_lt() {
        return Some((0, text));
    }
    if is_within(rest, text, end) {
        return None;
    }
    Some((0, b"\x7f"))
}

/// Whether what isn't before the text is before it with the byte after it.
fn is_within(rest: &[u8], text: &[u8], end: u8) -> bool
    requires { is_ahead rest.now text.now ≡ false }
    ensures { result ≡ is_ahead rest.now (text.now ++ end ∷ []) }
{
    if !rest.starts_with(text) {
        return false;
    }
    match rest.get(text.len()) {
        Some(byte) => *byte < end,
        None => true,
    }
}

/// The same, where what is left of the address begins as the part does before a choice.
fn aim_among<'a>(part: &'a [u8], end: usize, rest: &[u8]) -> Option<(usize, &'a [u8])>
    requires low { All (λ byte. byte < 127) rest.now }
    requires one { list_any is_slash part.now ≡ false }
    requires special { position is_special part.now ≡ Some end }
    requires choice { get_or part.now end 0 ≡ 123 }
    requires within { end < length part.now }
    requires begun { starts_with nat_eq rest.now (take end part.now) ≡ true }
    ensures kept { IfSome result (λ aim. aim.0 ≤ length rest.now) }
    ensures aim { IfSome result (λ aim. IsAim part.now rest.now
        (take aim.0 rest.now ++ aim.1.now)) }
{
    let (texts, after) = cut_choice(&part[end + 1..])?;
    if texts.len() > MOST_TEXTS {
        return None;
    }
    let aim = least_text(texts, byte_after(after), &rest[end..])?;
    Some((end, aim))
}

/// The byte that is above all which stand after a text of a choice, by what follows that.
fn byte_after(after: &[u8]) -> u8
    ensures { result ≡ if nat_eq (length after.now) 0 then 48 else 127 }
{
    if after.is_empty() { b'0' } else { 0x7f }
}

/// The texts of a choice, and what follows it.
pub(crate) fn cut_choice(bytes: &[u8]) -> Option<(&[u8], &[u8])>
    ensures { option_map (λ parts. (parts.0.now, parts.1.now)) result
        ≡ cut_at is_choice_end bytes.now }
{
    let end = first_brace(bytes)?;
    Some((&bytes[..end], &bytes[end + 1..]))
}

fn first_brace(bytes: &[u8]) -> Option<usize>
    ensures { result ≡ position is_choice_end bytes.now }
{
    bytes.iter().position(|byte| *byte == b'}')
}

/// The first text of a choice, and those after it if there are any.
pub(crate) fn first_text(texts: &[u8]) -> (&[u8], Option<&[u8]>)
    ensures texts { MatchOption result.1
        (slice_split is_comma texts.now ≡ result.0.now ∷ [])
        (λ rest. slice_split is_comma texts.now
        ≡ result.0.now ∷ slice_split is_comma rest.now) }
    ensures size { MatchOption result.1 (length result.0.now ≡ length texts.now)
        (λ rest. length result.0.now + (1 + length rest.now) ≡ length texts.now) }
{
    match cut_text(texts) {
        Some((text, rest)) => (text, Some(rest)),
        None => (texts, None),
    }
}

/// The bytes before the first comma, and those after it.
fn cut_text(texts: &[u8]) -> Option<(&[u8], &[u8])>
    ensures cut { option_map (λ parts. (parts.0.now, parts.1.now)) result
        ≡ cut_at is_comma texts.now }
    ensures size { IfSome result
        (λ parts. length parts.0.now + (1 + length parts.1.now) ≡ length texts.now) }
{
    let end = first_comma(texts)?;
    Some((&texts[..end], &texts[end + 1..]))
}

fn first_comma(texts: &[u8]) -> Option<usize>
    ensures { result ≡ position is_comma texts.now }
{
    texts.iter().position(|byte| *byte == b',')
}

/// The least of the texts that what is left of an address is before, or what no address is after.
/// There is none where what is left stands at one of the texts.
fn least_text<'a>(texts: &'a [u8], end: u8, rest: &[u8]) -> Option<&'a [u8]>
    requires low { All (λ byte. byte < 127) rest.now }
    requires one { list_any is_slash texts.now ≡ false }
    ensures ahead { IfSome result (λ aim. is_ahead rest.now aim.now ≡ true) }
    ensures one { IfSome result (λ aim. list_any is_slash aim.now ≡ false) }
    ensures reach { IfSome result (λ aim. (text : List ℕ)
        → Contains (slice_split is_comma texts.now) text
        → IsReached rest.now end text aim.now) }
{
    let mut aim: &[u8] = b"\x7f";
    let mut left = texts;
    loop {
        let (text, more) = first_text(left);
        aim = nearer(aim, text, end, rest)?;
        let Some(more) = more else {
            return Some(aim);
        };
        left = more;
    }
}

/// The text, if it is before what is aimed at and after what is left of the address, which doesn't
/// stand at it.
fn nearer<'a>(aim: &'a [u8], text: &'a [u8], end: u8, rest: &[u8]) -> Option<&'a [u8]>
    requires ahead { is_ahead rest.now aim.now ≡ true }
    requires one { list_any is_slash aim.now ≡ false }
    requires text { list_any is_slash text.now ≡ false }
    ensures ahead { IfSome result (λ next. is_ahead rest.now next.now ≡ true) }
    ensures one { IfSome result (λ next. list_any is_slash next.now ≡ false) }
    ensures nearer { IfSome result (λ next. is_ahead aim.now next.now ≡ false) }
    ensures reach { IfSome result (λ next. IsReached rest.now end text.now next.now) }
{
    if !rest.cmp(text).is_lt() {
        if is_within(rest, text, end) {
            return None;
        }
        return Some(aim);
    }
    if text.cmp(aim).is_lt() {
        return Some(text);
    }
    Some(aim)
}
