//! The last two words.
ghost use Rattle.std.specs.Prelude.{◌≡◌, map, option_map, string_bytes};
ghost use Rattle.osc_words.specs.Names as names;

/// The last two of at least two words.
pub fn last_two(words: &[String]) -> Option<(&str, &str)>
    ensures { option_map (λ both. (both.0.now, both.1.now)) result
        ≡ names.last_two (map string_bytes words.now) }
{
    match words {
        [.., first, second] => Some((first.as_str(), second.as_str())),
        _ => None,
    }
}

/// All words but the last two.
pub(crate) fn before_last_two(words: &[String]) -> &[String]
    ensures { map string_bytes result.now ≡ names.before_last_two (map string_bytes words.now) }
{
    &words[..words.len().saturating_sub(2)]
}
