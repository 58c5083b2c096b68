//! The files that the words name.
ghost use Rattle.std.specs.Prelude.{◌≡◌, ◌||◌, map, option_map, string_bytes, codes};
ghost use Rattle.std.specs.Option.{option_copied};
ghost use Rattle.std.specs.Str.{bytes_eq};
ghost use Rattle.osc_top.specs.Commands.{name_in, names_in};

use osc_words::last_two;

/// The name of the file for the recording: the last of at least two words, of which the first is
/// `lanes` or `serve`.
pub fn recording_name(words: &[String]) -> Option<&str>
    ensures { option_copied result ≡ name_in (map string_bytes words.now) }
{
    match words {
        [word, .., name] if names_recording(word.as_str()) => Some(name.as_str()),
        _ => None,
    }
}

/// Whether a command of this word has the name of a file as its last word.
fn names_recording(word: &str) -> bool
    ensures { result ≡ (bytes_eq word.now (codes "lanes") || bytes_eq word.now (codes "serve")) }
{
    word == "lanes" || word == "serve"
}

/// The names of the files for the old recording and for the new one: the last two of at least three
/// words, of which the first is `resume`.
pub fn resume_names(words: &[String]) -> Option<(&str, &str)>
    ensures { option_map (λ both. (both.0.now, both.1.now)) result
        ≡ names_in (map string_bytes words.now) }
{
    match words {
        [word, others @ ..] if word.as_str() == "resume" => last_two(others),
        _ => None,
    }
}
