//! What follows from the definition of the words.
ghost use Rattle.std.specs.Prelude.{◌≡◌, ℕ, List, None, Some, codes, drop, if◌then◌else◌};
ghost use Rattle.std.specs.List.{last_or};
ghost use Rattle.clap.specs.Words.{Row, first_of};
ghost use Rattle.osc_words.specs.Reading.{file_stands_last, found_by, plain_found_by};
ghost use Rattle.osc_words.specs.declared.command.ResumeCommand.{ResumeCommand};
ghost use Rattle.osc_words.specs.declared.verb.Verb.TheVariants.{Lanes, Serve};
ghost use Rattle.osc_words.specs.Commands.{resume_command_of, EndsInFiles};

/// The file that clap finds is the last word, so none stands anywhere else.
#[tactic(auto, using(crate::proofs::Files::files))]
pub fn the_file_is_the_last_word()
    ensures lanes { (words : List (List ℕ)) (rows : List Row) → found_by Lanes words ≡ Some rows
        → first_of (codes "FILE") rows ≡ last_or None (drop 1 words) }
    ensures serve { (words : List (List ℕ)) (rows : List Row) → found_by Serve words ≡ Some rows
        → first_of (codes "FILE") rows ≡ last_or None (drop 1 words) }
{}

/// Clap finds what it finds by the plain command, where no word but the last one is a positional, and else nothing.
#[tactic(auto, using(crate::proofs::Files::files))]
pub fn only_the_last_word_is_positional()
    ensures lanes { (words : List (List ℕ)) → found_by Lanes words
        ≡ (if file_stands_last Lanes words then plain_found_by Lanes words else None) }
    ensures serve { (words : List (List ℕ)) → found_by Serve words
        ≡ (if file_stands_last Serve words then plain_found_by Serve words else None) }
{}

/// Where the words say a `resume`, its files are the last two words: `clap` finds these as OLD and FILE, and the command
/// that has the same options and no file takes the words before them.
#[tactic(auto, using(crate::proofs::LastTwo::last_two_files))]
pub fn the_files_of_a_resume_are_the_last_two_words()
    ensures { (words : List (List ℕ)) (command : ResumeCommand)
        → resume_command_of words ≡ Some command → EndsInFiles words }
{}
