//! The result of playing the script of a score, for all scores.
ghost use Rattle.osc_score.specs.declared.limits.TheConstants.{MAX_SCORE};
ghost use Rattle.std.specs.Prelude.{◌≡◌, ◌≤◌, ℕ, List, length, map, Some, Ok, IfOk};
ghost use Rattle.osc_message.specs.Messages.{Argument, Fits};
ghost use Rattle.osc_model.specs.Limits.{Limits};
ghost use Rattle.osc_model.specs.State.{State};
ghost use Rattle.osc_model.specs.Events.{Entry};
ghost use Rattle.osc_model.specs.History.{invocations};
ghost use Rattle.osc_script.specs.declared.mode.Mode.TheVariants.{Plain};
ghost use Rattle.osc_script.specs.Adds.{count_adds};
ghost use Rattle.osc_script.specs.Scripts.{script_of};
ghost use Rattle.osc_score.specs.Scripted.{score_script};
ghost use Rattle.osc_print.specs.Words.{argument_word};
ghost use Rattle.osc_score.specs.ArgumentWords.{argument_read};
ghost use Rattle.osc_score.specs.Scores.{Note, addresses_of, IsOfBytes, IsScore, score_size};
ghost use Rattle.osc_score.specs.Reading.{score_of};
ghost use Rattle.osc_score_laws.specs.Heard.{at_clock, sound_at, sounds, score_lines, IsRoomy};
ghost use Rattle.osc_score_laws.specs.Heard.{PlaysScore};
ghost use Rattle.osc_score_laws.specs.Known.{Known};

use osc_message::laws as messages;
use osc_packet::laws as packets;
use osc_pattern::laws as addresses;
use osc_score::laws as scores;
use osc_script::laws as scripts;

/// What the laws of the lower crates say, as one.
pub(crate) fn known()
    ensures { Known }
{
    messages::written_is_read_again();
    messages::texts_differ();
    messages::faults_are_first();
    messages::messages_begin_with_a_slash();
    packets::units_are_read_again();
    addresses::tests_are_exact();
    addresses::an_address_is_a_pattern();
}

/// What is heard of a history are its invocations, each once and in order, at the clocks before their releases.
pub fn what_is_heard_is_invoked()
    ensures { (state : State) (history : List Entry) (clock : ℕ)
        → map (at_clock clock) (sounds state history)
        ≡ map (sound_at clock) (invocations state history) }
{}

/// The script of a score is heard note by note, each at its moment, on every server whose limits are enough for it.
pub fn a_score_is_played()
    ensures { (caps : Limits) (notes : List Note) → IsScore notes → IsRoomy caps (score_size notes)
        → PlaysScore caps (score_size notes) notes }
{
    known();
}

/// The script of a score is read as its acts, a line for each.
pub fn a_score_script_is_read()
    ensures { (notes : List Note) → IsScore notes → score_size notes ≤ MAX_SCORE
        → script_of Plain (score_script notes) ≡ Ok (score_lines notes) }
{
    known();
    scripts::written_scripts_are_read_again();
}

/// What is read of an input is played on every server whose limits are enough for the longest input, as those are that
/// no option changes.
pub fn a_read_score_is_played()
    ensures { (caps : Limits) (bytes : List ℕ) → IsRoomy caps MAX_SCORE
        → IfOk (score_of bytes) (PlaysScore caps (length bytes)) }
{
    known();
    scores::what_is_read_is_a_score();
}

/// The words of a score are those that are printed: the word that a call line prints of an argument is read as this
/// argument.
pub fn printed_words_are_read_again()
    ensures { (argument : Argument) → Fits argument → IsOfBytes argument
        → argument_read (argument_word argument) ≡ Some argument }
{}

/// The script of a score adds as many methods as there are distinct addresses.
pub fn a_score_adds_its_addresses()
    ensures { (notes : List Note) → count_adds (score_lines notes) ≡ length (addresses_of notes) }
{}
