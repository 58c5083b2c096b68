//! What is shown of arguments is read again.
ghost use Rattle.osc_cues.specs.declared.limits.TheConstants.{MAX_SHEET};
ghost use Rattle.std.specs.Prelude.{◌≡◌, ◌≤◌, ℕ, List, [], ◌∷◌, length, IsTrue, IsFalse, Ok, None};
ghost use Rattle.std.specs.Prelude.{codes, pos, negsuc, is_ok, true, false};
ghost use Rattle.std.specs.List.{AllByRecursion};
ghost use Rattle.jiff_core.specs.declared.civil.date.Date.{Date};
ghost use Rattle.jiff_core.specs.declared.offset.Offset.{Offset};
ghost use Rattle.osc_message.specs.Messages.{Argument, Fits, AllFit, bare, known, IsLawful};
ghost use Rattle.osc_message.specs.Messages.{message_text, integer, float, text, content, long};
ghost use Rattle.osc_message.specs.Messages.{double, symbol, character, true_, array_start};
ghost use Rattle.osc_message.specs.Messages.{array_end};
ghost use Rattle.osc_shown.specs.Arguments.{IsWord, AreWords};
ghost use Rattle.osc_shown.specs.Lines.{IsMessageText};
ghost use Rattle.osc_cues.specs.declared.cue.Cue.{Cue};
ghost use Rattle.osc_cues.specs.declared.setting.Setting.{Setting};
ghost use Rattle.osc_cues.specs.Arguments.{argument_read};
ghost use Rattle.osc_cues.specs.Bundles.{IsOrdered, FitsPacket, moments_of};
ghost use Rattle.osc_cues.specs.Cues.{and_then, arguments_at, address_read};
ghost use Rattle.osc_cues.specs.Sheets.{least_of, sheet_of};
ghost use Rattle.osc_cues.specs.Words.{spans_of};
ghost use Rattle.osc_shown_laws.specs.WholeArguments.{IsOfBytes, is_whole, cut_fault, AreOfBytes};
ghost use Rattle.osc_shown_laws.specs.WholeArguments.{are_whole};
ghost use Rattle.osc_shown_laws.specs.Lines.{EndsBetween, said_after};
ghost use Rattle.osc_shown_laws.specs.Sheets.{IsShowable, AreCueLines};

use osc_message::laws as messages;

/// The word that is shown of an argument, as `0.75`, `h:7` or `"act two"`, is read in a sheet of
/// cues as this argument. One that was cut short, as `b:0102030405060708..64`, is wrong there; where
/// words are shown uncut, each is read.
pub fn shown_words_are_read_again()
    ensures whole { (argument : Argument) (said : List ℕ) → Fits argument → IsOfBytes argument
        → IsTrue (is_whole argument) → IsWord false argument said
        → argument_read said ≡ Ok argument }
    ensures cut { (argument : Argument) (said : List ℕ) → Fits argument → IsOfBytes argument
        → IsFalse (is_whole argument) → IsWord false argument said
        → argument_read said ≡ cut_fault argument }
    ensures uncut { (argument : Argument) (said : List ℕ) → Fits argument → IsOfBytes argument
        → IsWord true argument said → argument_read said ≡ Ok argument }
{}

/// The words of arguments, as ` [ 60 63 67 ] true`, are found in a line and read as these. Where
/// one was cut short, nothing is read of them.
pub fn shown_arguments_are_read_again()
    ensures whole { (arguments : List Argument) (said : List ℕ) → AllFit arguments
        → AreOfBytes arguments → IsTrue (are_whole arguments) → AreWords false arguments said
        → and_then (spans_of said) (λ spans. arguments_at said spans) ≡ Ok arguments }
    ensures cut { (arguments : List Argument) (said : List ℕ) → AllFit arguments
        → AreOfBytes arguments → IsFalse (are_whole arguments) → AreWords false arguments said
        → IsFalse (is_ok (and_then (spans_of said) (λ spans. arguments_at said spans))) }
{}

/// The words of a message, as `/light/front 1.0`, say this message after a moment, where the sheet
/// takes its address. One without a tag string is shown as one with an empty tag string is, and is
/// read as that. One of which a word was cut short is wrong there.
pub fn a_shown_message_is_read_again()
    ensures known { (methods : List (List ℕ)) (front pattern words : List ℕ)
        (arguments : List Argument) → EndsBetween front → IsLawful (known pattern arguments)
        → AreOfBytes arguments → IsTrue (are_whole arguments)
        → address_read methods pattern ≡ Ok pattern
        → IsMessageText false (message_text (known pattern arguments)) words
        → said_after methods front words ≡ Ok (message_text (known pattern arguments)) }
    ensures cut { (methods : List (List ℕ)) (front pattern words : List ℕ)
        (arguments : List Argument) → EndsBetween front → IsLawful (known pattern arguments)
        → AreOfBytes arguments → IsFalse (are_whole arguments)
        → address_read methods pattern ≡ Ok pattern
        → IsMessageText false (message_text (known pattern arguments)) words
        → IsFalse (is_ok (said_after methods front words)) }
    ensures bare { (methods : List (List ℕ)) (front pattern words : List ℕ) → EndsBetween front
        → IsLawful (bare pattern) → address_read methods pattern ≡ Ok pattern
        → IsMessageText false (message_text (bare pattern)) words
        → said_after methods front words ≡ Ok (message_text (known pattern [])) }
    ensures alike { (pattern words : List ℕ) → IsLawful (bare pattern)
        → IsMessageText false (message_text (bare pattern)) words
        → IsMessageText false (message_text (known pattern [])) words }
{
    messages::written_is_read_again();
}

/// A sheet that has a line for each of some cues, as `eeb702ec80000000 /light/front 1.0`, is read
/// as these cues, where they are in order, none of them has gone by, and those of each moment fit a
/// packet.
pub fn a_shown_sheet_is_read_again()
    ensures { (methods : List (List ℕ)) (setting : Setting) (cues : List Cue) (bytes : List ℕ)
        → AllByRecursion (IsShowable methods) cues → IsOrdered (least_of setting) cues
        → AllByRecursion FitsPacket (moments_of cues) → AreCueLines cues bytes
        → length bytes ≤ MAX_SHEET
        → sheet_of methods setting bytes ≡ Ok (record { cues = cues; tempo = None }) }
{
    messages::written_is_read_again();
}

/// What the definitions say of examples: words and a sheet that are read, and a word that was cut
/// short.
pub fn examples()
    ensures time { EndsBetween (codes "20:15:01.5 ") }
    ensures said { said_after (codes "/light/front" ∷ []) (codes "20:15 ")
        (codes "/light/* 0.25 \"act # two\" [ -7 h:7 ] true c:# S:\"\"")
        ≡ Ok (message_text (known (codes "/light/*")
        (float 0x3e80_0000 ∷ text (codes "act # two") ∷ array_start ∷ integer (negsuc 6)
        ∷ long (pos 7) ∷ array_end ∷ true_ ∷ character 35 ∷ symbol [] ∷ []))) }
    ensures shown { IsMessageText false (message_text (known (codes "/a") (integer (pos 7) ∷ [])))
        (codes "/a 7") }
    ensures sheet { (date : Date) (offset : Offset) → sheet_of (codes "/light/front" ∷ [])
        (record { now = 0; date = date; offset = offset; skip = None })
        (codes "eeb702ec80000000 /light/front 1.0\neeb702ec80000000 /light/front true\n")
        ≡ Ok (record {
          tempo = None;
          cues = record {
            tag = 0xeeb7_02ec_8000_0000;
            message = message_text (known (codes "/light/front") (float 0x3f80_0000 ∷ []));
          }
              ∷ record {
                tag = 0xeeb7_02ec_8000_0000;
                message = message_text (known (codes "/light/front") (true_ ∷ []));
              } ∷ [];
        }) }
    ensures double { argument_read (codes "d:1e300") ≡ Ok (double 0x7e37_e43c_8800_759c) }
    ensures cut { argument_read (codes "b:0102030405060708..64")
        ≡ cut_fault (content (1 ∷ 2 ∷ 3 ∷ 4 ∷ 5 ∷ 6 ∷ 7 ∷ 8 ∷ 9 ∷ [])) }
{}
