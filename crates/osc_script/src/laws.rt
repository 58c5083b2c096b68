//! What the definitions say of all scripts, and of the examples of docs/FORMATS.md.
ghost use Rattle.osc_script.specs.declared.script.TheConstants.{MAX_SCRIPT};
ghost use Rattle.osc_script.specs.declared.drawn_script.TheConstants.{MAX_GENERATED_LINES};
ghost use Rattle.osc_script.specs.declared.lane.TheConstants.{MAX_LANES};
ghost use Rattle.std.specs.Prelude.{◌≡◌, ◌≤◌, ◌<◌, ◌↔◌, ◌^◌, ◌%◌, ℕ, true, false, List, [], ◌∷◌};
ghost use Rattle.std.specs.Prelude.{◌++◌, length, Some, None, Ok, Err, IsOk, IfOk, codes};
ghost use Rattle.std.specs.List.{All, AllByRecursion, AllPass, concat};
ghost use Rattle.std.specs.Int.{w64, to_be_bytes};
ghost use Rattle.std.specs.Str.{bytes_eq};
ghost use Rattle.std.specs.Fmt.{decimal};
ghost use Rattle.hex.specs.Hex.{is_hex_digit, encode_lower, encode_upper, IsBytes};
ghost use Rattle.osc_script.specs.Words.{is_space, is_line_feed, words_of, without_return};
ghost use Rattle.osc_script.specs.Words.{lines_of};
ghost use Rattle.osc_script.specs.Lanes.{lane_of};
ghost use Rattle.osc_script.specs.Acts.{is_known, has_count, act_of, served_of, packet_of};
ghost use Rattle.osc_script.specs.Acts.{moment_of};
ghost use Rattle.osc_script.specs.declared.fault.ScriptFault.{ScriptFault};
ghost use Rattle.osc_script.specs.declared.fault.ScriptFaultKind.TheVariants as kinds;
ghost use Rattle.osc_script.specs.declared.act.Act.{Act};
ghost use Rattle.osc_script.specs.declared.act.Act.TheVariants.{Add, Send, Tick, Pump};
ghost use Rattle.osc_script.specs.declared.mode.Mode.{Mode};
ghost use Rattle.osc_script.specs.declared.mode.Mode.TheVariants.{Plain, Lanes, Serve};
ghost use Rattle.osc_script.specs.Scripts.{said_of, on_lane, script_of, AreLawful, AreOf};
ghost use Rattle.osc_script.specs.Faults.{IsFirstFault};
ghost use Rattle.osc_script.specs.Written.{IsWritable, numbered, written};
ghost use Rattle.osc_script.specs.Generated.{drawn_acts, generated_acts, generated_script};

/// A line feed ends a line; one carriage return right before it is no part of the line; a last line
/// without a line feed stands as it is.
pub fn lines_end_at_line_feeds()
    ensures ended { (line rest : List ℕ) → All (λ byte. is_line_feed byte ≡ false) line
        → lines_of (line ++ 10 ∷ rest) ≡ without_return line ∷ lines_of rest }
    ensures returned { (line : List ℕ) → without_return (line ++ 13 ∷ []) ≡ line }
    ensures last { (line : List ℕ) → All (λ byte. is_line_feed byte ≡ false) line → 0 < length line
        → lines_of line ≡ line ∷ [] }
{}

/// Spaces stand between words, and it doesn't matter how many, nor whether some stand first or
/// last.
pub fn words_stand_between_spaces()
    ensures spaced { (text : List ℕ) → words_of (32 ∷ text) ≡ words_of text }
    ensures word { (word rest : List ℕ) → All (λ byte. is_space byte ≡ false) word → 0 < length word
        → words_of (word ++ 32 ∷ rest) ≡ word ∷ words_of rest }
    ensures last { (word : List ℕ) → All (λ byte. is_space byte ≡ false) word → 0 < length word
        → words_of word ≡ word ∷ [] }
{}

/// What a script that isn't refused holds: addresses that are lawful, moments of 64 bits, and no
/// more lines than bytes.
pub fn scripts_are_lawful()
    ensures lawful { (mode : Mode) (bytes : List ℕ) → IfOk (script_of mode bytes) AreLawful }
    ensures few { (mode : Mode) (bytes : List ℕ)
        → IfOk (script_of mode bytes) (λ lines. length lines ≤ length bytes) }
    ensures short { (mode : Mode) (bytes : List ℕ)
        → IfOk (script_of mode bytes) (λ _. length bytes ≤ MAX_SCRIPT) }
{}

/// What is read is of its mode: lane 0, or one of the lanes in mode `Lanes`, and only adds in mode
/// `Serve`.
pub fn lines_are_of_their_mode()
    ensures { (mode : Mode) (bytes : List ℕ) → IfOk (script_of mode bytes) (AreOf mode) }
{}

/// A fault is of the first line that is neither lawful nor skipped, or there are too many bytes.
pub fn first_fault_decides()
    ensures { (mode : Mode) (bytes : List ℕ) (fault : ScriptFault)
        → script_of mode bytes ≡ Err fault → 0 < fault.line → IsFirstFault mode bytes fault }
{}

/// The words decide in this order: the word itself, how many words follow it, and only then what
/// they are.
pub fn words_are_counted_first()
    ensures unknown { (word : List ℕ) (operands : List (List ℕ)) → is_known word ≡ false
        → act_of word operands ≡ Err kinds.Word }
    ensures counted { (word : List ℕ) (operands : List (List ℕ)) → is_known word ≡ true
        → has_count word (length operands) ≡ false → act_of word operands ≡ Err kinds.Count }
{}

/// In mode `Lanes` the lane decides first, whatever follows it. Then there has to be a word, and
/// from it on the line says what it says in mode `Plain`.
pub fn lanes_come_first()
    ensures lane { (word : List ℕ) (words : List (List ℕ)) → lane_of word ≡ None
        → said_of Lanes word words ≡ Err kinds.Lane }
    ensures bare { (word : List ℕ) (lane : ℕ) → lane_of word ≡ Some lane
        → said_of Lanes word [] ≡ Err kinds.Count }
    ensures later { (word next : List ℕ) (words : List (List ℕ)) (lane : ℕ)
        → lane_of word ≡ Some lane
        → said_of Lanes word (next ∷ words) ≡ on_lane lane (act_of next words) }
{}

/// A lane is written in decimal, and in no other way.
pub fn lanes_are_decimal()
    ensures written { (lane : ℕ) → lane < MAX_LANES → lane_of (decimal lane) ≡ Some lane }
    ensures read { (word : List ℕ) (lane : ℕ) → lane_of word ≡ Some lane
        → (lane < MAX_LANES) × (word ≡ decimal lane) }
{}

/// In mode `Serve` an `add` says what it says in the others. Any other line is refused: by its
/// word, then by how many words follow it, and only then because it isn't lawful there.
pub fn serve_takes_adds_alone()
    ensures add { (word : List ℕ) (operands : List (List ℕ)) → bytes_eq word (codes "add") ≡ true
        → served_of word operands ≡ act_of word operands }
    ensures unknown { (word : List ℕ) (operands : List (List ℕ)) → is_known word ≡ false
        → served_of word operands ≡ Err kinds.Word }
    ensures counted { (word : List ℕ) (operands : List (List ℕ)) → is_known word ≡ true
        → has_count word (length operands) ≡ false → served_of word operands ≡ Err kinds.Count }
    ensures refused { (word : List ℕ) (operands : List (List ℕ)) → is_known word ≡ true
        → has_count word (length operands) ≡ true → bytes_eq word (codes "add") ≡ false
        → served_of word operands ≡ Err kinds.NotHere }
{}

/// A `send` has an even number of hexadecimal digits, and a `tick` 16.
pub fn operands_are_digits()
    ensures packet { (words : List (List ℕ))
        → (IsOk (packet_of words)
        ↔ ((length (concat words) % 2 ≡ 0) × AllPass is_hex_digit (concat words))) }
    ensures moment { (word : List ℕ)
        → (IsOk (moment_of (word ∷ [])) ↔ ((length word ≡ 16) × AllPass is_hex_digit word)) }
{}

/// Bytes and moments that are written in digits of either case are read again.
pub fn written_is_read_again()
    ensures lower { (bytes : List ℕ) → IsBytes bytes
        → packet_of (encode_lower bytes ∷ []) ≡ Ok bytes }
    ensures upper { (bytes : List ℕ) → IsBytes bytes
        → packet_of (encode_upper bytes ∷ []) ≡ Ok bytes }
    ensures moment { (moment : ℕ) → moment < 2 ^ 64
        → moment_of (encode_lower (to_be_bytes w64 moment) ∷ []) ≡ Ok moment }
{}

/// A script of acts, a line each, is read as these acts, and the lines are counted from 1.
#[tactic(auto, using(crate::proofs::Again::script_again))]
pub fn written_scripts_are_read_again()
    ensures { (acts : List Act) → AllByRecursion IsWritable acts
        → length (written acts) ≤ MAX_SCRIPT
        → script_of Plain (written acts) ≡ Ok (numbered 1 acts) }
{}

/// A generated script has as many lines as it was asked for, and is read as the acts that were
/// drawn.
#[tactic(auto, using(crate::proofs::DrawnAgain::drawn_again, crate::proofs::DrawnAgain::so_many))]
pub fn generated_scripts_are_read_again()
    ensures again { (seed lines : ℕ) → lines ≤ MAX_GENERATED_LINES
        → script_of Plain (generated_script seed lines)
        ≡ Ok (numbered 1 (generated_acts seed lines)) }
    ensures many { (seed lines : ℕ) → length (generated_acts seed lines) ≡ lines }
{}

/// Each kind of fault, skipped lines, operands, and lines that are drawn.
pub fn examples()
    ensures address { script_of Plain (codes "add foo") ≡ Err (record { line = 1; kind = 4 }) }
    ensures word { script_of Plain (codes "jump") ≡ Err (record { line = 1; kind = 2 }) }
    ensures odd { script_of Plain (codes "send 123") ≡ Err (record { line = 1; kind = 5 }) }
    ensures digits { script_of Plain (codes "tick 5") ≡ Err (record { line = 1; kind = 6 }) }
    ensures few { script_of Plain (codes "add") ≡ Err (record { line = 1; kind = 3 }) }
    ensures many { script_of Plain (codes "pump now") ≡ Err (record { line = 1; kind = 3 }) }
    ensures unknown { script_of Plain (codes "jump now") ≡ Err (record { line = 1; kind = 2 }) }
    ensures skipped { script_of Plain (codes "# show\n\nadd   /a" ++ 13 ∷ 10 ∷ [])
        ≡ Ok (record { number = 3; lane = 0; act = Add (codes "/a") } ∷ []) }
    ensures bare { script_of Plain (codes "send")
        ≡ Ok (record { number = 1; lane = 0; act = Send [] } ∷ []) }
    ensures second { script_of Plain (codes "pump\nadd foo\njump\n")
        ≡ Err (record { line = 2; kind = 4 }) }
    ensures read { script_of Plain (codes " send  2F61 00 \n  \ntick 0000000000000105\npump")
        ≡ Ok (record { number = 1; lane = 0; act = Send (47 ∷ 97 ∷ 0 ∷ []) }
        ∷ record { number = 3; lane = 0; act = Tick 261 }
        ∷ record { number = 4; lane = 0; act = Pump } ∷ []) }
    ensures lanes { script_of Lanes
        (codes "0 add /a\n1 send 2f610000\n 15  pump\n1 send 2F620000\n")
        ≡ Ok (record { number = 1; lane = 0; act = Add (codes "/a") }
        ∷ record { number = 2; lane = 1; act = Send (47 ∷ 97 ∷ 0 ∷ 0 ∷ []) }
        ∷ record { number = 3; lane = 15; act = Pump }
        ∷ record { number = 4; lane = 1; act = Send (47 ∷ 98 ∷ 0 ∷ 0 ∷ []) } ∷ []) }
    ensures no_lane { script_of Lanes (codes "add /a") ≡ Err (record { line = 1; kind = 7 }) }
    ensures above { script_of Lanes (codes "16 jump") ≡ Err (record { line = 1; kind = 7 }) }
    ensures zeros { script_of Lanes (codes "01 pump") ≡ Err (record { line = 1; kind = 7 }) }
    ensures alone { script_of Lanes (codes "0") ≡ Err (record { line = 1; kind = 3 }) }
    ensures served { script_of Serve (codes "# show\nadd /a")
        ≡ Ok (record { number = 2; lane = 0; act = Add (codes "/a") } ∷ []) }
    ensures not_here { script_of Serve (codes "pump") ≡ Err (record { line = 1; kind = 8 }) }
    ensures undigested { script_of Serve (codes "send 123") ≡ Err (record { line = 1; kind = 8 }) }
    ensures uncounted { script_of Serve (codes "pump now") ≡ Err (record { line = 1; kind = 3 }) }
    ensures generated { generated_script 1 3 ≡ codes "add /g0/n0\nadd /g1/n0\nadd /g2/n0\n" }
    ensures drawn { written (drawn_acts 2 2 1)
        ≡ codes "send 2f67312f2a0000002c690000000534cc\npump\n" }
{}
