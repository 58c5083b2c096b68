//! What the definitions say of examples, and of a recording with room enough.
ghost use Rattle.std.specs.Prelude.{◌≡◌, ◌≤◌, ◌<◌, ◌+◌, ◌*◌, ◌∷◌, [], ℕ, Bool, List, IsOkAnd};
ghost use Rattle.std.specs.Prelude.{codes, length, map};
ghost use Rattle.std.specs.List.{AllByRecursion};
ghost use Rattle.osc_model.specs.Limits.{Limits};
ghost use Rattle.osc_model.specs.Events.{Entry, added};
ghost use Rattle.osc_core.specs.Standing.{mark_of};
ghost use Rattle.osc_turn.specs.declared.view.Entry.{Entry as Seen};
ghost use Rattle.osc_turn.specs.History.{StartsWith};
ghost use Rattle.osc_live.specs.Resuming.{HasMarkOf, added_in};
ghost use Rattle.osc_life.specs.Holders.{Holder};
ghost use Rattle.osc_lanes.specs.Shares.{Account, PlaysAct, known_of};
ghost use Rattle.osc_script.specs.declared.act.Act.TheVariants.{Add};
ghost use Rattle.osc_script.specs.declared.line.Line.{Line};
ghost use Rattle.osc_script.specs.declared.mode.Mode.TheVariants.{Lanes};
ghost use Rattle.osc_script.specs.Scripts.{script_of};
ghost use Rattle.osc_ends.specs.declared.outcome.Outcome.{Outcome};
ghost use Rattle.osc_ends.specs.declared.outcome.Outcome.TheVariants.{Done};
ghost use Rattle.osc_top.specs.Enough.{enough_lanes};
ghost use Rattle.osc_top.specs.Lanes.{parts_of, PlaysLanes};
ghost use Rattle.osc_top.specs.Resumed.{PlaysResumed};

use osc_method::Method;

/// Three lines of three lanes, of which one has no line, and a bank of three boxes, of which one is
/// left.
pub fn lines_are_dealt_to_their_lanes()
    ensures { IsOkAnd (script_of Lanes (codes "0 add /a\n2 add /b\n0 pump\n"))
        (λ lines. map {B = List ℕ × List ℕ}
        (λ part. (map (λ line. line.number) part.lines, part.boxes))
        (parts_of lines (7 ∷ 8 ∷ 9 ∷ []))
        ≡ (1 ∷ 3 ∷ [], 7 ∷ []) ∷ ([], []) ∷ (2 ∷ [], 8 ∷ []) ∷ []) }
{}

/// The header of 60 bytes, the enrolments of two lanes, an add, a send, its release, and a call.
pub fn what_is_enough_for_two_lanes()
    ensures { IsOkAnd (script_of Lanes (codes "0 add /a\n1 send 2f610000 2c000000\n"))
        (λ lines. enough_lanes lines ≡ 60 + 28 * 2 + (44 + 60) + 44 + 8) }
{}

/// A recording of as many bytes as `enough_lanes` says stops no lane of a script.
pub fn enough_room_stops_no_lane<M: Method>()
    ensures { (caps : Limits) (watched : Bool) (lines : List Line) (bank : List M)
        (boxes_heard : List (ℕ × M)) (boxes_left : List M) (recording : List ℕ) (text : List ℕ)
        (outcome : Outcome)
        → PlaysLanes M.keep M.heard caps watched bank boxes_heard boxes_left lines recording text
        outcome
        → enough_lanes lines ≤ caps.recording → outcome ≡ Done }
{
    osc_lanes::laws::enough_room_never_stops::<M>();
}

/// Each method that a past adds has the bank's box in the place of its id, whether the past removes
/// it or not.
pub fn methods_of_a_past_have_the_first_boxes<M: Method>()
    ensures { (caps : Limits) (before : List Entry) (bank : List M) (boxes_heard : List (ℕ × M))
        (boxes_left : List M) (lines : List Line) (recording : List ℕ) (text : List ℕ)
        (outcome : Outcome)
        → PlaysResumed M.keep M.heard caps before bank boxes_heard boxes_left lines recording text
        outcome
        → added_in before ≤ length bank
        → AllByRecursion (λ one. one.0 < added_in before → HasMarkOf M.keep M.heard bank one)
        boxes_heard }
{
    osc_model::laws::a_server_stays_sound();
    osc_model::laws::a_legal_history_is_recordable();
    osc_record::laws::a_written_entry_is_read_again();
}

/// Where a line adds a method, the box that is kept under its id has the mark of the line's box: on
/// a new server, and on one that goes on from a past, of the ids that the past didn't give.
pub fn methods_of_lines_have_their_boxes<M: Method>()
    ensures new { (caps : Limits) (watched : Bool) (lines : List Line) (bank : List M)
        (boxes_heard : List (ℕ × M)) (boxes_left : List M) (recording text : List ℕ)
        (outcome : Outcome) (holder : Holder) (number : ℕ) (address : List ℕ)
        (boxes left : List M) (account : Account M) (here there : List Seen) (id : ℕ)
        → (plays : PlaysLanes M.keep M.heard caps watched bank boxes_heard boxes_left lines
        recording text outcome)
        → (act : PlaysAct M.keep M.heard holder number (Add address) boxes left account here there)
        → act.1 ≡ added id → StartsWith plays.performs.history there
        → AllByRecursion (λ one. one.0 ≡ id → mark_of (known_of M.keep M.heard id one.1)
        ≡ mark_of (known_of M.keep M.heard id act.0)) boxes_heard }
    ensures later { (caps : Limits) (before : List Entry) (lines : List Line) (bank : List M)
        (boxes_heard : List (ℕ × M)) (boxes_left : List M) (recording text : List ℕ)
        (outcome : Outcome) (holder : Holder) (number : ℕ) (address : List ℕ)
        (boxes left : List M) (account : Account M) (here there : List Seen) (id : ℕ)
        → (plays : PlaysResumed M.keep M.heard caps before bank boxes_heard boxes_left lines
        recording text outcome)
        → (act : PlaysAct M.keep M.heard holder number (Add address) boxes left account here there)
        → act.1 ≡ added id → StartsWith plays.performs.history there → added_in before ≤ id
        → AllByRecursion (λ one. one.0 ≡ id → mark_of (known_of M.keep M.heard id one.1)
        ≡ mark_of (known_of M.keep M.heard id act.0)) boxes_heard }
{
    osc_model::laws::a_server_stays_sound();
    osc_model::laws::a_legal_history_is_recordable();
    osc_record::laws::a_written_entry_is_read_again();
}
