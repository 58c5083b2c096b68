//! What a printed history says, and that it says the same where the recording may be larger. Old
//! recordings are formed, and one malformed place at most is reported. These functions do nothing;
//! their contracts are the laws.
ghost use Rattle.std.specs.Prelude.{◌≡◌, ◌≤◌, ℕ, List, [], ◌∷◌};
ghost use Rattle.osc_model.specs.Limits.{Limits, max_recording};
ghost use Rattle.osc_model.specs.Samples.{least_limits};
ghost use Rattle.osc_model.specs.Events.{Entry, enrol, callers_full};
ghost use Rattle.osc_model.specs.History.{Legal};
ghost use Rattle.osc_replay.specs.Room.{PrintsTheSameIn};
ghost use Rattle.osc_replay.specs.Printed.{PrintsEntry};
ghost use Rattle.osc_model.specs.Recordings.{record_text};
ghost use Rattle.osc_replay.specs.Disagreeing.{DisagreesAt, IsRecordingOf};
ghost use Rattle.osc_replay.specs.Formed.{IsFormed, IsUnformedAt};
ghost use Rattle.osc_replay.specs.Old.{IsOldFormed, IsOldUnformedAt, OldLegal};

/// An entry prints its line and one call line for each of its invocations, each of a method that
/// was registered before the entry and whose address the pattern of the message matches.
pub fn printed_calls_are_of_matching_methods()
    ensures { (caps : Limits) (before behind : List Entry) (entry : Entry)
        → PrintsEntry caps before entry behind }
{
    osc_model::laws::invocations_are_of_registered_methods();
}

/// A legal history is legal too where its recording may have more bytes, and prints the same lines,
/// those of what was refused among them. So what is printed of a history that goes on from it
/// begins with these lines. It isn't so with more of anything else: a caller for whom there was no
/// place has one where there may be two.
pub fn a_larger_recording_prints_the_same()
    ensures same { (room : ℕ) (caps : Limits) (history : List Entry) → caps.recording ≤ room
        → room ≤ max_recording → Legal caps history → PrintsTheSameIn room caps history }
    ensures one_caller { Legal (least_limits 1 1000)
        (record { caller = 0; event = enrol; answer = callers_full } ∷ []) }
    ensures two_callers { ¬ Legal (least_limits 2 1000)
        (record { caller = 0; event = enrol; answer = callers_full } ∷ []) }
{}

/// A history that a server of the first version gave is formed: its entries can be recorded in that
/// version and fit the limit. So each recording of then can be upgraded, where it isn't too large
/// as one of today.
pub fn an_old_history_is_formed()
    ensures { (caps : Limits) (history : List Entry) → OldLegal caps history
        → IsOldFormed caps history }
{
    osc_pattern::laws::tests_are_exact();
    osc_tree::laws::the_matching_methods_ascend();
    osc_model::laws::a_server_stays_sound();
    osc_model::laws::all_are_delivered();
}

/// Bytes stop being a recording at one place at most, and those of a recording at none.
pub fn a_malformed_place_is_the_only_one()
    ensures place { (bytes : List ℕ) (one two : ℕ) → IsUnformedAt bytes one
        → IsUnformedAt bytes two → one ≡ two }
    ensures none { (bytes : List ℕ) (at : ℕ) (caps : Limits) (entries : List Entry)
        → IsFormed caps entries → bytes ≡ record_text caps entries → ¬ IsUnformedAt bytes at }
    ensures old { (bytes : List ℕ) (one two : ℕ) → IsOldUnformedAt bytes one
        → IsOldUnformedAt bytes two → one ≡ two }
{}

/// The entry that the server doesn't give is one at most, with the bytes that are kept and those
/// that are computed. Where one is there, no place is malformed and the bytes record no legal
/// history.
pub fn a_disagreeing_entry_is_the_only_one()
    ensures entry { (bytes : List ℕ) (one two : ℕ) (kept own computed given : List ℕ)
        → DisagreesAt bytes one kept computed → DisagreesAt bytes two own given
        → (one ≡ two) × (kept ≡ own) × (computed ≡ given) }
    ensures formed { (bytes : List ℕ) (one at : ℕ) (kept computed : List ℕ)
        → DisagreesAt bytes one kept computed → ¬ IsUnformedAt bytes at }
    ensures none { (bytes : List ℕ) (one : ℕ) (kept computed : List ℕ) (caps : Limits)
        (history : List Entry) → DisagreesAt bytes one kept computed
        → ¬ IsRecordingOf bytes caps history }
{
    osc_model::laws::a_legal_history_is_recordable();
}
