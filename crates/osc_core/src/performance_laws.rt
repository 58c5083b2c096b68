// What the laws say of a server that is played and recorded.
ghost use Rattle.std.specs.Prelude.{◌≡◌, ◌+◌, ◌<◌, ◌≤◌, ℕ, List, true, length};
ghost use Rattle.osc_model.specs.State.{State};
ghost use Rattle.osc_model.specs.Events.{Event, Answer, adds_entry, release};
ghost use Rattle.osc_model.specs.Recordings.{entry_size};
ghost use Rattle.osc_model.specs.Refusals.{IsRefusal};
ghost use Rattle.osc_model.specs.Step.{decided};
ghost use Rattle.osc_model.specs.Heard.{Told};
ghost use Rattle.osc_model.specs.History.{IsLawful, Performance, state_of, stepped_in, onward};
ghost use Rattle.osc_model.specs.History.{HaveHeard};
ghost use Rattle.osc_record.specs.Writing.{Recording, recording_text};
ghost use Rattle.osc_core.specs.Playing.{IsPlaying, AreSmall, IsFull, IsPlayed, IsQuiet};
ghost use Rattle.osc_core.specs.Playing.{performance_of};

use osc_model::laws;
use osc_record::laws as recordings;

/// The numbers of a server that is played and recorded are small. Where there is no room for an
/// event's entry, all stays; else the event is answered by the server's rules, and its entry can be
/// appended. An event that is refused leaves the tables.
pub(crate) fn a_performance_is_played()
    ensures small { (server : State) (recorder : Recording) (entries : ℕ)
        → IsPlaying server recorder entries → AreSmall server entries }
    ensures full { (server : State) (recorder : Recording) (entries caller : ℕ) (event : Event)
        (need free : ℕ) → IsPlaying server recorder entries
        → adds_entry (decided server event).answer ≡ true →
        need ≡ entry_size event (decided server event).answer
        → free + length (recording_text recorder) ≡ recorder.caps.recording → free < need
        → IsFull (performance_of recorder) caller event need free }
    ensures played { (server : State) (recorder : Recording) (entries caller : ℕ) (event : Event)
        (answer : Answer) → IsPlaying server recorder entries
        → caller < (state_of (performance_of recorder)).callers → IsLawful event →
        answer ≡ (decided server event).answer → adds_entry answer ≡ true
        → length (recording_text recorder) + entry_size event answer ≤ recorder.caps.recording
        → IsPlayed server recorder entries caller event answer }
    ensures refused { (server : State) (recorder : Recording) (entries caller : ℕ) (event : Event)
        (answer : Answer) → IsPlaying server recorder entries
        → caller < (state_of (performance_of recorder)).callers → IsLawful event →
        answer ≡ (stepped_in (performance_of recorder) event).answer → IsRefusal answer
        → adds_entry answer ≡ true
        → IsPlayed server recorder entries caller event answer
        × ((decided server event).state ≡ server) }
{
    laws::a_server_stays_sound();
    laws::a_performance_goes_on();
    laws::a_legal_history_is_recordable();
    laws::a_full_recording_refuses();
    recordings::sizes();
}

/// An event that doesn't speak of methods leaves them, and what their boxes have heard; and so does
/// each that is refused.
pub(crate) fn boxes_stay()
    ensures quiet { (performance : Performance) (caller : ℕ) (event : Event) (boxes : List Told)
        → IsQuiet event → HaveHeard performance boxes
        → HaveHeard (onward performance caller event) boxes }
    ensures refused { (performance : Performance) (caller : ℕ) (event : Event) (boxes : List Told)
        → IsRefusal (stepped_in performance event).answer → HaveHeard performance boxes
        → HaveHeard (onward performance caller event) boxes }
    ensures quiet_methods { (performance : Performance) (caller : ℕ) (event : Event) → IsQuiet event
        → (state_of (onward performance caller event)).methods ≡ (state_of performance).methods }
    ensures refused_methods { (performance : Performance) (caller : ℕ) (event : Event)
        → IsRefusal (stepped_in performance event).answer
        → (state_of (onward performance caller event)).methods ≡ (state_of performance).methods }
    ensures release_methods { (performance : Performance) (caller : ℕ)
        → (state_of (onward performance caller release)).methods ≡ (state_of performance).methods }
    ensures caps { (performance : Performance) (caller : ℕ) (event : Event)
        → (onward performance caller event).caps ≡ performance.caps }
{
    laws::a_refusal_changes_nothing();
    laws::a_performance_goes_on();
    laws::boxes_hear_the_history();
}
