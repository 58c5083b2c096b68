// What the server stands for, where a turn keeps it: the texts of its entries, with the marks of
// its boxes.
ghost use Rattle.std.specs.Prelude.{◌≡◌, ◌<◌, ℕ, List, [], ◌∷◌, ◌++◌};
ghost use Rattle.osc_turn.specs.Jobs.{StandsNext};
ghost use Rattle.osc_model.specs.Events.{Event, added, adds_entry, Invocation};
ghost use Rattle.osc_model.specs.Heard.{Told, reset, all_hear, without_id};
ghost use Rattle.osc_model.specs.History.{IsLawful, Performance, state_of, stepped_in, onward};
ghost use Rattle.osc_model.specs.History.{HaveHeard};
ghost use Rattle.osc_core.specs.Standing.{StandsFor};

use crate::sequential::Core;
use osc_method::Method;
use osc_model::laws;
use osc_record::laws as recordings;
use osc_turn::Kept;

/// A server that stood for texts stands, after a caller's event, for one text more where the event
/// adds an entry, and else for the same texts, as long as its boxes have heard the history.
pub(crate) fn a_server_stands_for_more()
    ensures same { (performance : Performance) (caller : ℕ) (event : Event) (boxes : List Told)
        (texts : List (List ℕ)) → StandsFor performance boxes texts
        → caller < (state_of performance).callers → IsLawful event →
        HaveHeard (onward performance caller event) boxes
        → StandsNext (StandsFor (onward performance caller event) boxes)
        (adds_entry (stepped_in performance event).answer) texts }
    ensures called { (performance : Performance) (caller : ℕ) (event : Event)
        (invocations : List Invocation) (boxes : List Told) (texts : List (List ℕ))
        → StandsFor performance boxes texts → caller < (state_of performance).callers
        → IsLawful event →
        HaveHeard (onward performance caller event) (all_hear invocations boxes)
        → StandsNext (StandsFor (onward performance caller event) (all_hear invocations boxes))
        (adds_entry (stepped_in performance event).answer) texts }
    ensures fewer { (performance : Performance) (caller : ℕ) (event : Event) (id : ℕ)
        (boxes : List Told) (texts : List (List ℕ)) → StandsFor performance boxes texts
        → caller < (state_of performance).callers → IsLawful event →
        HaveHeard (onward performance caller event) (without_id id boxes)
        → StandsNext (StandsFor (onward performance caller event) (without_id id boxes))
        (adds_entry (stepped_in performance event).answer) texts }
    ensures more { (performance : Performance) (caller : ℕ) (event : Event) (told : Told)
        (boxes : List Told) (texts : List (List ℕ)) → StandsFor performance boxes texts
        → caller < (state_of performance).callers → IsLawful event →
        (stepped_in performance event).answer ≡ added told.id
        → HaveHeard (onward performance caller event) (boxes ++ reset told ∷ [])
        → StandsNext (StandsFor (onward performance caller event) (boxes ++ reset told ∷ []))
        (adds_entry (stepped_in performance event).answer) texts }
{
    laws::a_performance_goes_on();
    laws::a_legal_history_is_recordable();
    recordings::a_written_entry_is_read_again();
}

impl<M: Method> Kept for Core<M> {
    ghost use Rattle.osc_core.specs.Telling.{told};
    ghost use Rattle.osc_model.specs.Recordings.{header_text};
    ghost use Rattle.osc_core.specs.Standing as standing;
    ghost use Rattle.osc_core.specs.Standing.{StandsFor, texts_of};

    /// The texts of its entries, with the marks of its boxes.
    ghost stands = { λ core list.
        StandsFor core.performance (told M.keep M.heard core.boxes.items) list };

    /// The header of its recording.
    ghost kind = { λ core. header_text core.performance.caps };

    ghost history = { λ core.
        texts_of (told M.keep M.heard core.boxes.items) core.performance.history };

    ghost one_length = { λ core g h one two. standing.one_length core.performance _ g h one two };

    ghost short = { λ core h stands. stands.few };

    fn entries(&self) -> u64 {
        // What the server stands for is written anew from its history, which is legal.
        let _ = self.bytes();
        laws::a_legal_history_is_recordable();
        recordings::a_written_entry_is_read_again();
        Core::entries(self)
    }
}
