//! What the rules of the server say of every state and every history.
ghost use Rattle.std.specs.Prelude.{◌≡◌, ◌≢◌, ◌≤◌, ◌<◌, ◌+◌, ℕ, List, [], ◌∷◌, ◌++◌, length, map};
ghost use Rattle.std.specs.Prelude.{replicate, codes, true, false, All, None, Some};
ghost use Rattle.std.specs.Option.{option_map};
ghost use Rattle.std.specs.List.{AllByRecursion, Contains};
ghost use Rattle.std.specs.List.Sorted.{IsPermutation};
ghost use Rattle.osc_pattern.specs.Addresses.{IsAddress};
ghost use Rattle.osc_pattern.specs.Methods.{Method, IsMethodList};
ghost use Rattle.osc_packet.specs.Units.{TimedUnit, blocks, blocks_of};
ghost use Rattle.osc_method.specs.Heard.{last_of};
ghost use Rattle.osc_queue.specs.Timed.{unit_of, enter, IsInOrder, IsNewUnit};
ghost use Rattle.osc_tree.specs.Registry.{Registry, IsLawful as IsLawfulRegistry, IsNewId, without};
ghost use Rattle.osc_tree.specs.Registry.{address_by_id};
ghost use Rattle.osc_tree.specs.Adding.{IsAddable, add_refusal};
ghost use Rattle.osc_model.specs.Limits.{Limits, AreInRange};
ghost use Rattle.osc_model.specs.Samples.{least_limits};
ghost use Rattle.osc_model.specs.State.{State, Queued, AreNumbered, opening};
ghost use Rattle.osc_model.specs.Counts.{queued_blocks, free_bytes};
ghost use Rattle.osc_model.specs.Recordings.{IsRecordable, entry_size, record_text};
ghost use Rattle.osc_model.specs.Events.{Event, submit, add, remove, release, tick, enrol, added};
ghost use Rattle.osc_model.specs.Events.{removed, record_full, adds_entry, number, callers_full};
ghost use Rattle.osc_model.specs.Events.{units_full, pool_full, ticked, clock_back, Invocation};
ghost use Rattle.osc_model.specs.Events.{Entry};
ghost use Rattle.osc_model.specs.Enrolled.{callers_in};
ghost use Rattle.osc_model.specs.Step.{step, decided, leaves, waiting, numbered, kept};
ghost use Rattle.osc_model.specs.Step.{kept_numbered, late_count, enter_all};
ghost use Rattle.osc_model.specs.declared.late.Late.{Late};
ghost use Rattle.osc_model.specs.declared.late.Late.TheVariants.{Deliver, Discard};
ghost use Rattle.osc_model.specs.Releases.{ReleasesLeast, InvokesRegistered};
ghost use Rattle.osc_model.specs.Refusals.{IsRefusal};
ghost use Rattle.osc_model.specs.Passing.{entering, dropping, leaving, all_entering, all_leaving};
ghost use Rattle.osc_model.specs.Passing.{queued_in, released_in};
ghost use Rattle.osc_model.specs.Heard.{Told, reset, hear_all, all_hear, without_id, heard_of};
ghost use Rattle.osc_model.specs.Heard.{calls_bytes, IsWithin};
ghost use Rattle.osc_model.specs.History.{IsLawful, Legal, IsSound, IsCounted, IsInvokedIn, after};
ghost use Rattle.osc_model.specs.History.{invocations, Performance, state_of, invoked_in};
ghost use Rattle.osc_model.specs.History.{stepped_in, onward, HaveHeard};

use osc_pattern::laws as addresses;
use osc_tree::laws as trees;

/// What holds of a server at every moment holds at its opening, and each lawful event keeps it. So it holds after every
/// legal history.
pub fn a_server_stays_sound()
    ensures opening { (caps : Limits) → AreInRange caps → IsSound (opening caps) }
    ensures step { (state : State) (event : Event) → IsLawful event → IsSound state
        → IsSound (step state event).state }
    ensures after { (caps : Limits) (history : List Entry) → Legal caps history
        → IsSound (after (opening caps) history) }
    ensures counted { (caps : Limits) (history : List Entry) → Legal caps history
        → IsCounted (after (opening caps) history) }
{
    addresses::tests_are_exact();
    trees::an_added_method_is_lawful();
    trees::an_address_adds_its_new_nodes();
}

/// Units enter the queue each once, and none of those that waited is lost. Each that is kept takes its blocks.
pub fn units_enter_the_queue()
    ensures joined { (units queue : List Queued)
        → IsPermutation (units ++ queue) (enter_all units queue) }
    ensures blocks { (late : Late) (clock next : ℕ) (units : List TimedUnit) (queue : List Queued)
        → queued_blocks (enter_all (kept_numbered late clock next units) queue)
        ≡ blocks_of (kept late clock units) + queued_blocks queue }
{}

/// A number above those of all units is new. So units that enter under the next numbers keep the order, and their
/// numbers are below the next one after them.
pub fn units_keep_the_order()
    ensures new { (next : ℕ) (queue : List Queued) → AreNumbered next queue → IsNewUnit next queue }
    ensures one { (clock next : ℕ) (unit : TimedUnit) (queue : List Queued) → AreNumbered next queue
        → IsInOrder queue → IsInOrder (enter (waiting clock next unit) queue) }
    ensures one_number { (clock next : ℕ) (unit : TimedUnit) (queue : List Queued)
        → AreNumbered next queue → AreNumbered (next + 1) (enter (waiting clock next unit) queue) }
    ensures all { (late : Late) (clock next : ℕ) (units : List TimedUnit) (queue : List Queued)
        → AreNumbered next queue → IsInOrder queue
        → IsInOrder (enter_all (kept_numbered late clock next units) queue) }
    ensures all_numbers { (late : Late) (clock next : ℕ) (units : List TimedUnit)
        (queue : List Queued) → AreNumbered next queue
        → AreNumbered (next + length units)
        (enter_all (kept_numbered late clock next units) queue) }
{}

/// Each unit that enters is one more in the queue, and takes its blocks.
pub fn units_are_counted()
    ensures one { (unit : Queued) (queue : List Queued)
        → length (enter unit queue) ≡ 1 + length queue }
    ensures one_blocks { (unit : Queued) (queue : List Queued)
        → queued_blocks (enter unit queue) ≡ blocks unit.2 + queued_blocks queue }
    ensures all { (units queue : List Queued)
        → length (enter_all units queue) ≡ length units + length queue }
    ensures numbered { (clock next : ℕ) (units : List TimedUnit)
        → length (numbered clock next units) ≡ length units }
    ensures kept { (late : Late) (clock next : ℕ) (units : List TimedUnit)
        → length (kept_numbered late clock next units) ≡ length (kept late clock units) }
    ensures few { (late : Late) (clock : ℕ) (units : List TimedUnit)
        → length (kept late clock units) ≤ length units }
    ensures few_blocks { (late : Late) (clock : ℕ) (units : List TimedUnit)
        → blocks_of (kept late clock units) ≤ blocks_of units }
{}

/// Where late units are delivered, each unit is kept, under its number, and none is counted as late.
pub fn all_are_delivered()
    ensures kept { (clock : ℕ) (units : List TimedUnit) → kept Deliver clock units ≡ units }
    ensures numbered { (clock next : ℕ) (units : List TimedUnit)
        → kept_numbered Deliver clock next units ≡ numbered clock next units }
    ensures none { (state : State) (units : List TimedUnit) → state.caps.late ≡ Deliver
        → late_count state units ≡ 0 }
{}

/// Units that enter in two goes enter as in one.
pub fn units_enter_in_two_goes()
    ensures entered { (first more queue : List Queued)
        → enter_all (first ++ more) queue ≡ enter_all more (enter_all first queue) }
    ensures numbered { (clock next : ℕ) (first more : List TimedUnit)
        → numbered clock next (first ++ more)
        ≡ numbered clock next first ++ numbered clock (next + length first) more }
    ensures kept { (late : Late) (clock next : ℕ) (first more : List TimedUnit)
        → kept_numbered late clock next (first ++ more)
        ≡ kept_numbered late clock next first
        ++ kept_numbered late clock (next + length first) more }
{}

/// An address that isn't refused can be added. Where it is added under a new id, and where a method is removed, the
/// methods stay lawful.
pub fn methods_stay_lawful()
    ensures addable { (tree : Registry) (address : List ℕ) → IsLawfulRegistry tree
        → add_refusal tree address ≡ None → IsAddable tree address }
    ensures new_id { (next : ℕ) (methods : List Method) → All (λ method. method.id < next) methods
        → IsNewId methods next }
    ensures more { (tree : Registry) (id : ℕ) (address : List ℕ) → IsLawfulRegistry tree
        → IsNewId tree.methods id → IsAddress address → add_refusal tree address ≡ None
        → IsLawfulRegistry
        (record tree { methods = tree.methods ++ record { id = id; address = address } ∷ [] }) }
    ensures fewer { (tree : Registry) (address : List ℕ) → IsLawfulRegistry tree
        → IsLawfulRegistry (record tree { methods = without tree.methods address }) }
    ensures found { (methods : List Method) (method : Method) → IsMethodList methods
        → Contains methods method → address_by_id methods method.id ≡ Some method.address }
{
    trees::an_added_method_is_lawful();
    trees::an_address_adds_its_new_nodes();
}

/// A release takes the unit that is least by due moment and number, where it is due and there is room for the entry,
/// and leaves exactly the others.
pub fn a_release_takes_the_least_unit()
    ensures step { (state : State) → IsInOrder state.queue
        → ReleasesLeast state (step state release) }
    ensures after { (caps : Limits) (history : List Entry) → Legal caps history
        → ReleasesLeast (after (opening caps) history)
        (step (after (opening caps) history) release) }
{
    a_server_stays_sound();
}

/// No unit is lost, and none is released twice: those that waited and those that are queued are, each once, those that
/// are released and those that wait then. The answers tell their numbers: each that is given is once that of a unit
/// that is queued, or of one that is dropped.
pub fn no_unit_is_lost()
    ensures step { (state : State) (event : Event)
        → IsPermutation (state.queue ++ entering state event)
        (leaving state event ++ (step state event).state.queue) }
    ensures history { (state : State) (history : List Entry)
        → IsPermutation (state.queue ++ all_entering state history)
        (all_leaving state history ++ (after state history).queue) }
    ensures entering { (state : State) (event : Event)
        → IsPermutation (queued_in (step state event).answer)
        (map (λ unit. unit_of unit) (entering state event)
        ++ map (λ unit. unit_of unit) (dropping state event)) }
    ensures leaving { (state : State) (event : Event)
        → map (λ unit. unit_of unit) (leaving state event) ≡ released_in (step state event).answer }
{}

/// The clock never goes back.
pub fn the_clock_never_goes_back()
    ensures step { (state : State) (event : Event) → state.clock ≤ (step state event).state.clock }
    ensures after { (state : State) (history : List Entry)
        → state.clock ≤ (after state history).clock }
{}

/// An event that is refused changes nothing but that its entry is recorded, and invokes nothing. Where nothing is due
/// and where there is no room for the entry, all stays.
pub fn a_refusal_changes_nothing()
    ensures state { (state : State) (event : Event) → IsRefusal (step state event).answer
        → (step state event).state ≡ record state { recorded = (step state event).state.recorded } }
    ensures all { (state : State) (event : Event) → adds_entry (step state event).answer ≡ false
        → (step state event).state ≡ state }
    ensures silent { (state : State) (event : Event) → IsRefusal (step state event).answer
        → (step state event).invocations ≡ [] }
{}

/// An id is given once: an added method has the next id, and each later one a greater.
pub fn an_id_is_given_once()
    ensures next { (state : State) (event : Event) (id : ℕ) → (step state event).answer ≡ added id
        → (id ≡ state.next_id) × ((step state event).state.next_id ≡ id + 1) }
    ensures grows { (state : State) (history : List Entry)
        → state.next_id ≤ (after state history).next_id }
    ensures given { (state : State) (history : List Entry)
        → All (λ method. method.id < state.next_id) state.methods
        → All (λ method. method.id < (after state history).next_id) (after state history).methods }
{}

/// Every invocation, of a step and of a whole history, is of a method that was registered before the release and whose
/// address the pattern of the message matches; and the message is one of the unit that was released.
pub fn invocations_are_of_registered_methods()
    ensures step { (state : State) (event : Event) → InvokesRegistered state (step state event) }
    ensures history { (state : State) (history : List Entry)
        → AllByRecursion (IsInvokedIn state history) (invocations state history) }
{
    addresses::tests_are_exact();
    trees::the_matching_methods_ascend();
}

/// A box hears the calls of its id in their order, and keeps the last bytes of them after what it had heard. So a box
/// that was reset has then heard the last bytes of these calls.
pub fn a_box_hears_its_calls()
    ensures calls { (told : Told) (invocations : List Invocation) → IsWithin told
        → hear_all invocations told
        ≡ record told {
          heard = option_map
              (λ bytes. last_of told.keep.most (bytes ++ calls_bytes invocations told.id))
              told.heard;
        } }
    ensures within { (told : Told) (invocations : List Invocation) → IsWithin told
        → IsWithin (hear_all invocations told) }
    ensures fresh { (told : Told) (invocations : List Invocation)
        → hear_all invocations (reset told)
        ≡ record told {
          heard = option_map
              (λ _. heard_of invocations told.id told.keep.most) told.heard;
        } }
    ensures on { (told : Told) (first more : List Invocation)
        → hear_all (first ++ more) told ≡ hear_all more (hear_all first told) }
{}

/// There is no room for an entry exactly where its bytes are more than the free ones. Then it is refused before all
/// else, and changes nothing; else the event is answered by the other rules, and the entry's bytes are recorded.
pub fn a_full_recording_refuses()
    ensures full { (state : State) (event : Event) → adds_entry (decided state event).answer ≡ true
        → free_bytes state < entry_size event (decided state event).answer →
        step state event
        ≡ leaves state
        (record_full
        (record {
          need = entry_size event (decided state event).answer;
          free = free_bytes state;
        })) }
    ensures room { (state : State) (event : Event) → adds_entry (decided state event).answer ≡ true
        → entry_size event (decided state event).answer ≤ free_bytes state →
        step state event
        ≡ record (decided state event) {
          state = record
              (decided state event).state {
                recorded = state.recorded
                    + entry_size event (decided state event).answer;
              };
        } }
    ensures nothing_due { (state : State) (event : Event)
        → adds_entry (decided state event).answer ≡ false → step state event ≡ decided state event }
{}

/// A performance goes on by a caller's event: its history stays legal, its state is the step's, and its invocations are
/// followed by those of the step.
pub fn a_performance_goes_on()
    ensures legal { (performance : Performance) (caller : ℕ) (event : Event)
        → Legal performance.caps performance.history → caller < (state_of performance).callers
        → IsLawful event →
        Legal performance.caps (onward performance caller event).history }
    ensures state { (performance : Performance) (caller : ℕ) (event : Event)
        → state_of (onward performance caller event) ≡ (stepped_in performance event).state }
    ensures invoked { (performance : Performance) (caller : ℕ) (event : Event)
        → invoked_in (onward performance caller event)
        ≡ invoked_in performance ++ (stepped_in performance event).invocations }
{}

/// The entries of a legal history can be recorded, each number within its argument; and as many bytes are recorded as
/// the recording's text has.
pub fn a_legal_history_is_recordable()
    ensures next { (performance : Performance) (caller : ℕ) (event : Event)
        → Legal performance.caps performance.history → caller < (state_of performance).callers
        → IsLawful event →
        adds_entry (stepped_in performance event).answer ≡ true
        → IsRecordable caller event (stepped_in performance event).answer }
    ensures all { (caps : Limits) (history : List Entry) → Legal caps history
        → AllByRecursion (λ entry. IsRecordable entry.caller entry.event entry.answer) history }
    ensures recorded { (caps : Limits) (history : List Entry) → Legal caps history
        → (after (opening caps) history).recorded ≡ length (record_text caps history) }
    ensures within { (caps : Limits) (history : List Entry) → Legal caps history
        → length (record_text caps history) ≤ caps.recording }
{
    addresses::tests_are_exact();
    trees::the_matching_methods_ascend();
    a_server_stays_sound();
}

/// The boxes of the registered methods have heard the history: none at its opening; an event that calls no box leaves
/// that so; a method that is added has heard nothing; one that is removed leaves; and those that are registered at a
/// release hear its invocations.
pub fn boxes_hear_the_history()
    ensures opening { (caps : Limits) → HaveHeard (record { caps = caps; history = [] }) [] }
    ensures others { (performance : Performance) (caller : ℕ) (event : Event) (boxes : List Told)
        → HaveHeard performance boxes
        → (stepped_in performance event).state.methods ≡ (state_of performance).methods →
        (stepped_in performance event).invocations ≡ []
        → HaveHeard (onward performance caller event) boxes }
    ensures added { (performance : Performance) (caller : ℕ) (address : List ℕ) (told : Told)
        (boxes : List Told) → Legal performance.caps performance.history
        → HaveHeard performance boxes →
        (stepped_in performance (add address)).answer ≡ added told.id
        → HaveHeard (onward performance caller (add address)) (boxes ++ reset told ∷ []) }
    ensures removed { (performance : Performance) (caller id : ℕ) (address : List ℕ)
        (boxes : List Told) → Legal performance.caps performance.history
        → HaveHeard performance boxes →
        (stepped_in performance (remove address)).answer ≡ removed id
        → HaveHeard (onward performance caller (remove address)) (without_id id boxes) }
    ensures released { (performance : Performance) (caller : ℕ) (boxes : List Told)
        → HaveHeard performance boxes →
        HaveHeard (onward performance caller release)
        (all_hear (stepped_in performance release).invocations boxes) }
{
    a_server_stays_sound();
    a_method_is_called_while_it_is_registered();
}

/// No invocation of an id stands before its method was added, nor after it was removed.
pub fn a_method_is_called_while_it_is_registered()
    ensures given { (caps : Limits) (history : List Entry) → Legal caps history
        → All (λ invocation. invocation.call.id < (after (opening caps) history).next_id)
        (invocations (opening caps) history) }
    ensures removed { (caps : Limits) (before later : List Entry) (entry : Entry) (id : ℕ)
        → Legal caps (before ++ entry ∷ later) → entry.answer ≡ removed id →
        All (λ invocation. invocation.call.id ≢ id)
        (invocations (after (opening caps) (before ++ entry ∷ [])) later) }
{
    a_server_stays_sound();
    an_id_is_given_once();
    invocations_are_of_registered_methods();
}

/// As many callers are enrolled as the history says, and no entry makes them fewer. A new caller has the last number.
pub fn callers_are_counted()
    ensures after { (caps : Limits) (history : List Entry) → Legal caps history
        → (after (opening caps) history).callers ≡ callers_in history }
    ensures grows { (history more : List Entry)
        → callers_in history ≤ callers_in (history ++ more) }
    ensures never_fall { (state : State) (history : List Entry) →
        state.callers ≤ (after state history).callers }
    ensures enrolled { (caps : Limits) (history : List Entry) (caller n : ℕ)
        → Legal caps
        (history ++ record { caller = caller; event = enrol; answer = number n } ∷ []) →
        (1 ≤ n) × (callers_in
        (history ++ record { caller = caller; event = enrol; answer = number n } ∷ []) ≡ n + 1) }
{}

/// The clock never goes back, and stands where a tick before it left it; callers are numbered up to their limit; a
/// message alone is queued where there is a place for it and blocks for its bytes, of which 64 take two.
pub fn examples()
    ensures early { (step (opening (least_limits 1 200))
        (tick 0)).answer ≡ clock_back 1 }
    ensures on { (step (opening (least_limits 1 200))
        (tick 5)).answer ≡ ticked }
    ensures full { (step (opening (least_limits 1 200))
        enrol).answer ≡ callers_full }
    ensures no_place { (step (step (opening (least_limits 1 200))
        (submit (codes "/a" ++ 0 ∷ 0 ∷ []))).state (submit (codes "/a" ++ 0 ∷ 0 ∷ []))).answer
        ≡ units_full (record { need = 1; free = 0 }) }
    ensures no_block { (step (opening (least_limits 1 200))
        (submit (codes "/a" ++ 0 ∷ 0 ∷ codes ",b"
        ++ 0 ∷ 0 ∷ 0 ∷ 0 ∷ 0 ∷ 52 ∷ replicate 52 0))).answer
        ≡ pool_full (record { need = 2; free = 1 }) }
    ensures second { (step (opening (least_limits 2 200))
        enrol).answer ≡ number 1 }
{}
