//! What a stage makes that carries another on, and what a chain of recordings is. The functions do
//! nothing; their contracts are the laws.
ghost use Rattle.std.specs.Prelude.{◌≡◌, ◌≤◌, ◌+◌, ◌*◌, ℕ, List, [], ◌∷◌, map, codes, Ok};
ghost use Rattle.osc_atoms.specs.Atoms.{AreBytes};
ghost use Rattle.osc_model.specs.Limits.{Limits};
ghost use Rattle.osc_model.specs.State.{opening};
ghost use Rattle.osc_model.specs.Samples.{usual_limits};
ghost use Rattle.osc_model.specs.Events.{Entry, tick, ticked};
ghost use Rattle.osc_model.specs.History.{Legal, after, invocations};
ghost use Rattle.osc_core.specs.Standing.{history_in};
ghost use Rattle.osc_turn.specs.declared.view.Entry.{Entry as Seen};
ghost use Rattle.osc_turn.specs.History.{texts, own};
ghost use Rattle.osc_script.specs.declared.act.Act.TheVariants.{Add, Pump};
ghost use Rattle.osc_script.specs.declared.line.Line.{Line};
ghost use Rattle.osc_script.specs.declared.mode.Mode.TheVariants.{Plain};
ghost use Rattle.osc_script.specs.Scripts.{script_of};
ghost use Rattle.osc_alike.specs.Alike.{address_of};
ghost use Rattle.osc_carry.specs.Carried.{carried, carried_size};
ghost use Rattle.osc_carry.specs.Leading.{with_room, played_on};
ghost use Rattle.osc_carry.specs.Waiting.{AreOfBytes};
ghost use Rattle.osc_life.specs.Holders.{holder_at};
ghost use Rattle.osc_lanes.specs.Performs.{Part, part_of, told_of};
ghost use Rattle.osc_lanes.specs.Shares.{Account, Plays};
ghost use Rattle.osc_links.specs.declared.run.Hosted.{Hosted};
ghost use Rattle.osc_links.specs.declared.served.Bounds.{Bounds};
ghost use Rattle.osc_links.specs.Hosts.{Hosts};
ghost use Rattle.osc_links.specs.Ticks.{ClockRead};
ghost use Rattle.osc_relay.specs.declared.relay.Relay.{Relay};
ghost use Rattle.osc_ends.specs.Sinks.{SinkChange};
ghost use Rattle.osc_stage.specs.declared.stage.Stage.{Stage};
ghost use Rattle.osc_stage.specs.declared.stage.Staged.{Staged};
ghost use Rattle.osc_stage.specs.Stages.{carried_on, AddsAtOwn, IsStaged, RecordsStage};
ghost use Rattle.osc_chain_laws.specs.Continuations.{Continues};
ghost use Rattle.osc_stage.specs.Lines.{acts_of, added_in};
ghost use Rattle.osc_chain_laws.specs.Openings.{StandAt, IsPlain, BeginsWith};
ghost use Rattle.osc_chain_laws.specs.Reels.{Reel, AreChained, PlaysAsOne, later_events, taken_by};
ghost use Rattle.osc_chain_laws.specs.Shows.{Scene, IsCarriedScript, TurnsOver, IsShow, IsChain};

use osc_edge::Link;
use osc_method::Method;
use osc_relay::{Outlet, Relay};

/// An opening does what carries the old server on, in that order, where its relays stand at the
/// addresses of the old methods, in their order. At these the carried lines add methods, and they
/// invoke nothing.
pub fn carried_lines_are_handed_in<O: Outlet>()
    ensures acts { (caps : Limits) (history : List Entry) (relays : List (Relay O ⟦<O as Outlet>⟧))
        → StandAt relays (after (opening caps) history)
        → acts_of (carried_on relays (carried caps history)).lines
        ≡ acts_of (carried caps history) }
    ensures addresses { (caps : Limits) (history : List Entry)
        → added_in (carried caps history) ≡ map address_of (after (opening caps) history).methods }
    ensures silent { (caps : Limits) (history : List Entry) (room : ℕ)
        → invocations (opening (with_room caps room)) (played_on caps history room).history ≡ [] }
{}

/// The lines take no more bytes of recording than the limits of the old server say.
pub fn the_limits_are_room_enough()
    ensures { (caps : Limits) (history : List Entry) → Legal caps history
        → carried_size (after (opening caps) history)
        ≤ 108 + 299 * caps.methods + 119 * caps.units + 64 * caps.blocks }
{
    osc_model::laws::a_server_stays_sound();
    osc_carry::laws::carrying_is_small();
}

/// Lines that caller 0 plays on a new server before anybody else has an entry make of it what they
/// make of a server on which there is nobody else.
pub fn lines_are_played_alone<M: Method>()
    ensures { (caps : Limits) (lines : List Line) (boxes : List M) (told : Account M)
        (opened : List Seen)
        → Plays M.keep M.heard (holder_at caps 0) lines boxes told [] opened
        → own 0 opened ≡ opened → IsPlain caps lines told (history_in (texts opened)) }
{}

/// So does the opening of a server with links. The history begins with its entries and with the
/// enrolments of the callers, whatever was done then.
pub fn an_opening_begins_the_history<M: Method, L: Link>()
    ensures plain { (caps : Limits) (bounds : Bounds) (part : Part M) (links : List L)
        (clock : ClockRead) (hosted : Hosted M L)
        → (hosts : Hosts L.left L.faults M.keep M.heard caps bounds part links clock hosted)
        → IsPlain caps part.lines (told_of hosted.opening) (history_in (texts hosts.opened)) }
    ensures begins { (caps : Limits) (bounds : Bounds) (part : Part M) (links : List L)
        (clock : ClockRead) (hosted : Hosted M L)
        → (hosts : Hosts L.left L.faults M.keep M.heard caps bounds part links clock hosted)
        → BeginsWith caps part.lines hosts.callers (history_in (texts hosts.history)) }
{}

/// A stage whose opening carries a legal history on has one history, which is recorded, and which
/// begins where that one ended, up to numbers. Its relays stand at the addresses of the old methods,
/// in their order, and its recording may have as many bytes as the lines take.
pub fn a_carried_stage_goes_on<O: Outlet, L: Link>()
    ensures { (caps : Limits) (old : List Entry) (room : ℕ)
        (relays : List (Relay O ⟦<O as Outlet>⟧)) (stage : Stage O L ⟦<O as Outlet>⟧)
        (clock : ClockRead) (staged : Staged O L ⟦<O as Outlet>⟧)
        → Legal caps old → AreOfBytes old → carried_size (after (opening caps) old) ≤ room
        → stage.caps ≡ with_room caps room → StandAt relays (after (opening caps) old)
        → part_of stage.opening ≡ carried_on relays (carried caps old)
        → IsStaged ⟦<Relay<O> as Method>⟧.keep ⟦<Relay<O> as Method>⟧.heard L.left L.faults stage
        clock staged
        → Continues caps old room staged }
{
    osc_carry::laws::a_history_is_carried_on();
}

/// In a chain of recordings each but the first begins with what carries the one before it on. They
/// have invoked together what one server invokes that has room enough: the same methods with the
/// same messages, in the same order and at the same moments.
pub fn chained_recordings_play_as_one()
    ensures { (caps : Limits) (first : List Entry) (reels : List Reel) → Legal caps first
        → AreChained caps first reels → PlaysAsOne caps first reels }
{
    osc_alike::laws::alike_servers_stay_alike();
    osc_carry::laws::a_chain_plays_as_one();
}

/// The stages of a show that turns over, each of which but the first carries the one before it on,
/// have recorded a chain. Each recording is that of one legal history that keeps the four laws; each
/// but the first begins with what was carried from the one before it; and they have invoked together
/// what one server invokes that has room enough.
pub fn a_show_is_a_chain<O: Outlet, L: Link>()
    ensures { (first : Scene O L ⟦<O as Outlet>⟧) (scenes : List (Scene O L ⟦<O as Outlet>⟧))
        → IsStaged ⟦<Relay<O> as Method>⟧.keep ⟦<Relay<O> as Method>⟧.heard L.left L.faults
        first.stage first.clock first.staged
        → IsShow ⟦<Relay<O> as Method>⟧.keep ⟦<Relay<O> as Method>⟧.heard L.left L.faults first
        scenes
        → IsChain first scenes }
{
    osc_carry::laws::a_history_is_carried_on();
    osc_model::laws::a_legal_history_is_recordable();
    osc_record::laws::texts_differ();
    chained_recordings_play_as_one();
}

/// A stage turns over to one whose opening is read from the script that `osc_carry::carry` gives of its
/// recording. Its relays stand where the lines add methods, in their order, which can be tested; the
/// limits are the same but for the recording's, and that is room enough.
pub fn a_carried_script_turns_over<O: Outlet, L: Link>()
    ensures { (last next : Scene O L ⟦<O as Outlet>⟧) (script : List ℕ) (lines : List Line)
        (relays : List (Relay O ⟦<O as Outlet>⟧))
        → IsStaged ⟦<Relay<O> as Method>⟧.keep ⟦<Relay<O> as Method>⟧.heard L.left L.faults
        last.stage last.clock last.staged
        → AreBytes last.staged.recording.items
        → IsCarriedScript last.staged.recording.items script → script_of Plain script ≡ Ok lines
        → part_of next.stage.opening ≡ carried_on relays lines
        → map (λ relay. relay.address) relays ≡ added_in lines
        → next.stage.caps ≡ with_room last.stage.caps next.stage.caps.recording
        → 108 + 299 * last.stage.caps.methods + 119 * last.stage.caps.units
        + 64 * last.stage.caps.blocks ≤ next.stage.caps.recording
        → TurnsOver last next }
{
    osc_model::laws::a_legal_history_is_recordable();
    osc_record::laws::texts_differ();
    osc_carry::laws::a_carried_script_leads_there();
    the_limits_are_room_enough();
}

/// So does one whose relays are those that the stage before it hands back, where that one's opening
/// added each at its own address: nothing has to be tested.
pub fn a_stage_turns_over<O: Outlet, L: Link>()
    ensures { (last next : Scene O L ⟦<O as Outlet>⟧) (rec : SinkChange) (script : List ℕ)
        (lines : List Line)
        → IsStaged ⟦<Relay<O> as Method>⟧.keep ⟦<Relay<O> as Method>⟧.heard L.left L.faults
        last.stage last.clock last.staged
        → RecordsStage ⟦<Relay<O> as Method>⟧.keep ⟦<Relay<O> as Method>⟧.heard O.sent O.losses
        last.stage last.staged rec
        → AddsAtOwn (part_of last.stage.opening)
        → AreBytes last.staged.recording.items
        → IsCarriedScript last.staged.recording.items script → script_of Plain script ≡ Ok lines
        → part_of next.stage.opening
        ≡ carried_on (map (λ one. one.1) last.staged.relays.items) lines
        → next.stage.caps ≡ with_room last.stage.caps next.stage.caps.recording
        → 108 + 299 * last.stage.caps.methods + 119 * last.stage.caps.units
        + 64 * last.stage.caps.blocks ≤ next.stage.caps.recording
        → TurnsOver last next }
{
    osc_model::laws::a_legal_history_is_recordable();
    osc_record::laws::texts_differ();
    osc_carry::laws::a_carried_script_leads_there();
    the_limits_are_room_enough();
}

/// A stage has one history: that which its callers have made is that which its relays have heard and
/// sent.
pub fn a_stage_has_one_history<O: Outlet, L: Link>()
    ensures { (stage : Stage O L ⟦<O as Outlet>⟧) (clock : ClockRead)
        (staged : Staged O L ⟦<O as Outlet>⟧) (rec : SinkChange)
        → (is : IsStaged ⟦<Relay<O> as Method>⟧.keep ⟦<Relay<O> as Method>⟧.heard L.left L.faults
        stage clock staged)
        → (records : RecordsStage ⟦<Relay<O> as Method>⟧.keep ⟦<Relay<O> as Method>⟧.heard O.sent
        O.losses stage staged rec)
        → history_in (texts is.hosts.history) ≡ records.history }
{
    osc_model::laws::a_legal_history_is_recordable();
    osc_record::laws::texts_differ();
}

/// Two lines of three add methods. And a clock that is carried on goes on in a second recording: what
/// carries it on isn't counted among the events there. Two ticks take 48 bytes each.
pub fn examples()
    ensures added { added_in
        (record { number = 1; lane = 0; act = Add (codes "/a") }
        ∷ record { number = 2; lane = 0; act = Pump }
        ∷ record { number = 3; lane = 0; act = Add (codes "/b") } ∷ [])
        ≡ codes "/a" ∷ codes "/b" ∷ [] }
    ensures since { later_events
        (usual_limits 2)
        (record { caller = 0; event = tick 5; answer = ticked } ∷ [])
        (record {
          room = 1048576;
          history = record { caller = 0; event = tick 5; answer = ticked }
              ∷ record { caller = 0; event = tick 7; answer = ticked } ∷ [];
        } ∷ [])
        ≡ tick 7 ∷ [] }
    ensures taken { (caps : Limits) → taken_by (opening caps) (tick 5 ∷ tick 7 ∷ []) ≡ 96 }
{}
