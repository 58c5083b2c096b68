//! What carrying a history on leads to, for all histories.
ghost use Rattle.osc_script.specs.declared.script.TheConstants.{MAX_SCRIPT};
ghost use Rattle.std.specs.Prelude.{◌≡◌, ◌≤◌, ◌+◌, ◌*◌, ℕ, length, List, [], ◌∷◌, ◌++◌, codes};
ghost use Rattle.osc_packet.specs.Known.{OfMessages};
ghost use Rattle.osc_model.specs.Limits.{Limits};
ghost use Rattle.osc_model.specs.State.{State, AreNumbered, opening};
ghost use Rattle.osc_model.specs.Counts.{queued_blocks};
ghost use Rattle.osc_model.specs.Events.{Entry};
ghost use Rattle.osc_model.specs.History.{Legal, after};
ghost use Rattle.osc_script.specs.declared.act.Act.TheVariants.{Send, Tick};
ghost use Rattle.osc_alike.specs.Alike.{AreAlike};
ghost use Rattle.osc_carry.specs.Carried.{packet_of, queue_acts, carried_script, carried_size};
ghost use Rattle.osc_carry.specs.Carried.{renewed};
ghost use Rattle.osc_carry.specs.Waiting.{AreOfBytes, HaveShort};
ghost use Rattle.osc_carry.specs.Leading.{CarriesOn, LeadsThere};
ghost use Rattle.osc_carry.specs.Chains.{Part, HaveRooms, ChainsAlike};

use osc_message::laws as messages;
use osc_model::laws as rules;

/// What the laws of messages say, as one.
pub(crate) fn known()
    ensures { OfMessages }
{
    messages::written_is_read_again();
    messages::texts_differ();
    messages::faults_are_first();
    messages::messages_begin_with_a_slash();
}

/// The size of each message that waits after a legal history has 32 bits.
pub(crate) fn a_waiting_unit_is_short()
    ensures { (caps : Limits) (history : List Entry) → Legal caps history → AreOfBytes history
        → HaveShort (after (opening caps) history).queue }
{
    known();
}

/// The lines that carry a legal history on bring a new server to where the old one is, up to
/// numbers, where its recording may have as many bytes as they take. Nothing is refused, and
/// nothing stops them.
pub fn a_history_is_carried_on()
    ensures { (caps : Limits) (history : List Entry) (room : ℕ)
        → Legal caps history → AreOfBytes history
        → carried_size (after (opening caps) history) ≤ room → CarriesOn caps history room }
{
    known();
    rules::a_server_stays_sound();
}

/// A script of these lines that isn't too long is read as them, so that it brings a new server
/// there, which then invokes what the old one would invoke.
pub fn a_carried_script_leads_there()
    ensures { (caps : Limits) (history : List Entry) (room : ℕ)
        → Legal caps history → AreOfBytes history
        → length (carried_script caps history) ≤ MAX_SCRIPT
        → carried_size (after (opening caps) history) ≤ room
        → LeadsThere (carried_script caps history) caps history room }
{
    known();
    rules::a_server_stays_sound();
    osc_pattern::laws::tests_are_exact();
    osc_script::laws::written_scripts_are_read_again();
    osc_alike::laws::alike_servers_stay_alike();
}

/// At most so many bytes are recorded of the lines.
pub fn carrying_is_small()
    ensures { (caps : Limits) (history : List Entry) → Legal caps history
        → carried_size (after (opening caps) history)
        ≤ 108 + 299 * length (after (opening caps) history).methods
        + 119 * length (after (opening caps) history).queue
        + 64 * queued_blocks (after (opening caps) history).queue }
{
    rules::a_server_stays_sound();
}

/// In a chain of recordings each begins with what carries the one before it on. Its servers invoke
/// together what one server invokes whose recording has no end: the same methods with the same
/// messages in the same order.
pub fn a_chain_plays_as_one()
    ensures alike { (room : ℕ) (state : State) → AreAlike state (renewed room state) }
    ensures chain { (ideal real : State) (parts : List Part)
        → AreNumbered ideal.next_unit ideal.queue → AreAlike ideal real
        → HaveRooms real parts → ChainsAlike ideal real parts }
{
    osc_alike::laws::alike_servers_stay_alike();
}

/// A message alone; a message of another tag; a unit without messages; and units that are due, from
/// a moment before the clock, at the clock, and after it.
pub fn examples()
    ensures alone { packet_of (record { tag = 1; messages = (codes "/a" ++ 0 ∷ 0 ∷ []) ∷ [] })
        ≡ codes "/a" ++ 0 ∷ 0 ∷ [] }
    ensures other { packet_of (record { tag = 3; messages = (codes "/a" ++ 0 ∷ 0 ∷ []) ∷ [] })
        ≡ codes "#bundle"
        ++ (0 ∷ 0 ∷ 0 ∷ 0 ∷ 0 ∷ 0 ∷ 0 ∷ 0 ∷ 3 ∷ 0 ∷ 0 ∷ 0 ∷ 4 ∷ [])
        ++ codes "/a" ++ (0 ∷ 0 ∷ []) }
    ensures empty { packet_of (record { tag = 1; messages = [] })
        ≡ codes "#bundle" ++ (0 ∷ 0 ∷ 0 ∷ 0 ∷ 0 ∷ 0 ∷ 0 ∷ 0 ∷ 1 ∷ []) }
    ensures moments { queue_acts 1 5
        ((3, 7, record { tag = 1; messages = (codes "/a" ++ 0 ∷ 0 ∷ []) ∷ [] })
        ∷ (3, 9, record { tag = 2; messages = (codes "/b" ++ 0 ∷ 0 ∷ []) ∷ [] })
        ∷ (5, 4, record { tag = 5; messages = [] })
        ∷ (9, 2, record { tag = 9; messages = [] }) ∷ [])
        ≡ Tick 3 ∷ Send (codes "/a" ++ 0 ∷ 0 ∷ [])
        ∷ Send (codes "#bundle"
        ++ (0 ∷ 0 ∷ 0 ∷ 0 ∷ 0 ∷ 0 ∷ 0 ∷ 0 ∷ 2 ∷ 0 ∷ 0 ∷ 0 ∷ 4 ∷ [])
        ++ codes "/b" ++ (0 ∷ 0 ∷ []))
        ∷ Tick 5 ∷ Send (codes "#bundle" ++ (0 ∷ 0 ∷ 0 ∷ 0 ∷ 0 ∷ 0 ∷ 0 ∷ 0 ∷ 5 ∷ []))
        ∷ Send (codes "#bundle" ++ (0 ∷ 0 ∷ 0 ∷ 0 ∷ 0 ∷ 0 ∷ 0 ∷ 0 ∷ 9 ∷ [])) ∷ [] }
    ensures clock { queue_acts 1 5 [] ≡ Tick 5 ∷ [] }
    ensures opened { queue_acts 1 1 [] ≡ [] }
{}
