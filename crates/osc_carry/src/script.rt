//! The script that carries a recording on.
ghost use Rattle.osc_script.specs.declared.script.TheConstants.{MAX_SCRIPT};
ghost use Rattle.std.specs.Prelude.{◌≡◌, ◌≤◌, ◌<◌, ◌++◌, ℕ, List, length, map, min};
ghost use Rattle.std.specs.Prelude.{IfOk, IfErr, OnOk};
ghost use Rattle.osc_model.specs.Limits.{Limits, max_recording};
ghost use Rattle.osc_model.specs.State.{opening};
ghost use Rattle.osc_model.specs.Events.{Entry as Recorded};
ghost use Rattle.osc_model.specs.History.{after};
ghost use Rattle.osc_replay.specs.Disagreeing.{IsRecordingOf, DisagreesAt};
ghost use Rattle.osc_replay.specs.Formed.{IsUnformedAt};
ghost use Rattle.osc_script.specs.Written.{written};
ghost use Rattle.osc_script.specs.declared.act.Act.TheVariants.{Add};
ghost use Rattle.osc_story.specs.Standings.{queue_of};
ghost use Rattle.osc_alike.specs.Alike.{address_of};
ghost use Rattle.osc_carry.specs.declared.fault.CarryFault.TheVariants as fault;
ghost use Rattle.osc_carry.specs.Carried.{ticks_to, queue_acts, packet_of as unit_packet};
ghost use Rattle.osc_carry.specs.Carried.{carried_from, carried_script, carried_size, send_of};
ghost use Rattle.osc_carry.specs.Waiting.{AreShort, HaveShort};
ghost use Rattle.osc_carry.specs.Leading.{LeadsThere};
ghost use Rattle.osc_carry.specs.Answers.{OnMalformed, OnDisagrees, OnTooLong, Adds};
ghost use Rattle.osc_carry.specs.Answers.{IsScriptUnlessShort};

use crate::fault::CarryFault;
use crate::recording::story_of;
use crate::unit_packet::packet_of;
use osc_script::{MAX_SCRIPT, put_digits, put_line};
use osc_story::{Registered, Story, Waiting};
use std::alloc::{AllocError, Global};

/// The script that brings a new server, whose recording is empty, to where the server of a
/// recording was, up to numbers. Refuses bytes as `osc_replay::check` does, and a script that is
/// longer than one may be.
pub fn carry(alloc: Global, recording: &[u8]) -> Result<Vec<u8>, CarryFault>
    requires { length recording.now ≤ max_recording }
    ensures ok { IfOk result
        (λ script. (caps : Limits) × (history : List Recorded)
        × IsRecordingOf recording.now caps history
        × (script.items ≡ carried_script caps history)) }
    ensures leads { (caps : Limits) (history : List Recorded) (room : ℕ)
        → IsRecordingOf recording.now caps history
        → carried_size (after (opening caps) history) ≤ room
        → IfOk result (λ script. LeadsThere script.items caps history room) }
    ensures malformed { OnMalformed result (λ at. IsUnformedAt recording.now at) }
    ensures disagrees { OnDisagrees result
        (λ entry kept computed. DisagreesAt recording.now entry kept computed) }
    ensures too_long { OnTooLong result
        ((caps : Limits) × (history : List Recorded) × IsRecordingOf recording.now caps history
        × (MAX_SCRIPT < length (carried_script caps history))) }
    ensures complete { (caps : Limits) (history : List Recorded)
        → IsRecordingOf recording.now caps history
        → IsScriptUnlessShort result (λ script. script.items) (carried_script caps history) }
{
    crate::laws::a_carried_script_leads_there();
    crate::laws::a_waiting_unit_is_short();
    osc_model::laws::a_legal_history_is_recordable();
    osc_record::laws::texts_differ();
    osc_story::laws::entries_show_the_state();
    let story = story_of(alloc, recording)?;
    script_of(alloc, &story)
}

/// The script that brings a new server to what stands.
fn script_of(alloc: Global, story: &Story) -> Result<Vec<u8>, CarryFault>
    requires { HaveShort (queue_of story.now.waiting) }
    ensures { IsScriptUnlessShort result (λ script. script.items) (written (carried_from
        (map address_of story.now.methods) story.now.clock (queue_of story.now.waiting))) }
{
    let mut script = Vec::new(alloc);
    put_adds(&mut script, story.methods())?;
    put_units(alloc, &mut script, story.waiting(), story.clock())?;
    Ok(script)
}

/// Adds an `add` for each method, in the order of adding.
fn put_adds(script: &mut Vec<u8>, methods: &[Registered]) -> Result<(), AllocError>
    ensures { OnOk result
        (script.new.items ≡ script.old.items ++ written (map Add (map address_of methods.now))) }
{
    for method in methods {
        put_line(script, b"add", method.address())?;
    }
    Ok(())
}

/// Adds a `send` for each unit that waits, each at its moment, and at last a `tick` to the clock.
fn put_units(
    alloc: Global,
    script: &mut Vec<u8>,
    units: &[Waiting],
    clock: u64,
) -> Result<(), CarryFault>
    requires { HaveShort (queue_of units.now) }
    ensures { Adds result script.old.items (queue_acts 1 clock (queue_of units.now))
        script.new.items }
{
    let mut now = 1;
    let mut rest = units;
    while let [unit, others @ ..] = rest {
        let moment = unit.due().min(clock);
        put_tick(alloc, script, now, moment)?;
        put_send(alloc, script, unit)?;
        check_length(script)?;
        now = moment;
        rest = others;
    }
    put_tick(alloc, script, now, clock)?;
    check_length(script)
}

/// Refuses a script that is too long.
fn check_length(script: &Vec<u8>) -> Result<(), CarryFault>
    ensures ok { OnOk result (length script.now.items ≤ MAX_SCRIPT) }
    ensures err { IfErr result
        (λ refused. (refused ≡ fault.TooLong) × (MAX_SCRIPT < length script.now.items)) }
{
    if script.len() > MAX_SCRIPT as usize {
        return Err(CarryFault::TooLong);
    }
    Ok(())
}

/// Adds a `tick` to a moment, where that is after the clock.
fn put_tick(alloc: Global, script: &mut Vec<u8>, now: u64, moment: u64) -> Result<(), AllocError>
    ensures { OnOk result
        (script.new.items ≡ script.old.items ++ written (ticks_to now moment)) }
{
    if now < moment {
        put_digits(alloc, script, b"tick", &moment.to_be_bytes())?;
    }
    Ok(())
}

/// Adds a `send` of a unit's packet.
fn put_send(alloc: Global, script: &mut Vec<u8>, unit: &Waiting) -> Result<(), AllocError>
    requires { AreShort unit.now.2.unit.messages }
    ensures { OnOk result
        (script.new.items ≡ script.old.items ++ written (send_of unit.now.2.unit)) }
{
    let packet = packet_of(alloc, unit)?;
    put_digits(alloc, script, b"send", packet.as_slice())
}
