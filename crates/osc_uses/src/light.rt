//! A light on a link, such as a port of UDP: a method of one's own, and a loop that submits what comes and releases what
//! is due. All is handed in by caller 0, who is enrolled from the start.
ghost use Rattle.osc_atoms.specs.declared.limits.TheConstants.{MAX_PACKET};
ghost use Rattle.osc_edge.specs.declared.limits.TheConstants.{MAX_DATAGRAM};
ghost use Rattle.std.specs.Prelude.{◌≡◌, [], ◌∷◌, length, map, Some, IfOk, OnOk, OnErr};
ghost use Rattle.osc_edge.specs.Link.{TakesTurn};
ghost use Rattle.osc_message.specs.Arguments.{message_arguments};
ghost use Rattle.osc_message.specs.Shown.{shown};
ghost use Rattle.osc_model.specs.Events.{add, submit};
ghost use Rattle.osc_model.specs.History.{HaveHeard};
ghost use Rattle.osc_laws.specs.Laws.{KeepsTheLaws};
ghost use Rattle.osc_core.specs.Telling.{told};
ghost use Rattle.osc_uses.specs.Light.{set_by, level_after, turn_of, packets_in, releases};
ghost use Rattle.osc_uses.specs.Light.{SetsClock, PlaysRound, ServesLight};
ghost use Rattle.osc_uses.specs.Played.{opened, played};
ghost use Rattle.osc_uses.specs.declared.light.TheConstants.{RELEASES};

use osc_core::{Core, Releasing};
use osc_edge::{Clock, Datagram, Link, MAX_DATAGRAM, Moment};
use osc_message::{Arg, Message};
use osc_method::{Call, Method, Trace};
use osc_packet::{MAX_PACKET, Packet};
use osc_pattern::Address;
use osc_record::Caps;
use std::alloc::{AllocError, Global};

/// How many units a round releases at most.
const RELEASES: u32 = 64;

/// A light that each float of a message sets. It tells the last 1,024 bytes of its calls.
#[derive(Drop)]
pub struct Light {
    /// The float that it was set to last, as a word: 0x3f000000 is 0.5.
    level: u32,
    calls: Trace,
}

impl Light {
    /// A light that is dark.
    pub fn dark(alloc: Global) -> Result<Light, AllocError>
        ensures { IfOk result (λ light. light.level ≡ 0) }
    {
        let calls = Trace::open(alloc, 1024)?;
        Ok(Light { level: 0, calls })
    }

    /// The float that it was set to last, as a word.
    pub fn level(&self) -> u32
        ensures { result ≡ self.now.level }
    {
        self.level
    }
}

impl Method for Light {
    ghost keep = { λ light. ⟦<Trace as Method>⟧.keep light.calls };

    ghost heard = { λ light. ⟦<Trace as Method>⟧.heard light.calls };

    fn reset(&mut self) {
        self.level = 0;
        self.calls.reset();
    }

    fn invoke(&mut self, call: &Call<'_>) {
        self.calls.invoke(call);
        self.level = level_of(&call.message, self.level);
    }

    fn told(&self) -> Option<u32> {
        self.calls.told()
    }

    fn byte(&self, k: u32) -> u8 {
        self.calls.byte(k)
    }
}

/// The last float of the message, or else the level before.
fn level_of(message: &Message<'_>, before: u32) -> u32
    ensures { result ≡ level_after (message_arguments message.now) before }
{
    let mut level = before;
    for argument in message.args() {
        level = set_by(level, argument);
    }
    level
}

fn set_by(level: u32, argument: Arg<'_>) -> u32
    ensures { result ≡ set_by level (shown argument.entry) }
{
    match argument {
        Arg::Float(word) => word,
        _ => level,
    }
}

/// A server with a light at the address.
pub fn open_light(alloc: Global, caps: Caps, address: Address) -> Result<Core<Light>, AllocError>
    ensures { IfOk result (λ core. core.performance ≡ played (opened caps) (add address ∷ [])) }
{
    let mut core = Core::open(alloc, caps)?;
    core.add(0, address, Light::dark(alloc)?);
    Ok(core)
}

/// Serves so many turns of the link, or until it has ended or failed, and answers what the link answered last. Each turn's datagram is
/// submitted, if it is a packet, and what is due is released. Where the recording is full, nothing more is called. The
/// `Err` means that there is no memory for a datagram.
pub fn serve_light<L: Link, C: Clock>(
    alloc: Global,
    core: &mut Core<Light>,
    link: &mut L,
    clock: &mut C,
    turns: u32,
) -> Result<Datagram, AllocError>
    ensures serves { OnOk result (ServesLight (L.left link.old) (L.left link.new)
        core.old.performance core.new.performance) }
    ensures laws { OnOk result
        (KeepsTheLaws core.new.performance.caps core.new.performance.history) }
    ensures heard { HaveHeard core.new.performance
        (told ⟦<Light as Method>⟧.keep ⟦<Light as Method>⟧.heard core.new.boxes.items) }
    ensures err { OnErr result (core.new ≡ core.old) }
{
    osc_laws::laws::every_history_keeps_the_laws();
    let mut room = vec![in alloc; 0; MAX_DATAGRAM]?;
    let space = room.as_mut_slice();
    let mut last = Datagram::Quiet;
    for _ in 0..turns {
        last = serve_turn(core, link, clock, space);
        if let Datagram::End | Datagram::Failed = last {
            break;
        }
    }
    // The history is legal, as the recording tells.
    let _ = core.bytes();
    Ok(last)
}

/// Serves one turn of the link.
fn serve_turn<L: Link, C: Clock>(
    core: &mut Core<Light>,
    link: &mut L,
    clock: &mut C,
    space: &mut [u8],
) -> Datagram
    requires space { length space.old ≡ MAX_DATAGRAM }
    ensures space { length space.new ≡ length space.old }
    ensures turn { TakesTurn (L.left link.old) (L.left link.new) result space.new }
    ensures plays { PlaysRound (packets_in (turn_of result space.new)) core.old.performance
        core.new.performance }
{
    let datagram = link.next(space);
    if let Datagram::Got(count) = datagram {
        submit_packet(core, &space[..count]);
    }
    set_clock(core, clock);
    release_due(core);
    datagram
}

/// Submits the datagram, if it is a packet.
fn submit_packet(core: &mut Core<Light>, datagram: &[u8])
    ensures { core.new.performance ≡ played core.old.performance
        (map submit (packets_in (Some datagram.now ∷ []))) }
{
    if let Ok(packet) = Packet::check(datagram, MAX_PACKET) {
        core.submit(0, &packet);
    }
}

/// Sets the clock to the present, if the moment of a unit that waits for it has come.
fn set_clock<C: Clock>(core: &mut Core<Light>, clock: &mut C)
    ensures { SetsClock core.old.performance core.new.performance }
{
    let Some(due) = core.due() else {
        return;
    };
    if due <= core.clock() {
        return;
    }
    match clock.now() {
        Moment::At(moment) if due <= moment => {
            core.tick(0, moment);
        }
        _ => {}
    }
}

/// Releases what is due, one unit after another.
fn release_due(core: &mut Core<Light>)
    ensures { core.new.performance ≡ played core.old.performance (releases RELEASES) }
{
    for _ in 0..RELEASES {
        let Releasing::Released { .. } = core.release(0) else {
            return;
        };
    }
}
