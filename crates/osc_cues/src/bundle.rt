//! What is sent at each moment of a sheet.
ghost use Rattle.osc_atoms.specs.declared.limits.TheConstants.{MAX_PACKET};
ghost use Rattle.std.specs.Prelude.{◌≡◌, ◌≤◌, ◌∷◌, length, IfOk, OnOk};
ghost use Rattle.std.specs.List.{AllByRecursion};
ghost use Rattle.osc_message.specs.Messages.{IsMessage};
ghost use Rattle.osc_packet.specs.Bundling.{with_message};
ghost use Rattle.osc_cues.specs.Bundles;
ghost use Rattle.osc_cues.specs.Bundles.{opening, moments_from, moments_of};
ghost use Rattle.osc_cues.specs.Bundles.{IsSent, FitsPacket, IsSendable};
ghost use Rattle.osc_cues.specs.BundleAnswers.{IsFirst};

use crate::cue::Cue;
use osc_atoms::{Bytes, MAX_PACKET};
use osc_message::Message;
use osc_packet::{BundleFault, Bundler};
use std::alloc::{AllocError, Global};

/// The cues of one moment, as one packet.
#[derive(Drop)]
pub struct Bundle {
    /// The time tag of the moment.
    pub tag: u64,
    /// The packet's bytes.
    pub packet: Bytes,
}

/// Adds a message, for which there is room.
fn push(bundler: &mut Bundler, message: &[u8]) -> Result<(), AllocError>
    requires message { IsMessage MAX_PACKET message.now }
    requires room { FitsPacket (with_message bundler.old message.now) }
    ensures { OnOk result (bundler.new ≡ with_message bundler.old message.now) }
{
    match Message::check(message, MAX_PACKET) {
        Ok(message) => match bundler.push(&message) {
            Ok(()) => Ok(()),
            Err(BundleFault::NoMemory) => Err(AllocError),
            Err(BundleFault::TooLong) => unreachable!(),
        },
        Err(_) => unreachable!(),
    }
}

/// Adds the first of these cues that have the bundle's tag, and returns the others.
fn fill<'a>(bundler: &mut Bundler, tag: u64, cues: &'a [Cue]) -> Result<&'a [Cue], AllocError>
    requires tag { bundler.old.tag ≡ tag }
    requires messages { AllByRecursion IsSent cues.now }
    requires fits { AllByRecursion FitsPacket (moments_from bundler.old cues.now) }
    ensures moment { IfOk result
        (λ rest. moments_from bundler.old cues.now ≡ bundler.new ∷ moments_of rest.now) }
    ensures tag { OnOk result (bundler.new.tag ≡ tag) }
    ensures messages { IfOk result (λ rest. AllByRecursion IsSent rest.now) }
    ensures few { IfOk result (λ rest. length rest.now ≤ length cues.now) }
{
    let mut rest = cues;
    while let Some((cue, others)) = rest.split_first() {
        if cue.tag != tag {
            return Ok(rest);
        }
        push(bundler, cue.message.as_slice())?;
        rest = others;
    }
    Ok(rest)
}

/// The bundle of the first cue's moment, and the cues after that moment.
fn first_bundle<'a>(
    alloc: Global,
    first: &Cue,
    cues: &'a [Cue],
) -> Result<(Bundle, &'a [Cue]), AllocError>
    requires message { IsSent first.now }
    requires messages { AllByRecursion IsSent cues.now }
    requires fits { AllByRecursion FitsPacket (moments_from (opening first.now) cues.now) }
    ensures { IfOk result (λ cut. IsFirst first.now cues.now cut.0 cut.1.now) }
{
    let mut bundler = Bundler::open(alloc, first.tag)?;
    push(&mut bundler, first.message.as_slice())?;
    let rest = fill(&mut bundler, first.tag, cues)?;
    let bundle = Bundle {
        tag: first.tag,
        packet: bundler.finish()?,
    };
    Ok((bundle, rest))
}

/// The bundles of cues, one for each moment.
pub(crate) fn bundles_of(alloc: Global, cues: &[Cue]) -> Result<Vec<Bundle>, AllocError>
    requires messages { AllByRecursion IsSent cues.now }
    requires fits { AllByRecursion FitsPacket (moments_of cues.now) }
    ensures value { IfOk result (λ bundles. bundles.items ≡ Bundles.bundles_of cues.now) }
    ensures packets { IfOk result (λ bundles. AllByRecursion IsSendable bundles.items) }
{
    let mut bundles = Vec::new(alloc);
    let mut rest = cues;
    while let Some((first, others)) = rest.split_first() {
        let (bundle, after) = first_bundle(alloc, first, others)?;
        bundles.push(bundle)?;
        rest = after;
    }
    Ok(bundles)
}
