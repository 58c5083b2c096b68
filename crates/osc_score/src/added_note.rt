// Adds a note to what is read so far.
ghost use Rattle.osc_atoms.specs.declared.limits.TheConstants.{MAX_PACKET};
ghost use Rattle.std.specs.Prelude.{◌≡◌, ◌<◌, ◌≤◌, ◌^◌, ◌++◌, [], ◌∷◌, ℕ, List, length, map};
ghost use Rattle.std.specs.Prelude.{Some, IfOk, OnOk};
ghost use Rattle.osc_message.specs.Messages.{message_text};
ghost use Rattle.osc_packet.specs.Bundling.{with_message, bundled};
ghost use Rattle.osc_tree.specs.Registry.{Registry, IsNewId};
ghost use Rattle.osc_tree.specs.Adding.{add_refusal, refusal_of, Refusal};
ghost use Rattle.osc_score.specs.Scores.{Note, Group, message_of};
ghost use Rattle.osc_score.specs.Plans.{run_of};
ghost use Rattle.osc_score.specs.Reading.{note_added, extended};
ghost use Rattle.osc_score.specs.Keeping.{KeepsRuns, Pushes, PushesNote, Registers, Keeps};
ghost use Rattle.osc_score.specs.Keeping.{IsReading, Goes};

use crate::fault::ScoreFaultKind;
use crate::reader::Reader;
use crate::run::Run;
use osc_message::Message;
use osc_packet::{BundleFault, Bundler};
use osc_pattern::Address;
use osc_script::LineRefusal;
use osc_tree::{Tree, TreeRefusal};
use std::alloc::{AllocError, Global};

/// The bundle with the message.
fn pushed(bundler: Bundler, message: &Message<'_>) -> Result<Bundler, LineRefusal<ScoreFaultKind>>
    ensures { Pushes result (with_message bundler message.now)
        (length (bundled (with_message bundler message.now))) }
{
    let mut bundler = bundler;
    match bundler.push(message) {
        Ok(()) => Ok(bundler),
        Err(BundleFault::TooLong) => Err(LineRefusal::Kind(ScoreFaultKind::Bundle)),
        Err(BundleFault::NoMemory) => Err(LineRefusal::NoMemory),
    }
}

/// A bundle with this tag, and the message alone.
fn begun(
    alloc: Global,
    tag: u64,
    message: &Message<'_>,
) -> Result<Bundler, LineRefusal<ScoreFaultKind>>
    ensures { Pushes result (record { tag = tag; messages = message.now ∷ [] })
        (length (bundled (record { tag = tag; messages = message.now ∷ [] }))) }
{
    pushed(Bundler::open(alloc, tag)?, message)
}

/// Registers an address, where it isn't there.
fn register(
    alloc: Global,
    tree: &mut Tree,
    addresses: &mut Vec<Address>,
    address: Address,
) -> Result<(), LineRefusal<ScoreFaultKind>>
    requires new { IsNewId tree.old.methods (length addresses.old.items) }
    requires few { length addresses.old.items < 2 ^ 32 }
    ensures { Registers result (add_refusal tree.old address) tree.old tree.new addresses.old.items
        addresses.new.items address }
{
    let copy = address.copied(alloc)?;
    match tree.add(copy, addresses.len() as u32) {
        Ok(()) => match addresses.push(address) {
            Ok(()) => Ok(()),
            Err(_) => Err(LineRefusal::NoMemory),
        },
        Err((refusal, _)) => unless_taken(refusal),
    }
}

/// The kind of a refusal, but that the address is there already.
fn unless_taken(refusal: TreeRefusal) -> Result<(), LineRefusal<ScoreFaultKind>>
    ensures { (old new : Registry) (before after : List (List ℕ))
        (address : List ℕ) → new ≡ old → after ≡ before
        → Registers result (Some (refusal_of refusal)) old new before after address }
{
    match refusal {
        TreeRefusal::Taken(_) => Ok(()),
        TreeRefusal::UnderMethod(_) => Err(LineRefusal::Kind(ScoreFaultKind::Clash)),
        TreeRefusal::IsContainer => Err(LineRefusal::Kind(ScoreFaultKind::Clash)),
        TreeRefusal::MethodsFull(_) => Err(LineRefusal::Kind(ScoreFaultKind::TreeFull)),
        TreeRefusal::NodesFull(_) => Err(LineRefusal::Kind(ScoreFaultKind::TreeFull)),
    }
}

/// Keeps a run that is whole.
fn keep(runs: &mut Vec<Run>, tag: u64, bundler: &Bundler) -> Result<(), AllocError>
    ensures { OnOk result (runs.new.items
        ≡ runs.old.items ++ record { tag = tag; bundle = bundled bundler.now } ∷ []) }
{
    let bundle = bundler.finish()?;
    match runs.push(Run { tag, bundle }) {
        Ok(()) => Ok(()),
        Err(_) => Err(AllocError),
    }
}

/// The runs with the last one, where there is one.
pub(crate) fn all_runs(
    runs: Vec<Run>,
    last: Option<Bundler>,
    least: u64,
) -> Result<Vec<Run>, AllocError>
    ensures { (groups : List Group) → KeepsRuns least runs.items last groups
        → IfOk result (λ all. all.items ≡ map run_of groups) }
{
    let mut runs = runs;
    match last {
        Some(bundler) => {
            keep(&mut runs, least, &bundler)?;
            Ok(runs)
        }
        None => Ok(runs),
    }
}

/// Adds the message to the last run, or begins a run with it.
fn push_message(
    alloc: Global,
    runs: &mut Vec<Run>,
    last: Option<Bundler>,
    least: u64,
    tag: u64,
    message: &Message<'_>,
) -> Result<Bundler, LineRefusal<ScoreFaultKind>>
    ensures { (groups : List Group) (note : Note) → KeepsRuns least runs.old.items last groups
        → note.tag ≡ tag → message.now ≡ message_text (message_of note)
        → PushesNote result groups (extended groups note) note runs.new.items }
{
    match last {
        Some(bundler) => {
            if tag == least {
                return pushed(bundler, message);
            }
            keep(runs, least, &bundler)?;
            begun(alloc, tag, message)
        }
        None => begun(alloc, tag, message),
    }
}

/// Adds a note: its message to the last run or to a new one, and its address, where that is new.
pub(crate) fn add_note(
    reader: &mut Reader,
    tag: u64,
    address: Address,
    message: &Message<'_>,
) -> Result<(), LineRefusal<ScoreFaultKind>>
    requires { IsReading reader.old }
    ensures { (notes : List Note) (note : Note) → Keeps reader.old notes → note.tag ≡ tag
        → note.address ≡ address → message.now ≡ message_text (message_of note)
        → Goes result (note_added notes note) reader.new }
{
    let last = reader.last.take();
    let least = reader.least;
    match push_message(reader.alloc, &mut reader.runs, last, least, tag, message) {
        Ok(bundler) => reader.last = Some(bundler),
        Err(refusal) => return Err(refusal),
    }
    reader.least = tag;
    register(
        reader.alloc,
        &mut reader.tree,
        &mut reader.addresses,
        address,
    )
}
