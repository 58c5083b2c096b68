// The calls that a release makes.
ghost use Rattle.std.specs.Prelude.{◌≡◌, ◌<◌, ◌≤◌, ◌++◌, ◌∷◌, [], map, All, Some, IsSome, OnOk};
ghost use Rattle.std.specs.Prelude.{true};
ghost use Rattle.osc_tree.specs.Registry.{address_by_id};
ghost use Rattle.osc_model.specs.Step.{calls_of, calls_from};
ghost use Rattle.osc_replay.specs.Calls.{hits_bytes, call_lines};
ghost use Rattle.osc_model.specs.Calls.{call_by};
ghost use Rattle.osc_print.specs.Lines.{call_end};

use crate::units::Queued;
use osc_atoms::put_word;
use osc_message::Message;
use osc_method::Call;
use osc_print::{Text, call_end, call_line, ended_call_line};
use osc_tree::{Hits, Tree};
use std::alloc::{AllocError, Global};

/// The hits of calls as a recording has them, and the lines of the calls where they are printed.
#[derive(Drop)]
pub(crate) struct Calls {
    pub(crate) hits: Vec<u8>,
    pub(crate) lines: Text,
    /// What the lines of the calls with one message end with, where there are several.
    end: Text,
    /// Whether the calls are printed. Else there are no lines.
    prints: bool,
}

impl Calls {
    ghost use Rattle.std.specs.Prelude.{◌≡◌, [], true, false, OnOk};
    ghost use Rattle.osc_print.specs.Lines.{call_end};

    /// None so far, each of which will be printed. Takes no memory.
    pub(crate) fn printed(alloc: Global) -> Calls
        ensures hits { result.hits.items ≡ [] }
        ensures lines { result.lines ≡ [] }
        ensures prints { result.prints ≡ true }
    {
        Calls {
            hits: Vec::new(alloc),
            lines: Text::open(alloc),
            end: Text::open(alloc),
            prints: true,
        }
    }

    /// None so far, none of which will be printed. Takes no memory.
    pub(crate) fn unprinted(alloc: Global) -> Calls
        ensures hits { result.hits.items ≡ [] }
        ensures lines { result.lines ≡ [] }
        ensures prints { result.prints ≡ false }
    {
        Calls {
            hits: Vec::new(alloc),
            lines: Text::open(alloc),
            end: Text::open(alloc),
            prints: false,
        }
    }

    fn clear(&mut self)
        ensures hits { self.new.hits.items ≡ [] }
        ensures lines { self.new.lines ≡ [] }
        ensures prints { self.new.prints ≡ self.old.prints }
    {
        self.hits.clear();
        self.lines.clear();
    }

    /// Makes the end of the lines that of the calls with the message.
    fn make_end(&mut self, message: &Message<'_>) -> Result<(), AllocError>
        ensures end { OnOk result (self.new.end ≡ call_end message.now) }
        ensures hits { self.new.hits.items ≡ self.old.hits.items }
        ensures lines { self.new.lines ≡ self.old.lines }
        ensures prints { self.new.prints ≡ self.old.prints }
    {
        self.end.clear();
        call_end(&mut self.end, message)
    }
}

/// Makes `calls` those of the messages of the unit with a number, in order.
pub(crate) fn find_calls(
    tree: &Tree,
    hits: &mut Hits,
    number: u64,
    unit: &Queued<'_>,
    calls: &mut Calls,
) -> Result<(), AllocError>
    requires { tree.now.method_limit ≤ hits.old.limit }
    ensures hits { OnOk result
        (calls.new.hits.items ≡ hits_bytes (calls_from tree.now.methods 0 unit.now.messages)) }
    ensures lines { OnOk result
        (calls.new.lines ≡ call_lines calls.old.prints number
        (calls_from tree.now.methods 0 unit.now.messages)) }
    ensures prints { calls.new.prints ≡ calls.old.prints }
    ensures limit { hits.new.limit ≡ hits.old.limit }
{
    calls.clear();
    let mut index = 0;
    for message in unit.messages() {
        push_calls(tree, hits, number, index, message, calls)?;
        index += 1;
    }
    Ok(())
}

/// Adds the calls of the message at an index. One with an unknown tag has none.
fn push_calls(
    tree: &Tree,
    hits: &mut Hits,
    unit: u64,
    index: u32,
    message: Message<'_>,
    calls: &mut Calls,
) -> Result<(), AllocError>
    requires { tree.now.method_limit ≤ hits.old.limit }
    ensures hits { OnOk result
        (calls.new.hits.items ≡ calls.old.hits.items
        ++ hits_bytes (calls_of tree.now.methods index message.entry)) }
    ensures lines { OnOk result
        (calls.new.lines ≡ calls.old.lines
        ++ call_lines calls.old.prints unit (calls_of tree.now.methods index message.entry)) }
    ensures prints { calls.new.prints ≡ calls.old.prints }
    ensures limit { hits.new.limit ≡ hits.old.limit }
{
    if message.unknown().is_some() {
        return Ok(());
    }
    tree.find(&message.pattern(), hits);
    let call = Call {
        unit,
        index,
        message,
    };
    push_hits(tree, hits.ids(), &call, calls)
}

/// Adds the calls of the methods with these ids.
fn push_hits(tree: &Tree, ids: &[u32], call: &Call<'_>, calls: &mut Calls) -> Result<(), AllocError>
    requires { All (λ id. IsSome (address_by_id tree.now.methods id)) ids.now }
    ensures hits { OnOk result
        (calls.new.hits.items ≡ calls.old.hits.items
        ++ hits_bytes (map (call_by tree.now.methods call.now.index call.now.message) ids.now)) }
    ensures lines { OnOk result
        (calls.new.lines ≡ calls.old.lines
        ++ call_lines calls.old.prints call.now.unit
        (map (call_by tree.now.methods call.now.index call.now.message) ids.now)) }
    ensures prints { calls.new.prints ≡ calls.old.prints }
{
    if calls.prints && ids.len() > 1 {
        return push_alike(tree, ids, call, calls);
    }
    push_each(tree, ids, call, calls)
}

/// The same, one after another.
fn push_each(tree: &Tree, ids: &[u32], call: &Call<'_>, calls: &mut Calls) -> Result<(), AllocError>
    requires { All (λ id. IsSome (address_by_id tree.now.methods id)) ids.now }
    ensures hits { OnOk result
        (calls.new.hits.items ≡ calls.old.hits.items
        ++ hits_bytes (map (call_by tree.now.methods call.now.index call.now.message) ids.now)) }
    ensures lines { OnOk result
        (calls.new.lines ≡ calls.old.lines
        ++ call_lines calls.old.prints call.now.unit
        (map (call_by tree.now.methods call.now.index call.now.message) ids.now)) }
    ensures prints { calls.new.prints ≡ calls.old.prints }
{
    for id in ids {
        push_hit(tree, *id, call, calls)?;
    }
    Ok(())
}

/// The same, where all are printed. What their lines end with is made once.
fn push_alike(
    tree: &Tree,
    ids: &[u32],
    call: &Call<'_>,
    calls: &mut Calls,
) -> Result<(), AllocError>
    requires prints { calls.old.prints ≡ true }
    requires there { All (λ id. IsSome (address_by_id tree.now.methods id)) ids.now }
    ensures hits { OnOk result
        (calls.new.hits.items ≡ calls.old.hits.items
        ++ hits_bytes (map (call_by tree.now.methods call.now.index call.now.message) ids.now)) }
    ensures lines { OnOk result
        (calls.new.lines ≡ calls.old.lines
        ++ call_lines calls.old.prints call.now.unit
        (map (call_by tree.now.methods call.now.index call.now.message) ids.now)) }
    ensures prints { calls.new.prints ≡ calls.old.prints }
{
    calls.make_end(&call.message)?;
    for id in ids {
        push_ended(tree, *id, call, calls)?;
    }
    Ok(())
}

/// Adds the call of the method with an id, and its line, whose end is made.
fn push_ended(tree: &Tree, id: u32, call: &Call<'_>, calls: &mut Calls) -> Result<(), AllocError>
    requires there { IsSome (address_by_id tree.now.methods id) }
    requires prints { calls.old.prints ≡ true }
    requires end { calls.old.end ≡ call_end call.now.message }
    ensures hits { OnOk result
        (calls.new.hits.items ≡ calls.old.hits.items
        ++ hits_bytes (call_by tree.now.methods call.now.index call.now.message id ∷ [])) }
    ensures lines { OnOk result
        (calls.new.lines ≡ calls.old.lines
        ++ call_lines calls.old.prints call.now.unit
        (call_by tree.now.methods call.now.index call.now.message id ∷ [])) }
    ensures prints { calls.new.prints ≡ calls.old.prints }
    ensures end { calls.new.end ≡ calls.old.end }
{
    let Some(address) = tree.address_of(id) else {
        unreachable!();
    };
    put_word(&mut calls.hits, call.index)?;
    put_word(&mut calls.hits, id)?;
    ended_call_line(&mut calls.lines, call, id, address, calls.end.bytes())
}

/// Adds the call of the method with an id.
fn push_hit(tree: &Tree, id: u32, call: &Call<'_>, calls: &mut Calls) -> Result<(), AllocError>
    requires { IsSome (address_by_id tree.now.methods id) }
    ensures hits { OnOk result
        (calls.new.hits.items ≡ calls.old.hits.items
        ++ hits_bytes (call_by tree.now.methods call.now.index call.now.message id ∷ [])) }
    ensures lines { OnOk result
        (calls.new.lines ≡ calls.old.lines
        ++ call_lines calls.old.prints call.now.unit
        (call_by tree.now.methods call.now.index call.now.message id ∷ [])) }
    ensures prints { calls.new.prints ≡ calls.old.prints }
{
    let Some(address) = tree.address_of(id) else {
        unreachable!();
    };
    put_word(&mut calls.hits, call.index)?;
    put_word(&mut calls.hits, id)?;
    if calls.prints {
        return call_line(&mut calls.lines, call, id, address);
    }
    Ok(())
}
