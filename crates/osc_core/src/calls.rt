// The calls that a release makes.
ghost use Rattle.osc_model.specs.Limits.{max_methods, release_head_size};
ghost use Rattle.std.specs.Prelude.{◌≡◌, ◌+◌, ◌*◌, ◌<◌, ◌≤◌, ◌^◌, ◌++◌, ◌∷◌, [], ℕ, List, length};
ghost use Rattle.std.specs.Prelude.{map, take, Some, None, true, IsTrue, IfOk, IfErr, OnOk, OnErr};
ghost use Rattle.std.specs.Prelude.{MatchBool, vec_len, vec_capacity};
ghost use Rattle.osc_pattern.specs.Methods.{Method};
ghost use Rattle.osc_record.specs.Writing.{recording_text, with_release};
ghost use Rattle.osc_model.specs.Heard.{all_hear};
ghost use Rattle.osc_model.specs.Step.{calls_of, calls_from, hits_of, invocations_of};
ghost use Rattle.osc_core.specs.Calls.{invocation_by, invoked_ids};
ghost use Rattle.osc_core.specs.Found.{AreFound, BeginsFound, CountsFound, first_found};
ghost use Rattle.osc_core.specs.Found.{after_found, AreOf, StandFor};
ghost use Rattle.osc_model.specs.Calls.{call_by};
ghost use Rattle.osc_core.specs.Ids.{is_ascending};
ghost use Rattle.osc_core.specs.Telling.{told};
ghost use Rattle.osc_core.specs.Recorded.{owed_by, with_hits, RecordsCalls, TellsRoom};

use crate::boxes::invoke_one;
use crate::messages::Messages;
use crate::shortage::shortage;
use osc_atoms::Room;
use osc_message::Message;
use osc_method::{Call, Method as Called};
use osc_pattern::Pattern;
use osc_record::{Recorder, release_size};
use osc_tree::{Hits, Tree};

/// How many numbers are kept of what a unit's messages call: for each of them how many methods, and
/// their ids.
pub(crate) const MAX_KEPT: usize = 16_384;

/// From how many bytes of messages on the patterns of a unit are compared. In a smaller unit it takes
/// less to find the methods of each message.
const MIN_COMPARED: usize = 1024;

/// A unit that is due, and the caller that releases it.
#[derive(Drop)]
pub(crate) struct DueUnit<'a> {
    pub(crate) caller: u32,
    pub(crate) unit: u64,
    pub(crate) messages: Messages<'a>,
}

/// Records the release of a unit, and makes the calls of its messages in order. Where the recording
/// has no room for the entry, it tells how much the entry needs, and all stays.
pub(crate) fn release_unit<M: Called>(
    tree: &Tree,
    hits: &mut Hits,
    kept: &mut Vec<u32>,
    due: DueUnit<'_>,
    recorder: &mut Recorder,
    boxes: &mut Vec<(u32, M)>,
) -> Result<u32, Room>
    requires limit { tree.now.method_limit ≤ hits.old.limit }
    requires few { length due.messages < 2 ^ 32 }
    requires few_methods { tree.now.method_limit ≤ max_methods }
    requires caller { due.caller < 2 ^ 31 }
    requires unit { due.unit < 2 ^ 63 }
    requires whole { recorder.old.begun ≡ None }
    requires small { recorder.old.caps.recording < 2 ^ 32 }
    requires ascending { IsTrue (is_ascending (map (λ one. one.0) boxes.old.items)) }
    ensures recorder { RecordsCalls result due.entry.caller due.entry.unit
        (calls_from tree.now.methods 0 due.entry.messages)
        recorder.old recorder.new }
    ensures boxes { OnOk result (told M.keep M.heard boxes.new.items
        ≡ all_hear (invocations_of due.entry.unit
        (calls_from tree.now.methods 0 due.entry.messages))
        (told M.keep M.heard boxes.old.items)) }
    ensures silent { OnErr result (boxes.new.items ≡ boxes.old.items) }
    ensures ids { map (λ one. one.0) boxes.new.items ≡ map (λ one. one.0) boxes.old.items }
    ensures capacity { vec_capacity boxes.old ≤ vec_capacity boxes.new }
    ensures limit { hits.new.limit ≡ hits.old.limit }
{
    let Some(message) = due.messages.only() else {
        // The methods of several messages are found to be counted, and kept to be called as far as
        // there is room.
        let count = count_calls(tree, hits, kept, due.messages.again());
        let calls = start_release(recorder, due.caller, due.unit, count)?;
        invoke_unit(tree, hits, kept, due, recorder, boxes);
        return Ok(calls);
    };
    let call = Call {
        unit: due.unit,
        index: 0,
        message,
    };
    let count = count_hits(tree, hits, &call.message);
    let calls = start_release(recorder, due.caller, due.unit, count as u64)?;
    invoke_ids(&hits.ids()[..count], &call, recorder, boxes);
    Ok(calls)
}

/// Begins a release of a unit with so many calls, or tells how much room its entry needs.
fn start_release(recorder: &mut Recorder, caller: u32, unit: u64, calls: u64) -> Result<u32, Room>
    requires caller { caller < 2 ^ 31 }
    requires unit { unit < 2 ^ 63 }
    requires few { calls < 2 ^ 48 }
    requires whole { recorder.old.begun ≡ None }
    requires small { recorder.old.caps.recording < 2 ^ 32 }
    ensures count { IfOk result (λ count. count ≡ calls) }
    ensures fits { OnOk result (length (recording_text recorder.old)
        + (release_head_size + 8 * calls) ≤ recorder.old.caps.recording) }
    ensures begun { OnOk result (recorder.new ≡ with_release recorder.old caller unit calls) }
    ensures full { IfErr result
        (λ room. TellsRoom (Some room) recorder.old (release_head_size + 8 * calls)) }
    ensures same { OnErr result (recorder.new ≡ recorder.old) }
{
    if let Some(room) = shortage(recorder, release_size(calls)) {
        return Err(room);
    }
    let calls = calls as u32;
    recorder.start_release(caller, unit, calls);
    Ok(calls)
}

/// How many calls the messages make. What they call is kept, from the first message on, as long as
/// there is room.
fn count_calls(tree: &Tree, hits: &mut Hits, kept: &mut Vec<u32>, messages: Messages<'_>) -> u64
    requires limit { tree.now.method_limit ≤ hits.old.limit }
    requires few { length messages < 2 ^ 32 }
    requires few_methods { tree.now.method_limit ≤ max_methods }
    ensures count { result ≡ length (calls_from tree.now.methods 0 messages.entry) }
    ensures small { result < 2 ^ 48 }
    ensures found { AreFound tree.now.methods messages.entry kept.new.items }
    ensures limit { hits.new.limit ≡ hits.old.limit }
{
    kept.clear();
    if messages.size() < MIN_COMPARED {
        return count_each(tree, hits, kept, messages);
    }
    count_alike(tree, hits, kept, messages)
}

/// The same for a small unit: the methods of each message are found.
fn count_each(tree: &Tree, hits: &mut Hits, kept: &mut Vec<u32>, messages: Messages<'_>) -> u64
    requires limit { tree.now.method_limit ≤ hits.old.limit }
    requires few { length messages < 2 ^ 32 }
    requires few_methods { tree.now.method_limit ≤ max_methods }
    requires cleared { kept.old.items ≡ [] }
    ensures count { result ≡ length (calls_from tree.now.methods 0 messages.entry) }
    ensures small { result < 2 ^ 48 }
    ensures found { AreFound tree.now.methods messages.entry kept.new.items }
    ensures limit { hits.new.limit ≡ hits.old.limit }
{
    let mut count = 0;
    let mut is_whole = true;
    for message in messages {
        let found = count_hits(tree, hits, &message);
        is_whole = keep(is_whole, &hits.ids()[..found], kept);
        count += found as u64;
    }
    count
}

/// The same for a large unit: the methods are found once for messages that follow one another with
/// one pattern.
#[inline(never)]
fn count_alike(tree: &Tree, hits: &mut Hits, kept: &mut Vec<u32>, messages: Messages<'_>) -> u64
    requires limit { tree.now.method_limit ≤ hits.old.limit }
    requires few { length messages < 2 ^ 32 }
    requires few_methods { tree.now.method_limit ≤ max_methods }
    requires cleared { kept.old.items ≡ [] }
    ensures count { result ≡ length (calls_from tree.now.methods 0 messages.entry) }
    ensures small { result < 2 ^ 48 }
    ensures found { AreFound tree.now.methods messages.entry kept.new.items }
    ensures limit { hits.new.limit ≡ hits.old.limit }
{
    let mut count = 0;
    let mut is_whole = true;
    let mut last: &[u8] = &[];
    for message in messages {
        let (found, pattern) = count_next(tree, hits, last, &message);
        last = pattern;
        is_whole = keep(is_whole, &hits.ids()[..found], kept);
        count += found as u64;
    }
    count
}

/// Keeps what a message calls, if all before it is kept and there is room.
fn keep(is_whole: bool, ids: &[u32], kept: &mut Vec<u32>) -> bool
    requires { length ids.now < 2 ^ 32 }
    ensures { MatchBool result
        ((is_whole ≡ true)
        × (kept.new.items ≡ kept.old.items ++ length ids.now ∷ ids.now))
        (kept.new.items ≡ kept.old.items) }
{
    if !is_whole || kept.capacity() - kept.len() <= ids.len() {
        return false;
    }
    keep_all(ids, kept);
    true
}

/// Keeps how many ids there are, and the ids, in room that is there.
fn keep_all(ids: &[u32], kept: &mut Vec<u32>)
    requires few { length ids.now < 2 ^ 32 }
    requires room { vec_len kept.old + (1 + length ids.now) ≤ vec_capacity kept.old }
    ensures { kept.new.items ≡ kept.old.items ++ length ids.now ∷ ids.now }
{
    kept.push_reserved(ids.len() as u32);
    match kept.extend_from_slice(ids) {
        Ok(()) => {}
        Err(_) => unreachable!(),
    }
}

/// How many calls a message makes: those of the methods that come first in `hits`.
#[inline(always)]
fn count_hits(tree: &Tree, hits: &mut Hits, message: &Message<'_>) -> usize
    requires { tree.now.method_limit ≤ hits.old.limit }
    ensures count { result ≡ length (invoked_ids tree.now.methods message.now) }
    ensures calls { (index : ℕ)
        → map (call_by tree.now.methods index message.now) (take result hits.new.ids)
        ≡ calls_of tree.now.methods index message.now }
    ensures within { result ≤ length hits.new.ids }
    ensures few { result ≤ tree.now.method_limit }
    ensures limit { hits.new.limit ≡ hits.old.limit }
{
    // A message with an unknown tag makes none.
    if message.unknown().is_some() {
        return 0;
    }
    tree.find(&message.pattern(), hits);
    hits.ids().len()
}

/// How many calls the next message of a unit makes, and the pattern that the methods in `hits` are of, which was `last`.
/// A message with an unknown tag makes none, and leaves both as they are.
#[inline(always)]
fn count_next<'a>(
    tree: &Tree,
    hits: &mut Hits,
    last: &'a [u8],
    message: &Message<'a>,
) -> (usize, &'a [u8])
    requires limit { tree.now.method_limit ≤ hits.old.limit }
    requires stand { StandFor tree.now last.now hits.old.ids }
    ensures count { result.0 ≡ length (invoked_ids tree.now.methods message.now) }
    ensures calls { (index : ℕ)
        → map (call_by tree.now.methods index message.now) (take result.0 hits.new.ids)
        ≡ calls_of tree.now.methods index message.now }
    ensures within { result.0 ≤ length hits.new.ids }
    ensures few { result.0 ≤ tree.now.method_limit }
    ensures stand { StandFor tree.now result.1.now hits.new.ids }
    ensures limit { hits.new.limit ≡ hits.old.limit }
{
    if message.unknown().is_some() {
        return (0, last);
    }
    let pattern = message.pattern();
    find_next(tree, hits, last, &pattern);
    (hits.ids().len(), pattern.bytes())
}

/// Finds the methods that a pattern matches, where they aren't found yet.
#[inline(always)]
fn find_next(tree: &Tree, hits: &mut Hits, last: &[u8], pattern: &Pattern<'_>)
    requires limit { tree.now.method_limit ≤ hits.old.limit }
    requires stand { StandFor tree.now last.now hits.old.ids }
    ensures found { AreOf tree.now pattern.now hits.new.ids }
    ensures limit { hits.new.limit ≡ hits.old.limit }
{
    if pattern.bytes() == last {
        return;
    }
    tree.find(pattern, hits);
}

/// What is kept of the messages that are left, and the pattern that the methods in `hits` are of.
#[derive(Clone, Copy)]
struct Left<'a> {
    kept: &'a [u32],
    last: &'a [u8],
}

/// Makes the calls of a unit's messages in order. Each is recorded, and then made.
fn invoke_unit<M: Called>(
    tree: &Tree,
    hits: &mut Hits,
    kept: &[u32],
    due: DueUnit<'_>,
    recorder: &mut Recorder,
    boxes: &mut Vec<(u32, M)>,
)
    requires limit { tree.now.method_limit ≤ hits.old.limit }
    requires few { length due.messages < 2 ^ 32 }
    requires found { AreFound tree.now.methods due.messages kept.now }
    requires owed { owed_by recorder.old ≡ length (calls_from tree.now.methods 0 due.messages) }
    requires ascending { IsTrue (is_ascending (map (λ one. one.0) boxes.old.items)) }
    ensures recorder { recorder.new
        ≡ with_hits recorder.old (hits_of (calls_from tree.now.methods 0 due.entry.messages)) }
    ensures boxes { told M.keep M.heard boxes.new.items
        ≡ all_hear (invocations_of due.entry.unit
        (calls_from tree.now.methods 0 due.entry.messages))
        (told M.keep M.heard boxes.old.items) }
    ensures ids { map (λ one. one.0) boxes.new.items ≡ map (λ one. one.0) boxes.old.items }
    ensures capacity { vec_capacity boxes.old ≤ vec_capacity boxes.new }
    ensures limit { hits.new.limit ≡ hits.old.limit }
{
    let DueUnit { unit, messages, .. } = due;
    let mut index = 0;
    let mut left = Left { kept, last: &[] };
    for message in messages {
        let call = Call {
            unit,
            index,
            message,
        };
        left = invoke_message(tree, hits, left, &call, recorder, boxes);
        index += 1;
    }
}

/// Makes the calls of one message, and hands back what is kept of the others. Where nothing is kept
/// of it, its methods are found again.
fn invoke_message<'a, M: Called>(
    tree: &Tree,
    hits: &mut Hits,
    left: Left<'a>,
    call: &Call<'a>,
    recorder: &mut Recorder,
    boxes: &mut Vec<(u32, M)>,
) -> Left<'a>
    requires limit { tree.now.method_limit ≤ hits.old.limit }
    requires found { BeginsFound tree.now.methods call.now.message left.kept.now }
    requires stand { StandFor tree.now left.last.now hits.old.ids }
    requires owed { length (calls_of tree.now.methods call.now.index call.now.message)
        ≤ owed_by recorder.old }
    requires ascending { IsTrue (is_ascending (map (λ one. one.0) boxes.old.items)) }
    ensures rest { result.kept.now ≡ after_found left.entry.kept.now }
    ensures stand { StandFor tree.now result.last.now hits.new.ids }
    ensures recorder { recorder.new
        ≡ with_hits recorder.old
        (hits_of (calls_of tree.now.methods call.now.index call.now.message)) }
    ensures boxes { told M.keep M.heard boxes.new.items
        ≡ all_hear (invocations_of call.now.unit
        (calls_of tree.now.methods call.now.index call.now.message))
        (told M.keep M.heard boxes.old.items) }
    ensures ids { map (λ one. one.0) boxes.new.items ≡ map (λ one. one.0) boxes.old.items }
    ensures capacity { vec_capacity boxes.old ≤ vec_capacity boxes.new }
    ensures limit { hits.new.limit ≡ hits.old.limit }
{
    if left.kept.is_empty() {
        let last = find_and_invoke(tree, hits, left.last, call, recorder, boxes);
        return Left {
            kept: left.kept,
            last,
        };
    }
    let (ids, rest) = split_found(left.kept);
    invoke_ids(ids, call, recorder, boxes);
    Left {
        kept: rest,
        last: left.last,
    }
}

/// Finds the methods of one message, makes its calls, and hands back the pattern that the methods in `hits` are of.
fn find_and_invoke<'a, M: Called>(
    tree: &Tree,
    hits: &mut Hits,
    last: &'a [u8],
    call: &Call<'a>,
    recorder: &mut Recorder,
    boxes: &mut Vec<(u32, M)>,
) -> &'a [u8]
    requires limit { tree.now.method_limit ≤ hits.old.limit }
    requires stand { StandFor tree.now last.now hits.old.ids }
    requires owed { length (calls_of tree.now.methods call.now.index call.now.message)
        ≤ owed_by recorder.old }
    requires ascending { IsTrue (is_ascending (map (λ one. one.0) boxes.old.items)) }
    ensures stand { StandFor tree.now result.now hits.new.ids }
    ensures recorder { recorder.new
        ≡ with_hits recorder.old
        (hits_of (calls_of tree.now.methods call.now.index call.now.message)) }
    ensures boxes { told M.keep M.heard boxes.new.items
        ≡ all_hear (invocations_of call.now.unit
        (calls_of tree.now.methods call.now.index call.now.message))
        (told M.keep M.heard boxes.old.items) }
    ensures ids { map (λ one. one.0) boxes.new.items ≡ map (λ one. one.0) boxes.old.items }
    ensures capacity { vec_capacity boxes.old ≤ vec_capacity boxes.new }
    ensures limit { hits.new.limit ≡ hits.old.limit }
{
    let (count, pattern) = count_next(tree, hits, last, &call.message);
    invoke_ids(&hits.ids()[..count], call, recorder, boxes);
    pattern
}

/// The ids of the first message's methods, and what is kept of the others.
fn split_found(kept: &[u32]) -> (&[u32], &[u32])
    requires { CountsFound kept.now }
    ensures ids { result.0.now ≡ first_found kept.now }
    ensures rest { result.1.now ≡ after_found kept.now }
{
    kept[1..].split_at(kept[0] as usize)
}

/// Makes the call of each of the methods with these ids.
#[inline(always)]
fn invoke_ids<M: Called>(
    ids: &[u32],
    call: &Call<'_>,
    recorder: &mut Recorder,
    boxes: &mut Vec<(u32, M)>,
)
    requires owed { length ids.now ≤ owed_by recorder.old }
    requires ascending { IsTrue (is_ascending (map (λ one. one.0) boxes.old.items)) }
    ensures recorder { recorder.new
        ≡ with_hits recorder.old (map (λ id. record { index = call.now.index; id = id }) ids.now) }
    ensures boxes { (methods : List Method)
        → told M.keep M.heard boxes.new.items
        ≡ all_hear (map (invocation_by methods call.now) ids.now)
        (told M.keep M.heard boxes.old.items) }
    ensures ids { map (λ one. one.0) boxes.new.items ≡ map (λ one. one.0) boxes.old.items }
    ensures capacity { vec_capacity boxes.old ≤ vec_capacity boxes.new }
{
    for id in ids {
        recorder.put_hit(call.index, *id);
        invoke_one(boxes, *id, call);
    }
}
