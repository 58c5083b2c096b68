//! The calls that a release tells.
ghost use Rattle.std.specs.Prelude.{◌≡◌, ◌<◌, ◌==◌, ◌&&◌, find, map, length, is_some};
ghost use Rattle.std.specs.Prelude.{unwrap_or, slice_index_or, []};
ghost use Rattle.std.specs.List.{list_all};
ghost use Rattle.std.specs.Option.{option_map};
ghost use Rattle.osc_tree.specs.Registry.{address_by_id};
ghost use Rattle.osc_model.specs.Recordings.{hits_in};
ghost use Rattle.osc_story.specs.Standings as spec;
ghost use Rattle.osc_story.specs.Hits.{SplitsHit, SplitsWords};

use crate::kept_message::KeptMessage;
use crate::registered::Registered;
use std::marker::Model;

/// The first hit of bytes, where there is one: its message's index and its method's id, and the
/// bytes after it.
#[tactic(auto, using(crate::proofs::Splits::splits))]
pub(crate) fn split_hit(bytes: &[u8]) -> Option<(u32, u32, &[u8])>
    ensures { SplitsHit bytes.now (option_map (λ split. (split.0, split.1, split.2.now)) result) }
{
    split_words(bytes)
}

/// The first two words of bytes, and those after them.
fn split_words(bytes: &[u8]) -> Option<(u32, u32, &[u8])>
    ensures { SplitsWords bytes.now (option_map (λ split. (split.0, split.1, split.2.now)) result) }
{
    let (first, rest) = bytes.split_first_chunk::<4>()?;
    let (second, rest) = rest.split_first_chunk::<4>()?;
    Some((
        u32::from_be_bytes(*first),
        u32::from_be_bytes(*second),
        rest,
    ))
}

/// The address of the method with an id, if it is there.
pub fn address_of(methods: &[Registered], id: u32) -> Option<&[u8]>
    ensures { option_map (λ address. address.now) result ≡ address_by_id methods.now id }
{
    methods
        .iter()
        .find(|method| method.id() == id)
        .map(|method| method.address())
}

/// Whether a method has this id.
fn is_there(methods: &[Registered], id: u32) -> bool
    ensures { result ≡ is_some (address_by_id methods.now id) }
{
    address_of(methods, id).is_some()
}

/// Whether each hit is of a message of the unit, and of a method that is there.
pub(crate) fn are_calls(methods: &[Registered], messages: &[KeptMessage], hits: &[u8]) -> bool
    ensures { result ≡ list_all (spec.is_call methods.now messages.now) (hits_in hits.now) }
{
    let mut rest = hits;
    while let Some((index, id, after)) = split_hit(rest) {
        if !is_call(methods, messages, index, id) {
            return false;
        }
        rest = after;
    }
    true
}

/// Whether a hit is of a message of the unit, and of a method that is there.
fn is_call(methods: &[Registered], messages: &[KeptMessage], index: u32, id: u32) -> bool
    ensures { result ≡ spec.is_call methods.now messages.now (record { index = index; id = id }) }
{
    (index as usize) < messages.len() && is_there(methods, id)
}

/// A call of a method. A contract sees which message of the unit it is, the method's id and
/// address, and the message.
#[derive(Drop)]
pub struct Call<'a> {
    index: u32,
    id: u32,
    address: &'a [u8],
    message: &'a [u8],
}

impl<'a> Model for Call<'a> {
    ghost use Rattle.osc_model.specs.Events as model;

    ghost Value = { model.Call };

    ghost view = { λ c. record {
      index = c.index;
      id = c.id;
      address = c.address.now;
      message = c.message.now;
    } };
}

impl<'a> Call<'a> {
    ghost use Rattle.std.specs.Prelude.{◌≡◌};

    /// Which message of its unit was called, counted from 0.
    pub fn index(&self) -> u32
        ensures { result ≡ self.now.index }
    {
        self.index
    }

    /// The method's id.
    pub fn id(&self) -> u32
        ensures { result ≡ self.now.id }
    {
        self.id
    }

    /// The method's address.
    pub fn address(&self) -> &'a [u8]
        ensures { result.now ≡ self.now.address }
    {
        self.address
    }

    /// The bytes of the message.
    pub fn message(&self) -> &'a [u8]
        ensures { result.now ≡ self.now.message }
    {
        self.message
    }
}

/// The calls that a release tells and that are left, in their order. A contract sees them as a
/// list.
#[derive(Drop)]
pub struct Calls<'a> {
    methods: &'a [Registered],
    messages: &'a [KeptMessage],
    hits: &'a [u8],
}

impl<'a> Model for Calls<'a> {
    ghost use Rattle.std.specs.Prelude.{List, map};
    ghost use Rattle.osc_model.specs.Events as model;
    ghost use Rattle.osc_model.specs.Recordings.{hits_in};
    ghost use Rattle.osc_story.specs.Standings.{call_of};

    ghost Value = { List model.Call };

    ghost view = { λ c. map (call_of c.methods.now c.messages.now) (hits_in c.hits.now) };
}

impl<'a> Calls<'a> {
    ghost use Rattle.std.specs.Prelude.{◌≡◌, map};
    ghost use Rattle.osc_model.specs.Recordings.{hits_in};
    ghost use Rattle.osc_story.specs.Standings.{call_of};

    pub(crate) fn new(
        methods: &'a [Registered],
        messages: &'a [KeptMessage],
        hits: &'a [u8],
    ) -> Calls<'a>
        ensures { result ≡ map (call_of methods.now messages.now) (hits_in hits.now) }
    {
        Calls {
            methods,
            messages,
            hits,
        }
    }
}

impl<'a> Iterator for Calls<'a> {
    type Item = Call<'a>;

    ghost use Rattle.std.specs.Iterator.{YieldsFirst, item_count};

    ghost next_gives = { YieldsFirst (λ left. left) };

    ghost remaining = { item_count (λ left. left) };

    fn next(&mut self) -> Option<Call<'a>> {
        let (index, id, rest) = split_hit(self.hits)?;
        self.hits = rest;
        Some(call_of(self.methods, self.messages, index, id))
    }
}

/// The call of a hit.
fn call_of<'a>(
    methods: &'a [Registered],
    messages: &'a [KeptMessage],
    index: u32,
    id: u32,
) -> Call<'a>
    ensures { result ≡ spec.call_of methods.now messages.now (record { index = index; id = id }) }
{
    Call {
        index,
        id,
        address: address_or_none(methods, id),
        message: message_or_none(messages, index),
    }
}

fn address_or_none(methods: &[Registered], id: u32) -> &[u8]
    ensures { result.now ≡ unwrap_or (address_by_id methods.now id) [] }
{
    match address_of(methods, id) {
        Some(address) => address,
        None => b"",
    }
}

fn message_or_none(messages: &[KeptMessage], index: u32) -> &[u8]
    ensures { result.now ≡ slice_index_or messages.now index [] }
{
    match messages.get(index as usize) {
        Some(message) => message.as_slice(),
        None => b"",
    }
}
