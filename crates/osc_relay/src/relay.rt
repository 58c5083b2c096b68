//! A method that sends its calls on.
ghost use Rattle.std.specs.Prelude.{◌≡◌, ◌≤◌, ◌<◌, ◌^◌, ◌++◌, length, take, drop, All};
ghost use Rattle.std.specs.Prelude.{vec_len, option_map};
ghost use Rattle.std.specs.Option.{ForSome};
ghost use Rattle.osc_atoms.specs.Atoms.{string};
ghost use Rattle.osc_pattern.specs.Addresses.{IsAddress};
ghost use Rattle.osc_relay.specs.Relayed.{after_pattern, within as datagram_within};
ghost use Rattle.osc_relay.specs.Sent.{HasRelayed};

use crate::Outlet;
use crate::outlets::{reset_each, send_each};
use osc_atoms::{string_size, write_string};
use osc_message::Message;
use osc_method::{Call, Method, Trace};
use osc_pattern::Address;
use std::alloc::{AllocError, Global};

/// A method that sends each message that it is called with to each of its outlets, with its own address in place of the
/// message's pattern. It tells the last bytes of its calls, as [`Trace`] does. No call takes memory of its own.
pub struct Relay<O: Outlet> {
    address: Address,
    /// The address as a string, and room for what follows it.
    space: Vec<u8>,
    /// How many bytes the address has as a string.
    start: usize,
    trace: Trace,
    outlets: Vec<O>,
    ghost within: { start ≤ vec_len space },
    ghost written: { take start space.items ≡ string address },
    ghost relayed: { All (λ outlet. ∥ HasRelayed address (length space.items)
        (⟦<Trace as Method>⟧.keep trace).most (⟦<Trace as Method>⟧.heard trace)
        (O.sent outlet) (O.losses outlet) ∥₁) outlets.items },
}

impl<O: Outlet> Drop for Relay<O> {
    fn drop(self) {
        let Relay {
            address: _,
            space: _,
            start: _,
            trace: _,
            outlets: _,
        } = self;
    }
}

impl<O: Outlet> Relay<O> {
    ghost use Rattle.std.specs.Prelude.{◌≡◌, ◌≤◌, ◌<◌, IfOk, All, map, Some, []};
    ghost use Rattle.std.specs.List.{AllZip};
    ghost use Rattle.osc_relay.specs.Outlets.{IsReset};
    ghost use Rattle.osc_relay.specs.Sent.{HasRelayed};
    ghost use Rattle.osc_relay.specs.Relays.{room_of};

    /// A relay that has sent nothing, over outlets that it resets. It reserves `room` bytes for a datagram, and `keep`
    /// for what it tells.
    pub fn open(
        alloc: Global,
        address: Address,
        mut outlets: Vec<O>,
        room: usize,
        keep: u32,
    ) -> Result<Relay<O>, AllocError>
        requires room { 256 ≤ room }
        requires some { 0 < keep }
        requires few { keep ≤ 1048576 }
        ensures address { IfOk result (λ relay. relay.address ≡ address) }
        ensures room { IfOk result (λ relay. room_of relay ≡ room) }
        ensures keep { IfOk result (λ relay. ⟦<Relay<O> as Method>⟧.keep relay
            ≡ record { most = keep; name = address; outlets = map O.mark relay.outlets.items }) }
        ensures heard { IfOk result (λ relay. ⟦<Relay<O> as Method>⟧.heard relay ≡ Some []) }
        ensures outlets { IfOk result
            (λ relay. AllZip (IsReset O.sent O.losses O.tries O.mark) outlets.items relay.outlets.items) }
    {
        reset_each(&mut outlets);
        let mut space = vec![in alloc; 0; room]?;
        let start = write_start(&mut space, address.bytes());
        Ok(Relay {
            address,
            space,
            start,
            trace: Trace::open(alloc, keep)?,
            outlets,
        })
    }

    /// The address that stands in what is sent.
    pub fn address(&self) -> &Address
        ensures { result.now ≡ self.now.address }
    {
        &self.address
    }

    /// The outlets, each with what it was sent of the calls since the reset.
    pub fn outlets(&self) -> &[O]
        ensures outlets { result.now ≡ self.now.outlets.items }
        ensures relayed { All (λ outlet. ∥ HasRelayed self.now.address (room_of self.now)
            (⟦<Relay<O> as Method>⟧.keep self.now).most (⟦<Relay<O> as Method>⟧.heard self.now)
            (O.sent outlet) (O.losses outlet) ∥₁) result.now }
    {
        &self.outlets
    }
}

/// Writes the address as a string at the front, and answers how many bytes that are.
fn write_start(space: &mut [u8], address: &[u8]) -> usize
    requires address { IsAddress address.now }
    requires room { 256 ≤ length space.old }
    ensures start { take result space.new ≡ string address.now }
    ensures within { result ≤ length space.new }
    ensures same { length space.new ≡ length space.old }
{
    osc_pattern::laws::an_address_is_a_pattern();
    write_string(space, 0, address)
}

/// Puts bytes after the first `start`, and answers where they end; `None` where they have no room.
fn put_after(space: &mut [u8], start: usize, bytes: &[u8]) -> Option<usize>
    requires { start ≤ length space.old }
    ensures put { option_map (λ end. take end space.new) result
        ≡ datagram_within (length space.old) (take start space.old ++ bytes.now) }
    ensures start { take start space.new ≡ take start space.old }
    ensures within { ForSome result (λ end. end ≤ length space.new) }
    ensures same { length space.new ≡ length space.old }
{
    if bytes.len() > space.len() - start {
        return None;
    }
    let end = start + bytes.len();
    space[start..end].copy_from_slice(bytes);
    Some(end)
}

/// What follows the pattern of the message.
fn after_pattern<'a>(message: &Message<'a>) -> &'a [u8]
    ensures rest { result.now ≡ after_pattern message.now }
    ensures short { length message.now < 2 ^ 32 }
{
    let bytes = message.bytes();
    let start = string_size(message.pattern().bytes().len());
    bytes.get(start..).unwrap_or(&[])
}

impl<O: Outlet> Method for Relay<O> {
    ghost use Rattle.std.specs.Prelude.{◌≡◌, map};
    ghost use Rattle.std.specs.List.{AllZip};
    ghost use Rattle.osc_method.specs.Calls.{call_bytes};
    ghost use Rattle.osc_method.specs.Heard.{after_call};
    ghost use Rattle.osc_relay.specs.Outlets.{Takes};
    ghost use Rattle.osc_relay.specs.Relays.{room_of, datagram_of};

    ghost keep = { λ r. record {
      most = (⟦<Trace as Method>⟧.keep r.trace).most;
      name = r.address;
      outlets = map O.mark r.outlets.items;
    } };

    ghost heard = { λ r. ⟦<Trace as Method>⟧.heard r.trace };

    fn reset(&mut self) {
        self.trace.reset();
        reset_each(&mut self.outlets);
    }

    /// Hands each outlet the message to the relay's own address; or each has lost it, where it has no room.
    fn invoke(&mut self, call: &Call<'_>)
        ensures keep { ⟦<Trace as Method>⟧.keep self.new.trace
            ≡ ⟦<Trace as Method>⟧.keep self.old.trace }
        ensures marks { map O.mark self.new.outlets.items ≡ map O.mark self.old.outlets.items }
        ensures heard { ⟦<Trace as Method>⟧.heard self.new.trace
            ≡ after_call (⟦<Trace as Method>⟧.keep self.old.trace).most (call_bytes call.now)
            (⟦<Trace as Method>⟧.heard self.old.trace) }
        ensures sends { AllZip (Takes O.sent O.losses O.tries O.mark (datagram_of self.old call.now.message))
            self.old.outlets.items self.new.outlets.items }
        ensures address { self.new.address ≡ self.old.address }
        ensures room { room_of self.new ≡ room_of self.old }
    {
        self.trace.invoke(call);
        let end = put_after(&mut self.space, self.start, after_pattern(&call.message));
        send_each(&mut self.outlets, &self.space, end);
    }

    fn told(&self) -> Option<u32> {
        self.trace.told()
    }

    fn byte(&self, k: u32) -> u8 {
        self.trace.byte(k)
    }
}
