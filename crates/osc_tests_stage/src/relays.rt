// Relays over outlets in memory.
use osc_message::Message;
use osc_method::{Call, Method};
use osc_pattern::Address;
use osc_relay::{MemoryOutlet, Outlet, Relay};
use std::alloc::{AllocError, Global};
use std::test::Fail;

/// The call of a message, the first of unit 0.
pub(crate) fn call(message: &[u8]) -> Result<Call<'_>, Fail> {
    let message = Message::check(message, 65_504).ok().ok_or("a message")?;
    Ok(Call {
        unit: 0,
        index: 0,
        message,
    })
}

/// A relay over the outlets, with room for the shortest messages alone.
pub(crate) fn relay<O: Outlet>(
    alloc: Global,
    address: &[u8],
    outlets: Vec<O>,
) -> Result<Relay<O>, Fail> {
    let address = Address::read(alloc, address).ok().ok_or("an address")?;
    Ok(Relay::open(alloc, address, outlets, 256, 64)?)
}

/// Two outlets in memory, of which the second fails at its second send.
fn two_outlets(alloc: Global) -> Result<Vec<MemoryOutlet>, AllocError> {
    let mut outlets = Vec::with_capacity(alloc, 2)?;
    outlets.push(MemoryOutlet::open(alloc, Vec::new(alloc)))?;
    outlets.push(MemoryOutlet::open(alloc, Vec::from_array(alloc, [2])?))?;
    Ok(outlets)
}

/// How many datagrams the outlet has sent, and how many it has lost.
fn counts(relay: &Relay<MemoryOutlet>, outlet: usize) -> Option<(usize, u64)> {
    let outlet = relay.outlets().get(outlet)?;
    Some((outlet.sent().len(), outlet.lost()))
}

/// The last datagram that the outlet has sent.
fn last(relay: &Relay<MemoryOutlet>, outlet: usize) -> Option<&[u8]> {
    let last = relay.outlets().get(outlet)?.sent().last()?;
    Some(last.as_slice())
}

/// Each an address, that address as a string, a pattern as a string, and what follows it in a
/// message: the two messages that the standard shows (OSC 1.0 examples); one without tags; and one
/// with a tag that the standard doesn't have.
const RELAYED: [(&[u8], &[u8], &[u8], &[u8]); 4] = [
    (
        b"/oscillator/4/frequency",
        b"/oscillator/4/frequency\0",
        b"/*/4/{frequency,phase}\0\0",
        b",f\0\0\x43\xdc\0\0",
    ),
    (
        b"/foo",
        b"/foo\0\0\0\0",
        b"/[a-z]oo\0\0\0\0",
        b",iisff\0\0\0\0\x03\xe8\xff\xff\xff\xffhello\0\0\0\x3f\x9d\xf3\xb6\x40\xb5\xb2\x2d",
    ),
    (b"/a", b"/a\0\0", b"/?\0\0", b""),
    (b"/dim", b"/dim\0\0\0\0", b"/*\0\0", b",ix\0\0\0\0\x07abcd"),
];

fn joined(alloc: Global, front: &[u8], rest: &[u8]) -> Result<Vec<u8>, AllocError> {
    let mut bytes = Vec::from_slice(alloc, front)?;
    bytes.extend_from_slice(rest)?;
    Ok(bytes)
}

#[test]
fn a_call_is_sent_on_to_the_address_of_the_relay(rt: HostRuntime) -> Result<(), Fail> {
    let alloc = rt.alloc();
    for (address, sent, called, rest) in RELAYED {
        let mut relay = relay(alloc, address, two_outlets(alloc)?)?;
        relay.invoke(&call(&joined(alloc, called, rest)?)?);
        let expected = joined(alloc, sent, rest)?;
        assert_eq!(rt; last(&relay, 0), Some(expected.as_slice()));
        assert_eq!(rt; last(&relay, 1), Some(expected.as_slice()));
    }
    Ok(())
}

#[test]
fn each_outlet_counts_what_it_has_lost_since_the_reset(rt: HostRuntime) -> Result<(), Fail> {
    let alloc = rt.alloc();
    let mut relay = relay(alloc, b"/a", two_outlets(alloc)?)?;
    for (first, second) in [((1, 0), (1, 0)), ((2, 0), (1, 1)), ((3, 0), (2, 1))] {
        relay.invoke(&call(b"/?\0\0")?);
        assert_eq!(rt; counts(&relay, 0), Some(first));
        assert_eq!(rt; counts(&relay, 1), Some(second));
    }
    relay.reset();
    assert_eq!(rt; counts(&relay, 0), Some((0, 0)));
    assert_eq!(rt; counts(&relay, 1), Some((0, 0)));
    assert_eq!(rt; relay.told(), Some(0));
    Ok(())
}

/// A message of so many bytes, most of which stand for a tag that the standard doesn't have.
fn unread(alloc: Global, size: usize) -> Result<Vec<u8>, AllocError> {
    let mut bytes = Vec::from_slice(alloc, b"/?\0\0,x\0\0")?;
    bytes.resize(size, 0)?;
    Ok(bytes)
}

#[test]
fn a_message_that_has_no_room_is_lost_and_not_cut(rt: HostRuntime) -> Result<(), Fail> {
    let alloc = rt.alloc();
    let mut relay = relay(alloc, b"/a", two_outlets(alloc)?)?;
    for (size, counted) in [(256, (1, 0)), (260, (1, 1)), (8, (2, 1))] {
        relay.invoke(&call(&unread(alloc, size)?)?);
        assert_eq!(rt; counts(&relay, 0), Some(counted));
    }
    assert_eq!(rt; last(&relay, 0), Some(b"/a\0\0,x\0\0".as_slice()));
    Ok(())
}
