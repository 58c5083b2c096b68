// What no program shows of the sequential server: a box that is handed back, and how many callers are admitted.
use osc_core::{Adding, Core, Enrolled};
use osc_message::Message;
use osc_method::{Call, Method, Mute, Trace};
use osc_pattern::Address;
use osc_record::{Caps, Late};
use std::alloc::Global;
use std::test::*;

/// A server that admits so many callers.
fn open<M: Method>(alloc: Global, callers: u32) -> Result<Core<M>, Fail> {
    let caps = Caps::new(9, 9, 9, 9, callers, 9999, Late::Deliver);
    Ok(Core::open(alloc, caps.ok().ok_or("limits")?)?)
}

fn add(core: &mut Core<Trace>, address: Address, method: Trace) -> Adding<Trace> {
    let _ = core.callers();
    core.add(0, address, method)
}

/// A method that has heard one call, of 20 bytes.
fn called(alloc: Global) -> Result<Trace, Fail> {
    let mut trace = Trace::open(alloc, 64)?;
    let message = Message::check(b"/c\0\0", 65_504).ok().ok_or("a message")?;
    trace.invoke(&Call {
        unit: 0,
        index: 1,
        message,
    });
    Ok(trace)
}

#[test]
fn a_refused_add_hands_the_box_back_as_it_was(rt: HostRuntime) -> Result<(), Fail> {
    let alloc = rt.alloc();
    let mut core = open(alloc, 1)?;
    let address = Address::read(alloc, b"/a").ok().ok_or("an address")?;
    let again = address.copied(alloc)?;
    add(&mut core, address, Trace::open(alloc, 64)?);
    match add(&mut core, again, called(alloc)?) {
        Adding::Added(_) => return Err(Fail::new("added")),
        Adding::Refused { method, .. } => assert_eq!(rt; method.told(), Some(20)),
    }
    Ok(())
}

/// How many callers are admitted, and the number that each enrolment gives, if any.
const ENROLMENTS: [(u32, &[Option<u32>]); 3] = [
    (1, &[None]),
    (2, &[Some(1), None]),
    (3, &[Some(1), Some(2), None, None]),
];

fn enrolled(core: &mut Core<Mute>) -> Option<u32> {
    let _ = core.callers();
    match core.enrol(0) {
        Enrolled::Number(number) => Some(number),
        _ => None,
    }
}

#[test]
fn as_many_callers_are_enrolled_as_the_limit_says(rt: HostRuntime) -> Result<(), Fail> {
    for (callers, numbers) in ENROLMENTS {
        let mut core: Core<Mute> = open(rt.alloc(), callers)?;
        for number in numbers {
            assert!(rt; enrolled(&mut core) == *number);
        }
    }
    Ok(())
}
