// Links and clocks, in memory and real.
use osc_atoms::Bytes;
use osc_edge::{
    Clock, Datagram, Link, MAX_DATAGRAM, MemoryClock, MemoryLink, Moment, SystemClock, UdpLink,
};
use std::alloc::{AllocError, Global};
use std::io;
use std::net::UdpSocket;
use std::test::Fail;
use std::time::{SystemTime, UNIX_EPOCH};

/// What the link answers, and the first five bytes of a slice that was full of ones.
pub(crate) fn next<L: Link>(
    alloc: Global,
    link: &mut L,
) -> Result<(Datagram, Vec<u8>), AllocError> {
    let mut into = vec![in alloc; 1u8; MAX_DATAGRAM]?;
    let datagram = link.next(&mut into);
    into.truncate(5);
    Ok((datagram, into))
}

#[test]
fn a_link_in_memory_gives_its_turns_in_order(rt: HostRuntime) -> Result<(), Fail> {
    let alloc = rt.alloc();
    let mut turns = Vec::new(alloc);
    turns.push(Some(Bytes::copied(alloc, b"/a\0\0")?))?;
    turns.push(None)?;
    turns.push(Some(Bytes::copied(alloc, b"")?))?;
    let mut link = MemoryLink::open(turns, Vec::from_array(alloc, [2])?);
    let (first, bytes) = next(alloc, &mut link)?;
    assert_eq!(rt; first, Datagram::Got(4));
    assert_eq!(rt; bytes.as_slice(), b"/a\0\0\x01".as_slice());
    for expected in [
        Datagram::Failed,
        Datagram::Quiet,
        Datagram::Got(0),
        Datagram::End,
        Datagram::End,
    ] {
        assert_eq!(rt; next(alloc, &mut link)?.0, expected);
    }
    Ok(())
}

#[test]
fn a_clock_in_memory_stays_at_its_last_moment(rt: HostRuntime) -> Result<(), Fail> {
    let alloc = rt.alloc();
    let moments = Vec::from_array(alloc, [5, 7])?;
    let mut clock = MemoryClock::open(moments, Vec::from_array(alloc, [2])?);
    for expected in [Moment::At(5), Moment::Failed, Moment::At(7), Moment::At(7)] {
        assert_eq!(rt; clock.now(), expected);
    }
    Ok(())
}

/// A port that nothing is bound to.
fn free_port(rt: &HostRuntime) -> io::Result<u16> {
    Ok(UdpSocket::bind(rt, "0.0.0.0:0")?.local_addr()?.port())
}

#[test]
fn a_port_gives_the_datagrams_that_are_sent_to_it(rt: HostRuntime) -> Result<(), Fail> {
    let alloc = rt.alloc();
    let sender = UdpSocket::bind(&rt, "127.0.0.1:0")?;
    let port = free_port(&rt)?;
    let mut link = UdpLink::at(&rt, port);
    let mut second = UdpLink::at(&rt, port);
    assert_eq!(rt; next(alloc, &mut link)?.0, Datagram::Quiet);
    assert_eq!(rt; next(alloc, &mut second)?.0, Datagram::Failed);
    sender.send_to(b"/a\0\0", ("127.0.0.1", port))?;
    sender.send_to(b"", ("127.0.0.1", port))?;
    let (first, bytes) = next(alloc, &mut link)?;
    assert_eq!(rt; first, Datagram::Got(4));
    assert_eq!(rt; bytes.as_slice(), b"/a\0\0\x01".as_slice());
    assert_eq!(rt; next(alloc, &mut link)?.0, Datagram::Got(0));
    assert_eq!(rt; next(alloc, &mut link)?.0, Datagram::Quiet);
    Ok(())
}

/// Whole seconds from 1900, by 25,567 days to 1970.
fn seconds_now(rt: &HostRuntime) -> Result<u64, Fail> {
    let since_1970 = SystemTime::now(rt)?.duration_since(UNIX_EPOCH)?;
    Ok(since_1970.as_secs() + 25_567 * 86_400)
}

#[test]
fn the_clock_of_the_system_gives_its_time(rt: HostRuntime) -> Result<(), Fail> {
    let mut clock = SystemClock::open(&rt);
    let before = seconds_now(&rt)?;
    let (first, second) = (clock.now(), clock.now());
    let after = seconds_now(&rt)?;
    let (Moment::At(first), Moment::At(second)) = (first, second) else {
        return Err(Fail::new("the clock failed"));
    };
    assert!(rt; first < second);
    assert!(rt; before <= first >> 32 && second >> 32 <= after);
    Ok(())
}
