// Relays by UDP over the loopback.
use crate::relays::{call, relay};
use osc_method::Method;
use osc_relay::{Losses, Outlet, UdpOutlet};
use std::net::{Ipv4Addr, SocketAddrV4, UdpSocket};
use std::sync::Arc;
use std::test::Fail;
use std::time::Duration;

/// A socket that waits up to two seconds for a datagram, and its port.
fn receiver(rt: &HostRuntime) -> Result<(UdpSocket, u16), Fail> {
    let socket = UdpSocket::bind(rt, "0.0.0.0:0")?;
    socket.set_read_timeout(Some(Duration::from_secs(2)))?;
    let port = socket.local_addr()?.port();
    Ok((socket, port))
}

/// What a thread may be handed.
fn sendable<T: Send>(value: T) -> T {
    value
}

/// The standard's message to its frequency (OSC 1.0 examples), called by a pattern, reaches a port
/// and all of a network; a destination of port 0 can't be sent to.
#[test]
fn a_relay_by_udp_reaches_its_destinations(rt: HostRuntime) -> Result<(), Fail> {
    let alloc = rt.alloc();
    let losses = Arc::new(alloc, Losses::new())?;
    let (first, first_port) = receiver(&rt)?;
    let (second, second_port) = receiver(&rt)?;
    let mut outlets = Vec::with_capacity(alloc, 3)?;
    for (host, port) in [
        (Ipv4Addr::LOCALHOST, first_port),
        (Ipv4Addr::LOCALHOST, 0),
        (Ipv4Addr::new(127, 255, 255, 255), second_port),
    ] {
        let to = SocketAddrV4::new(host, port);
        outlets.push(UdpOutlet::to(&rt, to, losses.clone()?))?;
    }
    let mut relay = sendable(relay(alloc, b"/oscillator/4/frequency", outlets)?);
    relay.invoke(&call(b"/*/4/*\0\0,f\0\0\x43\xdc\0\0")?);
    for socket in [&first, &second] {
        let mut bytes = [0u8; 64];
        assert_eq!(rt; socket.recv(&mut bytes)?, 32);
        let sent = b"/oscillator/4/frequency\0,f\0\0\x43\xdc\0\0".as_slice();
        assert_eq!(rt; &bytes[..32], sent);
    }
    for (outlet, lost) in relay.outlets().iter().zip([0, 1, 0]) {
        assert_eq!(rt; outlet.lost(), lost);
    }
    assert_eq!(rt; (losses.take(), losses.take(), losses.all()), (1, 0, 1));
    Ok(())
}
