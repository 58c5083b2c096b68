// Ports that are served over loopback, and a stream that is broken.
use crate::live::{ADD, FADER, words};
use osc_edge::{
    Datagram, Link, MAX_DATAGRAM, MemorySource, SteadySink, SteadySource, SystemClock, TcpSource,
    UdpLink,
};
use osc_lanes::OpenGate;
use osc_method::{Method, Mute};
use osc_stream::{BufferedSource, StreamLink, StreamState};
use osc_top::live_top;
use std::alloc::Global;
use std::io::{ErrorKind, Write};
use std::net::{Ipv4Addr, TcpListener, TcpStream, UdpSocket};
use std::sync::Wait;
use std::test::Fail;
use std::thread::Threads;
use std::time::Duration;
use std::{io, thread};

/// Two packets over a stream: the fader's, and one without tags.
const STREAMED: &[u8] = b"\0\0\0\x14/1/fader1\0\0\0,f\0\0\x3f\0\0\0\0\0\0\x0c/1/fader1\0\0\0";

/// The same, of which the second's size is no multiple of 4.
const BROKEN: &[u8] = b"\0\0\0\x14/1/fader1\0\0\0,f\0\0\x3f\0\0\0\0\0\0\x03";

/// The lines of their calls in the printed history.
const FADER_CALL: &str = "\ncall 0 0 0 /1/fader1 ,f f:3f000000\n";

const SECOND_CALL: &str = "\ncall 1 0 0 /1/fader1 -\n";

/// Serves the link with a method at the fader's address, by the system's clock: the status, what is written, and the link.
fn serve<W: Threads + Wait + Sync, L: Link + Send + Drop>(
    threads: &W,
    rt: &HostRuntime,
    line: &str,
    link: L,
) -> Result<(u8, Vec<u8>, Vec<L>), Fail> {
    let alloc = rt.alloc();
    let words = words(alloc, line)?;
    let mut source = SteadySource::open(Vec::from_slice(alloc, ADD)?);
    let mut out = SteadySink::open(alloc);
    let mut rec = SteadySink::open(alloc);
    let mut clock = SystemClock::open(rt);
    let mut links = Vec::with_capacity(alloc, 1)?;
    links.push_reserved(link);
    let mut bank: Vec<Box<dyn Method + Send>> = Vec::new(alloc);
    bank.push(Box::new(alloc, Mute)?)?;
    let (ended, links) = live_top(
        threads,
        alloc,
        &words,
        &mut source,
        &mut out,
        &mut rec,
        links,
        &mut clock,
        bank,
        &OpenGate,
    );
    let written = Vec::from_slice(alloc, out.bytes())?;
    Ok((ended.status, written, links))
}

/// Sends two packets to the port as soon as it is bound.
fn send(rt: &HostRuntime, port: u16) -> io::Result<()> {
    for _ in 0..1000 {
        if let Ok(mut connection) = TcpStream::connect(rt, (Ipv4Addr::LOCALHOST, port)) {
            return connection.write_all(STREAMED);
        }
        thread::sleep(rt, Duration::from_millis(10));
    }
    Err(io::Error::from(ErrorKind::NotConnected))
}

/// A link whose port is bound, and to which the fader's packet was sent.
fn sent_link(rt: &HostRuntime) -> Result<UdpLink, Fail> {
    let port = UdpSocket::bind(rt, "0.0.0.0:0")?.local_addr()?.port();
    let mut link = UdpLink::at(rt, port);
    let mut into = vec![in rt.alloc(); 0u8; MAX_DATAGRAM]?;
    if link.next(&mut into) != Datagram::Quiet {
        return Err(Fail::new("the port isn't bound"));
    }
    let sender = UdpSocket::bind(rt, "127.0.0.1:0")?;
    sender.send_to(FADER, ("127.0.0.1", port))?;
    Ok(link)
}

/// Whether the bytes have the text.
fn has(alloc: Global, bytes: &[u8], text: &str) -> Result<bool, Fail> {
    Ok(
        String::from_utf8_lossy(alloc, bytes)?
            .as_str()
            .contains(text),
    )
}

#[test]
fn what_is_sent_to_a_port_calls_its_method(rt: HostRuntime) -> Result<(), Fail> {
    let alloc = rt.alloc();
    let line = "serve --count 1 --idle 100 f";
    let (status, written, _) = serve(&rt, &rt, line, sent_link(&rt)?)?;
    assert_eq!(rt; status, 0);
    assert!(rt; has(alloc, &written, FADER_CALL)?);
    let port = TcpListener::bind(&rt, "0.0.0.0:0")?.local_addr()?.port();
    let sender = thread::spawn(&rt, move || send(&rt, port))?;
    let source = BufferedSource::open(alloc, TcpSource::at(&rt, port))?;
    let link = StreamLink::open(alloc, source)?;
    let (status, written, _) = serve(&rt, &rt, "serve --tcp f", link)?;
    sender.join(&rt)?;
    assert_eq!(rt; status, 0);
    assert!(rt; has(alloc, &written, FADER_CALL)?);
    assert!(rt; has(alloc, &written, SECOND_CALL)?);
    Ok(())
}

#[test]
fn a_broken_stream_is_a_link_that_failed(rt: HostRuntime) -> Result<(), Fail> {
    let alloc = rt.alloc();
    let bytes = Vec::from_slice(alloc, BROKEN)?;
    let link = StreamLink::open(alloc, MemorySource::open(bytes, Vec::new(alloc)))?;
    let (status, written, links) = serve(&rt, &rt, "serve --tcp f", link)?;
    assert_eq!(rt; status, 7);
    assert!(rt; has(alloc, &written, FADER_CALL)?);
    assert!(rt; written.ends_with(b"\nlink-fault 0\n"));
    for link in links {
        assert_eq!(rt; link.state(), StreamState::Broken { at: 24, size: 3 });
    }
    Ok(())
}
