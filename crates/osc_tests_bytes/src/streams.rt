// Packets over a stream, from pieces, from memory and from a connection.
use crate::edges::next;
use osc_edge::{Datagram, MemorySource, Source, Taken, TcpSource};
use osc_stream::{BufferedSource, Fed, Stream, StreamLink, StreamState};
use std::alloc::{AllocError, Global};
use std::io::{ErrorKind, Write};
use std::net::{Ipv4Addr, TcpListener, TcpStream};
use std::test::Fail;
use std::time::Duration;
use std::{io, thread};

/// Two packets, each after its size.
const TWO: [u8; 20] = *b"\0\0\0\x04/a\0\0\0\0\0\x08/a\0\0,\0\0\0";

#[test]
fn a_stream_is_ready_at_the_last_byte_of_each_packet(rt: HostRuntime) -> Result<(), Fail> {
    let mut stream = Stream::open(rt.alloc())?;
    for at in 0..TWO.len() {
        let expected = if at == 7 || at == 19 {
            Fed::Ready
        } else {
            Fed::More
        };
        assert_eq!(rt; stream.take(&TWO[at..at + 1]), (1, expected));
    }
    assert_eq!(rt; stream.place(), 20);
    assert_eq!(rt;
        stream.take(b"\0\0\0\x03\0"),
        (4, Fed::Broken { at: 20, size: 3 })
    );
    assert_eq!(rt;
        stream.take(b"\0\0\0\x03\0"),
        (0, Fed::Broken { at: 20, size: 3 })
    );
    Ok(())
}

#[test]
fn a_stream_leaves_what_is_after_a_packet(rt: HostRuntime) -> Result<(), Fail> {
    let mut stream = Stream::open(rt.alloc())?;
    assert_eq!(rt; stream.take(&TWO), (8, Fed::Ready));
    assert_eq!(rt; stream.packet(), b"/a\0\0".as_slice());
    assert_eq!(rt; stream.take(&TWO[8..]), (12, Fed::Ready));
    assert_eq!(rt; stream.take(b"\0\0\0\0/"), (4, Fed::Ready));
    assert_eq!(rt; stream.packet(), b"".as_slice());
    assert_eq!(rt;
        stream.take(b"\0\0\xff\xe4"),
        (
            4,
            Fed::Broken {
                at: 24,
                size: 65_508
            }
        )
    );
    Ok(())
}

/// What a link over the bytes answers at so many calls, and how it stands then.
fn answers(
    alloc: Global,
    bytes: &[u8],
    fails: Vec<u32>,
    calls: u32,
) -> Result<(Vec<Datagram>, StreamState), AllocError> {
    let source = MemorySource::open(Vec::from_slice(alloc, bytes)?, fails);
    let mut link = StreamLink::open(alloc, source)?;
    let mut answers = Vec::new(alloc);
    for _ in 0..calls {
        answers.push(next(alloc, &mut link)?.0)?;
    }
    Ok((answers, link.state()))
}

#[test]
fn a_link_ends_as_its_stream_does(rt: HostRuntime) -> Result<(), Fail> {
    let alloc = rt.alloc();
    let none = Vec::new(alloc);
    let (told, state) = answers(alloc, b"\0\0\0\x04/a\0\0\0\0\0\x03", none, 3)?;
    assert_eq!(rt;
        told.as_slice(),
        [Datagram::Got(4), Datagram::Failed, Datagram::End].as_slice()
    );
    assert_eq!(rt; state, StreamState::Broken { at: 8, size: 3 });
    let (told, state) = answers(alloc, &TWO[..19], Vec::new(alloc), 3)?;
    assert_eq!(rt;
        told.as_slice(),
        [Datagram::Got(4), Datagram::Failed, Datagram::End].as_slice()
    );
    assert_eq!(rt; state, StreamState::Cut { at: 8 });
    let (told, state) = answers(alloc, &TWO, Vec::from_array(alloc, [2, 3])?, 5)?;
    let expected = [
        Datagram::Failed,
        Datagram::Failed,
        Datagram::Got(4),
        Datagram::Got(8),
        Datagram::End,
    ];
    assert_eq!(rt; told.as_slice(), expected.as_slice());
    assert_eq!(rt; state, StreamState::Clean);
    Ok(())
}

/// Sends the bytes to the port as soon as it is bound.
fn send(rt: &HostRuntime, port: u16) -> io::Result<()> {
    for _ in 0..1000 {
        if let Ok(mut connection) = TcpStream::connect(rt, (Ipv4Addr::LOCALHOST, port)) {
            return connection.write_all(&TWO);
        }
        thread::sleep(rt, Duration::from_millis(10));
    }
    Err(io::Error::from(ErrorKind::NotConnected))
}

/// A port that nothing is bound to.
fn free_port(rt: &HostRuntime) -> io::Result<u16> {
    let listener = TcpListener::bind(rt, "0.0.0.0:0")?;
    Ok(listener.local_addr()?.port())
}

#[test]
fn a_connection_gives_the_bytes_that_are_sent(rt: HostRuntime) -> Result<(), Fail> {
    let alloc = rt.alloc();
    let port = free_port(&rt)?;
    let sender = thread::spawn(&rt, move || send(&rt, port))?;
    let mut source = TcpSource::at(&rt, port);
    let mut bytes = Vec::new(alloc);
    let mut piece = [0u8; 64];
    for _ in 0..100 {
        match source.read(&mut piece) {
            Taken::Bytes(0) => break,
            Taken::Bytes(count) => bytes.extend_from_slice(&piece[..count])?,
            Taken::Failed => return Err(Fail::new("the source failed")),
        }
    }
    sender.join(&rt)?;
    assert_eq!(rt; bytes.as_slice(), TWO.as_slice());
    Ok(())
}

#[test]
fn a_link_gives_the_packets_of_a_connection(rt: HostRuntime) -> Result<(), Fail> {
    let alloc = rt.alloc();
    let port = free_port(&rt)?;
    let sender = thread::spawn(&rt, move || send(&rt, port))?;
    let source = BufferedSource::open(alloc, TcpSource::at(&rt, port))?;
    let mut link = StreamLink::open(alloc, source)?;
    for expected in [
        Datagram::Got(4),
        Datagram::Got(8),
        Datagram::End,
        Datagram::End,
    ] {
        assert_eq!(rt; next(alloc, &mut link)?.0, expected);
    }
    sender.join(&rt)?;
    assert_eq!(rt; link.state(), StreamState::Clean);
    Ok(())
}
