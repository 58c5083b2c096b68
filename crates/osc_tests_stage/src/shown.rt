// Lines as a person reads them. The expected lines are those of a reader of recordings in Python
// that shares no code with the crate, followed by who has sent the datagram.
use jiff_core::Offset;
use osc_atoms::Fault;
use osc_packet::{MAX_PACKET, Packet};
use osc_pattern::Address;
use osc_shown::{Answered, Arrival, Look, Route, WallClock, day_line, refusal_line, unit_lines};
use std::alloc::Global;
use std::net::{Ipv4Addr, SocketAddrV4};
use std::process::Abort;
use std::test::Fail;

/// 20:00:44.500 on 2026-11-29, in UTC.
const NOW: u64 = 0xeeb702ec80000000;

/// The addresses of a patch, and where they send.
const PATCH: [(&[u8], &[u8]); 7] = [
    (b"/light/back", b""),
    (b"/light/front", b"10.0.0.7:8000"),
    (b"/light/house", b"10.0.0.7:8000"),
    (b"/light/left", b""),
    (b"/light/right", b"10.0.0.8:9"),
    (b"/sound/go", b""),
    (b"/video/clip", b"10.0.0.8:8000"),
];

/// Datagrams, what the server answered, and their lines.
const UNITS: [(Answered, &[u8], &[u8]); 21] = [
    (
        Answered::Due,
        b"/video/clip\0,ifsSbbhtdcrmTFNI[]\0\xff\xff\xff\xf9?@\0\0act \
          \"two\"\\\0\0x\0\0\0\0\0\0\x02\x01\x02\0\0\0\0\0\n\x01\x02\x03\x04\x05\x06\x07\x08\x09\n\
          \0\0\0\0\0\x01*\x05\xf2\0\x80\0\0\0\0\0\0\0?\xb9\x99\x99\x99\x99\x99\x9a\0\0\0A\0\xff\x88\
          \0\0\x90<\x7f",
        b"20:00:44.500    /video/clip -7 0.75 \"act \\\"two\\\"\\\\\" S:\"x\" b:0102 \
          b:0102030405060708..10 h:5000000000 t:8000000000000000 d:0.1 c:A r:00ff8800 m:00903c7f \
          true false nil infinitum [ ]  -> 10.0.0.8:8000, from 10.0.0.9:51234\n",
    ),
    (
        Answered::Due,
        b"/video/clip\0,ffdcs\0\0\x7f\xc0\0\0\xff\x80\0\0\x7f\xf0\0\0\0\0\0\0\0\0\0\ngr\xc3\xbcn\
          \x09\xc2\x85\0\0\0\0",
        b"20:00:44.500    /video/clip f:7fc00000 f:ff800000 d:7ff0000000000000 c:0000000a \
          \"gr\xc3\xbcn\\x09\\xc2\\x85\"  -> 10.0.0.8:8000, from 10.0.0.9:51234\n",
    ),
    (
        Answered::Due,
        b"/video/clip\0,ss\0gr\xfcn\x1b[31m\0\0\0a clip whose title is too long for any \xc3\xb6a \
          clip whose title is too long for any \xc3\xb6\0\0",
        b"20:00:44.500    /video/clip \"gr\\xfcn\\x1b[31m\" \"a clip whose title is too long for \
          any \xc3\xb6\"..82  -> 10.0.0.8:8000, from 10.0.0.9:51234\n",
    ),
    (
        Answered::Due,
        b"/video/clip\0,ff\0qI\xf2\xca\xc0@\0\0",
        b"20:00:44.500    /video/clip 1e30 -3.0           -> 10.0.0.8:8000, from 10.0.0.9:51234\n",
    ),
    (
        Answered::Due,
        b"/sound/go\0\0\0",
        b"20:00:44.500    /sound/go                       from 10.0.0.9:51234\n",
    ),
    (
        Answered::Due,
        b"/cue/name\0\0\0,s\0\0act two\0",
        b"20:00:44.500 ?  /cue/name \"act two\"             no method, from 10.0.0.9:51234\n",
    ),
    (
        Answered::Due,
        b"/video/clip\0,A\0\0",
        b"20:00:44.500 ?  /video/clip ,A                  unknown type A, so it calls nothing, \
          from 10.0.0.9:51234\n",
    ),
    (
        Answered::Due,
        b"/light/*\0\0\0\0,i\0\0\0\0\0\0",
        b"20:00:44.500    /light/* 0                      -> /light/back, /light/front, \
          /light/house 10.0.0.7:8000, /light/left and 1 more, from 10.0.0.9:51234\n",
    ),
    (
        Answered::Due,
        b"#bundle\0\0\0\0\0\0\0\0\x01\0\0\0\x18/light/front\0\0\0\0,f\0\0?@\0\0\0\0\0\x18/cue/name\
          \0\0\0,s\0\0act two\0\0\0\0\x14/light/*\0\0\0\0,i\0\0\0\0\0\0",
        b"20:00:44.500  { /light/front 0.75               -> 10.0.0.7:8000, from \
          10.0.0.9:51234\n20:00:44.500 ?| /cue/name \"act two\"             no method, from \
          10.0.0.9:51234\n20:00:44.500  } /light/* 0                      -> /light/back, \
          /light/front, /light/house 10.0.0.7:8000, /light/left and 1 more, from 10.0.0.9:51234\n",
    ),
    (
        Answered::Due,
        b"#bundle\0\0\0\0\0\0\0\0\x01\0\0\0\x18/light/front\0\0\0\0,f\0\0?@\0\0\0\0\0\x0c/sound/go\
          \0\0\0",
        b"20:00:44.500  { /light/front 0.75               -> 10.0.0.7:8000, from \
          10.0.0.9:51234\n20:00:44.500  } /sound/go                       from 10.0.0.9:51234\n",
    ),
    (
        Answered::Due,
        b"#bundle\0\0\0\0\0\0\0\0\x01",
        b"20:00:44.500    (no message)                    from 10.0.0.9:51234\n",
    ),
    (
        Answered::Due,
        b"#bundle\0\0\0\0\0\0\0\0\x01\0\0\0\x18/light/front\0\0\0\0,f\0\0?@\0\0\0\0\0 \
          #bundle\0\0\0\0\0\0\0\0\x01\0\0\0\x0c/sound/go\0\0\0",
        b"20:00:44.500    /light/front 0.75               -> 10.0.0.7:8000, from \
          10.0.0.9:51234\n20:00:44.500    /sound/go                       from 10.0.0.9:51234\n",
    ),
    (
        Answered::Late,
        b"#bundle\0\xee\xb7\x02\xebaG\xae\x15\0\0\0\x18/light/front\0\0\0\0,f\0\0?@\0\0\0\0\0\x18/c\
          ue/name\0\0\0,s\0\0act two\0\0\0\0\x0c/sound/go\0\0\0",
        b"20:00:44.500  { /light/front 0.75               -> 10.0.0.7:8000, late by 1.120 s, from \
          10.0.0.9:51234\n20:00:44.500 ?| /cue/name \"act two\"             no method, late by \
          1.120 s, from 10.0.0.9:51234\n20:00:44.500  } /sound/go                       late by \
          1.120 s, from 10.0.0.9:51234\n",
    ),
    (
        Answered::Late,
        b"#bundle\0\xee\xb7\x02\xebaG\xae\x15",
        b"20:00:44.500    (no message)                    late by 1.120 s, from 10.0.0.9:51234\n",
    ),
    (
        Answered::Discarded,
        b"#bundle\0\xee\xb7\x02\xebaG\xae\x15\0\0\0\x18/light/front\0\0\0\0,f\0\0?@\0\0\0\0\0\x18/c\
          ue/name\0\0\0,s\0\0act two\0",
        b"20:00:44.500 !{ /light/front 0.75               discarded, late by 1.120 s, from \
          10.0.0.9:51234\n20:00:44.500 !} /cue/name \"act two\"             discarded, late by \
          1.120 s, from 10.0.0.9:51234\n",
    ),
    (
        Answered::Waiting,
        b"#bundle\0\xee\xb7\x02\xf2\0\0\0\0\0\0\0\x14/light/*\0\0\0\0,i\0\0\0\0\0\0\0\0\0\x18/light\
          /front\0\0\0\0,f\0\0?@\0\0\0\0\0\x18/cue/name\0\0\0,s\0\0act two\0",
        b"20:00:44.500 ~  /light/* 0 and 2 more           for 20:00:50.000, in 5.500 s, from \
          10.0.0.9:51234\n",
    ),
    (
        Answered::Waiting,
        b"#bundle\0\xee\xb7=X\0\0\0\0\0\0\0\x18/light/front\0\0\0\0,f\0\0?@\0\0",
        b"20:00:44.500 ~  /light/front 0.75               for 2026-11-30 00:10:00.000, in \
          14955.500 s, from 10.0.0.9:51234\n",
    ),
    (
        Answered::Waiting,
        b"#bundle\0\xee\xb7\x02\xf2\0\0\0\0",
        b"20:00:44.500 ~  (no message)                    for 20:00:50.000, in 5.500 s, from \
          10.0.0.9:51234\n",
    ),
    (
        Answered::UnitsFull,
        b"/cue/name\0\0\0,s\0\0act two\0",
        b"20:00:44.500 !  /cue/name \"act two\"             refused, the queue is full, from \
          10.0.0.9:51234\n",
    ),
    (
        Answered::PoolFull,
        b"#bundle\0\xee\xb7\x02\xf2\0\0\0\0\0\0\0\x18/light/front\0\0\0\0,f\0\0?@\0\0\0\0\0\x0c/sou\
          nd/go\0\0\0",
        b"20:00:44.500 !{ /light/front 0.75               refused, no room for its messages, from \
          10.0.0.9:51234\n20:00:44.500 !} /sound/go                       refused, no room for its \
          messages, from 10.0.0.9:51234\n",
    ),
    (
        Answered::RecordFull,
        b"/sound/go\0\0\0",
        b"20:00:44.500 !  /sound/go                       refused, the recording is full, from \
          10.0.0.9:51234\n",
    ),
];

/// The kind and the place of a fault, a datagram, and its line.
const FAULTS: [(u8, u32, &[u8], &[u8]); 18] = [
    (
        1,
        0,
        b"",
        b"20:00:44.500 !   (0 bytes)                      no packet, byte 0: it is empty, from \
          10.0.0.9:51234\n",
    ),
    (
        2,
        18,
        b"GET / HTTP/1.1\x0d\n\x0d\n",
        b"20:00:44.500 !  GET / HTTP/1.1.... (18 bytes)   no packet, byte 18: its size is no \
          multiple of 4, from 10.0.0.9:51234\n",
    ),
    (
        3,
        65504,
        b"/////////////////////",
        b"20:00:44.500 !  //////////////////// (21 bytes)  no packet, byte 65,504: it is over \
          65,504 bytes, from 10.0.0.9:51234\n",
    ),
    (
        4,
        0,
        b"x",
        b"20:00:44.500 !  x (1 byte)                      no packet, byte 0: no slash and no # \
          begins it, from 10.0.0.9:51234\n",
    ),
    (
        5,
        0,
        b"#bindle\0",
        b"20:00:44.500 !  #bindle. (8 bytes)              no packet, byte 0: #bundle is misspelt, \
          from 10.0.0.9:51234\n",
    ),
    (
        6,
        8,
        b"#bundle\0",
        b"20:00:44.500 !  #bundle. (8 bytes)              no packet, byte 8: a bundle has no whole \
          time tag, from 10.0.0.9:51234\n",
    ),
    (
        7,
        16,
        b"#bundle\0\0\0\0\0\0\0\0\0\0\0\0\0",
        b"20:00:44.500 !  #bundle............. (20 bytes)  no packet, byte 16: a size in a bundle \
          is wrong, from 10.0.0.9:51234\n",
    ),
    (
        8,
        0,
        b"/abc",
        b"20:00:44.500 !  /abc (4 bytes)                  no packet, byte 0: a text has no end, \
          from 10.0.0.9:51234\n",
    ),
    (
        9,
        19,
        b"/buf\0\0\0\0,b\0\0\0\0\0\x01\xff\x01\x01\x01",
        b"20:00:44.500 !  /buf....,b.......... (20 bytes)  no packet, byte 19: padding isn't zero, \
          from 10.0.0.9:51234\n",
    ),
    (
        10,
        1,
        b"/\x01\0\0",
        b"20:00:44.500 !  /... (4 bytes)                  no packet, byte 1: no address has such a \
          byte, from 10.0.0.9:51234\n",
    ),
    (
        11,
        1,
        b"/[a\0",
        b"20:00:44.500 !  /[a. (4 bytes)                  no packet, byte 1: a bracket isn't \
          closed, from 10.0.0.9:51234\n",
    ),
    (
        12,
        4,
        b"/a\0\0\0\0\0\x01",
        b"20:00:44.500 !  /a...... (8 bytes)              no packet, byte 4: it has no type tags, \
          from 10.0.0.9:51234\n",
    ),
    (
        13,
        8,
        b"/a\0\0,b\0\0\xff\xff\xff\xff",
        b"20:00:44.500 !  /a..,b...... (12 bytes)         no packet, byte 8: the size of a blob is \
          wrong, from 10.0.0.9:51234\n",
    ),
    (
        14,
        8,
        b"/a\0\0,i\0\0",
        b"20:00:44.500 !  /a..,i.. (8 bytes)              no packet, byte 8: an argument is cut \
          off, from 10.0.0.9:51234\n",
    ),
    (
        15,
        5,
        b"/a\0\0,[\0\0",
        b"20:00:44.500 !  /a..,[.. (8 bytes)              no packet, byte 5: array brackets don't \
          match, from 10.0.0.9:51234\n",
    ),
    (
        16,
        12345,
        b"/a\0\0,\0\0\0",
        b"20:00:44.500 !  /a..,... (8 bytes)              no packet, byte 12,345: bytes are left \
          over, from 10.0.0.9:51234\n",
    ),
    (
        17,
        260,
        b"#bundle\0",
        b"20:00:44.500 !  #bundle. (8 bytes)              no packet, byte 260: bundles lie over 16 \
          deep, from 10.0.0.9:51234\n",
    ),
    (
        18,
        20,
        b"#bundle\0",
        b"20:00:44.500 !  #bundle. (8 bytes)              no packet, byte 20: a bundle in a bundle \
          is for an earlier time, from 10.0.0.9:51234\n",
    ),
];

/// Seconds ahead of UTC, a moment, the line of its day, and that of a message without arguments.
const ZONES: [(i32, u64, &[u8], &[u8]); 4] = [
    (
        0,
        0xeeb702ec80000000,
        b"-- Sunday 2026-11-29, UTC\n",
        b"20:00:44.500    /sound/go\n",
    ),
    (
        3600,
        0xeeb733f800000000,
        b"-- Monday 2026-11-30, UTC+01:00\n",
        b"00:30:00.000    /sound/go\n",
    ),
    (
        -12600,
        0xeeb8a8a0ffbe76c9,
        b"-- Monday 2026-11-30, UTC-03:30\n",
        b"22:30:00.999    /sound/go\n",
    ),
    (
        0,
        0xbc66dbffffdf3b64,
        b"-- Tuesday 2000-02-29, UTC\n",
        b"23:59:59.999    /sound/go\n",
    ),
];

fn routes(alloc: Global) -> Result<Vec<Route>, Fail> {
    let mut routes = Vec::new(alloc);
    for (address, to) in PATCH {
        let address = Address::read(alloc, address).ok().ok_or("an address")?;
        routes.push(Route {
            address,
            to: Vec::from_slice(alloc, to)?,
        })?;
    }
    Ok(routes)
}

fn look(seconds: i32) -> Result<Look, Fail> {
    let offset = Offset::from_seconds(i64::from(seconds))
        .ok()
        .ok_or("an offset")?;
    Ok(Look {
        clock: WallClock::at(offset),
        since: None,
        caller: None,
        whole: false,
        colours: false,
        quiet: false,
    })
}

fn arrival(moment: u64) -> Arrival {
    Arrival {
        moment: Some(moment),
        sender: Some(SocketAddrV4::new(Ipv4Addr::new(10, 0, 0, 9), 51_234)),
    }
}

/// The lines of a datagram, each of whose units was answered so.
fn lines_of(
    alloc: Global,
    look: Look,
    arrival: Arrival,
    answer: Answered,
    datagram: &[u8],
) -> Result<Vec<u8>, Fail> {
    let routes = routes(alloc)?;
    let packet = Packet::check(datagram, MAX_PACKET).ok().ok_or("a packet")?;
    let mut text = Vec::new(alloc);
    for unit in packet.units() {
        unit_lines(&mut text, look, arrival, answer, &unit, &routes)?;
    }
    Ok(text)
}

#[test]
fn units_are_shown_by_what_the_server_answered(rt: HostRuntime) -> Result<(), Fail> {
    for (answer, datagram, want) in UNITS {
        let lines = lines_of(rt.alloc(), look(0)?, arrival(NOW), answer, datagram)?;
        assert_eq!(rt; lines.as_slice(), want);
    }
    Ok(())
}

#[test]
fn each_fault_is_shown_in_words(rt: HostRuntime) -> Result<(), Fail> {
    for (kind, at, datagram, want) in FAULTS {
        let mut text = Vec::new(rt.alloc());
        let fault = Fault { kind, at };
        refusal_line(&mut text, look(0)?, arrival(NOW), datagram, fault)?;
        assert_eq!(rt; text.as_slice(), want);
    }
    Ok(())
}

#[test]
fn days_and_times_are_those_of_the_clock(rt: HostRuntime) -> Result<(), Fail> {
    for (seconds, moment, day, want) in ZONES {
        let mut text = Vec::new(rt.alloc());
        day_line(&mut text, look(seconds)?, moment)?;
        assert_eq!(rt; text.as_slice(), day);
        let unsaid = Arrival {
            moment: Some(moment),
            sender: None,
        };
        let datagram = b"/sound/go\0\0\0";
        let lines = lines_of(rt.alloc(), look(seconds)?, unsaid, Answered::Due, datagram)?;
        assert_eq!(rt; lines.as_slice(), want);
    }
    Ok(())
}

#[test]
fn lines_have_colours_and_are_left_out(rt: HostRuntime) -> Result<(), Fail> {
    let mut look = look(0)?;
    look.colours = true;
    let unknown = Arrival {
        moment: None,
        sender: None,
    };
    let datagram = b"/fader/7\0\0\0\0";
    let lines = lines_of(rt.alloc(), look, unknown, Answered::Due, datagram)?;
    assert_eq!(rt;
        lines.as_slice(),
        b"\x1b[35m--:--:--.--- ?  /fader/7                        no method\x1b[0m\n".as_slice()
    );
    look.quiet = true;
    let lines = lines_of(rt.alloc(), look, unknown, Answered::Waiting, datagram)?;
    assert!(rt; lines.is_empty());
    Ok(())
}
