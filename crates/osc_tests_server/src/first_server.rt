// Messages to a fader, with the number that it keeps and the bytes that are recorded.
use crate::servers::{address, caps, with_fader};
use osc_atoms::Fault;
use osc_core::{Releasing, Submitted};
use osc_packet::{MAX_PACKET, Packet};
use osc_uses::{first_run, one_packet};
use std::alloc::Global;
use std::test::*;

/// The two messages of the standard (OSC 1.0, "OSC Message Examples"): 440.0, and 1000, -1, `hello`, 1.234 and 5.678.
const FREQUENCY: &[u8] = b"/oscillator/4/frequency\0,f\0\0\x43\xdc\0\0";

const FOO: &[u8] =
    b"/foo\0\0\0\0,iisff\0\0\0\0\x03\xe8\xff\xff\xff\xffhello\0\0\0\x3f\x9d\xf3\xb6\x40\xb5\xb2\x2d";

const DIM: &[u8] = b"/light/dim\0\0,i\0\0\0\0\0\x07";

/// What the fader keeps, and how many bytes are recorded.
fn run(alloc: Global, at: &[u8], bytes: &[u8]) -> Result<(Option<u32>, usize), Fail> {
    let packet = Packet::check(bytes, MAX_PACKET).ok().ok_or("a packet")?;
    let closed = first_run(alloc, caps(1)?, address(alloc, at)?, &packet)?;
    let (_, fader) = closed.kept.first().ok_or("a fader")?;
    Ok((fader.level(), closed.bytes.len()))
}

#[test]
fn a_fader_keeps_the_number_that_it_was_sent(rt: HostRuntime) -> Result<(), Fail> {
    let rows: [(&[u8], &[u8], Option<u32>, usize); 5] = [
        // The header, an add, a submit, and a release with a hit or without.
        (
            b"/oscillator/4/frequency",
            FREQUENCY,
            Some(0x43dc_0000),
            60 + 64 + 84 + 52,
        ),
        (b"/foo", FOO, Some(0x40b5_b22d), 60 + 48 + 92 + 52),
        (b"/light/dim", DIM, Some(7), 60 + 52 + 72 + 52),
        (b"/light/on", DIM, None, 60 + 52 + 72 + 44),
        (b"/foo", b"/*\0\0,x\0\0", None, 60 + 48 + 60 + 44),
    ];
    for (at, bytes, level, size) in rows {
        assert_eq!(rt; run(rt.alloc(), at, bytes)?, (level, size));
    }
    Ok(())
}

#[test]
fn a_packet_is_submitted_and_released(rt: HostRuntime) -> Result<(), Fail> {
    let rows: [(&[u8], Result<(Submitted, Releasing), Fault>); 3] = [
        (
            FOO,
            Ok((
                Submitted::Queued {
                    first: 0,
                    count: 1,
                    late: 0,
                },
                Releasing::Released { unit: 0, calls: 1 },
            )),
        ),
        (
            DIM,
            Ok((
                Submitted::Queued {
                    first: 0,
                    count: 1,
                    late: 0,
                },
                Releasing::Released { unit: 0, calls: 0 },
            )),
        ),
        (b"/abc", Err(Fault { kind: 8, at: 0 })),
    ];
    for (bytes, answers) in rows {
        let mut core = with_fader(rt.alloc(), b"/foo")?;
        assert_eq!(rt; one_packet(&mut core, bytes), answers);
    }
    Ok(())
}
