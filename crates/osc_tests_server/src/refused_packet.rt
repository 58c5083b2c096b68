// Bytes that are no packet, with their first faults (docs/FORMATS.md, "Packets").
use crate::servers::with_fader;
use osc_atoms::Fault;
use osc_core::Submitted;
use osc_uses::submit_bytes;
use std::alloc::Global;
use std::test::*;

/// What the bytes are answered, and how many entries there are then. One is the add's.
fn run(alloc: Global, bytes: &[u8]) -> Result<(Result<Submitted, Fault>, u64), Fail> {
    let mut core = with_fader(alloc, b"/a")?;
    let answer = submit_bytes(&mut core, bytes);
    Ok((answer, core.entries()))
}

#[test]
fn bytes_that_are_no_packet_are_refused_and_leave_no_entry(rt: HostRuntime) -> Result<(), Fail> {
    let rows: [(&[u8], u8, u32); 8] = [
        (b"", Fault::EMPTY, 0),
        (&[0; 30], Fault::NOT_FOUR, 30),
        (b"ab\0\0", Fault::START, 0),
        (b"#bundle\x01", Fault::BUNDLE_WORD, 0),
        (b"#bundle\0\0\0\0\0", Fault::BUNDLE_HEAD, 8),
        (
            b"#bundle\0\0\0\0\0\0\0\0\x01\0\0\0\0",
            Fault::ELEMENT_SIZE,
            16,
        ),
        (b"/a\0\x01", Fault::PADDING, 3),
        (b"/a\0\0,i\0\0\0\0\0\x01\0\0\0\x02", Fault::LEFT_OVER, 12),
    ];
    for (bytes, kind, at) in rows {
        assert_eq!(rt; run(rt.alloc(), bytes)?, (Err(Fault { kind, at }), 1));
    }
    let queued = Submitted::Queued {
        first: 0,
        count: 1,
        late: 0,
    };
    assert_eq!(rt; run(rt.alloc(), b"/a\0\0")?, (Ok(queued), 2));
    Ok(())
}
