// Packets that are played on a server, with the printed history.
use crate::servers::with_fader;
use osc_core::Core;
use osc_method::Method;
use osc_uses::{one_packet, printed_history, release_at};
use std::alloc::Global;
use std::test::*;

/// The history of a server with a fader at `/light/dim` that is given a packet and then a moment.
fn prints(alloc: Global, bytes: &[u8], moment: u64, text: &[u8]) -> Result<bool, Fail> {
    let mut core = with_fader(alloc, b"/light/dim")?;
    let _ = one_packet(&mut core, bytes);
    let _ = release_at(&mut core, moment);
    let printed = printed_history(alloc, &core).ok().ok_or("memory")?;
    Ok(printed.bytes() == text)
}

#[test]
fn a_history_is_printed_from_its_recording(rt: HostRuntime) -> Result<(), Fail> {
    let rows: [(&[u8], u64, &[u8]); 3] = [
        (
            b"/light/dim\0\0,i\0\0\0\0\0\x07",
            5,
            b"add 0 /light/dim id 0\nsubmit 0 queued 0 1\nrelease 0 0 1\ncall 0 0 0 /light/dim ,i i:7\ntick 0 0000000000000005 ticked\n",
        ),
        (
            b"#bundle\0\0\0\0\0\0\0\0\x05\0\0\0\x14/light/*\0\0\0\0,f\0\0\x43\xdc\0\0",
            5,
            b"add 0 /light/dim id 0\nsubmit 0 queued 0 1\ntick 0 0000000000000005 ticked\nrelease 0 0 1\ncall 0 0 0 /light/dim ,f f:43dc0000\n",
        ),
        (
            b"/abc",
            0,
            b"add 0 /light/dim id 0\ntick 0 0000000000000000 clock-back 0000000000000001\n",
        ),
    ];
    for (bytes, moment, text) in rows {
        assert!(rt; prints(rt.alloc(), bytes, moment, text)?);
    }
    Ok(())
}
