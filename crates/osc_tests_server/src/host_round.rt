// What a host on one thread reads of a release.
use crate::servers::with_fader;
use osc_core::{Called, Core, Releasing, Submitted};
use osc_packet::{MAX_PACKET, Packet};
use osc_uses::{Fader, HostRound, call_at, fader_level, last_message, play_round};
use std::test::*;

/// `/a` with 1, and `/a` with 2, immediately.
const TWICE: &[u8] =
    b"#bundle\0\0\0\0\0\0\0\0\x01\0\0\0\x0c/a\0\0,i\0\0\0\0\0\x01\0\0\0\x0c/a\0\0,i\0\0\0\0\0\x02";

const SECOND: Called<'static> = Called {
    unit: 0,
    index: 1,
    method: 0,
    message: b"/a\0\0,i\0\0\0\0\0\x02",
};

fn submitted(core: &mut Core<Fader>, packet: &Packet<'_>) -> Submitted {
    let _ = core.callers();
    core.submit(0, packet)
}

fn round(core: &mut Core<Fader>) -> HostRound {
    play_round(core)
}

/// The second call, the last message to the fader, and the number that it was sent.
fn reads(core: &Core<Fader>) -> (Option<Called<'_>>, Option<&[u8]>, Option<u32>) {
    (
        call_at(core, 1),
        last_message(core, 0),
        fader_level(core, 0),
    )
}

#[test]
fn a_host_reads_the_calls_of_a_release(rt: HostRuntime) -> Result<(), Fail> {
    let mut core = with_fader(rt.alloc(), b"/a")?;
    assert!(rt; reads(&core) == (None, None, None));
    let packet = Packet::check(TWICE, MAX_PACKET).ok().ok_or("a packet")?;
    let queued = Submitted::Queued {
        first: 0,
        count: 1,
        late: 0,
    };
    assert!(rt; submitted(&mut core, &packet) == queued);
    let released = Releasing::Released { unit: 0, calls: 2 };
    assert_eq!(rt;
        round(&mut core),
        HostRound {
            released,
            next: None
        }
    );
    assert!(rt; reads(&core) == (Some(SECOND), Some(SECOND.message), Some(2)));
    Ok(())
}
