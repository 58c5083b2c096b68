// Limits, the bytes of the format, and what is malformed.
use osc_record::*;
use std::alloc::AllocError;

/// The header of 4,096 units, 16,384 blocks, 1,024 methods, 4,096 nodes, 1 caller and 67,108,864 bytes, where late units
/// are delivered.
const HEADER: [u8; 60] =
    *b"\0\0\0\x38/osc/rec\0\0\0\0,iiiiiiii\0\0\0\0\0\0\x02\0\0\x10\0\0\0\x40\0\0\0\x04\0\0\0\x10\0\0\0\0\x01\x04\0\0\0\0\0\0\0";

/// The entry of a tick by caller 0 at 5.
const TICK: [u8; 48] =
    *b"\0\0\0\x2c/osc/tick\0\0\0,itit\0\0\0\0\0\0\0\0\0\0\0\0\0\0\x05\0\0\0\0\0\0\0\0\0\0\0\x05";

/// The entry of a release by caller 3 of unit 7, with two hits.
const RELEASE: [u8; 60] =
    *b"\0\0\0\x38/osc/release\0\0\0\0,ihb\0\0\0\0\0\0\0\x03\0\0\0\0\0\0\0\x07\0\0\0\x10\0\0\0\0\0\0\0\x05\0\0\0\x01\0\0\0\x04";

/// Limits, and the field of the first that is outside its range.
const LIMITS: [([u32; 6], Option<u8>); 8] = [
    ([0, 1, 1, 1, 1, 60], Some(1)),
    ([1, 1048577, 0, 1, 1, 60], Some(2)),
    ([1, 1, 65537, 1, 1, 60], Some(3)),
    ([1, 1, 1, 0, 1, 60], Some(4)),
    ([1, 1, 1, 1, 1025, 60], Some(5)),
    ([1, 1, 1, 1, 1, 59], Some(6)),
    ([1, 1, 1, 1, 1, 60], None),
    ([1048576, 1048576, 65536, 1048576, 1024, 1073741824], None),
];

#[test]
fn the_first_limit_outside_its_range_is_named(rt: HostRuntime) {
    for ([units, blocks, methods, nodes, callers, recording], want) in LIMITS {
        let caps = Caps::new(
            units,
            blocks,
            methods,
            nodes,
            callers,
            recording,
            Late::Deliver,
        );
        assert_eq!(rt; caps.err().map(|fault| fault.field), want);
    }
}

#[test]
fn a_header_and_a_tick_are_written_and_read(rt: HostRuntime) -> Result<(), AllocError> {
    let Ok(caps) = Caps::new(4096, 16384, 1024, 4096, 1, 67108864, Late::Deliver) else {
        panic!(rt; "refused");
    };
    let mut recorder = Recorder::open(rt.alloc(), caps)?;
    assert_eq!(rt; recorder.bytes(), HEADER.as_slice());
    assert_eq!(rt; recorder.free(), 67108864 - 60);
    assert!(rt; recorder.fits(48));
    recorder.put(0, Event::Tick(5), Answer::Ticked);
    let bytes = recorder.close();
    assert!(rt; bytes.len() == 108);
    assert_eq!(rt; &bytes[60..], TICK.as_slice());
    let entry = entry_bytes(rt.alloc(), 0, Event::Tick(5), Answer::Ticked)?;
    assert_eq!(rt; entry.as_slice(), TICK.as_slice());
    let Ok(reader) = Reader::check(&bytes) else {
        panic!(rt; "refused");
    };
    assert_eq!(rt; reader.caps(), caps);
    let want = Entry {
        at: 60,
        caller: 0,
        event: Event::Tick(5),
        answer: Answer::Ticked,
    };
    let mut entries = reader.entries();
    assert_eq!(rt; entries.next(), Some(want));
    assert_eq!(rt; entries.next(), None);
    Ok(())
}

#[test]
fn a_release_has_its_hits_in_order(rt: HostRuntime) -> Result<(), AllocError> {
    let Ok(caps) = Caps::new(1, 1, 1, 1, 1, 200, Late::Discard) else {
        panic!(rt; "refused");
    };
    let mut recorder = Recorder::open(rt.alloc(), caps)?;
    recorder.start_release(3, 7, 2);
    recorder.put_hit(0, 5);
    recorder.put_hit(1, 4);
    let bytes = recorder.close();
    assert!(rt; bytes.len() == 120);
    assert_eq!(rt; &bytes[60..], RELEASE.as_slice());
    let answer = Answer::Released {
        unit: 7,
        hits: &RELEASE[44..],
    };
    let entry = entry_bytes(rt.alloc(), 3, Event::Release, answer)?;
    assert_eq!(rt; entry.as_slice(), RELEASE.as_slice());
    Ok(())
}
