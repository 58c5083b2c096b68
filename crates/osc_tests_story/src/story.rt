// What stands after the entries of a recording, whatever the pieces are in which it comes.
use osc_record::{Answer, Late, Unread};
use osc_story::*;
use std::process::Abort;
use std::test::*;

/// The header of one unit, block, method, node and caller, and of up to 320 bytes; then caller 0
/// adds `/a`, submits a bundle for the moment 5 with a message to it, ticks to 5, releases the
/// bundle, which calls the method, and removes it.
const RECORDING: [u8; 320] =
    *b"\0\0\0\x38/osc/rec\0\0\0\0,iiiiiiii\0\0\0\0\0\0\x02\0\0\0\x01\0\0\0\x01\0\0\0\x01\0\0\0\x01\0\0\0\x01\0\0\x01\x40\0\0\0\0\
\0\0\0\x28/osc/add\0\0\0\0,isiii\0\0\0\0\0\0/a\0\0\0\0\0\0\0\0\0\0\0\0\0\0\
\0\0\0\x48/osc/submit\0,ibihii\0\0\0\0\0\0\0\0\x18#bundle\0\0\0\0\0\0\0\0\x05\0\0\0\x04/a\0\0\0\0\0\0\0\0\0\0\0\0\0\0\0\0\0\x01\0\0\0\0\
\0\0\0\x2c/osc/tick\0\0\0,itit\0\0\0\0\0\0\0\0\0\0\0\0\0\0\x05\0\0\0\0\0\0\0\0\0\0\0\x05\
\0\0\0\x30/osc/release\0\0\0\0,ihb\0\0\0\0\0\0\0\0\0\0\0\0\0\0\0\0\0\0\0\x08\0\0\0\0\0\0\0\0\
\0\0\0\x24/osc/remove\0,isii\0\0\0\0\0\0\0/a\0\0\0\0\0\0\0\0\0\0";

/// From which byte on which clock stands, how many methods there are, and how many units wait.
const STANDS: [(usize, u64, usize, usize); 6] = [
    (60, 1, 0, 0),
    (104, 1, 1, 0),
    (180, 1, 1, 1),
    (228, 5, 1, 1),
    (280, 5, 1, 0),
    (320, 5, 0, 0),
];

/// What stands after so many bytes, once the header is whole.
fn stands_after(bytes: usize) -> Option<(u64, usize, usize)> {
    let mut stands = None;
    for (from, clock, methods, waiting) in STANDS {
        if from <= bytes {
            stands = Some((clock, methods, waiting));
        }
    }
    stands
}

fn told(follower: &Follower) -> Option<(u64, usize, usize)> {
    match follower.story() {
        Some(story) => Some((story.clock(), story.methods().len(), story.waiting().len())),
        None => None,
    }
}

/// Takes a piece and follows it.
fn take<A: Abort>(rt: &A, follower: &mut Follower, piece: &[u8]) {
    assert!(rt; follower.take(piece).is_ok());
    let progress = follower.follow();
    assert!(rt; progress == Progress::CaughtUp || progress == Progress::NoHeader);
}

#[test]
fn a_recording_is_followed_whatever_its_pieces(rt: HostRuntime) {
    for cut in 0..=RECORDING.len() {
        let (first, second) = RECORDING.split_at(cut);
        let mut follower = Follower::open(rt.alloc());
        take(&rt, &mut follower, first);
        assert_eq!(rt; told(&follower), stands_after(cut));
        take(&rt, &mut follower, second);
        assert_eq!(rt; told(&follower), stands_after(RECORDING.len()));
    }
    let mut follower = Follower::open(rt.alloc());
    for cut in 0..RECORDING.len() {
        take(&rt, &mut follower, &RECORDING[cut..=cut]);
        assert_eq!(rt; told(&follower), stands_after(cut + 1));
    }
    let want = Totals {
        entries: 5,
        messages: 1,
        calls: 1,
        unheard: 0,
        discarded: 0,
        refused: 0,
    };
    assert_eq!(rt; follower.story().map(|story| story.totals()), Some(want));
    assert!(rt; follower.take(b"\0").is_ok());
    assert_eq!(rt; follower.follow(), Progress::TooLong);
}

#[test]
fn what_waits_and_its_calls_are_told(rt: HostRuntime) {
    let mut follower = Follower::open(rt.alloc());
    take(&rt, &mut follower, &RECORDING[..228]);
    let Some(story) = follower.story() else {
        panic!(rt; "no header");
    };
    let [method] = story.methods() else {
        panic!(rt; "another number of methods");
    };
    assert_eq!(rt; (method.id(), method.address()), (0, b"/a".as_slice()));
    let [waiting] = story.waiting() else {
        panic!(rt; "another number of bundles");
    };
    assert_eq!(rt; (waiting.due(), waiting.number(), waiting.tag()), (5, 0, 5));
    assert_eq!(rt; (waiting.caller(), waiting.is_late()), (0, false));
    let [message] = waiting.messages() else {
        panic!(rt; "another number of messages");
    };
    assert_eq!(rt; message.as_slice(), b"/a\0\0".as_slice());
    let answer = Answer::Released {
        unit: 0,
        hits: &RECORDING[272..280],
    };
    let mut calls = story.calls(answer);
    let Some(call) = calls.next() else {
        panic!(rt; "no call");
    };
    assert_eq!(rt; (call.index(), call.id()), (0, 0));
    assert_eq!(rt;
        (call.address(), call.message()),
        (b"/a".as_slice(), b"/a\0\0".as_slice())
    );
    assert!(rt; calls.next().is_none());
}

#[test]
fn a_release_of_nothing_disagrees(rt: HostRuntime) {
    let mut bytes = [0; 112];
    bytes[..60].copy_from_slice(&RECORDING[..60]);
    bytes[60..].copy_from_slice(&RECORDING[228..280]);
    let Ok(mut unread) = Unread::open(&bytes) else {
        panic!(rt; "no header");
    };
    let mut story = Story::open(rt.alloc(), Late::Deliver);
    let stop = see_all(&mut story, &mut unread);
    assert_eq!(rt;
        stop,
        Stop::Disagrees {
            at: 60,
            why: Disagreement::NotFirst
        }
    );
}
