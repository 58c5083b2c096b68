// Runs of lines. The expected texts are those of a program in Python that shares no code with the
// crates.
use jiff_core::Offset;
use osc_runs::{Runs, Step, TakeFault};
use osc_shown::{Look, WallClock};
use std::process::Abort;
use std::test::*;

/// Milliseconds after 20:00:20, an address, the words of its argument, and the line.
const STEPS: [(u64, &[u8], &[u8], &[u8]); 9] = [
    (
        0,
        b"/desk/1/level",
        b"0.0",
        b"20:00:20.000    /desk/1/level 0.0\n",
    ),
    (
        20,
        b"/desk/2/level",
        b"0.0",
        b"20:00:20.020    /desk/2/level 0.0\n",
    ),
    (
        40,
        b"/desk/1/level",
        b"0.25",
        b"20:00:20.040    /desk/1/level 0.25\n",
    ),
    (
        60,
        b"/smoke/level",
        b"1.0",
        b"20:00:20.060    /smoke/level 1.0\n",
    ),
    (
        80,
        b"/desk/1/level",
        b"0.5",
        b"20:00:20.080    /desk/1/level 0.5\n",
    ),
    (
        100,
        b"/desk/2/level",
        b"0.65",
        b"20:00:20.100    /desk/2/level 0.65\n",
    ),
    (
        350,
        b"/desk/1/level",
        b"0.8",
        b"20:00:20.350    /desk/1/level 0.8\n",
    ),
    (
        601,
        b"/desk/1/level",
        b"0.1",
        b"20:00:20.601    /desk/1/level 0.1\n",
    ),
    (
        851,
        b"/desk/2/level",
        b"0.3",
        b"20:00:20.851    /desk/2/level 0.3\n",
    ),
];

/// What is told of them: a gap of 251 ms begins anew, one of 250 ms doesn't.
const TOLD: &[u8] = b"20:00:20.000    /desk/1/level 0.0 .. 0.8        4 in 0.350 s\n\
20:00:20.020    /desk/2/level 0.0\n\
20:00:20.100    /desk/2/level 0.65\n\
20:00:20.060    /smoke/level 1.0\n\
20:00:20.601    /desk/1/level 0.1\n\
20:00:20.851    /desk/2/level 0.3\n";

/// What is told of 1,500 lines, one each 20 ms.
const MANY: &[u8] = b"20:00:20.000    /x 0.5 .. 0.5                   1,500 in 29.980 s\n";

fn plain_look() -> Look {
    Look {
        clock: WallClock::at(Offset::UTC),
        since: None,
        caller: None,
        whole: false,
        colours: false,
        quiet: false,
    }
}

/// Takes a line, after all before it are told where it doesn't go on with them.
fn take<A: Abort>(rt: &A, runs: &mut Runs, text: &mut Vec<u8>, millis: u64, step: &Step<'_>) {
    if runs.take(step) == Err(TakeFault::TooLate) {
        assert!(rt; millis == 601);
        assert!(rt; runs.flush(text).is_ok());
        assert!(rt; runs.take(step).is_ok());
    }
}

/// The time tag of so many milliseconds after 20:00:20.
fn tag(millis: u64) -> u64 {
    (72_020_000 + millis.min(1_000_000)) * 4_294_967_296 / 1_000
}

#[test]
fn runs_are_told_address_by_address(rt: HostRuntime) -> Result<(), Fail> {
    let mut text = Vec::new(rt.alloc());
    let mut runs = Runs::open(rt.alloc());
    for (millis, address, words, line) in STEPS {
        let step = Step {
            look: plain_look(),
            moment: tag(millis),
            address,
            words,
            line,
        };
        take(&rt, &mut runs, &mut text, millis, &step);
    }
    runs.flush(&mut text)?;
    assert_eq!(rt; text.as_slice(), TOLD);
    text.clear();
    for at in 0..1_500u64 {
        let step = Step {
            look: plain_look(),
            moment: tag(20 * at),
            address: b"/x",
            words: b"0.5",
            line: b"a line\n",
        };
        assert!(rt; runs.take(&step).is_ok());
    }
    runs.flush(&mut text)?;
    assert_eq!(rt; text.as_slice(), MANY);
    Ok(())
}
