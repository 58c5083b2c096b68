// Runs over sources and sinks in memory that fail, and boxes that come back. What a run prints stands in tests/rows.
use osc_edge::{MemorySink, MemorySource};
use osc_message::Message;
use osc_method::{Call, Method, Trace};
use osc_plain::{plain_top, traces};
use std::alloc::{AllocError, Global};
use std::process::Abort;
use std::test::Fail;

const FIRST_LIGHT: &str = "add /light/dim\nsend 2f6c696768742f64696d0000 2c690000 00000007\npump\n";

/// A bundle in a bundle, at moment 2.
const NESTED: &str =
    "add /a\nadd /b\nadd /c\nsend 2362756e646c6500 0000000000000002 00000004 2f610000 00000018 2362756e646c6500 0000000000000002 00000004 2f620000 00000004 2f630000\ntick 0000000000000002\npump\n";

const REMOVED: &str = "add /a\nsend 2f610000\nremove /a\npump\nsend 2f610000\nadd /a\npump\n";

/// What the program is given besides its words and its input.
#[derive(Clone, Copy)]
struct Setting {
    boxes: u32,
    /// How many bytes each box tells, at most 64.
    keep: u32,
    /// Which call of the source and of the sink fails, counted from 1; 0 where none does.
    source_fails: u32,
    sink_fails: u32,
}

const SETTING: Setting = Setting {
    boxes: 8,
    keep: 64,
    source_fails: 0,
    sink_fails: 0,
};

/// What the program came to.
#[derive(Drop)]
struct Outcome {
    status: u8,
    written: Vec<u8>,
    /// The id of each method that was added, with the bytes that its box tells.
    heard: Vec<(u32, Vec<u8>)>,
    left: usize,
}

fn words(alloc: Global, line: &str) -> Result<Vec<String>, AllocError> {
    let mut words = Vec::new(alloc);
    for word in line.split_whitespace() {
        words.push(String::from_str(alloc, word)?)?;
    }
    Ok(words)
}

fn bytes_told(alloc: Global, method: &Box<dyn Method + Send>) -> Result<Vec<u8>, AllocError> {
    let mut bytes = Vec::new(alloc);
    for k in 0..method.told().unwrap_or(0) {
        bytes.push(method.byte(k))?;
    }
    Ok(bytes)
}

/// Does what the words say with the input.
fn perform(
    rt: &impl Abort,
    alloc: Global,
    line: &str,
    input: &[u8],
    setting: Setting,
) -> Result<Outcome, Fail> {
    assert!(rt; 0 < setting.keep && setting.keep <= 64);
    let mut bank: Vec<Box<dyn Method + Send>> = Vec::new(alloc);
    for _ in 0..setting.boxes {
        bank.push(Box::new(alloc, Trace::open(alloc, setting.keep)?)?)?;
    }
    let source_fails = Vec::from_array(alloc, [setting.source_fails])?;
    let mut source = MemorySource::open(Vec::from_slice(alloc, input)?, source_fails);
    let mut sink = MemorySink::open(alloc, Vec::from_array(alloc, [setting.sink_fails])?);
    let words = words(alloc, line)?;
    let ended = plain_top(alloc, &words, &mut source, &mut sink, bank);
    let mut heard = Vec::new(alloc);
    for (id, method) in &ended.heard {
        heard.push((*id, bytes_told(alloc, method)?))?;
    }
    Ok(Outcome {
        status: ended.status,
        written: Vec::from_slice(alloc, sink.bytes())?,
        heard,
        left: ended.left.len(),
    })
}

/// Two notes at one moment.
const SCORE: &str = "83aa7e8000000000 /a i:1\n83aa7e8000000000 /b s:hi T\n";

const PRINTED: &str =
    "add 0 /light/dim id 0\nsubmit 0 queued 0 1\nrelease 0 0 1\ncall 0 0 0 /light/dim ,i i:7\n";

/// Words and an input, how many boxes there are, which call of the source and of the sink fails, the status, and what is
/// written. The first script's run calls its source twice, the second time to find its end, and its sink once.
const ENDS: [(&str, &str, u32, u32, u32, u8, &str); 8] = [
    ("run", FIRST_LIGHT, 8, 2, 0, 4, ""),
    ("run", FIRST_LIGHT, 8, 3, 0, 0, PRINTED),
    ("run", FIRST_LIGHT, 8, 0, 2, 0, PRINTED),
    ("score --play", SCORE, 8, 2, 0, 4, ""),
    ("run", FIRST_LIGHT, 0, 0, 0, 8, "bank-short 1 0\n"),
    ("run", "add /a\nadd /b\n", 1, 0, 0, 8, "bank-short 2 1\n"),
    ("score --play", SCORE, 1, 0, 0, 8, "bank-short 2 1\n"),
    ("gen --lines 64", "", 8, 0, 0, 8, "bank-short 64 8\n"),
];

#[test]
fn edges_that_fail_and_a_short_bank_end_a_run(rt: HostRuntime) -> Result<(), Fail> {
    for (line, input, boxes, source_fails, sink_fails, status, written) in ENDS {
        let setting = Setting {
            boxes,
            keep: 64,
            source_fails,
            sink_fails,
        };
        let outcome = perform(&rt, rt.alloc(), line, input.as_bytes(), setting)?;
        assert!(rt; outcome.status == status, "{line}");
        assert!(rt; outcome.written.as_slice() == written.as_bytes(), "{line}");
        assert!(rt; status == 0 || outcome.heard.is_empty() && outcome.left == boxes as usize);
    }
    Ok(())
}

/// The second message of unit 0, `/c` without tags, as a box tells it.
const TOLD: [u8; 20] = [
    0, 0, 0, 0, 0, 0, 0, 0, 0, 0, 0, 1, 0, 0, 0, 4, 0x2f, 0x63, 0, 0,
];

#[test]
fn a_box_tells_the_last_bytes_of_its_calls(rt: HostRuntime) -> Result<(), Fail> {
    let alloc = rt.alloc();
    for (keep, told) in [(64, &TOLD[..]), (16, &TOLD[4..])] {
        let setting = Setting { keep, ..SETTING };
        let outcome = perform(&rt, alloc, "run", NESTED.as_bytes(), setting)?;
        let (id, bytes) = outcome.heard.last().ok_or("a box")?;
        assert_eq!(rt; *id, 2);
        assert_eq!(rt; bytes.as_slice(), told);
    }
    Ok(())
}

/// Of each script the ids of the methods that were added, in order, how many bytes the first one's box tells, and how
/// many of the eight boxes are left.
const BOXES: [(&str, &[u32], usize, usize); 3] = [
    // The removed box heard nothing.
    (REMOVED, &[0, 1], 0, 6),
    ("add /a\nadd /a\n", &[0], 0, 7),
    (FIRST_LIGHT, &[0], 36, 7),
];

#[test]
fn boxes_come_back_by_the_ids_of_their_methods(rt: HostRuntime) -> Result<(), Fail> {
    let alloc = rt.alloc();
    for (script, ids, told, left) in BOXES {
        let outcome = perform(&rt, alloc, "run", script.as_bytes(), SETTING)?;
        assert_eq!(rt; outcome.heard.len(), ids.len(), "{script}");
        for ((id, _), expected) in outcome.heard.iter().zip(ids) {
            assert_eq!(rt; *id, *expected, "{script}");
        }
        let (_, bytes) = outcome.heard.first().ok_or("a box")?;
        assert_eq!(rt; bytes.len(), told, "{script}");
        assert_eq!(rt; outcome.left, left, "{script}");
    }
    Ok(())
}

/// A call of which a box may tell 68 bytes: 16, and those of the message.
fn long_call() -> Result<Call<'static>, Fail> {
    let bytes = b"/aaaaaaaaaaaaaaaaaaaaaaaaaaaaaaaaaaaaaaaaaaaaaaaaaa\0";
    let message = Message::check(bytes, 65_504).ok().ok_or("a message")?;
    Ok(Call {
        unit: 0,
        index: 0,
        message,
    })
}

#[test]
fn the_program_has_8192_boxes_of_64_bytes(rt: HostRuntime) -> Result<(), Fail> {
    let mut traces = traces(rt.alloc())?;
    assert_eq!(rt; traces.len(), 8192);
    for trace in &mut traces {
        trace.invoke(&long_call()?);
        assert_eq!(rt; trace.told(), Some(64));
    }
    Ok(())
}

/// A sink takes at most 4,096 bytes a call, and the text of this script is longer: its one argument has 2,100 bytes.
#[test]
fn a_sink_that_fails_half_way_holds_a_front(rt: HostRuntime) -> Result<(), Fail> {
    let alloc = rt.alloc();
    let zeros = "0".repeat(alloc, 4200)?;
    let script = format!(in alloc; "add /a\nsend 2f610000 2c620000 00000834 {zeros}\npump\n")?;
    let front = "add 0 /a id 0\nsubmit 0 queued 0 1\nrelease 0 0 1\ncall 0 0 0 /a ,b b:";
    let text = format!(in alloc; "{front}{zeros}\n")?;
    let half = Setting {
        sink_fails: 2,
        ..SETTING
    };
    let held = text.as_bytes().get(..4096).ok_or("a longer text")?;
    let outcome = perform(&rt, alloc, "run", script.as_bytes(), half)?;
    assert!(rt; outcome.status == 5);
    assert!(rt; outcome.written.as_slice() == held);
    Ok(())
}
