// Sheets of cues, written as scores.
use jiff_core::Offset;
use jiff_core::civil::Date;
use osc_cues::{Setting, Sheet};
use osc_message::Message;
use osc_notes::{NotesError, add_notes};
use osc_pattern::Address;
use osc_print::Text;
use std::alloc::Global;
use std::test::Fail;

/// The methods, in the order of their bytes.
const METHODS: [&[u8]; 10] = [
    b"/bass/note",
    b"/cue/name",
    b"/curtain/open",
    b"/drums/hit",
    b"/keys/chord",
    b"/light/back",
    b"/light/front",
    b"/light/house",
    b"/light/side",
    b"/smoke/level",
];

/// A sheet with each argument, and with patterns.
const SHEET: &[u8] =
    b"20:00 /light/* -7 h:-9223372036854775808 d:0.1 f:7fc00000 c:A c:00000001 r:ff8800ff m:00903c7f t:0000000000000001
20:00:00.5 /cue/name \"act \\\"two\\\" \\x7f\\\\\" s:a\\x20b S:\"x \xc3\xa9\" b:0102ff b: \"\" true false nil infinitum [ 1e-3 ]
20:00:00.5 /light/{front,back} 1.0 2147483647 0
+0.625 /keys/chord [ 60 63 ]
tempo 112.5 in 3 from 21:00:00
2|2.5 /drums/hit \"kick\"
2|3 /[bk]*/* \"~!\" -0.0
";

/// Its score, as another program wrote it.
const SCORE: &[u8] =
    b"eeb702c000000000 /light/back i:-7 h:-9223372036854775808 d:3fb999999999999a f:7fc00000 c:00000041 c:00000001 r:ff8800ff m:00903c7f t:0000000000000001
eeb702c000000000 /light/front i:-7 h:-9223372036854775808 d:3fb999999999999a f:7fc00000 c:00000041 c:00000001 r:ff8800ff m:00903c7f t:0000000000000001
eeb702c000000000 /light/house i:-7 h:-9223372036854775808 d:3fb999999999999a f:7fc00000 c:00000041 c:00000001 r:ff8800ff m:00903c7f t:0000000000000001
eeb702c000000000 /light/side i:-7 h:-9223372036854775808 d:3fb999999999999a f:7fc00000 c:00000041 c:00000001 r:ff8800ff m:00903c7f t:0000000000000001
eeb702c080000000 /cue/name s:act\\x20\"two\"\\x20\\x7f\\x5c s:a\\x20b S:x\\x20\\xc3\\xa9 b:0102ff b: s: T F N I [ f:3a83126f ]
eeb702c080000000 /light/back f:3f800000 i:2147483647 i:0
eeb702c080000000 /light/front f:3f800000 i:2147483647 i:0
eeb702c120000000 /keys/chord [ i:60 i:63 ]
eeb710d266666666 /drums/hit s:kick
eeb710d2aaaaaaac /bass/note s:~! f:80000000
eeb710d2aaaaaaac /keys/chord s:~! f:80000000
";

fn methods(alloc: Global) -> Result<Vec<Address>, Fail> {
    let mut methods = Vec::new(alloc);
    for method in METHODS {
        match Address::read(alloc, method) {
            Ok(address) => methods.push(address)?,
            Err(_) => return Err("a method isn't an address".into()),
        }
    }
    Ok(methods)
}

/// The cues of the sheet, read at the start of 1900.
fn sheet(alloc: Global, methods: &[Address]) -> Result<Sheet, Fail> {
    match Date::new(2026, 11, 29) {
        Ok(date) => match Sheet::read(
            alloc,
            SHEET,
            methods,
            Setting {
                now: 0,
                date,
                offset: Offset::UTC,
                skip: None,
            },
        ) {
            Ok(sheet) => Ok(sheet),
            Err(_) => Err("the sheet isn't read".into()),
        },
        Err(_) => Err("the day is none".into()),
    }
}

/// Adds the notes of a message's bytes.
fn add(
    text: &mut Text,
    moment: u64,
    bytes: &[u8],
    methods: &[Address],
) -> Result<Result<(), NotesError>, Fail> {
    match Message::check(bytes, 65_504) {
        Ok(message) => Ok(add_notes(text, moment, &message, methods)),
        Err(_) => Err("the bytes are no message".into()),
    }
}

#[test]
fn a_sheet_is_written_as_a_score(rt: HostRuntime) -> Result<(), Fail> {
    let methods = methods(rt.alloc())?;
    let sheet = sheet(rt.alloc(), &methods)?;
    let mut text = Text::open(rt.alloc());
    for cue in sheet.cues() {
        let added = add(&mut text, cue.tag, cue.message.as_slice(), &methods)?;
        assert!(rt; added == Ok(()));
    }
    assert!(rt; text.bytes() == SCORE);
    Ok(())
}

#[test]
fn a_message_without_tags_has_no_words(rt: HostRuntime) -> Result<(), Fail> {
    let methods = methods(rt.alloc())?;
    let mut text = Text::open(rt.alloc());
    let added = add(&mut text, 2, b"/light/{side,back}\x00\x00", &methods)?;
    assert!(rt; added == Ok(()));
    let lines = b"0000000000000002 /light/back\n0000000000000002 /light/side\n";
    assert!(rt; text.bytes() == lines.as_slice());
    Ok(())
}

#[test]
fn an_unknown_tag_is_reported_and_adds_nothing(rt: HostRuntime) -> Result<(), Fail> {
    let methods = methods(rt.alloc())?;
    let mut text = Text::open(rt.alloc());
    text.word(b"here")?;
    let added = add(
        &mut text,
        2,
        b"/light/*\x00\x00\x00\x00,ixy\x00\x00\x00\x00",
        &methods,
    )?;
    assert!(rt; added == Err(NotesError::UnknownTag(b'x')));
    assert!(rt; text.bytes() == b"here".as_slice());
    Ok(())
}
