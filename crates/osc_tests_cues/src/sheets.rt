// Sheets of cues: what is sent when, and what is wrong with lines.
use jiff_core::Offset;
use jiff_core::civil::Date;
use osc_cues::{Fault, Setting, Sheet, SheetError};
use osc_pattern::Address;
use std::alloc::Global;
use std::test::Fail;

/// The time tag of 2026-11-29T19:58:00Z.
const NOW: u64 = 0xeeb7_0248_0000_0000;

/// The methods that hear the sheets.
const METHODS: [&[u8]; 10] = [
    b"/light/front",
    b"/light/back",
    b"/light/side",
    b"/light/house",
    b"/smoke/level",
    b"/curtain/open",
    b"/cue/name",
    b"/drums/hit",
    b"/bass/note",
    b"/keys/chord",
];

/// A sheet with each form of a moment and each word of an argument.
const SHEET: &[u8] = b"now /light/front 0.75
20:00 /light/* -7 h:-7 d:0.1 f:7fc00000 c:A c:00000001 r:ff8800ff m:00903c7f t:0000000000000001
20:00:00.5 /cue/name \"act \\\"two\\\" \\x7f\\\\\" s:a\\x20b S:\"x\" b:0102 b: true F N I [ 1e-3 ]
2026-11-29T21:30+01:00 /light/{front,back} 1.0
+0.625 /keys/chord [ 60 63 ] # a chord
tempo 112.5 in 3 from 21:00:00
2|2.5 /drums/hit \"kick\" 110
";

/// The time tag and the bytes of each of its cues, as another program made them.
const CUES: [(u64, &[u8]); 6] = [
    (
        0xeeb7024800000000,
        b"/light/front\x00\x00\x00\x00,f\x00\x00?@\x00\x00",
    ),
    (
        0xeeb702c000000000,
        b"/light/*\x00\x00\x00\x00,ihdfccrmt\x00\x00\xff\xff\xff\xf9\
            \xff\xff\xff\xff\xff\xff\xff\xf9?\xb9\x99\x99\x99\x99\x99\x9a\
            \x7f\xc0\x00\x00\x00\x00\x00A\x00\x00\x00\x01\xff\x88\x00\xff\
            \x00\x90<\x7f\x00\x00\x00\x00\x00\x00\x00\x01",
    ),
    (
        0xeeb702c080000000,
        b"/cue/name\x00\x00\x00,ssSbbTFNI[f]\x00\x00\x00act \x22two\x22 \x7f\x5c\
            \x00\x00\x00\x00a b\x00x\x00\x00\x00\x00\x00\x00\x02\x01\x02\
            \x00\x00\x00\x00\x00\x00:\x83\x12o",
    ),
    (
        0xeeb709c800000000,
        b"/light/{front,back}\x00,f\x00\x00?\x80\x00\x00",
    ),
    (
        0xeeb709c8a0000000,
        b"/keys/chord\x00,[ii]\x00\x00\x00\x00\x00\x00<\x00\x00\x00?",
    ),
    (
        0xeeb710d266666666,
        b"/drums/hit\x00\x00,si\x00kick\x00\x00\x00\x00\x00\x00\x00n",
    ),
];

/// Lines that are wrong, but for those that say ok.
const WRONG: &[u8] = b"# each line is wrong, but for those that say ok
20.00 /light/front 1.0
24:00 /light/front 1.0
20:00:00Z /light/front 1.0
2026-02-30T20:00 /light/front 1.0
2037-01-01T20:00 /light/front 1.0
18:00 /light/front 1.0
1|1 /drums/hit \"kick\" 110
tempo 96
tempo fast in 4 from 20:00:00
tempo 96 in 0 from 20:00:00
tempo 96 in 4 from 20:00:00             # ok
1|1 /drums/hit \"kick\" 110               # ok
1|5 /drums/hit \"kick\" 110
20:00:05 /light/front 1.0               # ok
20:00:04 /light/front 1.0
20:00:06
+0 light/front 1.0
+0 /light//front 1.0
+0 /light/front, 1.0
+0 /light/[ab 1.0
+0 /ligth/front 1.0
+0 /light/*/x 1.0
+0 /light/front 0,5
+0 /light/front 1.0.0
+0 /light/front 007
+0 /light/front 3000000000
+0 /light/front 1e39
+0 /light/front on
+0 /cue/name \"act two
+0 /cue/name \"act \"two\"\"
+0 /cue/name \"a\\n\"
+0 /light/front i:0.5
+0 /light/front f:half
+0 /light/front b:123
+0 /light/front m:90
+0 /light/front c:ab
+0 /light/front x:1
+0 /keys/chord [ 60 63
+0 /keys/chord 60 ]
+0.1 /light/front 1.0                   # ok
now /light/front 1.0
";

/// The line and the column of each fault, counted from 1.
const FAULTS: [(u32, usize, Fault); 37] = [
    (2, 1, Fault::NotMoment),
    (3, 1, Fault::NotTime),
    (4, 1, Fault::ZoneAlone),
    (5, 1, Fault::NotDay),
    (6, 1, Fault::PastTags),
    (7, 1, Fault::Gone(NOW)),
    (8, 1, Fault::NoTempo),
    (9, 7, Fault::TempoForm),
    (10, 7, Fault::NotTempo),
    (11, 13, Fault::NotMeter),
    (14, 1, Fault::NotBeat(4)),
    (16, 1, Fault::BeforeLine(0xeeb7_02c5_0000_0000)),
    (17, 9, Fault::NoAddress),
    (18, 4, Fault::NotAddress),
    (19, 10, Fault::EmptyName),
    (20, 4, Fault::NoMethod),
    (21, 11, Fault::OpenGroup),
    (22, 4, Fault::NoMethod),
    (23, 4, Fault::NoMethod),
    (24, 17, Fault::Comma),
    (25, 17, Fault::NotNumber),
    (26, 17, Fault::LeadingZero),
    (27, 17, Fault::LongInt),
    (28, 17, Fault::LargeFloat),
    (29, 17, Fault::NotArgument),
    (30, 14, Fault::OpenText),
    (31, 19, Fault::InnerQuote),
    (32, 16, Fault::QuotedEscape),
    (33, 19, Fault::NotWhole),
    (34, 19, Fault::NotNumber),
    (35, 19, Fault::NotBlob),
    (36, 19, Fault::NotEight),
    (37, 19, Fault::NotCharacter),
    (38, 17, Fault::NoType),
    (39, 16, Fault::OpenBracket),
    (40, 19, Fault::CloseBracket),
    (42, 1, Fault::BeforeLine(0xeeb7_02c6_1999_999a)),
];

fn methods(alloc: Global) -> Result<Vec<Address>, Fail> {
    let mut methods = Vec::new(alloc);
    for method in METHODS {
        match Address::read(alloc, method) {
            Ok(address) => methods.push(address)?,
            Err(_) => return Err("a method isn't an address".into()),
        }
    }
    Ok(methods)
}

fn setting(skip: Option<u64>) -> Result<Setting, Fail> {
    match Date::new(2026, 11, 29) {
        Ok(date) => Ok(Setting {
            now: NOW,
            date,
            offset: Offset::UTC,
            skip,
        }),
        Err(_) => Err("the day is none".into()),
    }
}

fn read(alloc: Global, bytes: &[u8]) -> Result<Result<Sheet, SheetError>, Fail> {
    let methods = methods(alloc)?;
    Ok(Sheet::read(alloc, bytes, &methods, setting(None)?))
}

#[test]
fn a_sheet_says_what_is_sent_when(rt: HostRuntime) -> Result<(), Fail> {
    match read(rt.alloc(), SHEET)? {
        Ok(sheet) => {
            assert!(rt; sheet.cues().len() == CUES.len());
            for (place, row) in CUES.iter().enumerate() {
                match sheet.cues().get(place) {
                    Some(cue) => {
                        assert!(rt; cue.tag == row.0);
                        assert!(rt; cue.message.as_slice() == row.1);
                    }
                    None => return Err("a cue is missing".into()),
                }
            }
            Ok(())
        }
        Err(_) => Err("the sheet isn't read".into()),
    }
}

#[test]
fn each_wrong_line_is_reported_with_its_place(rt: HostRuntime) -> Result<(), Fail> {
    match read(rt.alloc(), WRONG)? {
        Err(SheetError::Lines(lines)) => {
            assert!(rt; lines.as_slice().len() == FAULTS.len());
            for (place, row) in FAULTS.iter().enumerate() {
                match lines.as_slice().get(place) {
                    Some(wrong) => {
                        assert!(rt; wrong.line == row.0);
                        assert!(rt; wrong.column == row.1);
                        assert!(rt; wrong.fault == row.2);
                    }
                    None => return Err("a wrong line is missing".into()),
                }
            }
            Ok(())
        }
        _ => Err("the sheet is read".into()),
    }
}

/// What is told of the wrong lines.
const TOLD: &[u8] = b"line 2, column 1: 20.00 is no moment: a moment is 20:00:00, +0.625, 1|1 or now
    20.00 /light/front 1.0
    ^
line 3, column 1: 24:00 is no time of day: the last is 23:59:59
    24:00 /light/front 1.0
    ^
line 4, column 1: 20:00:00Z has a zone and no date: write 2026-11-29T20:00:00Z
    20:00:00Z /light/front 1.0
    ^
line 5, column 1: 2026-02-30 is no day of the calendar
    2026-02-30T20:00 /light/front 1.0
    ^
line 6, column 1: 2037-01-01T20:00 is past 2036-02-07T06:28:15Z, where time tags end
    2037-01-01T20:00 /light/front 1.0
    ^
line 7, column 1: 18:00 has gone by: it is 19:58:00.000; --skip leaves out what has gone by
    18:00 /light/front 1.0
    ^
line 8, column 1: 1|1 is a bar and a beat, and no line `tempo 96 in 4 from 20:00:00` stands \
before it
    1|1 /drums/hit \"kick\" 110
    ^
line 9, column 7: a tempo is written as in: tempo 96 in 4 from 20:00:00
    tempo 96
          ^
line 10, column 7: fast is no tempo: it is a number of beats a minute, as 96 or 112.5
    tempo fast in 4 from 20:00:00
          ^
line 11, column 13: 0 is no number of beats in a bar
    tempo 96 in 0 from 20:00:00
                ^
line 14, column 1: 1|5 is no beat: bars count from 1, and the beats of a bar from 1 to 4
    1|5 /drums/hit \"kick\" 110
    ^
line 16, column 1: 20:00:04 is before the line before, which is at 20:00:05.000
    20:00:04 /light/front 1.0
    ^
line 17, column 9: an address is missing: it begins with a slash
    20:00:06
            ^
line 18, column 4: light/front is no address: an address begins with a slash
    +0 light/front 1.0
       ^
line 19, column 10: a slash has no name after it
    +0 /light//front 1.0
             ^
line 20, column 4: the patch has no method /light/front,; did you mean /light/front?
    +0 /light/front, 1.0
       ^
line 21, column 11: [ isn't closed before the next slash
    +0 /light/[ab 1.0
              ^
line 22, column 4: the patch has no method /ligth/front; did you mean /light/front?
    +0 /ligth/front 1.0
       ^
line 23, column 4: the patch has no method that /light/*/x matches
    +0 /light/*/x 1.0
       ^
line 24, column 17: a number has a point and no comma: 0.5
    +0 /light/front 0,5
                    ^
line 25, column 17: 1.0.0 is no number: a number is 7, -7, 0.75 or 1e-3
    +0 /light/front 1.0.0
                    ^
line 26, column 17: a whole number has no zero before it
    +0 /light/front 007
                    ^
line 27, column 17: 3000000000 is more than 32 bits: h:3000000000 has 64
    +0 /light/front 3000000000
                    ^
line 28, column 17: 1e39 is too large for a float; d:1e39 is a double
    +0 /light/front 1e39
                    ^
line 29, column 17: on is no argument: a text stands in double quotes, \"on\"
    +0 /light/front on
                    ^
line 30, column 14: the text isn't closed by a double quote
    +0 /cue/name \"act two
                 ^
line 31, column 19: a double quote within a text is written \\\"
    +0 /cue/name \"act \"two\"\"
                      ^
line 32, column 16: after a backslash stands \", \\ or x and two hexadecimal digits
    +0 /cue/name \"a\\n\"
                   ^
line 33, column 19: 0.5 is no whole number
    +0 /light/front i:0.5
                      ^
line 34, column 19: half is no number: a number is 7, -7, 0.75 or 1e-3
    +0 /light/front f:half
                      ^
line 35, column 19: a blob is two hexadecimal digits for each byte
    +0 /light/front b:123
                      ^
line 36, column 19: m: has 8 hexadecimal digits
    +0 /light/front m:90
                      ^
line 37, column 19: c: has one character, or 8 hexadecimal digits
    +0 /light/front c:ab
                      ^
line 38, column 17: x: is no type: the types are i h f d s S b c r m t
    +0 /light/front x:1
                    ^
line 39, column 16: [ is never closed
    +0 /keys/chord [ 60 63
                   ^
line 40, column 19: ] closes no bracket
    +0 /keys/chord 60 ]
                      ^
line 42, column 1: now is before the line before, which is at 20:00:06.100
    now /light/front 1.0
    ^
";

#[test]
fn a_wrong_line_is_told_in_three_lines(rt: HostRuntime) -> Result<(), Fail> {
    match read(rt.alloc(), WRONG)? {
        Err(SheetError::Lines(lines)) => {
            let methods = methods(rt.alloc())?;
            let mut text = Vec::new(rt.alloc());
            for line in lines.as_slice() {
                line.add_text(&mut text, Offset::UTC, &methods)?;
            }
            assert!(rt; text.as_slice() == TOLD);
            Ok(())
        }
        _ => Err("the sheet is read".into()),
    }
}

/// A sheet whose lines share moments.
const SHARED: &[u8] = b"20:00 /light/front 1.0
+0 /cue/name \"go\"
20:00:01 /light/* 0.0
+0.5 /cue/name \"end\"
+0 /light/back 0.5
20:00:01.5 /bass/note 36
";

/// The time tag and the bytes of each of its bundles, as another program made them.
const BUNDLES: [(u64, &[u8]); 3] = [
    (
        0xeeb702c000000000,
        b"#bundle\x00\xee\xb7\x02\xc0\x00\x00\x00\x00\
            \x00\x00\x00\x18/light/front\x00\x00\x00\x00,f\x00\x00?\x80\x00\x00\
            \x00\x00\x00\x14/cue/name\x00\x00\x00,s\x00\x00go\x00\x00",
    ),
    (
        0xeeb702c100000000,
        b"#bundle\x00\xee\xb7\x02\xc1\x00\x00\x00\x00\
            \x00\x00\x00\x14/light/*\x00\x00\x00\x00,f\x00\x00\x00\x00\x00\x00",
    ),
    (
        0xeeb702c180000000,
        b"#bundle\x00\xee\xb7\x02\xc1\x80\x00\x00\x00\
            \x00\x00\x00\x14/cue/name\x00\x00\x00,s\x00\x00end\x00\
            \x00\x00\x00\x14/light/back\x00,f\x00\x00?\x00\x00\x00\
            \x00\x00\x00\x14/bass/note\x00\x00,i\x00\x00\x00\x00\x00$",
    ),
];

#[test]
fn the_cues_of_a_moment_are_one_bundle(rt: HostRuntime) -> Result<(), Fail> {
    match read(rt.alloc(), SHARED)? {
        Ok(sheet) => {
            let bundles = sheet.bundles(rt.alloc())?;
            assert!(rt; bundles.len() == BUNDLES.len());
            for (place, row) in BUNDLES.iter().enumerate() {
                match bundles.get(place) {
                    Some(bundle) => {
                        assert!(rt; bundle.tag == row.0);
                        assert!(rt; bundle.packet.as_slice() == row.1);
                    }
                    None => return Err("a bundle is missing".into()),
                }
            }
            Ok(())
        }
        Err(_) => Err("the sheet isn't read".into()),
    }
}

/// Moments to play from, and their time tags.
const STARTS: [(&[u8], u64); 5] = [
    (b"20:00", 0xeeb702c000000000),
    (b"20:00:00.5", 0xeeb702c080000000),
    (b"2026-11-29T21:30+01:00", 0xeeb709c800000000),
    (b"2|2.5", 0xeeb710d266666666),
    (b"1|1", 0xeeb710d000000000),
];

#[test]
fn a_show_starts_at_a_time_or_at_a_beat(rt: HostRuntime) -> Result<(), Fail> {
    match read(rt.alloc(), SHEET)? {
        Ok(sheet) => {
            for row in STARTS.iter() {
                match sheet.start(setting(None)?, row.0) {
                    Ok(tag) => assert!(rt; tag == row.1),
                    Err(_) => return Err("no moment".into()),
                }
            }
            assert!(rt; sheet.start(setting(None)?, b"2|4").is_err());
            assert!(rt; sheet.start(setting(None)?, b"soon").is_err());
            Ok(())
        }
        Err(_) => Err("the sheet isn't read".into()),
    }
}

#[test]
fn bars_need_a_tempo(rt: HostRuntime) -> Result<(), Fail> {
    match read(rt.alloc(), SHARED)? {
        Ok(sheet) => {
            match sheet.start(setting(None)?, b"1|1") {
                Err(fault) => assert!(rt; fault == Fault::NoTempo),
                Ok(_) => return Err("a bar without a tempo".into()),
            }
            Ok(())
        }
        Err(_) => Err("the sheet isn't read".into()),
    }
}

/// Addresses that no method answers, and what is told of them.
const MISSPELT: &[u8] = b"+0 /kue/name 1
+0 /bass/notes 1
+0 /light/bank 1
+0 /light/dim 1
+0 /light/hise 1
+0 /light 1
";

/// The nearest is within a third of the length; of those as near the first by its bytes.
const MEANT: &[u8] = b"line 1, column 4: the patch has no method /kue/name; did you mean /cue/name?
    +0 /kue/name 1
       ^
line 2, column 4: the patch has no method /bass/notes; did you mean /bass/note?
    +0 /bass/notes 1
       ^
line 3, column 4: the patch has no method /light/bank; did you mean /light/back?
    +0 /light/bank 1
       ^
line 4, column 4: the patch has no method /light/dim; did you mean /light/side?
    +0 /light/dim 1
       ^
line 5, column 4: the patch has no method /light/hise; did you mean /light/house?
    +0 /light/hise 1
       ^
line 6, column 4: the patch has no method /light
    +0 /light 1
       ^
";

#[test]
fn the_nearest_name_is_told(rt: HostRuntime) -> Result<(), Fail> {
    match read(rt.alloc(), MISSPELT)? {
        Err(SheetError::Lines(lines)) => {
            let methods = methods(rt.alloc())?;
            let mut text = Vec::new(rt.alloc());
            for line in lines.as_slice() {
                line.add_text(&mut text, Offset::UTC, &methods)?;
            }
            assert!(rt; text.as_slice() == MEANT);
            Ok(())
        }
        _ => Err("the sheet is read".into()),
    }
}
