// Messages, built. What is read of one stands in tests/rows.
use osc_message::*;
use osc_pattern::PatternFault;
use std::alloc::Global;

/// The message that the standard shows for `/foo` and five arguments (OSC 1.0 examples).
const FOO: [u8; 40] =
    *b"/foo\0\0\0\0,iisff\0\0\0\0\x03\xe8\xff\xff\xff\xffhello\0\0\0\x3f\x9d\xf3\xb6\x40\xb5\xb2\x2d";

/// A builder of the standard's message.
fn standards_builder(alloc: Global) -> Result<Builder, BuildFault> {
    let mut builder = Builder::open(alloc, b"/foo")?;
    for arg in [
        Arg::Int(1000),
        Arg::Int(-1),
        Arg::Str(b"hello"),
        Arg::Float(0x3f9d_f3b6),
        Arg::Float(0x40b5_b22d),
    ] {
        builder.push(arg)?;
    }
    Ok(builder)
}

#[test]
fn the_standards_message_is_built_and_a_refused_push_changes_nothing(
    rt: HostRuntime,
) -> Result<(), BuildFault> {
    let mut builder = standards_builder(rt.alloc())?;
    assert_eq!(rt; builder.finish()?.as_slice(), FOO.as_slice());
    let long = [0; 65500];
    for (arg, fault) in [
        (Arg::Str(b"a\0"), BuildFault::HasNull { at: 1 }),
        (Arg::Symbol(b"\0"), BuildFault::HasNull { at: 0 }),
        (Arg::Blob(&long), BuildFault::TooLong),
    ] {
        assert_eq!(rt; builder.push(arg), Err(fault));
    }
    assert_eq!(rt; builder.finish()?.as_slice(), FOO.as_slice());
    builder.push(Arg::ArrayStart)?;
    assert_eq!(rt; builder.finish().err(), Some(BuildFault::Brackets));
    Ok(())
}

#[test]
fn a_builder_is_opened_with_a_pattern_alone(rt: HostRuntime) {
    let long = [b'/'; 65001];
    let unclosed = PatternFault {
        kind: PatternFault::OPEN,
        at: 2,
    };
    let outside = PatternFault {
        kind: PatternFault::BYTE,
        at: 2,
    };
    let rows: [(&[u8], Option<BuildFault>); 7] = [
        (b"/*/{a,b}", None),
        (&long[..65000], None),
        (&long, Some(BuildFault::TooLong)),
        (b"/a[", Some(BuildFault::Pattern(unclosed))),
        (b"/[\x7f", Some(BuildFault::Pattern(outside))),
        (b"/[\0", Some(BuildFault::HasNull { at: 2 })),
        (b"a\0", Some(BuildFault::HasNull { at: 1 })),
    ];
    for (pattern, want) in rows {
        assert_eq!(rt;
            Builder::open(rt.alloc(), pattern).err(),
            want,
            "{pattern:?}"
        );
    }
}
