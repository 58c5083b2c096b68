// Atoms, written.
use osc_atoms::*;
use std::alloc::AllocError;

/// The message that the standard shows for `/foo` and five arguments (OSC 1.0 examples).
const FOO: [u8; 40] = [
    0x2f, 0x66, 0x6f, 0x6f, 0, 0, 0, 0, 0x2c, 0x69, 0x69, 0x73, 0x66, 0x66, 0, 0, 0, 0, 0x03, 0xe8,
    0xff, 0xff, 0xff, 0xff, 0x68, 0x65, 0x6c, 0x6c, 0x6f, 0, 0, 0, 0x3f, 0x9d, 0xf3, 0xb6, 0x40,
    0xb5, 0xb2, 0x2d,
];

#[test]
fn atoms_are_appended_and_written_as_the_vectors_have_them(
    rt: HostRuntime,
) -> Result<(), AllocError> {
    let mut out = Vec::new(rt.alloc());
    put_string(&mut out, b"/foo")?;
    put_string(&mut out, b",iisff")?;
    put_word(&mut out, 1000)?;
    put_word(&mut out, 0xffff_ffff)?;
    put_string(&mut out, b"hello")?;
    put_word(&mut out, 0x3f9d_f3b6)?;
    put_word(&mut out, 0x40b5_b22d)?;
    assert_eq!(rt; out.as_slice(), FOO.as_slice());

    let mut out = Vec::new(rt.alloc());
    put_tag(&mut out, 0x83aa_7e80_0000_0000)?;
    put_blob(&mut out, &[1, 0, 2, 0, 3])?;
    assert_eq!(rt;
        out.as_slice(),
        b"\x83\xaa\x7e\x80\0\0\0\0\0\0\0\x05\x01\0\x02\0\x03\0\0\0".as_slice()
    );

    let mut out = [0xff; 24];
    assert_eq!(rt; write_tag(&mut out, 4, 0x83aa_7e80_0000_0000), 12);
    assert_eq!(rt; write_word(&mut out, 12, 1000), 16);
    assert_eq!(rt;
        out.as_slice(),
        b"\xff\xff\xff\xff\x83\xaa\x7e\x80\0\0\0\0\0\0\x03\xe8\xff\xff\xff\xff\xff\xff\xff\xff".as_slice()
    );
    Ok(())
}
