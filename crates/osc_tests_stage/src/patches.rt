// Patches, and what is told of their wrong lines.
use osc_patch::{MAX_PATCH, Patch, PatchError};
use std::alloc::{AllocError, Global};
use std::test::Fail;

/// What is told of each wrong line of a patch that may have so many methods, with a line feed after
/// it; or its methods.
fn told(alloc: Global, bytes: &[u8], limit: u32) -> Result<Vec<u8>, Fail> {
    match Patch::read(alloc, bytes, limit) {
        Ok(patch) => Ok(methods(alloc, &patch)?),
        Err(PatchError::Lines(lines)) => {
            let mut text = Vec::new(alloc);
            for line in lines.as_slice() {
                line.add_text(&mut text)?;
                text.push(b'\n')?;
            }
            Ok(text)
        }
        Err(PatchError::NoMethod) => Ok(Vec::from_slice(alloc, b"no method")?),
        Err(PatchError::TooLong) => Ok(Vec::from_slice(alloc, b"too long")?),
        Err(PatchError::NoMemory) => Err("memory".into()),
    }
}

/// Each method with the number of its line, and each of its routes with its own.
fn methods(alloc: Global, patch: &Patch) -> Result<Vec<u8>, AllocError> {
    let mut text = Vec::new(alloc);
    for method in patch.methods() {
        text.extend_from_slice(method.address.bytes())?;
        text.extend_from_slice(format!(in alloc; " {}", method.line)?.as_bytes())?;
        for route in method.routes.as_slice() {
            text.extend_from_slice(b", ")?;
            text.extend_from_slice(route.host.as_slice())?;
            text.extend_from_slice(format!(in alloc;
                ":{} {}",
                route.port, route.line
            )?.as_bytes())?;
        }
        text.push(b'\n')?;
    }
    Ok(text)
}

/// Two methods, and lines with each fault; the last would be a third method.
const WRONG: &[u8] = b"# the lights
add /light/dim 127.0.0.1 7771
add /light/dim*
sub /a
add\t/a 127.0.0.1
add light
add /a 127.0.0.256 9
add /a 127.0.0.1 0
add /light/dim 127.0.0.1 7771
add /light
add /fog
add /log/all
";

const WRONG_TOLD: &[u8] =
    b"line 3: `/light/dim*` is a pattern, and a method has a plain address: write each address on a line of its own
line 4: `sub` begins no line: write `add ADDRESS` or `add ADDRESS HOST PORT`
line 5: `add` takes one word or three: write `add ADDRESS` or `add ADDRESS HOST PORT`
line 6: `light` is no address: write a slash before each name, and no spaces or any of `#*,?[]{}`
line 7: `127.0.0.256` is no host: write an IPv4 address, as 10.0.0.7, or a name of letters, digits, `-` and `.`
line 8: `0` is no port: write a number from 1 to 65535
line 9: `/light/dim` is sent there by line 2 already: take one of the two lines away
line 10: `/light` and the address of line 2 lie one under the other, and a method has none under it: rename one of them
line 12: `/log/all` comes after 2 methods, and there may be no more: take lines away, or raise the limit
";

/// Each how many methods there may be, a patch, and the result.
const PATCHES: [(u32, &[u8], &[u8]); 9] = [
    (2, WRONG, WRONG_TOLD),
    (
        3,
        b"add /light/dim 127.0.0.1 7771\nadd /machine/fog 127.0.0.1 7772\nadd /log/all\n",
        b"/light/dim 1, 127.0.0.1:7771 1\n/machine/fog 2, 127.0.0.1:7772 2\n/log/all 3\n",
    ),
    (
        2,
        b"\r\n  add\t/log/all\t# all that comes\r\n#add /a\nadd /b desk-2.local 65535\r\nadd \
          /log/all 10.0.0.255 08",
        b"/log/all 2, 10.0.0.255:8 5\n/b 4, desk-2.local:65535 4\n",
    ),
    (
        1,
        b"add /a 10.0.0.7 9\nadd /a\nadd /a 10.0.0.7 10\n",
        b"/a 1, 10.0.0.7:9 1, 10.0.0.7:10 3\n",
    ),
    (1, b"", b"no method"),
    (1, b" # add /a\n\n", b"no method"),
    (
        9,
        b"add /a +10.0.0.7 9\nadd /a 10.0.0.07 +9\nadd /a 10.0.0.7 +9",
        b"line 1: `+10.0.0.7` is no host: write an IPv4 address, as 10.0.0.7, or a name of letters, digits, `-` and `.`
line 2: `10.0.0.07` is no host: write an IPv4 address, as 10.0.0.7, or a name of letters, digits, `-` and `.`
line 3: `+9` is no port: write a number from 1 to 65535
",
    ),
    (
        9,
        b"add /a\nadd /a/b/c\nadd /a/b\nadd /aa",
        b"line 2: `/a/b/c` and the address of line 1 lie one under the other, and a method has none under it: rename one of them
line 3: `/a/b` and the address of line 1 lie one under the other, and a method has none under it: rename one of them
",
    ),
    (
        9,
        b"\x1b[2J add /a\nadd /a",
        b"line 1: `?[2J` begins no line: write `add ADDRESS` or `add ADDRESS HOST PORT`\n",
    ),
];

#[test]
fn a_patch_is_read_or_all_its_wrong_lines_are_told(rt: HostRuntime) -> Result<(), Fail> {
    let alloc = rt.alloc();
    for (limit, patch, expected) in PATCHES {
        assert_eq!(rt; told(alloc, patch, limit)?.as_slice(), expected);
    }
    Ok(())
}

#[test]
fn a_patch_has_a_longest_text(rt: HostRuntime) -> Result<(), Fail> {
    let alloc = rt.alloc();
    let mut bytes = Vec::from_slice(alloc, b"add /a\n#")?;
    bytes.resize(MAX_PATCH, b' ')?;
    assert_eq!(rt; told(alloc, &bytes, 1)?.as_slice(), b"/a 1\n".as_slice());
    bytes.push(b' ')?;
    assert_eq!(rt; told(alloc, &bytes, 1)?.as_slice(), b"too long".as_slice());
    Ok(())
}
