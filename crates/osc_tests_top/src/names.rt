// What the words name: files, ports, and what carries packets to them.
use crate::live::words;
use osc_top::{ports, recording_name, resume_names, wants_tcp};
use std::test::Fail;

/// Words, the name of the recording, and those of both recordings.
const FILES: [(&str, Option<&str>, Option<(&str, &str)>); 11] = [
    ("lanes f", Some("f"), None),
    ("serve --port 9000 f", Some("f"), None),
    ("lanes", None, None),
    ("lanes o f", Some("f"), None),
    ("run f", None, None),
    ("", None, None),
    ("resume o f", None, Some(("o", "f"))),
    ("resume --recording 60 o f", None, Some(("o", "f"))),
    ("resume --recording 60", None, Some(("--recording", "60"))),
    ("resume f", None, None),
    ("resume", None, None),
];

/// Words, the ports of the links, and whether they are served over TCP.
const PORTS: [(&str, &[u16], bool); 12] = [
    (
        "serve --port 9000 --links 1 --count 2 --idle 3 f",
        &[9000],
        false,
    ),
    ("serve f", &[9000], false),
    ("serve --links=3 --units 1 f", &[9000, 9001, 9002], false),
    (
        "serve --port 65528 --links 8 f",
        &[65528, 65529, 65530, 65531, 65532, 65533, 65534, 65535],
        false,
    ),
    ("serve --port 65529 --links 8 f", &[], false),
    ("lanes f", &[], false),
    ("serve --tcp f", &[9000], true),
    ("serve --port 9000 --tcp --links 2 f", &[9000, 9001], true),
    ("serve f --tcp", &[], false),
    ("serve --tcp --tcp f", &[], false),
    ("serve --tcp --links 9 f", &[], false),
    ("lanes --tcp f", &[], false),
];

#[test]
fn words_name_files_and_ports(rt: HostRuntime) -> Result<(), Fail> {
    let alloc = rt.alloc();
    for (line, recording, both) in FILES {
        let words = words(alloc, line)?;
        assert_eq!(rt; recording_name(&words), recording, "{line}");
        assert_eq!(rt; resume_names(&words), both, "{line}");
    }
    for (line, expected, is_tcp) in PORTS {
        let words = words(alloc, line)?;
        assert_eq!(rt; ports(alloc, &words)?.as_slice(), expected, "{line}");
        assert_eq!(rt; wants_tcp(alloc, &words)?, is_tcp, "{line}");
    }
    Ok(())
}
