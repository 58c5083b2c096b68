// Addresses, and the rule that each breaks first. Whether a pattern matches one stands in tests/rows.
use osc_pattern::{Address, AddressFault};

/// Texts, and the first rule that each breaks, with its number.
const BROKEN: [(&[u8], AddressFault, u8); 9] = [
    (b"foo", AddressFault::NoSlash, 1),
    (b"", AddressFault::NoSlash, 1),
    (b"/", AddressFault::EmptyName, 2),
    (b"/a//b", AddressFault::EmptyName, 2),
    (b"/a b/", AddressFault::EmptyName, 2),
    (b"/a b", AddressFault::BadByte, 3),
    // A name of 64 bytes, five names of 63, and seventeen names.
    (
        b"/aaaaaaaaaaaaaaaaaaaaaaaaaaaaaaaaaaaaaaaaaaaaaaaaaaaaaaaaaaaaaaaa",
        AddressFault::NameLong,
        4,
    ),
    (
        b"/aaaaaaaaaaaaaaaaaaaaaaaaaaaaaaaaaaaaaaaaaaaaaaaaaaaaaaaaaaaaaaa/aaaaaaaaaaaaaaaaaaaaaaaaaaaaaaaaaaaaaaaaaaaaaaaaaaaaaaaaaaaaaaa/aaaaaaaaaaaaaaaaaaaaaaaaaaaaaaaaaaaaaaaaaaaaaaaaaaaaaaaaaaaaaaa/aaaaaaaaaaaaaaaaaaaaaaaaaaaaaaaaaaaaaaaaaaaaaaaaaaaaaaaaaaaaaaa/aaaaaaaaaaaaaaaaaaaaaaaaaaaaaaaaaaaaaaaaaaaaaaaaaaaaaaaaaaaaaaa",
        AddressFault::AddressLong,
        5,
    ),
    (
        b"/a/a/a/a/a/a/a/a/a/a/a/a/a/a/a/a/a",
        AddressFault::TooManyParts,
        6,
    ),
];

#[test]
fn an_address_is_refused_by_its_first_broken_rule(rt: HostRuntime) {
    for (bytes, fault, number) in BROKEN {
        assert!(rt; Address::read(rt.alloc(), bytes).err() == Some(fault));
        assert_eq!(rt; fault as u8, number);
    }
}
