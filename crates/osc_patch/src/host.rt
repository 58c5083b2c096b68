// Hosts.
ghost use Rattle.std.specs.Prelude.{◌≡◌};
ghost use Rattle.std.specs.List.{list_all};
ghost use Rattle.osc_patch.specs.Hosts;

use std::net::Ipv4Addr;

/// The most bytes of a host's name (RFC 1035, 2.3.4, without the lengths of its labels).
pub(crate) const MAX_HOST: usize = 253;

/// Whether the word is an IPv4 address, or a name.
pub(crate) fn is_host(word: &[u8]) -> bool
    ensures { result ≡ Hosts.is_host word.now }
{
    if is_numeric(word) {
        is_dotted(word)
    } else {
        is_name(word)
    }
}

/// Whether all bytes are digits and dots.
fn is_numeric(word: &[u8]) -> bool
    ensures { result ≡ Hosts.is_numeric word.now }
{
    word.iter()
        .all(|byte| byte.is_ascii_digit() || *byte == b'.')
}

fn is_dotted(word: &[u8]) -> bool
    ensures { result ≡ Hosts.is_dotted word.now }
{
    Ipv4Addr::parse_ascii(word).is_ok()
}

fn is_name(word: &[u8]) -> bool
    ensures { result ≡ Hosts.is_name word.now }
{
    word.len() <= MAX_HOST && has_name_bytes(word)
}

fn has_name_bytes(word: &[u8]) -> bool
    ensures { result ≡ list_all Hosts.is_name_byte word.now }
{
    word.iter().all(|byte| is_name_byte(*byte))
}

fn is_name_byte(byte: u8) -> bool
    ensures { result ≡ Hosts.is_name_byte byte }
{
    byte.is_ascii_alphanumeric() || byte == b'-' || byte == b'.'
}
