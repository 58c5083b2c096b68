// Ports.
ghost use Rattle.std.specs.Prelude.{◌≡◌, IsTrue};
ghost use Rattle.std.specs.Str.Parse.{digits_value};
ghost use Rattle.osc_patch.specs.Hosts;

use std::str;

/// The port that the digits write, from 1 to 65535.
pub(crate) fn port_of(word: &[u8]) -> Option<u16>
    ensures { result ≡ Hosts.port_of word.now }
{
    if !has_digits(word) {
        return None;
    }
    match str::from_utf8(word) {
        Ok(digits) => number_of(digits),
        Err(_) => None,
    }
}

/// The number of the digits, where it is a port.
fn number_of(digits: &str) -> Option<u16>
    requires { IsTrue (Hosts.all_digits digits.now) }
    ensures { result ≡ Hosts.within_ports (digits_value 10 digits.now) }
{
    match digits.parse::<u16>() {
        Ok(port) if port != 0 => Some(port),
        _ => None,
    }
}

/// Whether all bytes are digits.
fn has_digits(word: &[u8]) -> bool
    ensures { result ≡ Hosts.all_digits word.now }
{
    word.iter().all(|byte| byte.is_ascii_digit())
}
