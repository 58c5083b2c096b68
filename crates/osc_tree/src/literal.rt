// Where a pattern's literal front ends.
ghost use Rattle.std.specs.Prelude.{◌≡◌, position};
ghost use Rattle.osc_pattern.specs.Patterns.{is_special};

/// The place of the first `?`, `*`, `[` or `{`. Each address that the pattern matches begins with
/// the bytes before it.
pub(crate) fn first_special(pattern: &[u8]) -> Option<usize>
    ensures { result ≡ position is_special pattern.now }
{
    pattern.iter().position(|byte| is_special(*byte))
}

pub(crate) fn is_special(byte: u8) -> bool
    ensures { result ≡ is_special byte }
{
    byte == b'?' || byte == b'*' || byte == b'[' || byte == b'{'
}
