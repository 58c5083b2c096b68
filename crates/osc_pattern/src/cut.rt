// Cuts of texts at one byte.
ghost use Rattle.std.specs.Prelude.{◌≡◌, ◌==◌, option_map, count_by, position, ◌∷◌, length};
ghost use Rattle.std.specs.Prelude.{MatchOption, IfSome, [], ◌+◌};
ghost use Rattle.std.specs.List.{slice_split};
ghost use Rattle.osc_pattern.specs.Reading.{cut_at};

/// The bytes before the first `end`, and those after it.
pub(crate) fn cut_at(bytes: &[u8], end: u8) -> Option<(&[u8], &[u8])>
    ensures cut { option_map (λ parts. (parts.0.now, parts.1.now)) result
        ≡ cut_at (λ byte. byte == end) bytes.now }
    ensures size { IfSome result
        (λ parts. length parts.0.now + (1 + length parts.1.now) ≡ length bytes.now) }
{
    let at = first_place(bytes, end)?;
    Some((&bytes[..at], &bytes[at + 1..]))
}

fn first_place(bytes: &[u8], end: u8) -> Option<usize>
    ensures { result ≡ position (λ byte. byte == end) bytes.now }
{
    bytes.iter().position(|byte| *byte == end)
}

/// The bytes before the first `mark`, and those after it if there is one.
pub(crate) fn first_piece(bytes: &[u8], mark: u8) -> (&[u8], Option<&[u8]>)
    ensures pieces { MatchOption result.1
        (slice_split (λ byte. byte == mark) bytes.now ≡ result.0.now ∷ [])
        (λ rest. slice_split (λ byte. byte == mark) bytes.now
        ≡ result.0.now ∷ slice_split (λ byte. byte == mark) rest.now) }
    ensures size { MatchOption result.1 (length result.0.now ≡ length bytes.now)
        (λ rest. length result.0.now + (1 + length rest.now) ≡ length bytes.now) }
{
    match cut_at(bytes, mark) {
        Some((piece, rest)) => (piece, Some(rest)),
        None => (bytes, None),
    }
}

/// How many of the bytes are `mark`.
pub(crate) fn count(bytes: &[u8], mark: u8) -> usize
    ensures { result ≡ count_by (λ byte. byte == mark) bytes.now }
{
    bytes.iter().filter(|byte| **byte == mark).count()
}
