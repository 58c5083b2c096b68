//! The number of a lane.
ghost use Rattle.std.specs.Prelude.{◌≡◌};
ghost use Rattle.osc_script.specs.Lanes;

/// The most lanes of a script; their numbers begin at 0.
pub const MAX_LANES: u32 = 16;

/// The lane of this number in decimal without a leading zero.
pub(crate) fn lane_of(word: &[u8]) -> Option<u32>
    ensures { result ≡ Lanes.lane_of word.now }
{
    let lane = match word {
        [ones] => digit_of(*ones)?,
        [tens, ones] if *tens != b'0' => 10 * digit_of(*tens)? + digit_of(*ones)?,
        _ => return None,
    };
    if lane < MAX_LANES { Some(lane) } else { None }
}

fn digit_of(byte: u8) -> Option<u32>
    ensures { result ≡ Lanes.digit_of byte }
{
    if byte.is_ascii_digit() {
        Some(u32::from(byte - b'0'))
    } else {
        None
    }
}
