// The entries at the front of bytes, each after its size, as a recording has them; its header is
// one of them.
ghost use Rattle.std.specs.Prelude.{◌≡◌, ◌+◌, ◌<◌, ◌≤◌, ◌^◌, length, take, option_map, IfSome};
ghost use Rattle.std.specs.Int.{w32, from_be_bytes};
ghost use Rattle.osc_record.specs.Reading.{message_first};
ghost use Rattle.osc_growing.specs.Entries.{HoldsWhole};

/// How many of the first bytes hold whole entries.
pub(crate) fn whole_entries(bytes: &[u8]) -> usize
    ensures within { result ≤ length bytes.now }
    ensures whole { HoldsWhole bytes.now result }
{
    let mut end = 0;
    while end < bytes.len() {
        match first_entry(&bytes[end..]) {
            Some(size) => end += size,
            None => return end,
        }
    }
    end
}

/// How many bytes the first entry takes, its size included, if the bytes hold all of it.
fn first_entry(bytes: &[u8]) -> Option<usize>
    ensures value { result ≡ option_map (λ entry. 4 + length entry) (message_first bytes.now) }
    ensures within { IfSome result (λ size. (4 ≤ size) × (size ≤ length bytes.now)) }
{
    if bytes.len() < 4 {
        return None;
    }
    let size = u32::from_be_bytes([bytes[0], bytes[1], bytes[2], bytes[3]]) as usize;
    if size == 0 || size % 4 != 0 || size > bytes.len() - 4 {
        return None;
    }
    Some(4 + size)
}

/// How many bytes the first entry takes, its size included, also where the bytes don't hold all of
/// it.
pub(crate) fn told_size(bytes: &[u8]) -> u32
    requires long { 4 ≤ length bytes.now }
    requires small { 4 + from_be_bytes w32 (take 4 bytes.now) < 2 ^ 32 }
    ensures { result ≡ 4 + from_be_bytes w32 (take 4 bytes.now) }
{
    4 + u32::from_be_bytes([bytes[0], bytes[1], bytes[2], bytes[3]])
}
