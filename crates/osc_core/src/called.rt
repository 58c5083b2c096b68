//! The calls of the unit that was released last.
ghost use Rattle.std.specs.Prelude.{◌≡◌, drop, slice_index, option_map};
ghost use Rattle.osc_core.specs.Frames.{first_framed, after_framed};
ghost use Rattle.osc_core.specs.Invoked.{SplitsHit, message_at as framed_at};

/// A call of a method by the release of a unit.
#[derive(Clone, Copy, Debug, PartialEq, Eq)]
pub struct Called<'a> {
    /// The number of the unit.
    pub unit: u64,
    /// Which of the unit's messages it is, counted from 0.
    pub index: u32,
    /// The id of the method.
    pub method: u32,
    /// The bytes of the message.
    pub message: &'a [u8],
}

/// The calls that are left, in order.
#[derive(Drop)]
pub struct Calls<'a> {
    pub(crate) unit: u64,
    /// For each call two words: which message it is, and which method.
    pub(crate) hits: &'a [u8],
    /// The messages, each after its length in 4 bytes.
    pub(crate) bytes: &'a [u8],
    /// Where each of them begins; empty where there is one alone, which begins at 0.
    pub(crate) starts: &'a [u32],
}

impl<'a> Iterator for Calls<'a> {
    type Item = Called<'a>;

    ghost use Rattle.std.specs.Iterator.{YieldsFirstBy, item_count};
    ghost use Rattle.osc_core.specs.Invoked.{shown, calls_left};

    ghost next_gives = { YieldsFirstBy shown calls_left };

    ghost remaining = { item_count calls_left };

    fn next(&mut self) -> Option<Called<'a>> {
        let (index, method, rest) = split_hit(self.hits)?;
        self.hits = rest;
        Some(Called {
            unit: self.unit,
            index,
            method,
            message: message_at(self.starts, self.bytes, index),
        })
    }
}

/// The words of the first hit, and what follows it.
fn split_hit(bytes: &[u8]) -> Option<(u32, u32, &[u8])>
    ensures { SplitsHit bytes.now (option_map (λ split. (split.0, split.1, split.2.now)) result) }
{
    let (index, rest) = bytes.split_first_chunk::<4>()?;
    let (id, rest) = rest.split_first_chunk::<4>()?;
    Some((u32::from_be_bytes(*index), u32::from_be_bytes(*id), rest))
}

/// The message with this index.
fn message_at<'a>(starts: &[u32], bytes: &'a [u8], index: u32) -> &'a [u8]
    ensures { result.now ≡ framed_at starts.now bytes.now index }
{
    split_message(rest_from(bytes, start_at(starts, index as usize))).0
}

/// Where the message with this index begins.
fn start_at(starts: &[u32], index: usize) -> usize
    ensures { result ≡ slice_index starts.now index }
{
    match starts.get(index) {
        Some(start) => *start as usize,
        None => 0,
    }
}

/// The bytes from a place on.
pub(crate) fn rest_from(bytes: &[u8], place: usize) -> &[u8]
    ensures { result.now ≡ drop place bytes.now }
{
    bytes.get(place..).unwrap_or(&[])
}

/// The first message after its length, and what follows it.
pub(crate) fn split_message(bytes: &[u8]) -> (&[u8], &[u8])
    ensures message { result.0.now ≡ first_framed bytes.now }
    ensures rest { result.1.now ≡ after_framed bytes.now }
{
    let Some((size, rest)) = bytes.split_first_chunk::<4>() else {
        return (&[], &[]);
    };
    let size = u32::from_be_bytes(*size) as usize;
    if size > rest.len() {
        return (rest, &[]);
    }
    rest.split_at(size)
}
