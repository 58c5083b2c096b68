// What is sent at the moments of a sheet.
use crate::cues::SheetRead;
use osc_atoms::Bytes;
use std::alloc::{AllocError, Global};

/// Where the time tag of a bundle stands.
const TAG: usize = 8;

const TAG_END: usize = 16;

/// A bundle, and its time tag.
#[derive(Drop)]
pub(crate) struct Timed {
    pub(crate) tag: u64,
    pub(crate) packet: Bytes,
}

/// The bundles of the sheet, one for each moment that is played, with the time tags at which they
/// are.
pub(crate) fn bundles_of(alloc: Global, read: &SheetRead) -> Result<Vec<Timed>, AllocError> {
    let mut played = Vec::new(alloc);
    for bundle in &read.sheet.bundles(alloc)? {
        if let Some(tag) = read.played_at(bundle.tag) {
            let packet = tagged(alloc, bundle.packet.as_slice(), tag)?;
            played.push(Timed { tag, packet })?;
        }
    }
    Ok(played)
}

/// The same bundle with this time tag.
fn tagged(alloc: Global, bundle: &[u8], tag: u64) -> Result<Bytes, AllocError> {
    let mut bytes = Vec::from_slice(alloc, bundle)?;
    if bytes.len() >= TAG_END {
        bytes[TAG..TAG_END].copy_from_slice(&tag.to_be_bytes());
    }
    Ok(Bytes::of(bytes))
}
