// Guesses of where the method at an address stands, which save most searches.
use std::alloc::{AllocError, Global};

/// For one method so many guesses have room, so that few addresses share one.
const GUESSES: usize = 4;

/// The place of the last method that was added with each hash of an address. A guess is wrong where
/// another address has the hash, and where a method that stood before it was removed, so whoever
/// uses one looks whether the method is there.
#[derive(Drop)]
pub(crate) struct Guesses {
    places: Vec<u32>,
}

impl Guesses {
    /// Guesses for so many methods, all of them wrong. The `Err` means that there is no memory for
    /// them.
    pub(crate) fn open(alloc: Global, methods: u32) -> Result<Guesses, AllocError> {
        Ok(Guesses {
            places: vec![in alloc; u32::MAX; GUESSES * methods as usize]?,
        })
    }

    /// Guesses the place for the address from now on.
    pub(crate) fn keep(&mut self, address: &[u8], place: u32) {
        let at = self.number(address);
        if let Some(guess) = self.places.get_mut(at) {
            *guess = place;
        }
    }

    /// Where the method at the address stands, if it is in the tree and the guess is right.
    pub(crate) fn place(&self, address: &[u8]) -> Option<usize> {
        let place = self.places.get(self.number(address))?;
        Some(*place as usize)
    }

    /// The number of the guess for an address.
    fn number(&self, address: &[u8]) -> usize {
        let wide = u64::from(hash(address)).wrapping_mul(self.places.len() as u64);
        (wide >> 32) as usize
    }
}

/// An odd number with its bits well mixed.
const FACTOR: u64 = 0x9e37_79b9_7f4a_7c15;

/// A hash of all bytes, eight at a time; the last eight may overlap those before them.
fn hash(address: &[u8]) -> u32 {
    let mut hash = address.len() as u64;
    let (chunks, _) = address.as_chunks::<8>();
    for chunk in chunks {
        hash = mixed(hash, u64::from_le_bytes(*chunk));
    }
    (mixed(hash, last_bytes(address)) >> 32) as u32
}

fn mixed(hash: u64, bytes: u64) -> u64 {
    (hash ^ bytes).wrapping_mul(FACTOR)
}

/// The last eight bytes, or of fewer than eight the first four and the last four, or of fewer than
/// four all.
fn last_bytes(address: &[u8]) -> u64 {
    if let Some(last) = address.last_chunk::<8>() {
        return u64::from_le_bytes(*last);
    }
    if let (Some(first), Some(last)) = (address.first_chunk::<4>(), address.last_chunk::<4>()) {
        return u64::from(u32::from_le_bytes(*first)) << 32 | u64::from(u32::from_le_bytes(*last));
    }
    let mut bytes = 0;
    for byte in address {
        bytes = (bytes << 8) | u64::from(*byte);
    }
    bytes
}
