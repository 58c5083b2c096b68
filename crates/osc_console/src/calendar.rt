//! The day that was shown last.
use std::alloc::{AllocError, Global};
use std::sync::Mutex;

/// The line of the day that was shown last, by whichever link.
#[derive(Drop)]
pub struct Calendar {
    day: Mutex<Vec<u8>>,
}

impl Calendar {
    /// No day was shown yet. Takes no memory.
    pub fn new(alloc: Global) -> Calendar {
        Calendar {
            day: Mutex::new(Vec::new(alloc)),
        }
    }

    /// Whether this line of a day isn't the last one, which it is then. It isn't while another link
    /// asks.
    pub fn turns_to(&self, line: &[u8]) -> Result<bool, AllocError> {
        let Some(mut day) = self.day.try_lock() else {
            return Ok(false);
        };
        if day.as_slice() == line {
            return Ok(false);
        }
        day.clear();
        day.extend_from_slice(line)?;
        Ok(true)
    }
}
