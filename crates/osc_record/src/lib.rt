//! The recording of a server: the events that callers hand in, each with its answer, as a stream of
//! sized messages.
#![tactic(auto)]

mod answers;
mod arguments;
mod caps;
mod entries;
mod entries_left;
mod entry_messages;
mod event;
mod fields;
mod header;
pub mod laws;
mod limits;
mod message;
mod old;
mod parts;
mod policy;
mod reader;
mod recorder;
mod refusal;
mod rows;
mod sized_entry;
mod sized_messages;
mod sizes;
mod unread;
mod version;

pub use caps::{CapFault, Caps};
pub use entries_left::Entries;
pub use event::{Answer, Entry, Event};
pub use limits::{HEADER_SIZE, MAX_CALLERS, MAX_METHODS, MAX_RECORDING, MAX_RESERVED};
pub use old::Old;
pub use osc_model::{Late, Limits};
pub use reader::{Malformed, Reader};
pub use recorder::Recorder;
pub use rows::append_header;
pub use sized_entry::{append_recorded, entry_bytes};
pub use sizes::{
    ENROL_SIZE, RELEASE_HEAD, TICK_SIZE, add_size, release_size, remove_size, submit_size,
};
pub use unread::Unread;
