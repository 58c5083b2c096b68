//! The atoms of Open Sound Control, read out of borrowed bytes and written (OSC 1.0, "Atomic Data Types").
#![tactic(auto)]

mod appends;
mod blob;
mod bytes;
mod fault;
pub mod laws;
mod limits;
mod number;
mod padding;
mod room;
mod sizes;
mod string;
mod writes;

pub use appends::{
    append_blob, append_string, append_tag, append_word, put_blob, put_string, put_tag, put_word,
};
pub use blob::{blob_at, known_blob_at};
pub use bytes::Bytes;
pub use fault::Fault;
pub use limits::{MAX_BYTES, MAX_PACKET};
pub use number::{known_tag_at, known_word_at, tag_at, word_at};
pub use room::Room;
pub use sizes::{blob_size, string_size};
pub use string::{known_string_at, string_at};
pub use writes::{write_blob, write_string, write_tag, write_word};
