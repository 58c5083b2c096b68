//! Packets over a stream: each follows its size, a big-endian word of 4 bytes.
//!
//! A stream takes its bytes in any pieces, and tells when a packet is whole. A link reads a source through a stream,
//! and gives the packets as datagrams.
#![tactic(auto)]

mod buffered_source;
mod fed;
mod frame_bytes;
mod front;
pub mod laws;
mod limits;
mod source_frame;
mod state;
mod stream;
mod stream_link;

pub use buffered_source::BufferedSource;
pub use fed::Fed;
pub use osc_atoms::MAX_PACKET;
pub use state::StreamState;
pub use stream::Stream;
pub use stream_link::StreamLink;
