//! Where bytes, datagrams and the time come from and where bytes go to: sources, sinks, links and clocks, in memory and
//! real, each with a count of its faults; and the words of the command line.
//!
//! A contract sees what is left in a source, a link or a clock and what a sink holds, where the object tells it, and
//! how often the object has failed. Only the standard streams, files, ports, the system's clock and the command line
//! tell nothing.
#![tactic(auto)]

mod calls;
mod clock;
mod command_line;
mod file_sink;
mod file_source;
mod limits;
mod link;
mod memory_clock;
mod memory_link;
mod memory_sink;
mod memory_source;
mod sink;
mod source;
mod standard;
mod steady;
mod system_clock;
mod tcp_source;
mod udp_link;

pub use clock::{Clock, Moment};
pub use command_line::command_words;
pub use file_sink::FileSink;
pub use file_source::FileSource;
pub use limits::MAX_DATAGRAM;
pub use link::{Datagram, Link};
pub use memory_clock::MemoryClock;
pub use memory_link::MemoryLink;
pub use memory_sink::MemorySink;
pub use memory_source::MemorySource;
pub use sink::{Put, Sink};
pub use source::{Source, Taken};
pub use standard::{StdSink, StdSource};
pub use steady::{SteadySink, SteadySource};
pub use system_clock::{SystemClock, system_moment};
pub use tcp_source::TcpSource;
pub use udp_link::UdpLink;
