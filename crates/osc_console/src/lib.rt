//! What stands round a server on a stage: a clock that waits until something is due or comes, links
//! whose datagrams are shown with the server's answers, and a ring through which another thread
//! prints them.
#![tactic(auto)]

mod agenda;
mod answer;
mod awaited;
mod calendar;
mod changeover;
mod console_gate;
mod datagram;
mod heard_link;
mod heard_source;
mod lines;
mod metered_sink;
mod pace;
mod paced_link;
mod peer;
mod printer;
mod ring_sink;
mod rounds;
mod sender;
mod shown_link;
mod shutdown;
mod shutdown_link;
mod slot;
mod timed_link;
mod view;
mod waiting_clock;

pub use agenda::Agenda;
pub use calendar::Calendar;
pub use changeover::Changeover;
pub use console_gate::ConsoleGate;
pub use heard_link::HeardLink;
pub use heard_source::HeardSource;
pub use lines::{Came, Lines};
pub use metered_sink::MeteredSink;
pub use pace::Pace;
pub use paced_link::PacedLink;
pub use peer::Peer;
pub use printer::{Chore, Printer, print_while};
pub use ring_sink::RingSink;
pub use rounds::Rounds;
pub use sender::Sender;
pub use shown_link::{ShownLink, Watch};
pub use shutdown::Shutdown;
pub use shutdown_link::ShutdownLink;
pub use slot::Slot;
pub use timed_link::TimedLink;
pub use view::View;
pub use waiting_clock::WaitingClock;
