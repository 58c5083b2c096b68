//! The trusted edge to the network: a link that binds a port of UDP, of whose datagrams nothing is told.
ghost use Rattle.std.specs.Prelude.{◌≡◌, ◌≢◌, ◌≤◌, length, IfOk, None};

use crate::{Datagram, Link};
use std::io;
use std::io::ErrorKind;
use std::net::{Ipv4Addr, UdpSocket};
use std::time::Duration;

/// How many milliseconds a call waits for a datagram.
const WAIT: u64 = 50;

/// The datagrams that come to a port, on every IPv4 address of the machine. The port is bound at the first call. A
/// call that finds no datagram within 50 milliseconds, or that a signal interrupts, answers `Quiet`; for every other
/// error of the system it answers `Failed`, and counts it. It never answers `End`.
#[derive(Drop)]
pub struct UdpLink {
    rt: HostRuntime,
    port: u16,
    /// The socket, once the port is bound.
    socket: Option<UdpSocket>,
    faults: u64,
    quiets: u64,
}

impl UdpLink {
    /// A link for the port. Takes no memory, and binds nothing.
    pub fn at(rt: &HostRuntime, port: u16) -> Self
        ensures left { ⟦<UdpLink as Link>⟧.left result ≡ None }
        ensures faults { ⟦<UdpLink as Link>⟧.faults result ≡ 0 }
        ensures quiets { ⟦<UdpLink as Link>⟧.quiets result ≡ 0 }
    {
        UdpLink {
            rt: *rt,
            port,
            socket: None,
            faults: 0,
            quiets: 0,
        }
    }

    /// Receives one datagram, from the port, which is bound where it isn't yet.
    fn receive(&mut self, into: &mut [u8]) -> io::Result<usize>
        ensures within { IfOk result (λ count. count ≤ length into.new) }
        ensures faults { self.new.faults ≡ self.old.faults }
        ensures quiets { self.new.quiets ≡ self.old.quiets }
    {
        let socket = match self.socket.take() {
            Some(socket) => socket,
            None => bind(&self.rt, self.port)?,
        };
        let received = socket.recv(into);
        self.socket = Some(socket);
        received
    }
}

fn bind(rt: &HostRuntime, port: u16) -> io::Result<UdpSocket> {
    let socket = UdpSocket::bind(rt, (Ipv4Addr::UNSPECIFIED, port))?;
    socket.set_read_timeout(Some(Duration::from_millis(WAIT)))?;
    Ok(socket)
}

/// Whether the error says that no datagram came in time.
fn is_quiet(error: &io::Error) -> bool {
    matches!(
        error.kind(),
        ErrorKind::WouldBlock | ErrorKind::TimedOut | ErrorKind::Interrupted
    )
}

impl Link for UdpLink {
    ghost use Rattle.osc_edge.specs.Link.{IsGotWithin, TakesTurn, HasLinkCause, HasQuietCause};
    ghost use Rattle.osc_edge.specs.declared.link.Datagram.{Datagram};

    ghost left = { λ _. None };

    ghost faults = { λ l. l.faults };

    ghost quiets = { λ l. l.quiets };

    fn next(&mut self, into: &mut [u8]) -> Datagram
        ensures within { IsGotWithin result into.new }
        ensures turns { TakesTurn None None result into.new }
        ensures cause { HasLinkCause self.old.faults self.new.faults result }
        ensures ready { HasQuietCause self.old.quiets self.new.quiets result }
        ensures answer { result ≢ Datagram.End }
    {
        match self.receive(into) {
            Ok(count) => Datagram::Got(count),
            Err(error) if is_quiet(&error) => {
                self.quiets = self.quiets.saturating_add(1);
                Datagram::Quiet
            }
            Err(_) => {
                self.faults = self.faults.saturating_add(1);
                Datagram::Failed
            }
        }
    }
}
