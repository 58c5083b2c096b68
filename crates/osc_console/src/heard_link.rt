//! The trusted edge to the network: a link that binds a port of UDP, and keeps who has sent the
//! last datagram.
ghost use Rattle.std.specs.Prelude.{◌≡◌, ◌≤◌, ◌↔◌, ◌⊎◌, length, max, IfOk, IfSome, IsNone, IsTrue};
ghost use Rattle.std.specs.Prelude.{None};
ghost use Rattle.std.specs.Net.Addr.{is_ipv6};
ghost use Rattle.std.specs.Net.Socket.{socket_ip};
ghost use Rattle.std.specs.IoError.{error_kind};

use crate::{Changeover, Pace, Sender};
use osc_edge::{Datagram, Link};
use std::io;
use std::io::ErrorKind;
use std::net::{Ipv4Addr, SocketAddr, SocketAddrV4, UdpSocket};
use std::time::Duration;

/// How many milliseconds a call waits at most where the recording is soon changed over.
const SHORT_WAIT: u32 = 5;

/// As `UdpLink` of `osc_edge`, but that a call waits as long for a datagram as its pace says; and it
/// knows who has sent the last datagram.
pub struct HeardLink<'a> {
    rt: HostRuntime,
    port: u16,
    pace: &'a Pace,
    changeover: &'a Changeover,
    /// How many milliseconds the socket waits, once the port is bound.
    wait: u32,
    /// The socket, once the port is bound.
    socket: Option<UdpSocket>,
    sender: Option<SocketAddrV4>,
    faults: u64,
    quiets: u64,
}

impl Drop for HeardLink<'_> {
    fn drop(self) {
        let HeardLink {
            rt: _,
            port: _,
            pace: _,
            changeover: _,
            wait: _,
            socket: _,
            sender: _,
            faults: _,
            quiets: _,
        } = self;
    }
}

impl<'a> HeardLink<'a> {
    /// A link for the port. Takes no memory, and binds nothing.
    pub fn at(rt: &HostRuntime, port: u16, pace: &'a Pace, changeover: &'a Changeover) -> Self
        ensures left { ⟦<HeardLink<'a> as Link>⟧.left result ≡ None }
        ensures faults { ⟦<HeardLink<'a> as Link>⟧.faults result ≡ 0 }
        ensures quiets { ⟦<HeardLink<'a> as Link>⟧.quiets result ≡ 0 }
        ensures port { result.port ≡ port }
    {
        HeardLink {
            rt: *rt,
            port,
            pace,
            changeover,
            wait: 0,
            socket: None,
            sender: None,
            faults: 0,
            quiets: 0,
        }
    }

    /// Receives one datagram, from the port, which is bound where it isn't yet.
    fn receive(&mut self, into: &mut [u8]) -> io::Result<usize>
        ensures within { IfOk result (λ count. count ≤ length into.new) }
        ensures faults { self.new.faults ≡ self.old.faults }
        ensures quiets { self.new.quiets ≡ self.old.quiets }
    {
        let socket = match self.socket.take() {
            Some(socket) => socket,
            None => UdpSocket::bind(&self.rt, (Ipv4Addr::UNSPECIFIED, self.port))?,
        };
        self.set_wait(&socket)?;
        let received = socket.recv_from(into);
        self.socket = Some(socket);
        let (count, sender) = received?;
        self.sender = of_four(sender);
        Ok(count)
    }

    /// Has the socket wait as long as the pace says, if it doesn't yet.
    fn set_wait(&mut self, socket: &UdpSocket) -> io::Result<()>
        ensures faults { self.new.faults ≡ self.old.faults }
        ensures quiets { self.new.quiets ≡ self.old.quiets }
    {
        let wait = wait_for(self.pace, self.changeover);
        if wait != self.wait {
            socket.set_read_timeout(Some(Duration::from_millis(u64::from(wait))))?;
            self.wait = wait;
        }
        Ok(())
    }
}

/// How many milliseconds a call waits: as the pace says, but not for long where the recording is
/// soon changed over.
pub(crate) fn wait_for(pace: &Pace, changeover: &Changeover) -> u32
    ensures least { 1 ≤ result }
    ensures most { result ≤ max pace.now.longest 1 }
{
    let wait = pace.wait().max(1);
    if changeover.is_near() {
        wait.min(SHORT_WAIT)
    } else {
        wait
    }
}

/// The address, where it is one of four bytes.
fn of_four(sender: SocketAddr) -> Option<SocketAddrV4>
    ensures four { IfSome result (λ four. sender ≡ SocketAddr.V4 four) }
    ensures none { IsNone result → IsTrue (is_ipv6 (socket_ip sender)) }
{
    match sender {
        SocketAddr::V4(sender) => Some(sender),
        SocketAddr::V6(_) => None,
    }
}

/// Whether the error says that nothing came in time.
pub(crate) fn is_quiet(error: &io::Error) -> bool
    ensures { IsTrue result ↔ ((error_kind error.now ≡ ErrorKind.WouldBlock)
        ⊎ ((error_kind error.now ≡ ErrorKind.TimedOut)
        ⊎ (error_kind error.now ≡ ErrorKind.Interrupted))) }
{
    matches!(
        error.kind(),
        ErrorKind::WouldBlock | ErrorKind::TimedOut | ErrorKind::Interrupted
    )
}

impl Sender for HeardLink<'_> {
    fn sender(&self) -> Option<SocketAddrV4>
        ensures { result ≡ self.now.sender }
    {
        self.sender
    }
}

impl Link for HeardLink<'_> {
    ghost use Rattle.osc_edge.specs.Link.{IsGotWithin, TakesTurn, HasLinkCause, HasQuietCause};

    ghost left = { λ _. None };

    ghost faults = { λ l. l.faults };

    ghost quiets = { λ l. l.quiets };

    fn next(&mut self, into: &mut [u8]) -> Datagram
        ensures within { IsGotWithin result into.new }
        ensures turns { TakesTurn None None result into.new }
        ensures cause { HasLinkCause self.old.faults self.new.faults result }
        ensures ready { HasQuietCause self.old.quiets self.new.quiets result }
    {
        match self.receive(into) {
            Ok(count) => Datagram::Got(count),
            Err(error) if is_quiet(&error) => {
                self.quiets = self.quiets.saturating_add(1);
                Datagram::Quiet
            }
            Err(_) => {
                self.faults = self.faults.saturating_add(1);
                Datagram::Failed
            }
        }
    }
}
