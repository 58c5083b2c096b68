//! The trusted edge to the network: an outlet that sends by UDP, of whose datagrams nothing is told.
ghost use Rattle.std.specs.Prelude.{◌≡◌, None};
ghost use Rattle.std.specs.Net.SockAddr.{sockaddr_in};

use crate::{Losses, Outlet, Sending};
use std::alloc::Global;
use std::io;
use std::net::{Ipv4Addr, SocketAddrV4, UdpSocket};
use std::sync::Arc;

/// Datagrams to one destination by UDP, from a port that the system chooses, which is bound at the first send. The
/// destination may be a broadcast address. A send doesn't wait. Whatever the system doesn't send whole is lost:
/// without a route or a buffer, and from 65,508 bytes on. That a datagram was sent doesn't say that it arrives.
pub struct UdpOutlet {
    rt: HostRuntime,
    to: SocketAddrV4,
    shared: Arc<Losses, Global>,
    /// The socket, once it is bound.
    socket: Option<UdpSocket>,
    lost: u64,
    tried: u64,
}

impl Drop for UdpOutlet {
    fn drop(self) {
        let UdpOutlet {
            rt: _,
            to: _,
            shared: _,
            socket: _,
            lost: _,
            tried: _,
        } = self;
    }
}

impl UdpOutlet {
    /// An outlet to the address and port, which counts each loss in `losses` too. Takes no memory, and binds nothing.
    pub fn to(rt: &HostRuntime, to: SocketAddrV4, losses: Arc<Losses, Global>) -> Self
        ensures sent { ⟦<UdpOutlet as Outlet>⟧.sent result ≡ None }
        ensures losses { ⟦<UdpOutlet as Outlet>⟧.losses result ≡ 0 }
        ensures to { result.to ≡ to }
        ensures mark { ⟦<UdpOutlet as Outlet>⟧.mark result ≡ sockaddr_in to }
    {
        UdpOutlet {
            rt: *rt,
            to,
            shared: losses,
            socket: None,
            lost: 0,
            tried: 0,
        }
    }

    /// Sends once, from the port, which is bound where none is yet: how many bytes were sent.
    fn send_out(&mut self, datagram: &[u8]) -> io::Result<usize>
        ensures lost { self.new.lost ≡ self.old.lost }
        ensures tried { self.new.tried ≡ self.old.tried }
        ensures to { self.new.to ≡ self.old.to }
    {
        let socket = match self.socket.take() {
            Some(socket) => socket,
            None => bind(&self.rt)?,
        };
        let sent = socket.send_to(datagram, self.to);
        self.socket = Some(socket);
        sent
    }
}

/// A socket that never waits, and that may send to all of a network.
fn bind(rt: &HostRuntime) -> io::Result<UdpSocket> {
    let socket = UdpSocket::bind(rt, (Ipv4Addr::UNSPECIFIED, 0))?;
    socket.set_nonblocking(true)?;
    socket.set_broadcast(true)?;
    Ok(socket)
}

impl Outlet for UdpOutlet {
    ghost sent = { λ _. None };

    ghost losses = { λ o. o.lost };

    ghost tries = { λ o. o.tried };

    /// The destination, as the system's calls take it.
    ghost mark = { λ o. sockaddr_in o.to };

    fn reset(&mut self) {
        self.lost = 0;
    }

    fn send(&mut self, datagram: &[u8]) -> Sending {
        self.tried = self.tried.saturating_add(1);
        match self.send_out(datagram) {
            Ok(count) if count == datagram.len() => Sending::Sent,
            _ => {
                self.lose();
                Sending::Failed
            }
        }
    }

    fn lose(&mut self) {
        self.lost = self.lost.saturating_add(1);
        self.shared.add();
    }

    fn lost(&self) -> u64 {
        self.lost
    }
}
