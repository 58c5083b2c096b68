//! The trusted edge to the network: a source that reads one connection of TCP, of whose bytes nothing is told.
ghost use Rattle.std.specs.Prelude.{◌≡◌, ◌≤◌, length, IfOk, None};

use crate::{Source, Taken};
use std::io;
use std::io::Read;
use std::net::{Ipv4Addr, TcpListener, TcpStream};

/// The bytes of one connection to a port, on any IPv4 address of the machine. The port is bound, and one connection
/// accepted, at the first read; that read waits for it, and a read waits for bytes. After a read that failed before
/// there was a connection, the next one binds the port anew. For every error of the system it answers `Failed`, and
/// counts it.
#[derive(Drop)]
pub struct TcpSource {
    rt: HostRuntime,
    port: u16,
    /// The connection, once there is one.
    connection: Option<TcpStream>,
    faults: u64,
}

impl TcpSource {
    /// A source for the port. Takes no memory, and binds nothing.
    pub fn at(rt: &HostRuntime, port: u16) -> Self
        ensures left { ⟦<TcpSource as Source>⟧.left result ≡ None }
        ensures faults { ⟦<TcpSource as Source>⟧.faults result ≡ 0 }
    {
        TcpSource {
            rt: *rt,
            port,
            connection: None,
            faults: 0,
        }
    }

    /// Reads once from the connection, which is accepted where there is none yet.
    fn receive(&mut self, into: &mut [u8]) -> io::Result<usize>
        ensures within { IfOk result (λ count. count ≤ length into.new) }
        ensures faults { self.new.faults ≡ self.old.faults }
    {
        let mut connection = match self.connection.take() {
            Some(connection) => connection,
            None => accept(&self.rt, self.port)?,
        };
        let received = connection.read(into);
        self.connection = Some(connection);
        received
    }
}

/// Binds the port, and waits for one connection. No other is accepted, since the port is let go.
fn accept(rt: &HostRuntime, port: u16) -> io::Result<TcpStream> {
    let listener = TcpListener::bind(rt, (Ipv4Addr::UNSPECIFIED, port))?;
    let (connection, _) = listener.accept()?;
    Ok(connection)
}

impl Source for TcpSource {
    ghost left = { λ _. None };

    ghost faults = { λ s. s.faults };

    fn read(&mut self, into: &mut [u8]) -> Taken {
        match self.receive(into) {
            Ok(count) => Taken::Bytes(count),
            Err(_) => {
                self.faults = self.faults.saturating_add(1);
                Taken::Failed
            }
        }
    }
}
