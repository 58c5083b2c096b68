//! The trusted edge to the network: a door that listens at a port of TCP.
ghost use Rattle.std.specs.Prelude.{None};

use crate::{Door, Knock, Said, Took, Visitor};
use std::io;
use std::io::{ErrorKind, Read, Write};
use std::net::{Ipv4Addr, TcpListener, TcpStream};

/// A port of TCP. No call waits.
pub struct TcpDoor {
    listener: TcpListener,
}

impl Drop for TcpDoor {
    fn drop(self) {
        let TcpDoor { listener: _ } = self;
    }
}

/// A connection. No call waits.
pub struct TcpVisitor {
    stream: TcpStream,
}

impl Drop for TcpVisitor {
    fn drop(self) {
        let TcpVisitor { stream: _ } = self;
    }
}

impl TcpDoor {
    /// Listens at the port of an address. An `Err` means that the system doesn't let it, as where
    /// another program has the port.
    pub fn at(rt: &HostRuntime, address: Ipv4Addr, port: u16) -> io::Result<TcpDoor> {
        let listener = TcpListener::bind(rt, (address, port))?;
        listener.set_nonblocking(true)?;
        Ok(TcpDoor { listener })
    }

    fn accept(&mut self) -> io::Result<TcpVisitor> {
        let (stream, _) = self.listener.accept()?;
        stream.set_nonblocking(true)?;
        Ok(TcpVisitor { stream })
    }
}

/// Whether the error says that there is nothing for now.
fn is_quiet(error: &io::Error) -> bool {
    matches!(
        error.kind(),
        ErrorKind::WouldBlock | ErrorKind::TimedOut | ErrorKind::Interrupted
    )
}

impl Door for TcpDoor {
    type Visitor = TcpVisitor;

    fn next(&mut self) -> Knock<TcpVisitor> {
        match self.accept() {
            Ok(visitor) => Knock::Came(visitor),
            Err(error) if is_quiet(&error) => Knock::Nobody,
            Err(_) => Knock::Failed,
        }
    }
}

impl Visitor for TcpVisitor {
    ghost left = { λ _. None };

    ghost taken = { λ _. None };

    fn read(&mut self, into: &mut [u8]) -> Said {
        match self.stream.read(into) {
            Ok(0) => Said::Gone,
            Ok(count) => Said::Bytes(count),
            Err(error) if is_quiet(&error) => Said::Quiet,
            Err(_) => Said::Gone,
        }
    }

    fn write(&mut self, piece: &[u8]) -> Took {
        match self.stream.write(piece) {
            Ok(count) => Took::Bytes(count),
            Err(error) if is_quiet(&error) => Took::Quiet,
            Err(_) => Took::Gone,
        }
    }
}
