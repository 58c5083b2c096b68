//! The trusted edge to the network: a source that reads one connection of TCP, and waits no longer
//! for it and for its bytes than its pace says.
ghost use Rattle.std.specs.Prelude.{◌≡◌, ◌≤◌, length, IfOk, None};

use crate::heard_link::{is_quiet, wait_for};
use crate::{Changeover, Pace, Peer};
use osc_edge::{Source, Taken};
use std::io::Read;
use std::net::{Ipv4Addr, TcpListener, TcpStream};
use std::time::Duration;
use std::{io, thread};

/// How many milliseconds it is from one look for a connection to the next.
const LOOK: u32 = 50;

/// As `TcpSource` of `osc_edge`, but that a read waits as long for a connection and for bytes as its
/// pace says, and then fails; the next one goes on. It tells its `Peer` who is at the other end,
/// and whether a read failed only since nothing came in time.
pub struct HeardSource<'a> {
    rt: HostRuntime,
    port: u16,
    pace: &'a Pace,
    changeover: &'a Changeover,
    peer: &'a Peer,
    /// The bound port, until there is a connection.
    listener: Option<TcpListener>,
    connection: Option<TcpStream>,
    /// How many milliseconds the connection waits.
    wait: u32,
    faults: u64,
}

impl Drop for HeardSource<'_> {
    fn drop(self) {
        let HeardSource {
            rt: _,
            port: _,
            pace: _,
            changeover: _,
            peer: _,
            listener: _,
            connection: _,
            wait: _,
            faults: _,
        } = self;
    }
}

impl<'a> HeardSource<'a> {
    /// A source for the port. Takes no memory, and binds nothing.
    pub fn at(
        rt: &HostRuntime,
        port: u16,
        pace: &'a Pace,
        changeover: &'a Changeover,
        peer: &'a Peer,
    ) -> Self
        ensures left { ⟦<HeardSource<'a> as Source>⟧.left result ≡ None }
        ensures faults { ⟦<HeardSource<'a> as Source>⟧.faults result ≡ 0 }
        ensures port { result.port ≡ port }
    {
        HeardSource {
            rt: *rt,
            port,
            pace,
            changeover,
            peer,
            listener: None,
            connection: None,
            wait: 0,
            faults: 0,
        }
    }

    /// Reads once from the connection, which is accepted where there is none yet.
    fn receive(&mut self, into: &mut [u8]) -> io::Result<usize>
        ensures within { IfOk result (λ count. count ≤ length into.new) }
        ensures faults { self.new.faults ≡ self.old.faults }
    {
        let wait = wait_for(self.pace, self.changeover);
        let mut connection = match self.connection.take() {
            Some(connection) => connection,
            None => self.accept(wait)?,
        };
        if wait != self.wait {
            connection.set_read_timeout(Some(Duration::from_millis(u64::from(wait))))?;
            self.wait = wait;
        }
        let received = connection.read(into);
        self.connection = Some(connection);
        received
    }

    /// Accepts a connection, if one comes in so many milliseconds. No other is accepted then, since
    /// the port is let go.
    fn accept(&mut self, wait: u32) -> io::Result<TcpStream>
        ensures faults { self.new.faults ≡ self.old.faults }
    {
        let listener = match self.listener.take() {
            Some(listener) => listener,
            None => bind(&self.rt, self.port)?,
        };
        match listener.accept() {
            Ok((connection, peer)) => {
                self.peer.set(peer);
                Ok(connection)
            }
            Err(error) => {
                self.listener = Some(listener);
                thread::sleep(&self.rt, Duration::from_millis(u64::from(wait.min(LOOK))));
                Err(error)
            }
        }
    }
}

/// Binds the port. An accept doesn't wait.
fn bind(rt: &HostRuntime, port: u16) -> io::Result<TcpListener> {
    let listener = TcpListener::bind(rt, (Ipv4Addr::UNSPECIFIED, port))?;
    listener.set_nonblocking(true)?;
    Ok(listener)
}

impl Source for HeardSource<'_> {
    ghost left = { λ _. None };

    ghost faults = { λ s. s.faults };

    fn read(&mut self, into: &mut [u8]) -> Taken {
        match self.receive(into) {
            Ok(count) => Taken::Bytes(count),
            Err(error) => {
                self.peer.note_failure(is_quiet(&error));
                self.faults = self.faults.saturating_add(1);
                Taken::Failed
            }
        }
    }
}
