//! Who has sent what a link gave last.
ghost use Rattle.std.specs.Prelude.{◌≡◌, None};

use osc_edge::Source;
use osc_stream::StreamLink;
use std::net::SocketAddrV4;

/// A link that may know who has sent its last datagram.
pub trait Sender {
    fn sender(&self) -> Option<SocketAddrV4>;
}

/// A stream doesn't tell who is at its other end.
impl<S: Source> Sender for StreamLink<S> {
    fn sender(&self) -> Option<SocketAddrV4>
        ensures { result ≡ None }
    {
        None
    }
}
