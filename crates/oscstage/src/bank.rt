// The methods of a stage.
use osc_patch::{Patch, PatchMethod, Route};
use osc_relay::{Losses, Relay, UdpOutlet};
use osc_shown::Route as ShownRoute;
use std::alloc::{AllocError, Global};
use std::net::{Ipv4Addr, SocketAddr, SocketAddrV4, ToSocketAddrs, UdpSocket};
use std::str;
use std::sync::Arc;

/// How many bytes a datagram to a machine may have.
const ROOM: usize = 8_192;

/// How many bytes of its calls a relay keeps.
const KEPT: u32 = 1_024;

/// A machine that calls are sent to.
#[derive(Drop)]
pub(crate) struct Destination {
    pub(crate) to: SocketAddrV4,
    pub(crate) losses: Arc<Losses, Global>,
}

/// A relay for each method of a patch, where each sends in words, by address, and all that calls
/// are sent to.
#[derive(Drop)]
pub(crate) struct Bank {
    pub(crate) relays: Vec<Relay<UdpOutlet>>,
    pub(crate) routes: Vec<ShownRoute>,
    pub(crate) destinations: Vec<Destination>,
}

/// What is wrong with a route, though its line is well.
#[derive(Clone, Copy)]
pub(crate) enum RouteFault {
    /// No address is known by this name.
    UnknownHost,
    /// It would send to this program itself.
    OwnPort,
}

/// A line of a patch whose route is wrong.
#[derive(Clone, Copy)]
pub(crate) struct WrongRoute {
    pub(crate) line: u32,
    pub(crate) fault: RouteFault,
}

/// The bank of a patch, or the lines whose routes are wrong.
pub(crate) fn open_bank(
    rt: &HostRuntime,
    patch: &Patch,
    ports: &[u16],
) -> Result<Result<Bank, Vec<WrongRoute>>, AllocError> {
    let alloc = rt.alloc();
    let mut bank = Bank {
        relays: Vec::new(alloc),
        routes: Vec::new(alloc),
        destinations: Vec::new(alloc),
    };
    let mut wrong = Vec::new(alloc);
    for method in patch.methods() {
        add_method(rt, &mut bank, &mut wrong, method, ports)?;
    }
    if !wrong.is_empty() {
        return Ok(Err(wrong));
    }
    bank.routes.sort_unstable_by(|one, other| one.address.bytes().cmp(other.address.bytes()));
    Ok(Ok(bank))
}

fn add_method(
    rt: &HostRuntime,
    bank: &mut Bank,
    wrong: &mut Vec<WrongRoute>,
    method: &PatchMethod,
    ports: &[u16],
) -> Result<(), AllocError> {
    let alloc = rt.alloc();
    let mut outlets = Vec::new(alloc);
    let mut words = Vec::new(alloc);
    for route in method.routes.as_slice() {
        match resolve(rt, route, ports) {
            Ok(to) => {
                let losses = losses_of(alloc, &mut bank.destinations, to)?;
                outlets.push(UdpOutlet::to(rt, to, losses))?;
                add_words(alloc, &mut words, to)?;
            }
            Err(fault) => wrong.push(WrongRoute {
                line: route.line,
                fault,
            })?,
        }
    }
    let address = method.address.copied(alloc)?;
    bank.relays
        .push(Relay::open(alloc, address, outlets, ROOM, KEPT)?)?;
    bank.routes.push(ShownRoute {
        address: method.address.copied(alloc)?,
        to: words,
    })?;
    Ok(())
}

/// Where a route sends.
fn resolve(rt: &HostRuntime, route: &Route, ports: &[u16]) -> Result<SocketAddrV4, RouteFault> {
    let Some(host) = host_of(rt, route) else {
        return Err(RouteFault::UnknownHost);
    };
    if ports.contains(&route.port) && is_own(rt, host) {
        return Err(RouteFault::OwnPort);
    }
    Ok(SocketAddrV4::new(host, route.port))
}

/// The first IPv4 address of the route's host.
fn host_of(rt: &HostRuntime, route: &Route) -> Option<Ipv4Addr> {
    let name = str::from_utf8(route.host.as_slice()).ok()?;
    for address in (name, route.port).to_socket_addrs(rt).ok()? {
        if let SocketAddr::V4(address) = address {
            return Some(*address.ip());
        }
    }
    None
}

/// Whether what is sent to the address may reach this machine: only then can a port be bound
/// there.
fn is_own(rt: &HostRuntime, host: Ipv4Addr) -> bool {
    host.is_unspecified() || host.is_broadcast() || UdpSocket::bind(rt, (host, 0u16)).is_ok()
}

/// The counter of what is lost to the destination.
fn losses_of(
    alloc: Global,
    destinations: &mut Vec<Destination>,
    to: SocketAddrV4,
) -> Result<Arc<Losses, Global>, AllocError> {
    for destination in destinations.iter() {
        if destination.to == to {
            return Arc::try_clone(&destination.losses);
        }
    }
    let losses = Arc::new(alloc, Losses::new())?;
    destinations.push(Destination {
        to,
        losses: Arc::try_clone(&losses)?,
    })?;
    Ok(losses)
}

/// Adds the destination in words, after those before.
fn add_words(alloc: Global, words: &mut Vec<u8>, to: SocketAddrV4) -> Result<(), AllocError> {
    if !words.is_empty() {
        words.extend_from_slice(b", ")?;
    }
    let text = format!(in alloc; "{to}")?;
    words.extend_from_slice(text.as_bytes())
}
