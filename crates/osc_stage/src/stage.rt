//! What a stage plays, and its result.
use crate::Ended;
use osc_atoms::Fault;
use osc_lanes::LanePart;
use osc_links::LinksPart;
use osc_record::Caps;
use osc_relay::{Outlet, Relay};

/// What a stage plays.
#[derive(Drop)]
pub struct Stage<O: Outlet, L> {
    /// The limits of the server.
    pub caps: Caps,
    /// What caller 0 plays before the links are served: the adds of the relays
    /// ([`adds_of`](crate::adds_of)), and what else there is to begin with
    /// ([`carried_on`](crate::carried_on)).
    pub opening: LanePart<Relay<O>>,
    /// The links whose datagrams are submitted, and when each ends by itself.
    pub links: LinksPart<L>,
}

/// The result of a stage.
#[derive(Drop)]
pub struct Staged<O: Outlet, L> {
    pub ended: Ended,
    /// The recording of the one history.
    pub recording: Vec<u8>,
    /// The relays that are registered at the end, each with its id, ascending.
    pub relays: Vec<(u32, Relay<O>)>,
    /// The relays that weren't added, in their order: the server refused the address, or the
    /// recording had no room.
    pub left: Vec<Relay<O>>,
    /// Those that the opening removed again, each with its id, in that order.
    pub removed: Vec<(u32, Relay<O>)>,
    /// The line and the fault of each send of the opening that was no packet, in line order.
    pub opening_faults: Vec<(u32, Fault)>,
    /// The links that were handed in, in their order.
    pub links: Vec<L>,
    /// Link, number of the datagram and fault of each datagram that was refused, link by link in
    /// the order of the datagrams. Links are numbered from 0, and the datagrams of each from 1.
    pub faults: Vec<(u32, u32, Fault)>,
}
