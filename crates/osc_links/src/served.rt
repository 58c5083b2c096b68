//! Which links are served, how far, and what comes of it.
use osc_atoms::{Fault, Room};
use osc_live::Caller;

/// When a link ends by itself.
#[derive(Clone, Copy, Debug, PartialEq, Eq)]
pub struct Bounds {
    /// After so many datagrams.
    pub count: u32,
    /// After so many calls in a row at which the link wasn't ready.
    pub idle: u32,
}

/// The links that are served at the same time, and when each ends by itself.
#[derive(Drop)]
pub struct LinksPart<L> {
    pub from: Vec<L>,
    pub bounds: Bounds,
}

/// How the ticker ended.
#[derive(Clone, Copy, Debug, PartialEq, Eq)]
pub enum TickerEnd {
    /// With a last round, after all links.
    Done,
    /// The clock failed.
    ClockFailed,
    /// The recording was full in its last round.
    Full(Room),
}

/// What links and the ticker told.
#[derive(Drop)]
pub struct LinksTold<L> {
    /// The links that were handed in, in their order.
    pub links: Vec<L>,
    /// Link, number of the datagram and fault of each datagram that was refused, link by link in
    /// the order of the datagrams. Links are numbered from 0, and the datagrams of each from 1.
    pub faults: Vec<(u32, u32, Fault)>,
    /// The least link that failed.
    pub failed: Option<u32>,
    /// Whether the clock failed.
    pub clock_failed: bool,
    /// The room where the recording was full: of the least link that found it so, or else of the
    /// ticker.
    pub stop: Option<Room>,
}

/// The result of links that were served.
#[derive(Drop)]
pub struct ServeEnd<L> {
    /// The callers that were handed in, in their order.
    pub callers: Vec<Caller>,
    /// The links that were handed in, in their order.
    pub links: Vec<L>,
    /// Link, number of the datagram and fault of each datagram that was refused, link by link in
    /// the order of the datagrams. Links are numbered from 0, and the datagrams of each from 1.
    pub faults: Vec<(u32, u32, Fault)>,
    /// The least link that failed.
    pub failed: Option<u32>,
    /// Whether the clock failed.
    pub clock_failed: bool,
    /// The room where the recording was full: of the least link that found it so, or else of the
    /// ticker.
    pub stop: Option<Room>,
}
