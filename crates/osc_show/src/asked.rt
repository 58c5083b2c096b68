// What is to be shown, and how.
use jiff_core::Offset;
use std::net::Ipv4Addr;

/// In which zone times are.
#[derive(Clone, Copy)]
pub enum Zone {
    /// That of the machine.
    Machine,
    /// One that is so far ahead of UTC.
    At(Offset),
}

/// Which recordings are to be shown, and how.
#[derive(Drop)]
pub struct Showing {
    /// In the order in which they are shown.
    pub files: Vec<String>,
    pub zone: Zone,
    /// Ticks and new callers have lines, too.
    pub ticks: bool,
    /// Refusals alone are shown.
    pub quiet: bool,
    /// Times are seconds since the first line.
    pub relative: bool,
    /// Lines have the number of who has handed in what they show.
    pub callers: bool,
    /// Texts, blobs and lists of addresses are uncut.
    pub whole: bool,
    /// Lines that say the same of an address again and again are told as one.
    pub runs: bool,
    /// The recording grows, and is shown until the program is stopped.
    pub follow: bool,
    /// From when to when it is shown, where that is said.
    pub from: Option<String>,
    pub to: Option<String>,
    /// The pattern that selects lines, where one is said.
    pub only: Option<String>,
}

/// Which recording a page shows, and where it is served.
#[derive(Drop)]
pub struct Paging {
    /// In their order, each but the first with what carries the one before it on.
    pub files: Vec<String>,
    pub address: Ipv4Addr,
    pub port: u16,
}
