//! What a page shows of a show at one moment.

use osc_atoms::Bytes;
use std::marker::Model;

/// A method.
pub struct Row {
    pub id: u32,
    pub address: Bytes,
    /// How often it was called.
    pub calls: u64,
    /// The clock at its last call; 0 where there was none.
    pub at: u64,
    /// The arguments of its last call, as words.
    pub words: Bytes,
}

impl Drop for Row {
    fn drop(self) {
        let Row {
            id: _,
            address: _,
            calls: _,
            at: _,
            words: _,
        } = self;
    }
}

/// A unit that waits.
pub struct Wait {
    pub unit: u64,
    /// The moment from which it is due.
    pub due: u64,
    /// How many messages it has.
    pub messages: u64,
    /// The pattern of the first one.
    pub first: Bytes,
}

impl Drop for Wait {
    fn drop(self) {
        let Wait {
            unit: _,
            due: _,
            messages: _,
            first: _,
        } = self;
    }
}

/// How much was told.
#[derive(Clone, Copy, Debug, PartialEq, Eq)]
pub struct Counts {
    pub entries: u64,
    /// The messages that were performed.
    pub messages: u64,
    /// The calls that they made.
    pub calls: u64,
    /// How many of them called no method.
    pub unheard: u64,
    /// The messages that came late and were discarded.
    pub discarded: u64,
    /// The messages of packets for which there was no room.
    pub refused: u64,
    /// The units that wait.
    pub waiting: u64,
}

/// What a page shows. Moments are time tags. A contract sees the clock, the counts, the methods,
/// and those units that wait and are shown.
pub struct Board {
    clock: u64,
    counts: Counts,
    methods: Vec<Row>,
    waits: Vec<Wait>,
}

impl Drop for Board {
    fn drop(self) {
        let Board {
            clock: _,
            counts: _,
            methods: _,
            waits: _,
        } = self;
    }
}

impl Model for Board {
    ghost use Rattle.osc_page.specs.Boards.{Shown};

    ghost Value = { Shown };

    ghost view = { λ b. record {
      clock = b.clock;
      counts = b.counts;
      methods = b.methods.items;
      waits = b.waits.items;
    } };
}

impl Board {
    ghost use Rattle.std.specs.Prelude.{◌≡◌};

    /// What a page shows: the clock, the counts, a row for each method, and the units that wait.
    pub fn new(clock: u64, counts: Counts, methods: Vec<Row>, waits: Vec<Wait>) -> Board
        ensures { result ≡ record {
          clock = clock;
          counts = counts;
          methods = methods.items;
          waits = waits.items;
        } }
    {
        Board {
            clock,
            counts,
            methods,
            waits,
        }
    }

    /// The server's clock, an OSC time tag.
    pub fn clock(&self) -> u64
        ensures { result ≡ self.now.clock }
    {
        self.clock
    }

    /// How much of each kind has come.
    pub fn counts(&self) -> Counts
        ensures { result ≡ self.now.counts }
    {
        self.counts
    }

    /// A row for each method.
    pub fn methods(&self) -> &[Row]
        ensures { result.now ≡ self.now.methods }
    {
        &self.methods
    }

    /// The units that wait and are shown.
    pub fn waits(&self) -> &[Wait]
        ensures { result.now ≡ self.now.waits }
    {
        &self.waits
    }
}
