//! The commands of the programs.
ghost use Rattle.std.specs.Prelude.{◌≡◌};
ghost use Rattle.osc_words.specs.Ranges.{AreInRange, default_capacities};

use crate::options::Quantity;
use osc_model::Late;

/// How many ports a machine has, the one numbered 0 among them.
pub const PORTS: u64 = 65_536;

/// How much a server holds, as far as words set it: queued units, blocks of 64 bytes for their messages, methods, nodes
/// of the methods' addresses, and bytes of recording; and what becomes of late units.
#[derive(Clone, Copy, Debug, PartialEq, Eq)]
pub struct Capacities {
    pub units: u32,
    pub blocks: u32,
    pub methods: u32,
    pub nodes: u32,
    pub recording: u32,
    pub late: Late,
}

/// The capacities where no option is given.
pub fn default_capacities() -> Capacities
    ensures value { result ≡ default_capacities }
    ensures range { AreInRange result }
{
    Capacities {
        units: Quantity::Units.row().default as u32,
        blocks: Quantity::Blocks.row().default as u32,
        methods: Quantity::Methods.row().default as u32,
        nodes: Quantity::Nodes.row().default as u32,
        recording: Quantity::Recording.row().default as u32,
        late: Late::Deliver,
    }
}

/// What a run writes.
#[derive(Clone, Copy, Debug, PartialEq, Eq)]
pub enum Output {
    /// The printed history, the lines of the faults, and where it was stopped the line on that.
    Text,
    /// The recording alone.
    Recording,
}

/// A command of `osc` that reads an input.
#[derive(Clone, Copy, Debug, PartialEq, Eq)]
pub enum Reading {
    /// To play a script.
    Run { output: Output, caps: Capacities },
    /// To print the history of a recording, computed again.
    Replay,
    /// To print the entries of a recording as they stand there.
    Dump,
    /// To write a recording of the first version as one of today.
    Upgrade,
    /// To write the script of a score.
    Score,
    /// To play the script of a score.
    PlayScore,
}

/// A command of `osc`.
#[derive(Clone, Copy, Debug, PartialEq, Eq)]
pub enum PlainCommand {
    /// To do something with an input.
    Read(Reading),
    /// To draw a script of so many lines from a seed, and to play it.
    Gen { seed: u64, lines: u32 },
}

/// What carries the packets of a link.
#[derive(Clone, Copy, Debug, PartialEq, Eq)]
pub enum Transport {
    /// Datagrams, a packet each.
    Udp,
    /// A stream, on which each packet follows its size.
    Tcp,
}

/// A command of `oscd`.
#[derive(Clone, Copy, Debug, PartialEq, Eq)]
pub enum LiveCommand {
    /// To play the lanes of a script, and with `watch` to have a list of the methods read meanwhile.
    Lanes {
        caps: Capacities,
        watch: bool,
    },
    /// To serve so many links, whose ports ascend by one from the first, each up to `count` packets or `idle` quiets in
    /// a row.
    Serve {
        transport: Transport,
        port: u16,
        links: u32,
        count: u32,
        idle: u32,
        caps: Capacities,
    },
}

/// A command of `oscd` that goes on from a recording.
#[derive(Clone, Copy, Debug, PartialEq, Eq)]
pub struct ResumeCommand {
    /// How many bytes the recording may have at least.
    pub room: u32,
}

/// A command of one of the programs.
#[derive(Clone, Copy, Debug, PartialEq, Eq)]
pub enum Command {
    Plain(PlainCommand),
    Live(LiveCommand),
    Resume(ResumeCommand),
}
