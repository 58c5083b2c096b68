// The options that commands have, and how each is told to clap.
ghost use Rattle.std.specs.Prelude.{◌≡◌, false};
ghost use Rattle.clap.specs.Words.{rule_of};
ghost use Rattle.osc_words.specs.Options.{IsInRange, flag_name, row_of, rule_for};

use clap::{Arg, ArgAction};
use std::alloc::Global;

/// An option that takes no value.
#[derive(Clone, Copy, Debug, PartialEq, Eq)]
pub(crate) enum Flag {
    Bytes,
    Tcp,
    Play,
    Watch,
}

/// An option that takes a number.
#[derive(Clone, Copy, Debug, PartialEq, Eq)]
pub(crate) enum Quantity {
    Units,
    Blocks,
    Methods,
    Nodes,
    Recording,
    Seed,
    Lines,
    Port,
    Links,
    Count,
    Idle,
}

/// What may stand after the first word.
#[derive(Clone, Copy, Debug, PartialEq, Eq)]
pub(crate) enum Parameter {
    Flag(Flag),
    Number(Quantity),
    Late,
    Old,
    File,
}

/// The name of an option that takes a number, its range, and the number where it isn't given.
#[derive(Clone, Copy)]
pub(crate) struct NumberOption {
    pub(crate) name: &'static str,
    pub(crate) least: u64,
    pub(crate) most: u64,
    pub(crate) default: u64,
}

impl Flag {
    /// The name after its two hyphens.
    pub(crate) fn name(self) -> &'static str
        ensures { result.now ≡ flag_name self }
    {
        match self {
            Flag::Bytes => "bytes",
            Flag::Tcp => "tcp",
            Flag::Play => "play",
            Flag::Watch => "watch",
        }
    }
}

impl Quantity {
    /// Its row in the table of options.
    pub(crate) fn row(self) -> NumberOption
        ensures name { result.name.now ≡ (row_of self).name }
        ensures least { result.least ≡ (row_of self).least }
        ensures most { result.most ≡ (row_of self).most }
        ensures default { result.default ≡ (row_of self).default }
        ensures range { IsInRange self (row_of self).default }
    {
        match self {
            Quantity::Units => NumberOption::of("units", 1, 1_048_576, 4_096),
            Quantity::Blocks => NumberOption::of("blocks", 1, 1_048_576, 16_384),
            Quantity::Methods => NumberOption::of("methods", 1, 65_536, 1_024),
            Quantity::Nodes => NumberOption::of("nodes", 1, 1_048_576, 4_096),
            Quantity::Recording => NumberOption::of("recording", 60, 1_073_741_824, 67_108_864),
            Quantity::Seed => NumberOption::of("seed", 0, u64::MAX, 1),
            Quantity::Lines => NumberOption::of("lines", 1, 100_000, 20_000),
            Quantity::Port => NumberOption::of("port", 1, 65_535, 9_000),
            Quantity::Links => NumberOption::of("links", 1, 8, 1),
            Quantity::Count => NumberOption::of("count", 1, 1_000_000, 1_000_000),
            Quantity::Idle => NumberOption::of("idle", 1, 1_000_000, 1_000_000),
        }
    }
}

impl NumberOption {
    fn of(name: &'static str, least: u64, most: u64, default: u64) -> NumberOption
        ensures { (result.name ≡ name.entry) × (result.least ≡ least) × (result.most ≡ most)
            × (result.default ≡ default) }
    {
        NumberOption {
            name,
            least,
            most,
            default,
        }
    }
}

impl Parameter {
    /// What clap is told of it.
    pub(crate) fn arg(self, alloc: Global) -> Arg<'static>
        ensures rule { rule_of result ≡ rule_for self }
        ensures local { result.global ≡ false }
    {
        match self {
            Parameter::Flag(flag) => Arg::new(alloc, flag.name())
                .long(flag.name())
                .action(ArgAction::SetTrue),
            Parameter::Number(quantity) => Arg::new(alloc, quantity.row().name).long(
                quantity.row().name,
            ),
            Parameter::Late => Arg::new(alloc, "late").long("late"),
            Parameter::Old => Arg::new(alloc, "OLD").required(true),
            Parameter::File => Arg::new(alloc, "FILE")
                .required(true)
                .trailing_var_arg(true),
        }
    }
}
