//! What the words of a command line say.
ghost use Rattle.std.specs.Prelude.{◌≡◌, IfOk, IfSome, map, option_map, string_bytes};
ghost use Rattle.clap.specs.Words.{first_of, found_of, rows_of};
ghost use Rattle.osc_words.specs.Options.{IsInRange};
ghost use Rattle.osc_words.specs.Commands as commands;
ghost use Rattle.osc_words.specs.Commands.{caps_of, gen_of, is_given, number_of, plain_by, said_by};
ghost use Rattle.osc_words.specs.Commands.{resume_of, serve_of};
ghost use Rattle.osc_words.specs.Ranges.{AreInRange, IsLawful, IsLawfulPlain, IsLawfulLive};
ghost use Rattle.osc_words.specs.Ranges.{IsLawfulResume};

use crate::command::{
    Capacities, Command, LiveCommand, Output, PORTS, PlainCommand, Reading, ResumeCommand,
    Transport,
};
use crate::names::{before_last_two, last_two};
use crate::number::number_within;
use crate::options::{Flag, Quantity};
use crate::parser::{are_options, read};
use crate::verb::Verb;
use clap::ArgMatches;
use osc_model::Late;
use std::alloc::{AllocError, Global};

/// The command that the words say, the program's name left out; none where they are refused. An `Err` means out of
/// memory. The commands, their options, the ranges and the defaults are those of docs/FORMATS.md, "Programs".
#[tactic(auto, unfolding(crate::specs::Commands::command_of))]
pub fn command_of(alloc: Global, words: &[String]) -> Result<Option<Command>, AllocError>
    ensures said { IfOk result
        (λ command. command ≡ commands.command_of (map string_bytes words.now)) }
    ensures lawful { IfOk result (λ command. IfSome command IsLawful) }
{
    let Some(verb) = verb_of(words) else {
        return Ok(None);
    };
    match read(alloc, verb, words)? {
        Some(found) if stands_in_place(alloc, verb, words, &found)? => {
            Ok(command_from(verb, &found))
        }
        _ => Ok(None),
    }
}

/// The command of `osc` that the words say; none where they are refused, or say a command of another program. An `Err`
/// means out of memory.
#[tactic(auto, unfolding(crate::specs::Commands::plain_command_of))]
pub fn plain_command_of(alloc: Global, words: &[String]) -> Result<Option<PlainCommand>, AllocError>
    ensures said { IfOk result
        (λ command. command ≡ commands.plain_command_of (map string_bytes words.now)) }
    ensures lawful { IfOk result (λ command. IfSome command IsLawfulPlain) }
{
    let Some(verb) = verb_of(words) else {
        return Ok(None);
    };
    match read(alloc, verb, words)? {
        Some(found) => Ok(plain_from(verb, &found)),
        None => Ok(None),
    }
}

/// The command of `oscd` that the words say; none where they are refused, or say a command of another program. An `Err`
/// means out of memory.
pub fn live_command_of(alloc: Global, words: &[String]) -> Result<Option<LiveCommand>, AllocError>
    ensures said { IfOk result
        (λ command. command ≡ commands.live_command_of (map string_bytes words.now)) }
    ensures lawful { IfOk result (λ command. IfSome command IsLawfulLive) }
{
    match command_of(alloc, words)? {
        Some(Command::Live(command)) => Ok(Some(command)),
        _ => Ok(None),
    }
}

/// The command of `oscd` that goes on from a recording, if the words say it; none where they are refused, or say
/// another command. An `Err` means out of memory.
pub fn resume_command_of(
    alloc: Global,
    words: &[String],
) -> Result<Option<ResumeCommand>, AllocError>
    ensures said { IfOk result
        (λ command. command ≡ commands.resume_command_of (map string_bytes words.now)) }
    ensures lawful { IfOk result (λ command. IfSome command IsLawfulResume) }
{
    match command_of(alloc, words)? {
        Some(Command::Resume(command)) => Ok(Some(command)),
        _ => Ok(None),
    }
}

/// Whether the files stand where they are to: OLD and FILE of a `resume` are the last two words, and all before them
/// are options. An `Err` means out of memory.
fn stands_in_place(
    alloc: Global,
    verb: Verb,
    words: &[String],
    found: &ArgMatches<'_>,
) -> Result<bool, AllocError>
    ensures { IfOk result (λ stands. stands
        ≡ commands.stands_in_place verb (map string_bytes words.now)
        (rows_of (found_of found.now))) }
{
    match verb {
        Verb::Resume if are_last_two(words, found) => are_options(alloc, before_last_two(words)),
        Verb::Resume => Ok(false),
        _ => Ok(true),
    }
}

fn are_last_two(words: &[String], found: &ArgMatches<'_>) -> bool
    ensures { result ≡ commands.are_last_two (map string_bytes words.now)
        (rows_of (found_of found.now)) }
{
    match last_two(words) {
        Some((old, file)) => is_found(found, "OLD", old) && is_found(found, "FILE", file),
        None => false,
    }
}

/// Whether clap found this word under a name.
fn is_found(found: &ArgMatches<'_>, name: &str, word: &str) -> bool
    ensures { result ≡ commands.is_found name.now word.now (rows_of (found_of found.now)) }
{
    match text_in(found, name) {
        Some(text) => text == word,
        None => false,
    }
}

fn verb_of(words: &[String]) -> Option<Verb>
    ensures { result ≡ commands.first_verb (map string_bytes words.now) }
{
    match words {
        [] => None,
        [word, ..] => Verb::read(word.as_str()),
    }
}

fn command_from(verb: Verb, found: &ArgMatches<'_>) -> Option<Command>
    ensures said { result ≡ said_by verb (rows_of (found_of found.now)) }
    ensures lawful { IfSome result IsLawful }
{
    match verb {
        Verb::Lanes => Some(Command::Live(LiveCommand::Lanes {
            caps: caps_in(found)?,
            watch: flag(found, Flag::Watch),
        })),
        Verb::Serve => serve_in(found),
        Verb::Resume => resume_in(found),
        _ => Some(Command::Plain(plain_from(verb, found)?)),
    }
}

/// What the first words of `osc` say; the others say nothing to it.
fn plain_from(verb: Verb, found: &ArgMatches<'_>) -> Option<PlainCommand>
    ensures said { result ≡ plain_by verb (rows_of (found_of found.now)) }
    ensures lawful { IfSome result IsLawfulPlain }
{
    match verb {
        Verb::Run => Some(PlainCommand::Read(Reading::Run {
            output: output_in(found),
            caps: caps_in(found)?,
        })),
        Verb::Replay => Some(PlainCommand::Read(Reading::Replay)),
        Verb::Dump => Some(PlainCommand::Read(Reading::Dump)),
        Verb::Upgrade => Some(PlainCommand::Read(Reading::Upgrade)),
        Verb::Score => Some(PlainCommand::Read(score_in(found))),
        Verb::Gen => gen_in(found),
        Verb::Lanes | Verb::Serve | Verb::Resume => None,
    }
}

fn output_in(found: &ArgMatches<'_>) -> Output
    ensures { result ≡ commands.output_of (rows_of (found_of found.now)) }
{
    if flag(found, Flag::Bytes) {
        Output::Recording
    } else {
        Output::Text
    }
}

fn score_in(found: &ArgMatches<'_>) -> Reading
    ensures { result ≡ commands.score_of (rows_of (found_of found.now)) }
{
    if flag(found, Flag::Play) {
        Reading::PlayScore
    } else {
        Reading::Score
    }
}

fn caps_in(found: &ArgMatches<'_>) -> Option<Capacities>
    ensures said { result ≡ caps_of (rows_of (found_of found.now)) }
    ensures range { IfSome result AreInRange }
{
    Some(Capacities {
        units: number(found, Quantity::Units)? as u32,
        blocks: number(found, Quantity::Blocks)? as u32,
        methods: number(found, Quantity::Methods)? as u32,
        nodes: number(found, Quantity::Nodes)? as u32,
        recording: number(found, Quantity::Recording)? as u32,
        late: late(found)?,
    })
}

fn gen_in(found: &ArgMatches<'_>) -> Option<PlainCommand>
    ensures said { result ≡ gen_of (rows_of (found_of found.now)) }
    ensures lawful { IfSome result IsLawfulPlain }
{
    Some(PlainCommand::Gen {
        seed: number(found, Quantity::Seed)?,
        lines: number(found, Quantity::Lines)? as u32,
    })
}

fn serve_in(found: &ArgMatches<'_>) -> Option<Command>
    ensures said { result ≡ serve_of (rows_of (found_of found.now)) }
    ensures lawful { IfSome result IsLawful }
{
    let port = number(found, Quantity::Port)?;
    let links = number(found, Quantity::Links)?;
    let count = number(found, Quantity::Count)?;
    let idle = number(found, Quantity::Idle)?;
    let caps = caps_in(found)?;
    if port + links > PORTS {
        return None;
    }
    Some(Command::Live(LiveCommand::Serve {
        transport: transport_in(found),
        port: port as u16,
        links: links as u32,
        count: count as u32,
        idle: idle as u32,
        caps,
    }))
}

fn resume_in(found: &ArgMatches<'_>) -> Option<Command>
    ensures said { result ≡ resume_of (rows_of (found_of found.now)) }
    ensures lawful { IfSome result IsLawful }
{
    Some(Command::Resume(ResumeCommand {
        room: number(found, Quantity::Recording)? as u32,
    }))
}

fn transport_in(found: &ArgMatches<'_>) -> Transport
    ensures { result ≡ commands.transport_of (rows_of (found_of found.now)) }
{
    if flag(found, Flag::Tcp) {
        Transport::Tcp
    } else {
        Transport::Udp
    }
}

fn flag(found: &ArgMatches<'_>, flag: Flag) -> bool
    ensures { result ≡ is_given flag (rows_of (found_of found.now)) }
{
    match text_in(found, flag.name()) {
        Some(text) => text == "true",
        None => false,
    }
}

fn number(found: &ArgMatches<'_>, quantity: Quantity) -> Option<u64>
    ensures value { result ≡ number_of quantity (rows_of (found_of found.now)) }
    ensures range { IfSome result (IsInRange quantity) }
{
    let row = quantity.row();
    match text_in(found, row.name) {
        Some(text) => number_within(row.least, row.most, text),
        None => Some(row.default),
    }
}

fn late(found: &ArgMatches<'_>) -> Option<Late>
    ensures { result ≡ commands.late_of (rows_of (found_of found.now)) }
{
    match text_in(found, "late") {
        Some(text) => policy_named(text),
        None => Some(Late::Deliver),
    }
}

/// The policy that the word names.
fn policy_named(word: &str) -> Option<Late>
    ensures { result ≡ commands.policy_named word.now }
{
    match word {
        "deliver" => Some(Late::Deliver),
        "discard" => Some(Late::Discard),
        _ => None,
    }
}

fn text_in<'a>(found: &ArgMatches<'a>, name: &str) -> Option<&'a str>
    ensures { option_map (λ text. text.now) result
        ≡ first_of name.now (rows_of (found_of found.now)) }
{
    found.get_str(name)
}
