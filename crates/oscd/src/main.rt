//! An Open Sound Control server that plays the lanes of a script, or serves links, at the same
//! time, and goes on from a recording.
#![tactic(auto)]

ghost use Rattle.osc_links.specs.declared.limits.TheConstants.{MAX_LINKS};
ghost use Rattle.std.specs.Prelude.{◌≡◌, ◌≤◌, length, map, string_bytes, IfOk};
ghost use Rattle.osc_top.specs.Commands.{ports_of};

use osc_edge::{
    FileSink, FileSource, Link, StdSink, StdSource, SystemClock, TcpSource, UdpLink, command_words,
};
use osc_ends::status::{DONE, NO_MEMORY, RECORDING_FULL, SINK_FAILED};
use osc_lanes::OpenGate;
use osc_method::Method;
use osc_stream::{BufferedSource, StreamLink};
use osc_top::{live_top, ports, recording_name, resume_names, resume_top, traces, wants_tcp};
use std::alloc::{AllocError, Global};
use std::fs::{self, File};
use std::io;
use std::process::ExitCode;
use std::sync::Wait;
use std::thread::Threads;

fn main(rt: HostRuntime) -> ExitCode {
    match run(&rt, &rt) {
        Ok(status) => ExitCode::from(status),
        Err(_) => ExitCode::from(NO_MEMORY),
    }
}

/// `threads` is the runtime too, which starts threads and waits only where `main` hands it on.
fn run<W: Threads + Wait + Sync>(rt: &HostRuntime, threads: &W) -> Result<u8, AllocError> {
    let alloc = rt.alloc();
    let words = command_words(rt)?;
    let mut bank: Vec<Box<dyn Method + Send>> = Vec::new(alloc);
    for trace in traces(alloc)? {
        bank.push(Box::new(alloc, trace)?)?;
    }
    if let Some((old, file)) = resume_names(&words) {
        resume(rt, threads, &words, old, file, bank)
    } else if wants_tcp(alloc, &words)? {
        play(rt, threads, &words, stream_links(rt, &words)?, bank)
    } else {
        play(rt, threads, &words, datagram_links(rt, &words)?, bank)
    }
}

/// Goes on from the recording in one file, and writes the whole one to the other: the status.
fn resume<W: Threads + Wait + Sync>(
    rt: &HostRuntime,
    threads: &W,
    words: &[String],
    old: &str,
    file: &str,
    bank: Vec<Box<dyn Method + Send>>,
) -> Result<u8, AllocError> {
    let alloc = rt.alloc();
    let is_replaced = old == file && is_regular(rt, old);
    let made = if is_replaced {
        next_to(alloc, file)?
    } else {
        String::from_str(alloc, file)?
    };
    let mut past = FileSource::at(rt, String::from_str(alloc, old)?);
    let mut rec = FileSink::at(rt, String::from_str(alloc, &made)?);
    let mut input = StdSource::open(rt);
    let mut out = StdSink::open(rt);
    let ended = resume_top(
        threads, alloc, words, &mut past, &mut input, &mut out, &mut rec, bank, &OpenGate,
    );
    if is_replaced && is_whole(ended.status) && put_in_place(rt, &made, file).is_err() {
        return Ok(SINK_FAILED);
    }
    Ok(ended.status)
}

/// Whether there is a file of this name that holds bytes, and is no terminal, pipe or device.
fn is_regular(rt: &HostRuntime, name: &str) -> bool {
    match fs::metadata(rt, name) {
        Ok(facts) => facts.is_file(),
        Err(_) => false,
    }
}

/// The name of the file that is written next to this one, and takes its place when it is whole.
fn next_to(alloc: Global, file: &str) -> Result<String, AllocError> {
    let mut name = String::from_str(alloc, file)?;
    name.push_str(".new")?;
    Ok(name)
}

/// Whether the whole recording was written at this status.
fn is_whole(status: u8) -> bool {
    status == DONE || status == RECORDING_FULL
}

/// Puts the file under the other name, in place of what that named, once the system has stored all of it.
fn put_in_place(rt: &HostRuntime, file: &str, name: &str) -> io::Result<()> {
    File::open(rt, file)?.sync_all()?;
    fs::rename(rt, file, name)
}

/// Does what the words say on a new server, with these links: the status.
fn play<W: Threads + Wait + Sync, L: Link + Send + Drop>(
    rt: &HostRuntime,
    threads: &W,
    words: &[String],
    links: Vec<L>,
    bank: Vec<Box<dyn Method + Send>>,
) -> Result<u8, AllocError>
    requires { length links.items ≤ MAX_LINKS }
{
    let alloc = rt.alloc();
    let name = recording_name(words).unwrap_or("");
    let mut rec = FileSink::at(rt, String::from_str(alloc, name)?);
    let mut input = StdSource::open(rt);
    let mut out = StdSink::open(rt);
    let mut clock = SystemClock::open(rt);
    let (ended, _links) = live_top(
        threads, alloc, words, &mut input, &mut out, &mut rec, links, &mut clock, bank, &OpenGate,
    );
    Ok(ended.status)
}

/// A link over UDP for each port that the words say to serve.
fn datagram_links(rt: &HostRuntime, words: &[String]) -> Result<Vec<UdpLink>, AllocError>
    ensures each { IfOk result
        (λ links. length links.items ≡ length (ports_of (map string_bytes words.now))) }
    ensures few { IfOk result (λ links. length links.items ≤ MAX_LINKS) }
{
    let ports = ports(rt.alloc(), words)?;
    let mut links = Vec::with_capacity(rt.alloc(), ports.len())?;
    for port in ports {
        links.push(UdpLink::at(rt, port))?;
    }
    Ok(links)
}

/// A link over TCP for each port that the words say to serve.
fn stream_links(
    rt: &HostRuntime,
    words: &[String],
) -> Result<Vec<StreamLink<BufferedSource<TcpSource>>>, AllocError>
    ensures each { IfOk result
        (λ links. length links.items ≡ length (ports_of (map string_bytes words.now))) }
    ensures few { IfOk result (λ links. length links.items ≤ MAX_LINKS) }
{
    let ports = ports(rt.alloc(), words)?;
    let mut links = Vec::with_capacity(rt.alloc(), ports.len())?;
    for port in ports {
        let source = BufferedSource::open(rt.alloc(), TcpSource::at(rt, port))?;
        links.push(StreamLink::open(rt.alloc(), source)?)?;
    }
    Ok(links)
}
