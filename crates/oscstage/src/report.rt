// What is reported on standard error, and the help.
use crate::bank::{Bank, RouteFault, WrongRoute};
use crate::parts::{NEVER, size_of};
use crate::words::{Serving, Taken};
use jiff_core::Offset;
use osc_carry::CarryFault;
use osc_chain::SeamFault;
use osc_cues::WrongLine;
use osc_patch::PatchError;
use osc_pattern::Address;
use osc_show::{report_malformed, report_unlike};
use osc_stage::Ended;
use osc_words::Transport;
use std::alloc::AllocError;
use std::str;

/// How many bytes of recording a fader's message takes: its submit, a tick and its release.
const MESSAGE_SIZE: u32 = 172;

/// How many an hour of silence takes: a tick each second.
const HOUR_SIZE: u32 = 172_800;

const USAGE: &str = "usage: oscstage serve [OPTIONS] PATCH FILE, play [OPTIONS] PATCH [FILE], \
    show [OPTIONS] FILE.., draw [OPTIONS] FILE.., \
    page [OPTIONS] FILE.., carry FILE, or moment WORD; oscstage --help tells more";

const HELP: &str = "oscstage serve [OPTIONS] PATCH FILE

Serves Open Sound Control until it is ended: what comes in is shown, each call
is sent on as PATCH says, and all of it is recorded in FILE.

PATCH has a line for each method:
    add ADDRESS               calls of the method are shown
    add ADDRESS HOST PORT     they are sent on, too, by UDP; more such lines
                              send to more machines
    # ..                      a comment

  --port N          the port to listen to, 9000 where nothing is said
  --links N         so many ports, from that one on
  --tcp             TCP in place of UDP
  --late discard    a bundle that comes after its time isn't played
  --recording N     how many bytes FILE may have
  --units N, --blocks N, --methods N, --nodes N
                    what the server has room for
  --count N, --idle N
                    each link ends after N packets, or after N waits in a row
  --quiet           show refusals alone
  --force           overwrite FILE
  --carry OLD       go on from the recording OLD: its clock, and the bundles that
                    wait, which call the methods of PATCH
  --turn-over N     at N bytes of FILE go on in FILE.2, FILE.3 and so on; by
                    default at nine tenths of its room

Type end and Enter to end the show. Ctrl-C ends it at once, and FILE keeps all
but the last 50 milliseconds.

oscstage show [OPTIONS] FILE..

Prints the recording in FILE as a stage manager would note it: a line for each
message, with what happened to it. Of a show that went on in FILE.2 all files
can be named, in their order.

  --from TIME, --to TIME
                    only what was from or to then, as 20:15 or 20:15:30.5
  --only PATTERN    only lines with an address that PATTERN matches, as '/light/*'
  --zone ZONE       times of a zone, as +01:00, and not of this machine's
  --utc             times of UTC
  --relative        seconds since the first line in place of times of day
  --callers         before each mark the number of who handed it in
  --whole           long texts, blobs and lists of addresses uncut
  --runs            one line where an address moves on and on, as a fader does
  --ticks           lines for the clock's ticks and for new callers, too
  --quiet           show refusals alone
  --follow          show what comes while FILE grows, until Ctrl-C

oscstage draw [OPTIONS] FILE.. > PICTURE.svg

Writes a picture of the recording in FILE, or of a show in several, as SVG, which
a browser shows: a row for each address, its calls and levels by their times, and
what waited, was discarded or called no method. It takes --from, --to, --zone and
--utc as show does.

oscstage page [OPTIONS] FILE..

Serves a page to browsers that shows the recording in FILE while it grows, and
those in which the show goes on: each method with its last call, what waits, and
the totals. It runs until Ctrl-C.

  --port N          the page's port, 8080 where nothing is said
  --address A       this machine's address to serve it at; 0.0.0.0 is for all
                    who reach the machine, and by default nobody else does

oscstage play [OPTIONS] PATCH [FILE] < SHEET

Reads a sheet of cues, prints all lines that are wrong, and where none is sends
each cue at its moment as PATCH says. FILE gets the recording. A line is MOMENT
ADDRESS ARGUMENT..:
    20:00:00 /light/* 0.0           at a time of day; + 0.5 s: +0.5 /light/1 1.0
    tempo 96 in 4 from 20:00:00     then bars and beats: 5|2.5 /bass/note 36 1.5

  --check           print what would be sent and when, and send nothing
  --as-score        write the cues as a score for osc score, and send nothing
  --skip            leave out what has gone by
  --from MOMENT     begin now with what stands at MOMENT, as 5|1 or 20:15:00
  --force           overwrite FILE

oscstage moment WORD

Prints the time tag of a moment, as 2026-11-29T20:00:00+01:00, or the moment of
a time tag of 16 digits.

oscstage carry FILE

Writes the script that brings a new server, with an empty recording, to where
the recording in FILE ends: its methods, its clock, and the bundles that wait.
";

pub(crate) fn report_help(rt: &HostRuntime) {
    print!(rt; "{HELP}").ok();
}

pub(crate) fn report_usage(rt: &HostRuntime) {
    eprintln!(rt; "{USAGE}").ok();
}

/// Reports all that is wrong with a patch.
pub(crate) fn report_patch(
    rt: &HostRuntime,
    name: &str,
    error: &PatchError,
) -> Result<(), AllocError> {
    match error {
        PatchError::NoMemory => {}
        PatchError::TooLong => {
            eprintln!(rt;
                "oscstage: {name} has over 64 MiB, which is more than a patch may have"
            ).ok();
        }
        PatchError::NoMethod => {
            eprintln!(rt;
                "oscstage: {name} adds no method: write a line such as add /light/dim 10.0.0.7 8000"
            ).ok();
        }
        PatchError::Lines(lines) => {
            for line in lines.as_slice() {
                let mut text = Vec::new(rt.alloc());
                line.add_text(&mut text)?;
                let text = str::from_utf8(&text).unwrap_or("");
                eprintln!(rt; "oscstage: {name}, {text}").ok();
            }
        }
    }
    Ok(())
}

/// Reports the lines whose routes are wrong.
pub(crate) fn report_routes(rt: &HostRuntime, name: &str, wrong: &[WrongRoute]) {
    for WrongRoute { line, fault } in wrong {
        let words = match fault {
            RouteFault::UnknownHost =>
                "no address is known of its host: write its IPv4 address, or mend the name",
            RouteFault::OwnPort =>
                "it sends to the port that oscstage itself listens to, which would go on for ever: name another port",
        };
        eprintln!(rt; "oscstage: {name}, line {line}: {words}").ok();
    }
}

/// Reports why a recording isn't carried on.
pub(crate) fn report_carry(rt: &HostRuntime, file: &str, fault: &CarryFault) {
    match fault {
        CarryFault::NoMemory => {}
        CarryFault::Malformed { at: 0 } => report_malformed(rt, file),
        CarryFault::Malformed { at } => {
            eprintln!(rt;
                "oscstage: {file} is cut off at byte {at}: head -c {at} {file} has all that is whole"
            ).ok();
        }
        CarryFault::Disagrees { entry, .. } => report_unlike(rt, file, *entry),
        CarryFault::TooLong => {
            eprintln!(rt;
                "oscstage: the script of {file} would have over 64 MiB, as so many bundles wait"
            ).ok();
        }
    }
}

/// Reports the wrong lines of a sheet for these methods, in the times of a clock that is so far
/// ahead of UTC.
pub(crate) fn report_cues(
    rt: &HostRuntime,
    lines: &[WrongLine],
    offset: Offset,
    methods: &[Address],
) -> Result<(), AllocError> {
    for line in lines {
        let mut text = Vec::new(rt.alloc());
        line.add_text(&mut text, offset, methods)?;
        let text = str::from_utf8(&text).unwrap_or("");
        eprint!(rt; "{text}").ok();
    }
    match lines.len() {
        1 => eprintln!(rt; "1 line is wrong; nothing was sent").ok(),
        count => eprintln!(rt; "{count} lines are wrong; nothing was sent").ok(),
    };
    Ok(())
}

pub(crate) fn report_long_sheet(rt: &HostRuntime) {
    eprintln!(rt; "oscstage: the sheet has over 1 MiB, which is more than a sheet may have").ok();
}

/// Reports that the notes of a sheet are no score, as this line of it shows.
pub(crate) fn report_score(rt: &HostRuntime, line: u32) {
    eprintln!(rt;
        "oscstage: these cues are no score, as its line {line} would show: a score has at most 1 MiB, 1,024 addresses, and 65,504 bytes at one moment"
    ).ok();
}

/// Reports that a word is no moment at which a sheet can begin.
pub(crate) fn report_moment(rt: &HostRuntime, word: &str) {
    eprintln!(rt;
        "oscstage: {word} is no moment of the sheet: write 5|1, where it has a tempo, or 20:15:00"
    ).ok();
}

/// Reports that a word isn't what its option takes.
pub(crate) fn report_wrong(rt: &HostRuntime, taken: Taken, word: &str) {
    let words = match taken {
        Taken::Zone => "is no zone: write +01:00, -03:30 or Z",
        Taken::Port => "is no port: write a number from 0 to 65535, as 8080",
        Taken::Address =>
            "is no IPv4 address: write 127.0.0.1 for this machine alone, or 0.0.0.0 for all that reach it",
    };
    eprintln!(rt; "oscstage: {word} {words}").ok();
}

/// Reports why a show doesn't go on in another recording.
pub(crate) fn report_seam(rt: &HostRuntime, fault: SeamFault) {
    let why = match fault {
        SeamFault::NoRoom => "what waits may have no room there: say --recording with more bytes",
        SeamFault::TooLong => "what waits is more than can be carried on: say less --blocks",
        SeamFault::Unlike => "what was recorded can't be read",
    };
    eprintln!(rt; "oscstage: the show doesn't go on in another recording: {why}").ok();
}

/// Reports that a file that is to be written is there already.
pub(crate) fn report_there(rt: &HostRuntime, file: &str) {
    eprintln!(rt;
        "oscstage: {file} is there already: name another file, or say --force to overwrite it"
    ).ok();
}

/// Reports how long after its moment the latest bundle was called, in a time tag's units.
pub(crate) fn report_latest(rt: &HostRuntime, latest: u64) {
    let micros = (u128::from(latest) * 1_000_000) >> 32;
    let (millis, part) = (micros / 1_000, micros % 1_000);
    eprintln!(rt;
        "oscstage: the latest moment was called {millis}.{part:03} ms after its time"
    ).ok();
}

/// Reports why a sheet wasn't played to its end, if it wasn't.
pub(crate) fn report_played(rt: &HostRuntime, ended: Ended) {
    let words = match ended {
        Ended::Done => return,
        Ended::RecordFull(_) => "the recording is full, and nothing more was sent",
        Ended::ClockFailed | Ended::LinkFailed(_) => "the machine's clock failed",
        Ended::SinkFailed =>
            "the recording could not be written: look at its folder and the room on its disk",
    };
    eprintln!(rt; "oscstage: {words}").ok();
}

/// Reports how many bytes a recording has, if it could be written.
pub(crate) fn report_kept(rt: &HostRuntime, file: &str, size: usize, ended: Ended) {
    if !matches!(ended, Ended::SinkFailed) {
        eprintln!(rt; "oscstage: {file} has {size} bytes").ok();
    }
}

/// By which limit of the words a show can't be carried on.
#[derive(Clone, Copy)]
pub(crate) enum LimitFault {
    /// The old server had room for so many units.
    Units(u32),
    /// It had room for so many blocks.
    Blocks(u32),
    /// It performed late bundles.
    Late,
}

/// Reports why a recording can't be carried on by a server with these limits.
pub(crate) fn report_limit(rt: &HostRuntime, old: &str, fault: LimitFault) {
    match fault {
        LimitFault::Units(units) => {
            eprintln!(rt; "oscstage: {old} had --units {units}: say at least as many").ok();
        }
        LimitFault::Blocks(blocks) => {
            eprintln!(rt; "oscstage: {old} had --blocks {blocks}: say at least as many").ok();
        }
        LimitFault::Late => {
            eprintln!(rt;
                "oscstage: a late bundle may still wait in {old}: leave --late discard out"
            ).ok();
        }
    }
}

/// Reports between which sizes a show can go on in another recording.
pub(crate) fn report_size(rt: &HostRuntime, least: u64, most: u32) {
    eprintln!(rt;
        "oscstage: with these limits --turn-over has to be from {least} to {most} bytes"
    ).ok();
}

/// Reports what is listened to, which methods there are, and how long the recording lasts.
pub(crate) fn report_start(rt: &HostRuntime, serving: &Serving, ports: &[u16], bank: &Bank) {
    let transport = match serving.links.transport {
        Transport::Udp => "UDP",
        Transport::Tcp => "TCP",
    };
    let methods = bank.routes.len();
    let sending = bank
        .routes
        .iter()
        .filter(|route| !route.to.is_empty())
        .count();
    for port in ports {
        eprintln!(rt;
            "oscstage: listens to {transport} port {port}; {methods} methods, {sending} of them send on"
        ).ok();
    }
    let file = serving.names.file.as_str();
    let room = serving.caps.recording;
    let (messages, hours) = (room / MESSAGE_SIZE, room / HOUR_SIZE);
    eprintln!(rt;
        "oscstage: {file} grows as it plays, with room for some {messages} messages or {hours} hours of silence"
    ).ok();
    let size = size_of(serving);
    if size != NEVER {
        eprintln!(rt; "oscstage: at {size} bytes the show goes on in {file}.2").ok();
    }
    eprintln!(rt;
        "oscstage: type end and Enter to end the show; Ctrl-C ends it at once, and {file} keeps all but the last 50 ms"
    ).ok();
}

/// Reports that standard output didn't take all lines.
pub(crate) fn report_unprinted(rt: &HostRuntime) {
    eprintln!(rt; "oscstage: some lines could not be printed; the recording has all of it").ok();
}

/// How a show ended, its last recording and how many bytes that has, and how many datagrams were no
/// packets.
#[derive(Drop)]
pub(crate) struct ShowEnd {
    pub(crate) ended: Ended,
    pub(crate) file: String,
    pub(crate) size: usize,
    pub(crate) refused: usize,
}

/// Reports how the show ended, how many datagrams were no packets, and how many bytes the recording
/// has.
pub(crate) fn report_end(rt: &HostRuntime, serving: &Serving, end: &ShowEnd) {
    let ShowEnd {
        ended,
        file,
        size,
        refused,
    } = end;
    match ended {
        Ended::Done => {}
        Ended::RecordFull(_) => {
            eprintln!(rt;
                "oscstage: {file} is full, and nothing is heard any more: say --recording with more bytes"
            ).ok();
        }
        Ended::LinkFailed(link) => {
            let port = serving.links.port.wrapping_add((*link % 65_536) as u16);
            eprintln!(rt;
                "oscstage: port {port} failed: another program may have it, or the system refuses it"
            ).ok();
        }
        Ended::ClockFailed => {
            eprintln!(rt; "oscstage: the machine's clock failed").ok();
        }
        Ended::SinkFailed => {
            eprintln!(rt;
                "oscstage: {file} could not be written: look at its folder and the room on its disk"
            ).ok();
        }
    }
    match refused {
        0 => {}
        1 => {
            eprintln!(rt; "oscstage: 1 datagram was no packet").ok();
        }
        _ => {
            eprintln!(rt; "oscstage: {refused} datagrams were no packets").ok();
        }
    }
    report_kept(rt, file, *size, *ended);
}
