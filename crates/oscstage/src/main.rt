//! An Open Sound Control server for a stage: it serves links as `oscd serve` does, shows what comes
//! in, and sends each call on to the lights and machines of a patch, on time.
#![tactic(auto)]

ghost use Rattle.std.specs.Prelude.{◌≡◌, length, IfOk};

mod bank;
mod bundle;
mod carry;
mod cues;
mod input;
mod links;
mod losses;
mod moment;
mod parts;
mod patch;
mod playback;
mod prompt;
mod reel;
mod report;
mod score;
mod show;
mod view;
mod words;

use crate::bank::open_bank;
use crate::carry::{read_carried, write_script};
use crate::cues::play_cues;
use crate::links::Links;
use crate::moment::print_moment;
use crate::parts::{is_size, least_size};
use crate::patch::read_patch;
use crate::report::{
    report_help, report_routes, report_size, report_there, report_usage, report_wrong,
};
use crate::show::{Begin, play};
use crate::words::{Said, Serving, read_words};
use osc_edge::command_words;
use osc_ends::status::{DONE, NO_MEMORY, REFUSED, SINK_FAILED, USAGE};
use osc_show::{draw_recordings, follow, is_there, serve_page, show_recordings};
use std::alloc::{AllocError, Global};
use std::process::ExitCode;
use std::sync::Wait;
use std::thread::Threads;

fn main(rt: HostRuntime) -> ExitCode {
    match run(&rt, &rt) {
        Ok(status) => ExitCode::from(status),
        Err(_) => ExitCode::from(NO_MEMORY),
    }
}

/// `threads` is the runtime too, which starts threads and waits only where `main` hands it on.
fn run<W: Threads + Wait + Sync>(rt: &HostRuntime, threads: &W) -> Result<u8, AllocError> {
    let said = read_words(rt.alloc(), command_words(rt)?)?;
    match &said {
        Said::Help => {
            report_help(rt);
            Ok(DONE)
        }
        Said::Refused => {
            report_usage(rt);
            Ok(USAGE)
        }
        Said::Carry(file) => write_script(rt, file),
        Said::Play(playing) => play_cues(rt, threads, playing),
        Said::Moment(word) => print_moment(rt, word),
        Said::Show(showing) if showing.follow => follow(rt, threads, showing),
        Said::Show(showing) => show_recordings(rt, showing),
        Said::Draw(showing) => draw_recordings(rt, showing),
        Said::Page(paging) => serve_page(rt, threads, paging),
        Said::Wrong(taken, word) => {
            report_wrong(rt, *taken, word);
            Ok(USAGE)
        }
        Said::Serve(serving) => serve(rt, threads, serving),
    }
}

/// Serves the links, unless the patch is refused or FILE is there already.
fn serve<W: Threads + Wait + Sync>(
    rt: &HostRuntime,
    threads: &W,
    serving: &Serving,
) -> Result<u8, AllocError> {
    let file = serving.names.file.as_str();
    if !serving.flags.force && is_there(rt, file) {
        report_there(rt, file);
        return Ok(SINK_FAILED);
    }
    if !is_size(serving) {
        report_size(rt, least_size(serving.caps), serving.caps.recording);
        return Ok(USAGE);
    }
    let ports = ports_of(rt.alloc(), serving.links)?;
    let patch = match read_patch(rt, &serving.names.patch, serving.caps.methods)? {
        Ok(patch) => patch,
        Err(status) => return Ok(status),
    };
    let carried = match read_carried(rt, serving)? {
        Ok(lines) => lines,
        Err(status) => return Ok(status),
    };
    match open_bank(rt, &patch, &ports)? {
        Ok(bank) => play(rt, threads, serving, &ports, Begin { bank, carried }),
        Err(wrong) => {
            report_routes(rt, serving.names.patch.as_str(), &wrong);
            Ok(REFUSED)
        }
    }
}

/// A port for each link, ascending by one from the first.
fn ports_of(alloc: Global, links: Links) -> Result<Vec<u16>, AllocError>
    ensures { IfOk result (λ ports. length ports.items ≡ links.count) }
{
    let mut ports = Vec::with_capacity(alloc, links.count as usize)?;
    for link in 0..links.count {
        ports.push(links.port.wrapping_add(link as u16))?;
    }
    Ok(ports)
}
