// An Open Sound Control server that plays a script.
#![tactic(auto)]

use osc_edge::{StdSink, StdSource, command_words};
use osc_method::Method;
use osc_plain::{plain_top, traces};
use std::alloc::AllocError;
use std::process::ExitCode;

const NO_MEMORY: u8 = 3;

fn main(rt: HostRuntime) -> ExitCode {
    match run(&rt) {
        Ok(status) => ExitCode::from(status),
        Err(_) => ExitCode::from(NO_MEMORY),
    }
}

fn run(rt: &HostRuntime) -> Result<u8, AllocError> {
    let words = command_words(rt)?;
    let mut bank: Vec<Box<dyn Method + Send>> = Vec::new(rt.alloc());
    for trace in traces(rt.alloc())? {
        bank.push(Box::new(rt.alloc(), trace)?)?;
    }
    let mut input = StdSource::open(rt);
    let mut out = StdSink::open(rt);
    Ok(plain_top(rt.alloc(), &words, &mut input, &mut out, bank).status)
}
