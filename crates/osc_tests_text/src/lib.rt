//! Tests of what no program shows: the recording's calls, drawn scripts, runs over edges that fail, and the sink
//! to a file. What a program prints is tested by tests/rows.
#![tactic(auto)]

#[cfg(test)]
mod file;
#[cfg(test)]
mod record;
#[cfg(test)]
mod script;
#[cfg(test)]
mod top;
