//! Tests of what no program shows of the sequential server and of the server of many callers, of watchers, and of the pages of
//! `osc_uses`, each in a module named after the page. The tables of the server are filled by tests/rows.
#![tactic(auto)]

#[cfg(test)]
mod busy;
#[cfg(test)]
mod core_calls;
#[cfg(test)]
mod first_server;
#[cfg(test)]
mod host_round;
#[cfg(test)]
mod light;
#[cfg(test)]
mod live_calls;
#[cfg(test)]
mod live_server;
#[cfg(test)]
mod live_threads;
#[cfg(test)]
mod live_uses;
#[cfg(test)]
mod matched_addresses;
#[cfg(test)]
mod printed_recording;
#[cfg(test)]
mod refused_packet;
#[cfg(test)]
mod servers;
#[cfg(test)]
mod timed_bundle;
#[cfg(test)]
mod tokens;
#[cfg(test)]
mod watching;
