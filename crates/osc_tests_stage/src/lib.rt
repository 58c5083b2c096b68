//! Tests of what the program of a stage stands on, over its public calls.
#![tactic(auto)]

#[cfg(test)]
mod console;
#[cfg(test)]
mod patches;
#[cfg(test)]
mod relays;
#[cfg(test)]
mod relays_by_udp;
#[cfg(test)]
mod shown;
#[cfg(test)]
mod shows;
#[cfg(test)]
mod stages;
