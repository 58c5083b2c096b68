//! The server as a library for C, and for all that can call C (include/vestrulj.h).
#![tactic(auto, using(crate::proofs::FirstCaller::caller_0))]

mod answer;
mod argument;
mod called;
mod calls;
mod due;
mod events;
mod handle;
mod limits;
mod matches;
mod message;
mod methods;
mod open;
mod plain;
mod recording;
mod shown;
mod spot;
mod state;
mod status;
mod writer;
