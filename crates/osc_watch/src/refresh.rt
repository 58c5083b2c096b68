//! How a board reads what is new in a recording, and publishes it.
ghost use Rattle.std.specs.Prelude.{◌≡◌, ◌≢◌, ℕ, ◌≤◌, ◌<◌, ◌+◌, ◌++◌, true, length, IfOk, OnOk};
ghost use Rattle.std.specs.Prelude.{MatchResult};
ghost use Rattle.osc_turn.specs.History.{StartsWith};
ghost use Rattle.osc_model.specs.Limits.{Limits, header_size, max_recording};
ghost use Rattle.osc_model.specs.Recordings.{header_text};
ghost use Rattle.osc_watch.specs.Edits.{edits_of};
ghost use Rattle.osc_watch.specs.Notes.{IsPlaceIn, StandAfter, place_in};
ghost use Rattle.osc_watch.specs.Watching.{noted, published, IsOneBoard};
ghost use Rattle.osc_watch.specs.Refreshing.{HasRead, HasReadPart, PartNotes, IsWhole, GoesOn};
ghost use Rattle.osc_live.specs.Looks.{HasLooked};

use crate::board::Board;
use crate::entries::{Stop, note_all};
use crate::recorded::Recorded;
use core::mem::replace_with;
use osc_record::HEADER_SIZE;
use std::alloc::{AllocError, Global};
use std::sync::Wait;

/// What a refresh published.
#[derive(Clone, Copy, PartialEq, Eq, Debug)]
pub struct Fresh {
    /// How many edits are published.
    pub edits: u64,
}

/// What reading a part of the recording came to.
#[derive(Clone, Copy)]
pub enum Part {
    /// All that was there is read.
    Whole,
    /// More may be there.
    More,
    /// The next entry needs a larger part.
    Larger,
    /// There was no memory.
    NoMemory,
}

impl Board {
    /// Reads what is new in the server's recording, and publishes its edits at once. The `Err` means that there was no
    /// memory: what was read is kept, and the next refresh goes on after it.
    pub fn refresh<S: Recorded, W: Wait>(
        &mut self,
        rt: &W,
        server: &S,
        token: S::Token,
    ) -> (S::Token, Result<Fresh, AllocError>)
        requires ours { S.ours server.now token }
        requires read { HasReadPart (S.caps server.now) self.old (S.seen token) }
        ensures ours { S.ours server.now result.0 }
        ensures board { IsOneBoard self.old self.new }
        ensures goes_on { StartsWith (S.seen result.0) (S.seen token) }
        ensures number { S.number result.0 ≡ S.number token }
        ensures looks { HasLooked (S.knows token) (S.knows result.0) }
        ensures read { HasReadPart (S.caps server.now) self.new (S.seen result.0) }
        ensures whole { OnOk result.1 (HasRead (S.caps server.now) self.new (S.seen result.0)) }
        ensures published { MatchResult result.1
            (λ fresh. (published self.new ≡ edits_of (S.seen result.0))
            × (fresh.edits ≡ length (published self.new)))
            (λ _. published self.new ≡ published self.old) }
        ensures taken { OnOk result.1 (S.taken token < S.taken result.0) }
        ensures kept { StartsWith (noted self.new) (noted self.old) }
        ensures onward { self.old.at ≤ self.new.at }
    {
        let (token, read) = read_all(self, rt, server, token);
        if let Err(none) = read {
            return (token, Err(none));
        }
        let published = replace_with(self, rt, |board, rt| board.publish(rt));
        match published {
            Ok(()) => {
                let edits = self.reached.edits;
                (token, Ok(Fresh { edits }))
            }
            Err(none) => (token, Err(none)),
        }
    }
}

// So many bytes are read at once, at first.
const FIRST_ROOM: usize = 4096;

// More are never read at once.
const MOST_ROOM: usize = 1 << 31;

/// Reads all that is new in the recording.
#[tactic(auto, using(crate::proofs::Looking::looking))]
fn read_all<S: Recorded, W: Wait>(
    board: &mut Board,
    rt: &W,
    server: &S,
    token: S::Token,
) -> (S::Token, Result<(), AllocError>)
    requires ours { S.ours server.now token }
    requires read { HasReadPart (S.caps server.now) board.old (S.seen token) }
    ensures ours { S.ours server.now result.0 }
    ensures board { IsOneBoard board.old board.new }
    ensures published { published board.new ≡ published board.old }
    ensures goes_on { StartsWith (S.seen result.0) (S.seen token) }
    ensures number { S.number result.0 ≡ S.number token }
    ensures looks { HasLooked (S.knows token) (S.knows result.0) }
    ensures onward { GoesOn board.old board.new }
    ensures read { HasReadPart (S.caps server.now) board.new (S.seen result.0) }
    ensures whole { OnOk result.1 (HasRead (S.caps server.now) board.new (S.seen result.0)) }
    ensures taken { OnOk result.1 (S.taken token < S.taken result.0) }
{
    osc_record::laws::sizes();
    let Ok(mut header) = Vec::from_elem(board.alloc, 0u8, HEADER_SIZE as usize) else {
        return (token, Err(AllocError));
    };
    let (mut token, _) = server.read(rt, token, 0, header.as_mut_slice());
    let mut room = FIRST_ROOM;
    for _ in rt.forever() {
        let (after, part) = read_part(board, rt, server, token, header.as_slice(), room);
        token = after;
        match part {
            Part::Whole => return (token, Ok(())),
            Part::More => {}
            Part::Larger => room = larger(room),
            Part::NoMemory => return (token, Err(AllocError)),
        }
    }
    unreachable!()
}

fn larger(room: usize) -> usize {
    if room < MOST_ROOM { 2 * room } else { room }
}

/// Reads a part of the recording, from the board's place on.
fn read_part<S: Recorded, W: Wait>(
    board: &mut Board,
    rt: &W,
    server: &S,
    token: S::Token,
    header: &[u8],
    room: usize,
) -> (S::Token, Part)
    requires ours { S.ours server.now token }
    requires header { length header.now ≡ header_size }
    requires text { header.now ≡ header_text (S.caps server.now) }
    requires read { HasReadPart (S.caps server.now) board.old (S.seen token) }
    ensures ours { S.ours server.now result.0 }
    ensures board { IsOneBoard board.old board.new }
    ensures published { published board.new ≡ published board.old }
    ensures goes_on { StartsWith (S.seen result.0) (S.seen token) }
    ensures number { S.number result.0 ≡ S.number token }
    ensures looks { HasLooked (S.knows token) (S.knows result.0) }
    ensures taken { S.taken token ≤ S.taken result.0 }
    ensures onward { GoesOn board.old board.new }
    ensures read { HasReadPart (S.caps server.now) board.new (S.seen result.0) }
    ensures whole { IsWhole result.1 → HasRead (S.caps server.now) board.new (S.seen result.0) }
{
    let Ok(mut chunk) = Vec::from_elem(board.alloc, 0u8, room) else {
        return (token, Part::NoMemory);
    };
    read_over(board, rt, server, token, header, chunk.as_mut_slice())
}

/// Reads as much as fits over these bytes.
fn read_over<S: Recorded, W: Wait>(
    board: &mut Board,
    rt: &W,
    server: &S,
    token: S::Token,
    header: &[u8],
    chunk: &mut [u8],
) -> (S::Token, Part)
    requires ours { S.ours server.now token }
    requires header { length header.now ≡ header_size }
    requires text { header.now ≡ header_text (S.caps server.now) }
    requires read { HasReadPart (S.caps server.now) board.old (S.seen token) }
    ensures ours { S.ours server.now result.0 }
    ensures board { IsOneBoard board.old board.new }
    ensures published { published board.new ≡ published board.old }
    ensures goes_on { StartsWith (S.seen result.0) (S.seen token) }
    ensures number { S.number result.0 ≡ S.number token }
    ensures looks { HasLooked (S.knows token) (S.knows result.0) }
    ensures taken { S.taken token ≤ S.taken result.0 }
    ensures onward { GoesOn board.old board.new }
    ensures read { HasReadPart (S.caps server.now) board.new (S.seen result.0) }
    ensures whole { IsWhole result.1 → HasRead (S.caps server.now) board.new (S.seen result.0) }
{
    osc_record::laws::sizes();
    let room = chunk.len();
    let (token, count) = server.read(rt, token, board.at, chunk);
    let stop = note_part(board, header, &chunk[..count]);
    (token, part_of(stop, count < room))
}

/// What is to be done next, where the part ended before the room did, or did not. Where it ended, each entry in it is
/// whole.
fn part_of(stop: Stop, ended: bool) -> Part
    requires { ended ≡ true → (place : ℕ) → stop ≢ Stop.At place }
    ensures { IsWhole result → (stop ≡ Stop.AtEnd) × (ended ≡ true) }
{
    match stop {
        Stop::AtEnd => { if ended { Part::Whole } else { Part::More } }
        Stop::At(place) => {
            if ended {
                unreachable!()
            } else if place > HEADER_SIZE {
                Part::More
            } else {
                Part::Larger
            }
        }
        Stop::NoMemory(_) => Part::NoMemory,
    }
}

/// Notes the edits of the entries in a part of a recording, as many as are whole, and moves the board's place on.
fn note_part(board: &mut Board, header: &[u8], part: &[u8]) -> Stop
    requires header { length header.now ≡ header_size }
    requires behind { header_size ≤ board.old.at }
    requires small { board.old.at + length part.now ≤ max_recording }
    requires within { (caps : Limits) × StandAfter caps header.now part.now }
    ensures board { IsOneBoard board.old board.new }
    ensures published { published board.new ≡ published board.old }
    ensures part { PartNotes part.now board.old.at board.new.at (noted board.old)
        (noted board.new) result }
{
    let Ok(bytes) = joined(board.alloc, header, part) else {
        return Stop::NoMemory(HEADER_SIZE);
    };
    let stop = note_all(board, bytes.as_slice());
    board.at += place_in(bytes.len(), stop) - HEADER_SIZE;
    stop
}

fn place_in(all: usize, stop: Stop) -> u32
    requires { all ≤ max_recording }
    ensures { result ≡ place_in all stop }
{
    match stop {
        Stop::AtEnd => all as u32,
        Stop::At(place) => place,
        Stop::NoMemory(place) => place,
    }
}

fn joined(alloc: Global, header: &[u8], part: &[u8]) -> Result<Vec<u8>, AllocError>
    ensures { IfOk result (λ bytes. bytes.items ≡ header.now ++ part.now) }
{
    let mut bytes = Vec::from_slice(alloc, header)?;
    bytes.extend_from_slice(part)?;
    Ok(bytes)
}
