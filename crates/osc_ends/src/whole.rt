// Reads a source to its end, and writes bytes to a sink.
ghost use Rattle.osc_model.specs.Limits.{max_recording};
ghost use Rattle.std.specs.Prelude.{ℕ, ◌+◌, ◌<◌, ◌≤◌, length};
ghost use Rattle.osc_ends.specs.Sinks.{change};
ghost use Rattle.osc_ends.specs.Whole.{HasRead, HasWritten, HasReadPiece};

use osc_edge::{Put, Sink, Source, Taken};
use std::alloc::Global;

/// The result of reading a source to its end.
#[derive(Drop)]
pub(crate) enum Input {
    Whole(Vec<u8>),
    TooLong,
    Failed,
    NoMemory,
}

/// Reads to the end, or to one byte past the limit.
pub(crate) fn read_whole<S: Source>(alloc: Global, most: usize, input: &mut S) -> Input
    requires { most ≤ max_recording }
    ensures { HasRead result most (S.left input.old) (S.left input.new) (S.faults input.old)
        (S.faults input.new) }
{
    let mut bytes = Vec::new(alloc);
    while bytes.len() <= most {
        match read_next(most, input, &mut bytes) {
            Piece::More => {}
            Piece::End => return Input::Whole(bytes),
            Piece::Failed => return Input::Failed,
            Piece::NoMemory => return Input::NoMemory,
        }
    }
    Input::TooLong
}

/// The result of one read.
#[derive(Clone, Copy, Debug, PartialEq, Eq)]
enum Piece {
    More,
    End,
    Failed,
    NoMemory,
}

/// Reads some of the bytes that are left, and adds them.
fn read_next<S: Source>(most: usize, input: &mut S, bytes: &mut Vec<u8>) -> Piece
    requires limit { most ≤ max_recording }
    requires within { length bytes.old.items ≤ most }
    ensures { HasReadPiece result most (S.left input.old) (S.left input.new) (S.faults input.old)
        (S.faults input.new) bytes.old.items bytes.new.items }
{
    let mut buffer = [0u8; 4096];
    let room = (most + 1 - bytes.len()).min(buffer.len());
    read_piece(input, &mut buffer[..room], bytes)
}

fn read_piece<S: Source>(input: &mut S, piece: &mut [u8], bytes: &mut Vec<u8>) -> Piece
    requires room { 0 < length piece.old }
    requires small { length bytes.old.items ≤ max_recording }
    ensures { (most : ℕ) → length bytes.old.items + length piece.old ≤ most + 1
        → HasReadPiece result most (S.left input.old) (S.left input.new) (S.faults input.old)
        (S.faults input.new) bytes.old.items bytes.new.items }
{
    match input.read(piece) {
        Taken::Bytes(0) => Piece::End,
        Taken::Bytes(count) => match bytes.extend_from_slice(&piece[..count]) {
            Ok(()) => Piece::More,
            Err(_) => Piece::NoMemory,
        },
        Taken::Failed => Piece::Failed,
    }
}

/// The result of writing.
#[derive(Clone, Copy, Debug, PartialEq, Eq)]
pub(crate) enum Written {
    Wrote,
    Refused,
    Short,
}

pub(crate) fn write_whole<O: Sink>(out: &mut O, bytes: &[u8]) -> Written
    ensures { HasWritten result (change O.Sink out.old out.new) bytes.now }
{
    let mut at = 0;
    while at < bytes.len() {
        match out.write(&bytes[at..]) {
            Put::Took(count) => at += count,
            Put::Failed => return Written::Refused,
            Put::NoMemory => return Written::Short,
        }
    }
    Written::Wrote
}
