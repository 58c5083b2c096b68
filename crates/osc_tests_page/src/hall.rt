// Visitors in memory, and how long they stay.
use osc_door::{MemoryDoor, MemoryVisitor, Speech};
use osc_hall::{GUESTS, Hall, PATIENCE};
use std::alloc::{AllocError, Global};
use std::test::*;

/// What visitors say that are answered and gone within 40 rounds.
const SAID: [&[u8]; 6] = [
    b"GET / HTTP/1.1\r\n\r\n",
    b"GET /state.json HTTP/1.1\r\nHost: stage\r\n\r\nGET / HTTP/1.1\r\n\r\n",
    b"\x16\x03\x01\x02\0\x01\0\x01\xfc\x03\x03",
    b"\xff\xfe\xfd\xfc",
    b"\0",
    b"POST /x HTTP/9\r\n\r\n",
];

/// A door by which so many come, each of whom says this, at most so many bytes at a call.
fn door(alloc: Global, says: &[u8], step: usize, many: usize) -> Result<MemoryDoor, AllocError> {
    let mut visitors = Vec::new(alloc);
    for _ in 0..many {
        let says = Vec::from_slice(alloc, says)?;
        visitors.push(Some(Speech { says, step }))?;
    }
    Ok(MemoryDoor::open(alloc, visitors))
}

/// How many are there after so many rounds.
fn count_after(door: &mut MemoryDoor, rounds: u32, alloc: Global) -> Result<usize, AllocError> {
    let mut hall: Hall<MemoryVisitor> = Hall::open(alloc)?;
    for _ in 0..rounds {
        hall.round(door, b"page", b"null");
    }
    Ok(hall.count())
}

#[test]
fn whatever_is_said_is_answered(rt: HostRuntime) -> Result<(), Fail> {
    for says in SAID {
        for step in [17, 1_000] {
            let mut door = door(rt.alloc(), says, step, 3)?;
            assert_eq!(rt; count_after(&mut door, 40, rt.alloc())?, 0);
        }
    }
    Ok(())
}

#[test]
fn the_quiet_are_let_go_and_shut_nobody_out(rt: HostRuntime) -> Result<(), Fail> {
    let alloc = rt.alloc();
    for (many, rounds, left) in [(1, PATIENCE, 1), (1, PATIENCE + 1, 0), (40, 3, GUESTS)] {
        let mut door = door(alloc, b"GET / HTTP/1.1\r\n", 1, many)?;
        assert_eq!(rt; count_after(&mut door, rounds, alloc)?, left);
    }
    Ok(())
}
