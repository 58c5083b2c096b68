// What a visitor is told, noted outside of the hall.
use osc_door::{Door, Knock, MemoryVisitor, Said, Speech, Took, Visitor};
use osc_hall::Hall;
use std::alloc::Global;
use std::cell::Cell;
use std::test::*;

/// A visitor in memory that notes the last byte that it is told.
#[derive(Drop)]
struct Spy<'a> {
    inner: MemoryVisitor,
    last: &'a Cell<u8>,
}

impl<'a> Visitor for Spy<'a> {
    ghost left = { λ s. ⟦<MemoryVisitor as Visitor>⟧.left s.inner };

    ghost taken = { λ s. ⟦<MemoryVisitor as Visitor>⟧.taken s.inner };

    fn read(&mut self, into: &mut [u8]) -> Said {
        self.inner.read(into)
    }

    fn write(&mut self, piece: &[u8]) -> Took {
        if let Some(byte) = piece.last() {
            self.last.set(*byte);
        }
        self.inner.write(piece)
    }
}

/// A door by which one spy comes, who says this.
#[derive(Drop)]
struct SpyDoor<'a> {
    alloc: Global,
    says: Option<Vec<u8>>,
    last: &'a Cell<u8>,
}

impl<'a> Door for SpyDoor<'a> {
    type Visitor = Spy<'a>;

    fn next(&mut self) -> Knock<Spy<'a>> {
        match self.says.take() {
            Some(says) => Knock::Came(Spy {
                inner: MemoryVisitor::open(self.alloc, Speech { says, step: 1_000 }),
                last: self.last,
            }),
            None => Knock::Nobody,
        }
    }
}

/// What is said, and the last byte of the answer.
const TOLD: [(&[u8], u8); 3] = [
    (b"GET / HTTP/1.1\r\n\r\n", b'P'),
    (b"GET /state.json HTTP/1.1\r\n\r\n", b'S'),
    (b"GET /x HTTP/1.1\r\n\r\n", b'd'),
];

#[test]
fn the_page_and_the_state_are_told(rt: HostRuntime) -> Result<(), Fail> {
    let alloc = rt.alloc();
    for (said, end) in TOLD {
        let last = Cell::new(0u8);
        let mut door = SpyDoor {
            alloc,
            says: Some(Vec::from_slice(alloc, said)?),
            last: &last,
        };
        let mut hall: Hall<Spy<'_>> = Hall::open(alloc)?;
        for _ in 0..3 {
            hall.round(&mut door, b"P", b"S");
        }
        assert_eq!(rt; last.get(), end);
    }
    Ok(())
}
