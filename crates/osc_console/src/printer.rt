//! Writes what comes out of rings.
ghost use Rattle.osc_ends.specs.Sinks.{change};
ghost use Rattle.osc_console.specs.Printing.{Prints, PrintsRing};

use osc_edge::Sink;
use osc_ends::status::DONE;
use osc_ends::write_text;
use rtrb::Consumer;
use std::alloc::Global;
use std::sync::Wait;
use std::sync::atomic::{AtomicU64, Ordering};
use std::thread::Parker;
use std::time::Duration;

/// How many bytes are written at once.
const PIECE: usize = 4_096;

/// How many pieces of a ring are written before the next ring has its turn.
const PIECES: u32 = 64;

/// How many milliseconds a wait has at most.
const WAIT: u64 = 1_000;

/// Who wakes the thread that prints, and whether it has to end.
#[derive(Drop)]
pub struct Printer {
    parker: Parker,
    is_over: AtomicU64,
}

impl Printer {
    /// One that has nothing to print yet.
    pub fn new() -> Printer {
        Printer {
            parker: Parker::new(),
            is_over: AtomicU64::new(0),
        }
    }

    /// Has what is in the rings printed.
    pub(crate) fn wake(&self) {
        self.parker.unpark();
    }

    /// Has what is left in the rings printed, and no more.
    pub fn end(&self) {
        self.is_over.store(1, Ordering::SeqCst);
        self.parker.unpark();
    }
}

/// What is done now and then by the thread that prints.
pub trait Chore {
    /// It is called about once a second at least.
    fn run(&mut self);
}

/// Writes what comes out of the rings, ring by ring, whenever the printer is woken, until it is
/// ended; then what is left. A sink that waits holds up nobody else but the chore. Answers whether
/// the sink took all; what it didn't take is lost.
pub fn print_while<W: Wait, O: Sink, D: Chore>(
    rt: &W,
    printer: &Printer,
    rings: &mut [Consumer<u8, Global>],
    out: &mut O,
    chore: &mut D,
) -> bool
    ensures { Prints rings.old rings.new (change O.Sink out.old out.new) result }
{
    let mut space = [0; PIECE];
    let mut whole = true;
    for _ in rt.forever() {
        let is_over = printer.is_over.load(Ordering::SeqCst) != 0;
        let taken = print_rings(rings, &mut space, out);
        whole = whole && taken;
        if is_over {
            return whole;
        }
        chore.run();
        printer.parker.park_timeout(rt, Duration::from_millis(WAIT));
    }
    unreachable!()
}

/// Writes what is in each ring, or the first of it.
fn print_rings<O: Sink>(rings: &mut [Consumer<u8, Global>], space: &mut [u8], out: &mut O) -> bool
    ensures { Prints rings.old rings.new (change O.Sink out.old out.new) result }
{
    let mut whole = true;
    for ring in rings.iter_mut() {
        let taken = print_ring(ring, space, out);
        whole = whole && taken;
    }
    whole
}

fn print_ring<O: Sink>(ring: &mut Consumer<u8, Global>, space: &mut [u8], out: &mut O) -> bool
    ensures { PrintsRing ring.old ring.new (change O.Sink out.old out.new) result }
{
    let mut whole = true;
    for _ in 0..PIECES {
        let (count, taken) = print_piece(ring, space, out);
        whole = whole && taken;
        if count == 0 {
            break;
        }
    }
    whole
}

/// Writes as much as there is space for. Answers how much that was, and whether the sink took it.
fn print_piece<O: Sink>(
    ring: &mut Consumer<u8, Global>,
    space: &mut [u8],
    out: &mut O,
) -> (usize, bool)
    ensures { PrintsRing ring.old ring.new (change O.Sink out.old out.new) result.1 }
{
    let count = ring.pop_partial_slice(space);
    (count, write_text(DONE, &space[..count], out) == DONE)
}
