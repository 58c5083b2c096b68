// What goes on while lanes play: a watcher reads the list again and again.
ghost use Rattle.std.specs.Prelude.{◌≡◌, IfOk};
ghost use Rattle.osc_live.specs.Seen.{history_of};
ghost use Rattle.osc_watch.specs.Refreshing.{HasReadPart};
ghost use Rattle.osc_live.specs.Looks.{HasLooked};
ghost use Rattle.osc_display.specs.Displays.{Lists};

use crate::display::{Display, list, read, refresh};
use osc_life::{Desk, Done, Gate, Meanwhile};
use osc_live::Caller;
use osc_method::Method;
use osc_watch::Methods;
use std::alloc::AllocError;
use std::sync::Wait;

/// The number of the next read.
#[derive(Clone, Copy)]
pub(crate) struct Watch {
    pub(crate) reads: u32,
}

impl<M: Method> Meanwhile<M, Display> for Watch {
    type End = Result<Methods, AllocError>;

    ghost rounds = { λ before now state holder v w. HasLooked v w
        × HasReadPart holder.caps now.board (history_of w) };

    ghost ends = { λ before after end holder tokens v w. HasLooked v w
        × IfOk end (Lists (history_of w)) };

    fn round<W: Wait, G: Gate>(
        &mut self,
        on: &mut Display,
        desk: &Desk<'_, M, W, G>,
        caller: Caller,
    ) -> (Caller, bool) {
        let (caller, fresh) = refresh(on, desk.rt, desk.live, caller);
        match fresh {
            Ok(()) => {
                let read = read(on, desk.alloc, self.reads, desk.gate);
                self.reads = self.reads.saturating_add(1);
                (caller, read)
            }
            Err(_) => (caller, false),
        }
    }

    fn last<W: Wait, G: Gate>(
        self,
        on: &mut Display,
        desk: &Desk<'_, M, W, G>,
        caller: Caller,
    ) -> Done<Result<Methods, AllocError>> {
        let (caller, fresh) = refresh(on, desk.rt, desk.live, caller);
        match fresh {
            Ok(()) => {
                let end = list(on, desk.alloc);
                Done { caller, end }
            }
            Err(none) => Done {
                caller,
                end: Err(none),
            },
        }
    }
}
