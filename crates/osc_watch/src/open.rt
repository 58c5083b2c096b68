//! How a board is opened.
ghost use Rattle.osc_watch.specs.declared.open.TheConstants.{MAX_WATCHERS};
ghost use Rattle.std.specs.Prelude.{◌≡◌, ◌≤◌, List, [], length, All, Some, IfOk};
ghost use Rattle.left_right.specs.Sides.{view};
ghost use Rattle.osc_model.specs.Limits.{Limits, header_size};
ghost use Rattle.osc_model.specs.Events.{Entry};
ghost use Rattle.osc_watch.specs.Refreshing.{HasReadPart};
ghost use Rattle.osc_watch.specs.Watching.{noted, published, watched, IsWatcherOf};

use crate::board::Board;
use crate::reach::begin;
use crate::rule::Sees;
use crate::sheet::Sheet;
use crate::told::{SheetWriter, new_reader};
use crate::watcher::Watcher;
use left_right::writer::Writer;
use osc_record::HEADER_SIZE;
use std::alloc::{AllocError, Global};
use std::sync::Wait;

/// The most watchers of a board.
pub const MAX_WATCHERS: u32 = 64;

impl Board {
    /// A board that has read nothing, and so many watchers. The `Err` means that there is no memory for them.
    #[tactic(auto, using(crate::proofs::Unread::nothing_read))]
    pub fn open<W: Wait>(
        rt: &W,
        alloc: Global,
        watchers: u32,
    ) -> Result<(Board, Vec<Watcher>), AllocError>
        requires few { (1 ≤ watchers) × (watchers ≤ MAX_WATCHERS) }
        ensures noted { IfOk result (λ opened. noted opened.0 ≡ []) }
        ensures published { IfOk result (λ opened. published opened.0 ≡ []) }
        ensures at { IfOk result (λ opened. opened.0.at ≡ header_size) }
        ensures unread { IfOk result (λ opened. (caps : Limits) (history : List Entry)
            → HasReadPart caps opened.0 history) }
        ensures as_many { IfOk result (λ opened. (length opened.1.items ≡ watchers)
            × (opened.0.watchers ≡ watchers)) }
        ensures ours { IfOk result (λ opened. All (IsWatcherOf opened.0) opened.1.items) }
        ensures watched { IfOk result
            (λ opened. All (λ watcher. watched watcher ≡ []) opened.1.items) }
    {
        osc_record::laws::sizes();
        let (head, reached) = begin();
        let first = Sheet {
            alloc,
            rows: Vec::new(alloc),
            reached: reached.again(),
        };
        let second = Sheet {
            alloc,
            rows: Vec::new(alloc),
            reached: reached.again(),
        };
        let writer = Writer::new(alloc, first, second, 2 * watchers as usize)?;
        let (mut writer, shown) = writer.publish_as::<Sees, W>(rt);
        if shown.is_err() {
            writer.take(rt);
            return Err(AllocError);
        }
        match deal(alloc, &mut writer, watchers) {
            Ok(dealt) => {
                let board = Board {
                    alloc,
                    writer,
                    held: None,
                    head,
                    reached,
                    watchers,
                    at: HEADER_SIZE,
                };
                Ok((board, dealt))
            }
            Err(none) => {
                writer.take(rt);
                Err(none)
            }
        }
    }
}

/// So many watchers, each told of what is published.
fn deal(alloc: Global, writer: &mut SheetWriter, watchers: u32) -> Result<Vec<Watcher>, AllocError>
    requires { view writer.old.desk.place ≡ Some writer.old.desk.shown.value.reached }
    ensures shown { writer.new.desk.shown ≡ writer.old.desk.shown }
    ensures log { writer.new.log ≡ writer.old.log }
    ensures behind { writer.new.behind ≡ writer.old.behind }
    ensures view { view writer.new.desk.place ≡ view writer.old.desk.place }
    ensures as_many { IfOk result (λ dealt. length dealt.items ≡ watchers) }
    ensures told { IfOk result (λ dealt. All
        (λ watcher. watcher.told.reached ≡ writer.old.desk.shown.value.reached) dealt.items) }
{
    let mut dealt = Vec::with_capacity(alloc, watchers as usize)?;
    for _ in 0..watchers {
        match dealt.push(Watcher {
            told: new_reader(writer)?,
        }) {
            Ok(()) => {}
            Err(_) => return Err(AllocError),
        }
    }
    Ok(dealt)
}
