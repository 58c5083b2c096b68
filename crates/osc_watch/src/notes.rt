//! How edits are noted, and published.
ghost use Rattle.std.specs.Prelude.{◌≡◌, ◌<◌, ◌^◌, ◌++◌, ◌∷◌, [], drop, None, length, OnOk, IfOk};
ghost use Rattle.std.specs.Prelude.{MatchResult};
ghost use Rattle.osc_watch.specs.Listing.{edit_of};
ghost use Rattle.osc_watch.specs.Waiting.{held_list};
ghost use Rattle.osc_watch.specs.Watching.{noted, published, noticed, IsNoticeOf, IsSameBoard};

use crate::board::Board;
use crate::reached::Change;
use crate::row::RowEdit;
use crate::rule::Sees;
use crate::told::{SheetWriter, new_reader};
use crate::watcher::Notice;
use std::alloc::AllocError;
use std::sync::Wait;

/// Hands the writer the change that is held.
fn hand_in(writer: &mut SheetWriter, held: &mut Option<Change>) -> Result<(), AllocError>
    ensures desk { writer.new.desk ≡ writer.old.desk }
    ensures waiting { drop writer.new.behind writer.new.log.items ++ held_list held.new
        ≡ drop writer.old.behind writer.old.log.items ++ held_list held.old }
    ensures handed { OnOk result (held.new ≡ None) }
{
    let Some(change) = held.take() else {
        return Ok(());
    };
    match writer.append(change) {
        Ok(()) => Ok(()),
        Err(change) => {
            *held = Some(change);
            Err(AllocError)
        }
    }
}

impl Board {
    /// Notes an edit, which isn't published yet.
    pub(crate) fn note(&mut self, edit: RowEdit) -> Result<(), AllocError>
        ensures board { IsSameBoard self.old self.new }
        ensures published { published self.new ≡ published self.old }
        ensures noted { MatchResult result
            (λ _. noted self.new ≡ noted self.old ++ edit_of edit ∷ [])
            (λ _. noted self.new ≡ noted self.old) }
    {
        hand_in(&mut self.writer, &mut self.held)?;
        let mut reached = self.reached.again();
        if !reached.add(&self.head, &edit) {
            return Err(AllocError);
        }
        self.held = Some(Change {
            edit,
            reached: reached.again(),
        });
        self.reached = reached;
        Ok(())
    }

    /// Publishes all edits that are noted, at once.
    pub(crate) fn publish<W: Wait>(self, rt: &W) -> (Board, Result<(), AllocError>)
        ensures board { IsSameBoard self result.0 }
        ensures noted { noted result.0 ≡ noted self }
        ensures published { MatchResult result.1
            (λ _. published result.0 ≡ noted self)
            (λ _. published result.0 ≡ published self) }
    {
        let Board {
            alloc,
            mut writer,
            mut held,
            head,
            reached,
            watchers,
            at,
        } = self;
        if let Err(none) = hand_in(&mut writer, &mut held) {
            let board = Board {
                alloc,
                writer,
                held,
                head,
                reached,
                watchers,
                at,
            };
            return (board, Err(none));
        }
        let (writer, published) = writer.publish_as::<Sees, W>(rt);
        let board = Board {
            alloc,
            writer,
            held,
            head,
            reached,
            watchers,
            at,
        };
        (board, published)
    }

    /// A notice of the edits that are published. It needs one of the places for readers: there is one for each watcher,
    /// and as many again for notices. The `Err` means that none is free.
    pub fn tell(&mut self) -> Result<Notice, AllocError>
        ensures board { IsSameBoard self.old self.new }
        ensures noted { noted self.new ≡ noted self.old }
        ensures published { published self.new ≡ published self.old }
        ensures ours { IfOk result (λ notice. IsNoticeOf self.new notice) }
        ensures told { IfOk result (λ notice. noticed notice ≡ published self.new) }
    {
        Ok(Notice {
            told: new_reader(&mut self.writer)?,
        })
    }
}
