//! The board, which publishes the list of methods: how it is closed, and whether a watcher knows all that it has read.
ghost use Rattle.std.specs.Prelude.{◌≡◌, ◌++◌, drop, Some};
ghost use Rattle.left_right.specs.Sides.{view};
ghost use Rattle.osc_watch.specs.Rule.{head_of};
ghost use Rattle.osc_watch.specs.Waiting.{held_list, edits_in, newest};

use crate::reach::{Head, compare};
use crate::reached::{Change, Reached};
use crate::told::SheetWriter;
use crate::watcher::Watcher;
use std::alloc::Global;
use std::sync::Wait;

/// The one writer of the list. Contracts see the edits that it has read, `noted`, and those that watchers can see,
/// `published`, which are a beginning of them. It isn't dropped: `close` ends it.
pub struct Board {
    pub(crate) alloc: Global,
    pub(crate) writer: SheetWriter,
    // The edit that was read last, until the writer has room for it.
    pub(crate) held: Option<Change>,
    pub(crate) head: Head,
    pub(crate) reached: Reached,
    pub(crate) watchers: u32,
    // The place in the recording up to which it has read.
    pub(crate) at: u32,
    ghost head_is: { head ≡ head_of reached.seen.book },
    ghost one_list: { writer.desk.shown.value.reached.seen.book ≡ reached.seen.book },
    ghost noted: { reached.seen.log ≡ writer.desk.shown.value.reached.seen.log
        ++ edits_in (drop writer.behind writer.log.items ++ held_list held) },
    ghost newest: { reached ≡ newest writer.desk.shown.value.reached
        (drop writer.behind writer.log.items ++ held_list held) },
    ghost knows: { view writer.desk.place ≡ Some writer.desk.shown.value.reached },
}

impl Board {
    ghost use Rattle.std.specs.Prelude.{length, All, true};
    ghost use Rattle.osc_watch.specs.Watching.{noted, watched, IsWatcherOf};

    /// Whether the watcher has read or was told of exactly the edits that the board has read. Takes no memory, and
    /// enters nothing.
    pub fn agrees(&self, watcher: &Watcher) -> bool
        requires ours { IsWatcherOf self.now watcher.now }
        ensures same { result ≡ true → watched watcher.now ≡ noted self.now }
        ensures exact { watched watcher.now ≡ noted self.now → result ≡ true }
    {
        compare(&self.reached, &watcher.told.reached);
        self.reached.edits == watcher.told.reached.edits
    }

    /// Ends the board and its watchers. Takes no memory.
    pub fn close<W: Wait>(self, rt: &W, watchers: Vec<Watcher>)
        requires all { (length watchers.items ≡ self.watchers)
            × All (IsWatcherOf self) watchers.items }
    {
        drop(watchers);
        let Board {
            alloc: _,
            writer,
            held: _held,
            head: _head,
            reached: _reached,
            watchers: _,
            at: _,
        } = self;
        writer.take(rt);
    }
}
