//! Plays a script on a server, which records it.
ghost use Rattle.std.specs.Prelude.{◌≡◌, ◌++◌, [], ◌<◌, ◌≤◌, IsTrue, List, map, length, IfOk, OnOk};
ghost use Rattle.std.specs.Option.{option_map};
ghost use Rattle.std.specs.List.Sorted.{IsPermutation, IsNonDecreasingBy};
ghost use Rattle.std.specs.Vec.Iter.{into_iter_items};
ghost use Rattle.osc_model.specs.Recordings.{record_text};
ghost use Rattle.osc_model.specs.History.{Legal};
ghost use Rattle.osc_record.specs.Shown.{room_of};
ghost use Rattle.osc_core.specs.Ids.{is_ascending};
ghost use Rattle.osc_script.specs.Adds.{count_adds};
ghost use Rattle.osc_player.specs.Runs.{IsRunOf};
ghost use Rattle.osc_player.specs.Bank.{IsAccounted};
ghost use Rattle.osc_player.specs.Tallied.{HasTallied, IsDone, AreParted};

use crate::player::Player;
use osc_atoms::Room;
use osc_core::{Closed, Core};
use osc_method::Method;
use osc_print::Text;
use osc_record::Caps;
use osc_script::Line;
use std::alloc::{AllocError, Global};
use std::vec::IntoIter;

/// The result of a script and of a bank.
#[derive(Drop)]
pub struct Played<M> {
    /// The recording of its history.
    pub bytes: Vec<u8>,
    /// The lines of the faults of its packets.
    pub faults: Text,
    /// Where there was no room for an event's entry, if the run was stopped for this.
    pub stop: Option<Room>,
    /// The methods that were added, by ascending ids, the removed ones among them.
    pub heard: Vec<(u32, M)>,
    /// The other boxes of the bank: those of adds that were refused, and those after the last add.
    pub left: Vec<M>,
}

/// Plays the lines on a new server as caller 0, up to the first event for whose entry the recording has no room; the
/// k-th add gets the k-th box. An `Err` means out of memory.
pub fn play<M: Method>(
    alloc: Global,
    caps: Caps,
    lines: Vec<Line>,
    bank: Vec<M>,
) -> Result<Played<M>, AllocError>
    requires enough { count_adds lines.items ≤ length bank.items }
    ensures run { IfOk result
        (λ played. IsRunOf played.bytes.items played.faults
        (option_map room_of played.stop) caps lines.items) }
    ensures accounted { IfOk result
        (λ played. IsAccounted M.keep M.heard caps lines.items bank.items played.heard.items
        played.left.items) }
    ensures ascending { IfOk result
        (λ played. IsTrue (is_ascending (map (λ one. one.0) played.heard.items))) }
{
    osc_laws::laws::every_history_keeps_the_laws();
    let mut player = Player::open(alloc, caps, bank)?;
    let stop = player.play_lines(lines)?;
    let played = player.finish(stop)?;
    Ok(played)
}

impl<M: Method> Player<M> {
    fn open(alloc: Global, caps: Caps, bank: Vec<M>) -> Result<Player<M>, AllocError>
        ensures performance { IfOk result
            (λ player. player.core.performance ≡ record { caps = caps; history = [] }) }
        ensures faults { IfOk result (λ player. player.faults ≡ []) }
        ensures bank { IfOk result (λ player. into_iter_items player.bank ≡ bank.items) }
        ensures boxes { IfOk result (λ player. HasTallied M.keep M.heard bank.items player) }
    {
        Ok(Player {
            core: Core::open(alloc, caps)?,
            bank: bank.into_iter(),
            removed: Vec::new(alloc),
            left: Vec::new(alloc),
            faults: Text::open(alloc),
        })
    }

    /// Ends the server, and hands out its recording and the boxes.
    fn finish(self, stop: Option<Room>) -> Result<Played<M>, AllocError>
        ensures text { IfOk result
            (λ played. played.bytes.items
            ≡ record_text self.core.performance.caps self.core.performance.history) }
        ensures legal { OnOk result
            (Legal self.core.performance.caps self.core.performance.history) }
        ensures faults { IfOk result (λ played. played.faults ≡ self.faults) }
        ensures stop { IfOk result (λ played. played.stop ≡ stop) }
        ensures boxes { IfOk result (λ played. (bank : List M) → IsDone M.keep M.heard bank self →
            AreParted M.keep M.heard self.core.performance bank played.heard.items
            played.left.items) }
    {
        let Player {
            core,
            bank,
            removed,
            mut left,
            faults,
        } = self;
        let Closed { bytes, kept } = core.close();
        let heard = gather(kept, removed)?;
        keep_rest(&mut left, bank)?;
        Ok(Played {
            bytes,
            faults,
            stop,
            heard,
            left,
        })
    }
}

/// The boxes of the registered methods and those of the removed ones, by ascending ids. An `Err` means out of memory.
pub fn gather<M: Method>(
    mut kept: Vec<(u32, M)>,
    mut removed: Vec<(u32, M)>,
) -> Result<Vec<(u32, M)>, AllocError>
    ensures each { IfOk result
        (λ sorted. IsPermutation (kept.items ++ removed.items) sorted.items) }
    ensures ascending { IfOk result (λ sorted. IsNonDecreasingBy (λ one. one.0) sorted.items) }
{
    kept.append(&mut removed)?;
    sort_by_id(&mut kept)?;
    Ok(kept)
}

fn sort_by_id<M: Method>(heard: &mut Vec<(u32, M)>) -> Result<(), AllocError>
    ensures each { IsPermutation heard.old.items heard.new.items }
    ensures ascending { OnOk result (IsNonDecreasingBy (λ one. one.0) heard.new.items) }
{
    heard.sort_by_key(
        |one: &(u32, M)| -> u32
            ensures { result ≡ one.now.0 }
        { one.0 },
    )?;
    Ok(())
}

/// Keeps the boxes that no add has taken. An `Err` means out of memory.
pub fn keep_rest<M: Method>(left: &mut Vec<M>, rest: IntoIter<M>) -> Result<(), AllocError>
    ensures { OnOk result (left.new.items ≡ left.old.items ++ into_iter_items rest) }
{
    for method in rest {
        left.push(method)?;
    }
    Ok(())
}
