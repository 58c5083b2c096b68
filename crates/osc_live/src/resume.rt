//! How a server goes on from a recording.
ghost use Rattle.std.specs.Prelude.{◌≡◌, ◌≤◌, [], List, All, length, IfOk, IfErr, vec_capacity};
ghost use Rattle.osc_turn.specs.Passes.{view};
ghost use Rattle.osc_turn.specs.Rule.{reopening};
ghost use Rattle.osc_turn.specs.declared.limits.TheConstants.{MAX_PASSES};
ghost use Rattle.osc_model.specs.Limits.{Limits, header_size, max_recording};
ghost use Rattle.osc_model.specs.Events.{Entry as Recorded};
ghost use Rattle.osc_model.specs.Enrolled.{callers_in};
ghost use Rattle.osc_model.specs.Recordings.{header_text};
ghost use Rattle.osc_core.specs.Standing.{history_in};
ghost use Rattle.osc_core.specs.Telling.{told};
ghost use Rattle.osc_live.specs.Seen.{IsTokenOf, past_of};
ghost use Rattle.osc_live.specs.Tokens.{IsOurs};
ghost use Rattle.osc_live.specs.Closing.{known};
ghost use Rattle.osc_live.specs.Resuming.{Records, CanResume, Resumes, HaveHeardAll};
ghost use Rattle.osc_live.specs.Resuming.{roomier, all_resumed, marks};

use crate::back::put_back;
use crate::caller::Caller;
use crate::live::Live;
use crate::redo::redo_all;
use crate::rows::Rows;
use osc_core::Core;
use osc_method::Method;
use osc_record::Caps;
use osc_turn::{Pass, Turn};
use std::alloc::{AllocError, Global};
use std::collections::VecDeque;

/// A server that goes on from a recording.
#[derive(Drop)]
pub struct LiveResumed<M: Method> {
    /// The server.
    pub live: Live<M>,
    /// The tokens of all callers of the recording, ascending.
    pub callers: Vec<Caller>,
    /// The ids that the recording removes, in that order, each with its box.
    pub removed: Vec<(u32, M)>,
    /// The boxes that no added method got, in their order.
    pub left: Vec<M>,
}

impl<M: Method> Live<M> {
    /// Takes up the server that a recording leaves, with room for so many bytes of recording at
    /// least. The boxes of the bank are those of the added methods, in order, and hear the
    /// invocations of the recording again. The `Err` means that there is no memory, and hands all
    /// boxes back, in their order.
    pub fn resume(
        alloc: Global,
        recording: &[u8],
        room: u32,
        bank: Vec<M>,
    ) -> Result<LiveResumed<M>, (AllocError, Vec<M>)>
        requires recording { CanResume recording.now (length bank.items) }
        requires room { (header_size ≤ room) × (room ≤ max_recording) }
        ensures resumes { IfOk result
            (λ resumed. (caps : Limits) (history : List Recorded)
            → Records recording.now caps history
            → Resumes M.keep M.heard caps history room bank.items resumed.live.caps
            (past_of resumed.live.turn) (known resumed.callers.items) resumed.removed.items
            resumed.left.items) }
        ensures heard { IfOk result (λ resumed. (caps : Limits) (history : List Recorded)
            → Records recording.now caps history
            → HaveHeardAll M.keep M.heard resumed.live.caps history resumed.removed.items) }
        ensures ours { IfOk result (λ resumed. All (IsOurs resumed.live) resumed.callers.items) }
        ensures back { IfErr result
            (λ refused. marks M.keep M.heard refused.1.items ≡ marks M.keep M.heard bank.items) }
    {
        osc_model::laws::callers_are_counted();
        osc_model::laws::a_legal_history_is_recordable();
        osc_model::laws::a_server_stays_sound();
        osc_model::laws::a_method_is_called_while_it_is_registered();
        let (caps, rows) = Rows::open(recording);
        let caps = with_room(caps, room);
        let mut stage = match set_stage(alloc, caps) {
            Ok(stage) => stage,
            Err(none) => return Err((none, bank)),
        };
        let whole = bank.len();
        let mut bank = VecDeque::from_vec(bank);
        let redone = redo_all(alloc, &mut stage.core, rows, &mut bank, &mut stage.removed);
        let Stage {
            core,
            removed,
            callers,
        } = stage;
        if let Err(none) = redone {
            let taken = (whole - bank.len()) as u32;
            return Err((none, put_back(core, removed, bank, taken)));
        }
        let count = core.callers();
        match Turn::reopen(alloc, core) {
            Ok((turn, pass)) => {
                let live = Live { turn, caps };
                let callers = live.hand_tokens(pass, count, callers);
                Ok(LiveResumed {
                    live,
                    callers,
                    removed,
                    left: bank.into_vec(),
                })
            }
            Err((none, core)) => {
                let taken = (whole - bank.len()) as u32;
                Err((none, put_back(core, removed, bank, taken)))
            }
        }
    }

    /// The tokens of so many callers, in room that is there.
    fn hand_tokens(&self, pass: Pass, count: u32, callers: Vec<Caller>) -> Vec<Caller>
        requires ours { IsTokenOf self.now.turn self.now.caps pass }
        requires first { view pass
            ≡ reopening (header_text self.now.caps) (past_of self.now.turn) }
        requires none { callers.items ≡ [] }
        requires room { count ≤ vec_capacity callers }
        requires some { 1 ≤ count }
        requires few { count ≤ MAX_PASSES }
        requires enrolled { count ≤ callers_in (history_in (past_of self.now.turn)) }
        ensures tokens { known result.items
            ≡ all_resumed self.now.caps (past_of self.now.turn) count }
        ensures ours { All (IsOurs self.now) result.items }
    {
        let mut callers = callers;
        let mut pass = pass;
        let mut number = 1;
        while number < count {
            let (first, made) = self.turn.guest(pass);
            pass = first;
            let Ok(guest) = made else { unreachable!() };
            callers.push_reserved(Caller {
                pass: guest,
                number,
            });
            number += 1;
        }
        let Ok(()) = callers.insert(0, Caller { pass, number: 0 }) else {
            unreachable!()
        };
        callers
    }
}

/// What an empty server needs, before any box is moved.
#[derive(Drop)]
struct Stage<M: Method> {
    core: Core<M>,
    removed: Vec<(u32, M)>,
    callers: Vec<Caller>,
}

/// The limits, with room for so many bytes at least.
fn with_room(caps: Caps, room: u32) -> Caps
    requires { room ≤ max_recording }
    ensures { result ≡ roomier caps room }
{
    if caps.recording() < room {
        caps.with_recording(room)
    } else {
        caps
    }
}

fn set_stage<M: Method>(alloc: Global, caps: Caps) -> Result<Stage<M>, AllocError>
    ensures core { IfOk result
        (λ stage. (stage.core.performance ≡ record { caps = caps; history = [] })
        × (told M.keep M.heard stage.core.boxes.items ≡ [])) }
    ensures removed { IfOk result (λ stage. stage.removed.items ≡ []) }
    ensures callers { IfOk result (λ stage. (stage.callers.items ≡ [])
        × (caps.callers ≤ vec_capacity stage.callers)) }
{
    let callers = Vec::with_capacity(alloc, caps.callers() as usize)?;
    Ok(Stage {
        core: Core::open(alloc, caps)?,
        removed: Vec::new(alloc),
        callers,
    })
}
