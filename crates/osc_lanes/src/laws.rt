//! What holds of a lane in every history that goes on from what its token has seen, and of a
//! recording with room enough for all lanes.
ghost use Rattle.std.specs.Prelude.{◌≡◌, ℕ, ◌+◌, ◌*◌, ◌≤◌, List, [], ◌∷◌, All, Option, None, codes};
ghost use Rattle.std.specs.List.{AllByRecursion};
ghost use Rattle.osc_turn.specs.History.{StartsWith, texts, own};
ghost use Rattle.osc_turn.specs.declared.view.Entry.{Entry};
ghost use Rattle.osc_model.specs.Limits.{Limits};
ghost use Rattle.osc_model.specs.Events.{Room, enrol, add, remove, number, added, removed};
ghost use Rattle.osc_model.specs.History.{Legal};
ghost use Rattle.osc_core.specs.Standing.{history_in};
ghost use Rattle.osc_lanes.specs.declared.plan.LanePlan.{LanePlan};
ghost use Rattle.osc_lanes.specs.declared.plan.LaneEnd.{LaneEnd};
ghost use Rattle.osc_script.specs.declared.act.Act.TheVariants.{Add, Send};
ghost use Rattle.osc_life.specs.Holders.{Onward, seen_by, holder_of};
ghost use Rattle.osc_lanes.specs.Shares.{Account, LaneOf, IsRemovedAt};
ghost use Rattle.osc_life.specs.Crews.{enrolments};
ghost use Rattle.osc_life.specs.Lives.{added_ids, Numbered};
ghost use Rattle.osc_lanes.specs.Performs.{removed_ids, Part};
ghost use Rattle.osc_lanes.specs.Later.{Performs};
ghost use Rattle.osc_lanes.specs.Enough.{enough_for};
ghost use Rattle.osc_lanes.specs.Ends.{told_in, IsReady, IsEndOf};

use osc_method::Method;

/// A lane's share is its share of every history that goes on with no further entry of its token,
/// and the boxes that it removed have heard what such a history says.
pub fn a_lane_keeps_its_share<M: Method>()
    ensures share { (caps : Limits) (plan : LanePlan M) (end : LaneEnd M) (history : List Entry)
        → IsReady plan → IsEndOf M.keep M.heard caps plan end
        → Onward (holder_of caps plan.caller).token (seen_by end.caller) history
        → LaneOf M.keep M.heard (holder_of caps plan.caller) plan.lines.items plan.boxes.items
        (told_in end) history }
    ensures removed { (caps : Limits) (plan : LanePlan M) (end : LaneEnd M) (history : List Entry)
        → IsEndOf M.keep M.heard caps plan end → StartsWith history (seen_by end.caller)
        → Legal caps (history_in (texts history))
        → AllByRecursion (IsRemovedAt M.keep M.heard caps history) end.removed.items }
{
    osc_model::laws::a_method_is_called_while_it_is_registered();
}

/// A recording of as many bytes as `enough_for` says stops no lane, and refuses no enrolment.
pub fn enough_room_never_stops<M: Method>()
    ensures { (caps : Limits) (parts : List (Part M)) (recording : List ℕ) (kept : List (ℕ × M))
        (accounts : List (Account M)) (unenrolled : Option Room)
        → Performs M.keep M.heard caps parts recording kept accounts unenrolled
        → enough_for parts ≤ caps.recording
        → (unenrolled ≡ None) × All (λ account. account.stop ≡ None) accounts }
{}

/// Two callers are enrolled in the order of their numbers; of a history the ids that were added are
/// told, and of lanes those that they removed; two items are numbered from 1; and so many bytes are
/// enough for a lane that adds a method, and for it next to a lane that sends a message.
pub fn examples()
    ensures enrolled { enrolments 1 2
        ≡ record { caller = 0; event = enrol; answer = number 1 }
        ∷ record { caller = 0; event = enrol; answer = number 2 } ∷ [] }
    ensures added { (caller : ℕ) → added_ids
        (record { caller = caller; event = add (codes "/a"); answer = added 0 }
        ∷ record { caller = caller; event = remove (codes "/a"); answer = removed 0 }
        ∷ record { caller = caller; event = add (codes "/b"); answer = added 1 } ∷ [])
        ≡ 0 ∷ 1 ∷ [] }
    ensures removed { removed_ids {M = ℕ}
        (record { faults = []; removed = (4, 0) ∷ (2, 7) ∷ []; back = []; stop = None }
        ∷ record { faults = []; removed = []; back = []; stop = None }
        ∷ record { faults = []; removed = (3, 0) ∷ []; back = 5 ∷ []; stop = None } ∷ [])
        ≡ 4 ∷ 2 ∷ 3 ∷ [] }
    ensures numbered { (before after : ℕ) →
        Numbered (λ place x y. x + place ≡ y) 1 (before ∷ after ∷ [])
        ((before + 1) ∷ (after + 2) ∷ []) }
    ensures enough { (boxes : List ℕ) → enough_for
        (record {
          lines = record { number = 1; lane = 0; act = Add (codes "/a") } ∷ [];
          boxes = boxes;
        } ∷ []) ≡ 60 + 28 + 44 }
    ensures enough_for_two { (boxes : List ℕ) → enough_for
        (record {
          lines = record { number = 1; lane = 0; act = Add (codes "/a") } ∷ [];
          boxes = boxes;
        }
        ∷ record {
          lines = record {
            number = 2;
            lane = 1;
            act = Send (47 ∷ 97 ∷ 0 ∷ 0 ∷ 44 ∷ 0 ∷ 0 ∷ 0 ∷ []);
          } ∷ [];
          boxes = [];
        } ∷ [])
        ≡ 60 + 28 * 2 + (44 + 60) + 44 + 8 }
{}
