//! What holds of every legal history, by the history alone.
ghost use Rattle.std.specs.Prelude.{◌≡◌, ◌↔◌, ℕ, ◌≤◌, List};
ghost use Rattle.std.specs.List.{AllByRecursion, Contains};
ghost use Rattle.osc_pattern.specs.Methods.{Method};
ghost use Rattle.osc_queue.specs.Timed.{due_of};
ghost use Rattle.osc_model.specs.Limits.{Limits};
ghost use Rattle.osc_model.specs.State.{opening};
ghost use Rattle.osc_model.specs.Events.{Entry};
ghost use Rattle.osc_model.specs.History.{Legal, after, invocations};
ghost use Rattle.osc_laws.specs.Facts.{clock_in, IsRegistered};
ghost use Rattle.osc_laws.specs.Consecutive.{AreConsecutive};
ghost use Rattle.osc_laws.specs.Exactly.{IsInTime, AreExact};
ghost use Rattle.osc_laws.specs.Once.{AreReleasedOnce};
ghost use Rattle.osc_laws.specs.Laws.{KeepsTheLaws};

use osc_model::laws as model;
use osc_pattern::laws as patterns;
use osc_tree::laws as trees;

/// The clock stands where the last tick of the history left it.
pub fn the_clock_is_read_off()
    ensures { (caps : Limits) (history : List Entry) → Legal caps history
        → (after (opening caps) history).clock ≡ clock_in history }
{}

/// A unit waits until its tag at least.
pub fn a_queued_unit_waits_for_its_tag()
    ensures { (caps : Limits) (history : List Entry) → Legal caps history →
        AllByRecursion (λ unit. unit.2.tag ≤ due_of unit) (after (opening caps) history).queue }
{}

/// No unit is released before its tag, by the clock that was handed in.
pub fn no_unit_is_released_before_its_tag()
    ensures { (caps : Limits) (history : List Entry) → Legal caps history →
        AllByRecursion (IsInTime history) (invocations (opening caps) history) }
{
    model::a_release_takes_the_least_unit();
}

/// The accepted units are numbered without a gap, and each is released once, waits, or was discarded since it was late.
pub fn every_unit_is_released_once_or_waits()
    ensures { (caps : Limits) (history : List Entry) → Legal caps history →
        AreReleasedOnce caps.late history (after (opening caps) history).queue }
{}

/// The methods are those that were added and not removed since.
pub fn the_methods_are_read_off()
    ensures { (caps : Limits) (history : List Entry) (method : Method) → Legal caps history →
        Contains (after (opening caps) history).methods method
        ↔ IsRegistered history method.id method.address }
{
    model::a_server_stays_sound();
}

/// The invocations of a unit stand together, message after message, and within a message by their addresses.
pub fn the_calls_of_a_unit_stand_together()
    ensures { (caps : Limits) (history : List Entry) → Legal caps history →
        AreConsecutive (invocations (opening caps) history) }
{
    model::a_server_stays_sound();
    model::a_release_takes_the_least_unit();
    trees::the_matching_methods_ascend();
    patterns::tests_are_exact();
}

/// Each release calls exactly the methods that match when it is made, each once.
pub fn each_release_calls_exactly_what_matches()
    ensures { (caps : Limits) (history : List Entry) → Legal caps history →
        AreExact history (invocations (opening caps) history) }
{
    model::a_server_stays_sound();
    model::a_release_takes_the_least_unit();
    trees::the_matching_methods_ascend();
    patterns::tests_are_exact();
}

/// Every legal history keeps the four laws.
pub fn every_history_keeps_the_laws()
    ensures { (caps : Limits) (history : List Entry) → Legal caps history
        → KeepsTheLaws caps history }
{
    the_calls_of_a_unit_stand_together();
    no_unit_is_released_before_its_tag();
    each_release_calls_exactly_what_matches();
    every_unit_is_released_once_or_waits();
}
