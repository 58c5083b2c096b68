//! What holds of every history and of the relays that have heard it. The function does nothing; its
//! contract is the law.
ghost use Rattle.std.specs.Prelude.{◌≡◌, ◌<◌, ℕ, List, length, Option};
ghost use Rattle.osc_model.specs.Limits.{Limits};
ghost use Rattle.osc_model.specs.Events.{Entry};
ghost use Rattle.osc_model.specs.Heard.{Told, calls_bytes};
ghost use Rattle.osc_model.specs.History.{Legal, HasHeard, invocations};
ghost use Rattle.osc_model.specs.State.{opening};
ghost use Rattle.osc_relay.specs.Sent.{HasRelayed};
ghost use Rattle.osc_stage.specs.Sent.{HasSent};

/// What a relay sent is what the history called. Where the relay's calls in a legal history have
/// fewer bytes than it keeps, each outlet was handed exactly these calls, and each was sent or
/// lost.
pub fn what_was_sent_is_what_the_history_called()
    ensures { (caps : Limits) (history : List Entry) (told : Told) (address : List ℕ) (room : ℕ)
        (sent : Option (List (List ℕ))) (losses : ℕ)
        → Legal caps history → HasHeard (invocations (opening caps) history) told
        → length (calls_bytes (invocations (opening caps) history) told.id) < told.keep.most
        → ∥ HasRelayed address room told.keep.most told.heard sent losses ∥₁
        → HasSent (invocations (opening caps) history) told.id address room sent losses }
{
    osc_model::laws::invocations_are_of_registered_methods();
    osc_model::laws::a_server_stays_sound();
    osc_relay::laws::what_was_sent_is_what_was_called();
}
