//! What the definitions say of a recording with room enough, and of a pump.
ghost use Rattle.std.specs.Prelude.{◌≡◌, ◌≤◌, false, List, None};
ghost use Rattle.osc_model.specs.Limits.{Limits};
ghost use Rattle.osc_model.specs.State.{State};
ghost use Rattle.osc_model.specs.Events.{release};
ghost use Rattle.osc_model.specs.Step.{step};
ghost use Rattle.osc_model.specs.History.{after};
ghost use Rattle.osc_script.specs.declared.line.Line.{Line};
ghost use Rattle.osc_player.specs.Plain.{is_released, pump, plain};
ghost use Rattle.osc_player.specs.Enough.{enough};

/// A recording of as many bytes as `enough` says never stops a script.
pub fn enough_room_never_stops()
    ensures { (caps : Limits) (lines : List Line) → enough lines ≤ caps.recording
        → (plain caps lines).stop ≡ None }
{}

/// A pump goes on until nothing is due, or until there is no room for the next release.
pub fn nothing_is_released_after_a_pump()
    ensures { (state : State)
        → is_released (step (after state (pump state)) release).answer ≡ false }
{}
