//! What holds of servers that are alike.
ghost use Rattle.std.specs.Prelude.{◌≡◌, None, List};
ghost use Rattle.osc_model.specs.State.{State, AreNumbered};
ghost use Rattle.osc_model.specs.Events.{Event, room_in};
ghost use Rattle.osc_model.specs.Step.{step, decided};
ghost use Rattle.osc_alike.specs.Alike.{AreAlike, StepAlike, HaveRoom, PlaysAlike};

/// One server's recording has no end, the other's has, and else they are alike. As long as there is
/// room, each event is answered alike and invokes the same methods with the same messages in the
/// same order, and the servers stay alike.
pub fn alike_servers_stay_alike()
    ensures step { (ideal real : State) (event : Event)
        → AreNumbered ideal.next_unit ideal.queue → AreNumbered real.next_unit real.queue
        → AreAlike ideal real → room_in (step real event).answer ≡ None
        → StepAlike event (decided ideal event) (step real event) }
    ensures events { (ideal real : State) (events : List Event)
        → AreNumbered ideal.next_unit ideal.queue → AreNumbered real.next_unit real.queue
        → AreAlike ideal real → HaveRoom real events → PlaysAlike ideal real events }
{}
