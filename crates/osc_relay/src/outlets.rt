// All outlets of a relay, one after another.
ghost use Rattle.std.specs.Prelude.{◌≡◌, ◌≤◌, length, take, option_map};
ghost use Rattle.std.specs.List.{AllZip};
ghost use Rattle.std.specs.Option.{ForSome};
ghost use Rattle.osc_relay.specs.Outlets.{IsReset, Takes};

use crate::Outlet;

pub(crate) fn reset_each<O: Outlet>(outlets: &mut [O])
    ensures { AllZip (IsReset O.sent O.losses O.tries O.mark) outlets.old outlets.new }
{
    for outlet in outlets.iter_mut() {
        outlet.reset();
    }
}

/// Hands each outlet the datagram that ends here; where it has no end, each has lost a message.
pub(crate) fn send_each<O: Outlet>(outlets: &mut [O], space: &[u8], end: Option<usize>)
    requires { ForSome end (λ end. end ≤ length space.now) }
    ensures { AllZip (Takes O.sent O.losses O.tries O.mark (option_map (λ end. take end space.now) end))
        outlets.old outlets.new }
{
    for outlet in outlets.iter_mut() {
        send_to(outlet, space, end);
    }
}

fn send_to<O: Outlet>(outlet: &mut O, space: &[u8], end: Option<usize>)
    requires { ForSome end (λ end. end ≤ length space.now) }
    ensures { Takes O.sent O.losses O.tries O.mark (option_map (λ end. take end space.now) end)
        outlet.old outlet.new }
{
    match end {
        Some(end) => {
            outlet.send(&space[..end]);
        }
        None => outlet.lose(),
    }
}
