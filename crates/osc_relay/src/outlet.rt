//! An outlet of datagrams.
ghost use Rattle.std.specs.Prelude.{◌≡◌, ℕ, List, [], Option};
ghost use Rattle.std.specs.Option.{option_map};
ghost use Rattle.osc_relay.specs.Outlets.{after_sending, losses_after, one_up};

/// What a send answers.
#[derive(Clone, Copy, Debug, PartialEq, Eq)]
pub enum Sending {
    /// The datagram was sent.
    Sent,
    /// It wasn't, and the outlet counted it.
    Failed,
}

/// Something that takes datagrams, one a call, and waits for nothing. What isn't sent is lost, and counted.
pub trait Outlet: Drop {
    /// The datagrams that were sent since the reset, in order, where the outlet tells.
    ghost sent: { Self → Option (List (List ℕ)) };

    /// How many were lost since the reset.
    ghost losses: { Self → ℕ };

    /// How many datagrams it was handed since it was made. No call forgets any.
    ghost tries: { Self → ℕ };

    /// What no call changes and tells it from others, such as where its datagrams go.
    ghost mark: { Self → List ℕ };

    /// Forgets what was sent and lost.
    fn reset(&mut self)
        ensures sent { sent self.new ≡ option_map (λ _. []) (sent self.old) }
        ensures losses { losses self.new ≡ 0 }
        ensures tries { tries self.new ≡ tries self.old }
        ensures mark { mark self.new ≡ mark self.old };

    /// Sends the datagram, or counts it as lost.
    fn send(&mut self, datagram: &[u8]) -> Sending
        ensures sent { sent self.new ≡ after_sending result datagram.now (sent self.old) }
        ensures losses { losses self.new ≡ losses_after result (losses self.old) }
        ensures tries { tries self.new ≡ one_up (tries self.old) }
        ensures mark { mark self.new ≡ mark self.old };

    /// Counts a message as lost that isn't handed to `send`.
    fn lose(&mut self)
        ensures sent { sent self.new ≡ sent self.old }
        ensures losses { losses self.new ≡ one_up (losses self.old) }
        ensures tries { tries self.new ≡ tries self.old }
        ensures mark { mark self.new ≡ mark self.old };

    /// How many were lost since the reset; 2^64 - 1 is also given for more.
    fn lost(&self) -> u64
        ensures { result ≡ losses self.now };
}
