// Calls that are counted from 1, of which some are to fail.
ghost use Rattle.std.specs.Prelude.{◌≡◌, ◌==◌};
ghost use Rattle.std.specs.List.{list_any};
ghost use Rattle.osc_edge.specs.Calls.{fails_next, one_more};

use std::marker::Model;

/// How many calls were made, and the numbers of those that fail.
#[derive(Drop)]
pub(crate) struct Calls {
    made: u64,
    fails: Vec<u32>,
}

impl Model for Calls {
    ghost use Rattle.osc_edge.specs.Calls.{CallsToCome};

    ghost Value = { CallsToCome };

    ghost view = { λ c. record { made = c.made; fails = c.fails.items } };
}

impl Calls {
    pub(crate) fn open(fails: Vec<u32>) -> Self
        ensures { result ≡ record { made = 0; fails = fails.items } }
    {
        Calls { made: 0, fails }
    }

    /// Counts one more call, and says whether it is to fail.
    pub(crate) fn next_fails(&mut self) -> bool
        ensures value { result ≡ fails_next self.old }
        ensures counted { self.new ≡ one_more self.old }
    {
        self.made = self.made.saturating_add(1);
        is_among(&self.fails, self.made)
    }
}

fn is_among(numbers: &[u32], call: u64) -> bool
    ensures { result ≡ list_any (λ number. number == call) numbers.now }
{
    numbers.iter().any(|number| u64::from(*number) == call)
}
