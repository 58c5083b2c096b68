// Numbers that are drawn.
ghost use Rattle.std.specs.Prelude.{◌≡◌, ◌<◌};
ghost use Rattle.osc_script.specs.Draws.{after, drawn};

/// A number, from which each draw makes the next.
#[derive(Drop)]
pub(crate) struct Draws {
    pub(crate) number: u64,
}

impl Draws {
    #[tactic(auto, unfolding(crate::specs::Draws::following))]
    /// Draws a number below `bound`.
    pub(crate) fn below(&mut self, bound: u64) -> u64
        requires { 0 < bound }
        ensures number { self.new.number ≡ after 1 self.old.number }
        ensures value { result ≡ drawn 1 bound self.old.number }
        ensures within { result < bound }
    {
        self.number = self
            .number
            .wrapping_mul(6_364_136_223_846_793_005)
            .wrapping_add(1_442_695_040_888_963_407);
        (self.number >> 33) % bound
    }
}
