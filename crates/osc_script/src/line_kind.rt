// What a line of a generated script is.
ghost use Rattle.std.specs.Prelude.{◌≡◌};
ghost use Rattle.osc_script.specs.Generated.{kind_of};

/// What a line of a generated script is.
#[derive(Clone, Copy)]
pub(crate) enum LineKind {
    Add,
    Remove,
    Tick,
    Pump,
    /// A lone message to one address.
    One,
    /// A lone message to all addresses of a group.
    All,
    /// A bundle of two messages.
    Two,
    /// A bundle in a bundle.
    Nested,
}

impl LineKind {
    /// The kind of a line for which this number below 32 was drawn.
    pub(crate) fn of(number: u64) -> LineKind
        ensures { result ≡ kind_of number }
    {
        match number {
            0 => LineKind::Add,
            1 => LineKind::Remove,
            2..=5 => LineKind::Tick,
            6..=9 => LineKind::Pump,
            10..=17 => LineKind::One,
            18..=23 => LineKind::All,
            24..=28 => LineKind::Two,
            _ => LineKind::Nested,
        }
    }
}
