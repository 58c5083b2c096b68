//! From when to when there are lines.

/// The moment of the first line that has a time, shown or left out, and that of the last that was shown.
#[derive(Clone, Copy, Debug, PartialEq, Eq)]
pub struct Span {
    pub first: Option<u64>,
    pub last: Option<u64>,
}

impl Span {
    ghost use Rattle.std.specs.Prelude.{◌≡◌};
    ghost use Rattle.osc_report.specs.Pages as spec;

    pub(crate) fn none() -> Span
        ensures { result ≡ spec.no_span }
    {
        Span {
            first: None,
            last: None,
        }
    }

    /// With lines shown at a moment.
    pub(crate) fn with(self, moment: u64) -> Span
        ensures { result ≡ spec.shown_at self moment }
    {
        Span {
            first: self.first,
            last: Some(moment),
        }
    }
}
