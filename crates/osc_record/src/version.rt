// The versions of the format.

/// A version of the format (docs/FORMATS.md, "The recording").
#[derive(Clone, Copy, Debug, PartialEq, Eq)]
pub(crate) enum Version {
    /// Without what becomes of late units, all of which are delivered.
    First,
    Second,
}
