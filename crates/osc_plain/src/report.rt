// What is written of a run.
ghost use Rattle.std.specs.Prelude.{◌≡◌};
ghost use Rattle.osc_plain.specs.Runs.{report_of};

use osc_words::Output;

/// What is written of a run.
#[derive(Clone, Copy, Debug, PartialEq, Eq)]
pub(crate) enum Report {
    /// The printed history, the lines of the faults, and where it was stopped the line on that.
    Text,
    /// The recording alone.
    Recording,
    /// How many entries of each kind there are, and where it was stopped the line on that.
    Summary,
}

/// What words say to write.
pub(crate) fn report_of(output: Output) -> Report
    ensures { result ≡ report_of output }
{
    match output {
        Output::Text => Report::Text,
        Output::Recording => Report::Recording,
    }
}
