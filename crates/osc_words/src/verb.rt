//! The first word, and what each command has after it.
ghost use Rattle.std.specs.Prelude.{◌≡◌};
ghost use Rattle.osc_words.specs.Verbs;

use crate::options::{Flag, Parameter, Quantity};

/// What a command does.
#[derive(Clone, Copy, Debug, PartialEq, Eq)]
pub enum Verb {
    Run,
    Replay,
    Dump,
    Upgrade,
    Score,
    Gen,
    Lanes,
    Serve,
    Resume,
}

static RUN: [Parameter; 7] = [
    Parameter::Flag(Flag::Bytes),
    Parameter::Number(Quantity::Units),
    Parameter::Number(Quantity::Blocks),
    Parameter::Number(Quantity::Methods),
    Parameter::Number(Quantity::Nodes),
    Parameter::Number(Quantity::Recording),
    Parameter::Late,
];

static SCORE: [Parameter; 1] = [Parameter::Flag(Flag::Play)];

static GEN: [Parameter; 2] = [
    Parameter::Number(Quantity::Seed),
    Parameter::Number(Quantity::Lines),
];

static LANES: [Parameter; 8] = [
    Parameter::Flag(Flag::Watch),
    Parameter::Number(Quantity::Units),
    Parameter::Number(Quantity::Blocks),
    Parameter::Number(Quantity::Methods),
    Parameter::Number(Quantity::Nodes),
    Parameter::Number(Quantity::Recording),
    Parameter::Late,
    Parameter::File,
];

static SERVE: [Parameter; 12] = [
    Parameter::Flag(Flag::Tcp),
    Parameter::Number(Quantity::Port),
    Parameter::Number(Quantity::Links),
    Parameter::Number(Quantity::Count),
    Parameter::Number(Quantity::Idle),
    Parameter::Number(Quantity::Units),
    Parameter::Number(Quantity::Blocks),
    Parameter::Number(Quantity::Methods),
    Parameter::Number(Quantity::Nodes),
    Parameter::Number(Quantity::Recording),
    Parameter::Late,
    Parameter::File,
];

/// What may stand before the files of a `resume`.
pub(crate) static BEFORE_FILES: [Parameter; 1] = [Parameter::Number(Quantity::Recording)];

static RESUME: [Parameter; 3] = [
    Parameter::Number(Quantity::Recording),
    Parameter::Old,
    Parameter::File,
];

impl Verb {
    /// What the word says.
    pub(crate) fn read(word: &str) -> Option<Verb>
        ensures { result ≡ Verbs.verb_of word.now }
    {
        match word {
            "run" => Some(Verb::Run),
            "replay" => Some(Verb::Replay),
            "dump" => Some(Verb::Dump),
            "upgrade" => Some(Verb::Upgrade),
            "score" => Some(Verb::Score),
            "gen" => Some(Verb::Gen),
            "lanes" => Some(Verb::Lanes),
            "serve" => Some(Verb::Serve),
            "resume" => Some(Verb::Resume),
            _ => None,
        }
    }

    /// What may stand after it.
    pub(crate) fn options(self) -> &'static [Parameter]
        ensures { result.now ≡ Verbs.options_of self }
    {
        match self {
            Verb::Run => RUN.as_slice(),
            Verb::Score => SCORE.as_slice(),
            Verb::Gen => GEN.as_slice(),
            Verb::Lanes => LANES.as_slice(),
            Verb::Serve => SERVE.as_slice(),
            Verb::Resume => RESUME.as_slice(),
            Verb::Replay | Verb::Dump | Verb::Upgrade => &[],
        }
    }
}
