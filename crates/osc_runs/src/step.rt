//! A line that may be told with others.
use osc_shown::Look;
use std::marker::Model;

/// A line that may be told with others of its address: that of a unit of one message with one
/// argument, which was on time and called just its own address.
#[derive(Drop)]
pub struct Step<'a> {
    /// How the line looks.
    pub look: Look,
    /// When it was called, as a time tag.
    pub moment: u64,
    pub address: &'a [u8],
    /// The words of the argument.
    pub words: &'a [u8],
    /// The line as it stands by itself, with its end.
    pub line: &'a [u8],
}

impl<'a> Model for Step<'a> {
    ghost use Rattle.osc_runs.specs.Gathering.{Plain};

    ghost Value = { Plain };

    ghost view = { λ s. record {
      look = s.look;
      moment = s.moment;
      address = s.address.now;
      words = s.words.now;
      line = s.line.now;
    } };
}
