// What a unit holds: a message alone, or the messages among the elements of a bundle.
ghost use Rattle.std.specs.Prelude.{◌≡◌, ◌<◌, ◌≤◌, [], None, MatchOption, length};
ghost use Rattle.osc_packet.specs.Reading.{body_fault, messages_in};
ghost use Rattle.osc_packet.specs.Contents.{own_fault, SplitsElements};

use crate::checks::{first_size, is_bundle, split_element};

/// Where the messages of a unit stand.
#[derive(Clone, Copy)]
pub(crate) enum Content<'a> {
    /// A message alone.
    Alone(&'a [u8]),
    /// The elements of a bundle; its enclosed bundles stand among them.
    Among(&'a [u8]),
}

impl<'a> Content<'a> {
    ghost use Rattle.std.specs.Prelude.{◌≡◌, [], MatchOption};
    ghost use Rattle.osc_packet.specs.Contents.{messages_of, IsSound, Splits};

    /// The first message, and what is left.
    pub(crate) fn split_first(self) -> Option<(&'a [u8], Content<'a>)>
        requires { IsSound self }
        ensures { MatchOption result (messages_of self.entry ≡ [])
            (λ x. Splits self.entry x.0.now x.1) }
    {
        match self {
            Content::Alone(message) => Some((message, Content::Among(&[]))),
            Content::Among(elements) => {
                let (message, rest) = first_message(elements)?;
                Some((message, Content::Among(rest)))
            }
        }
    }
}

/// The first message among elements, and the elements after it.
fn first_message(elements: &[u8]) -> Option<(&[u8], &[u8])>
    requires { body_fault own_fault 0 elements.now ≡ None }
    ensures { MatchOption result (messages_in elements.now ≡ [])
        (λ x. SplitsElements elements.now x.0.now x.1.now) }
{
    let mut rest = elements;
    while !rest.is_empty() {
        let (element, after) = split_element(rest, first_size(rest));
        if !is_bundle(element) {
            return Some((element, after));
        }
        rest = after;
    }
    None
}
