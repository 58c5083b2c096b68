// The words of a message.
ghost use Rattle.std.specs.Prelude.{◌≡◌, ◌++◌, OnOk, codes, option_map};
ghost use Rattle.std.specs.List.{flat_map};
ghost use Rattle.osc_message.specs.Arguments.{message_arguments};
ghost use Rattle.osc_message.specs.Shown.{shown};
ghost use Rattle.osc_shown.specs.Arguments.{AddsWords, AddsSpaced};
ghost use Rattle.osc_shown.specs.Added.{AddsText};
ghost use Rattle.osc_shown.specs.Lines.{tags_text};
ghost use Rattle.osc_shown.specs.Texts.{shown_byte};

use crate::argument::add_argument;
use crate::bytes::{add, add_byte};
use crate::quoted::add_all_shown;
use osc_message::{Arg, Message};
use std::alloc::AllocError;

/// Adds the pattern, and a word for each argument, whole or cut where it is long, or the tags where
/// one is unknown.
pub(crate) fn add_message(
    out: &mut Vec<u8>,
    whole: bool,
    message: &Message<'_>,
) -> Result<(), AllocError>
    ensures { OnOk result (AddsText whole message.now out.old.items out.new.items) }
{
    add(out, message.pattern().bytes())?;
    if message.unknown().is_some() {
        return add_tags(out, message.tags());
    }
    add_arguments(out, whole, message)
}

/// Adds the tags.
fn add_tags(out: &mut Vec<u8>, tags: Option<&[u8]>) -> Result<(), AllocError>
    ensures { OnOk result (out.new.items
        ≡ out.old.items ++ tags_text (option_map (λ tags. tags.now) tags.entry)) }
{
    match tags {
        Some(tags) => add_known_tags(out, tags),
        None => Ok(()),
    }
}

fn add_known_tags(out: &mut Vec<u8>, tags: &[u8]) -> Result<(), AllocError>
    ensures { OnOk result (out.new.items
        ≡ out.old.items ++ (codes " ," ++ flat_map shown_byte tags.now)) }
{
    add(out, b" ,")?;
    add_all_shown(out, tags)
}

/// Adds a space and a word for each argument.
fn add_arguments(out: &mut Vec<u8>, whole: bool, message: &Message<'_>) -> Result<(), AllocError>
    ensures { OnOk result (AddsWords whole (message_arguments message.now) out.old.items
        out.new.items) }
{
    for argument in message.args() {
        add_spaced(out, whole, argument)?;
    }
    Ok(())
}

fn add_spaced(out: &mut Vec<u8>, whole: bool, argument: Arg<'_>) -> Result<(), AllocError>
    ensures { OnOk result (AddsSpaced whole (shown argument.entry) out.old.items out.new.items) }
{
    add_byte(out, b' ')?;
    add_argument(out, whole, argument)
}
