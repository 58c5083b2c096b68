// Headers, read from borrowed bytes.
ghost use Rattle.std.specs.Prelude.{◌≡◌, None, codes, if◌then◌else◌};
ghost use Rattle.std.specs.Str.{bytes_eq};
ghost use Rattle.osc_message.specs.Left.{left};
ghost use Rattle.osc_record.specs.Reading.{limits_told, header_of, header_told, header_read};
ghost use Rattle.osc_record.specs.Reading.{lawful_limits};
ghost use Rattle.osc_record.specs.Versions.{version_number};
ghost use Rattle.osc_record.specs.declared.version.Version.TheVariants.{Second};

use crate::arguments::{next_int, next_later};
use crate::caps::Caps;
use crate::policy::late_told;
use crate::sized_messages::first_message;
use crate::version::Version;
use osc_atoms::MAX_BYTES;
use osc_message::{Args, Message};
use osc_model::Limits;

/// The limits that the bytes begin with.
pub(crate) fn read_header(bytes: &[u8]) -> Option<Caps>
    ensures { result ≡ header_read Second bytes.now }
{
    let limits = told_header(Version::Second, bytes)?;
    lawful_caps(limits)
}

/// The limits of a header, if each is in its range.
pub(crate) fn lawful_caps(limits: Limits) -> Option<Caps>
    ensures { result ≡ lawful_limits Second limits }
{
    match Caps::of(limits) {
        Ok(caps) => Some(caps),
        Err(_) => None,
    }
}

/// The fields of the header that the bytes begin with.
pub(crate) fn told_header(version: Version, bytes: &[u8]) -> Option<Limits>
    ensures { result ≡ header_told version bytes.now }
{
    header_fields(version, first_message(bytes)?)
}

/// The fields of the header that the message is.
fn header_fields(version: Version, message: &[u8]) -> Option<Limits>
    ensures { result ≡ header_of version message.now }
{
    match Message::check(message, MAX_BYTES) {
        Ok(message) => named_fields(version, message.pattern().bytes(), message.args()),
        Err(_) => None,
    }
}

/// The fields that a message to the address tells by these arguments.
fn named_fields(version: Version, address: &[u8], args: Args<'_>) -> Option<Limits>
    ensures { result
        ≡ (if bytes_eq address.now (codes "/osc/rec") then limits_told version (left args.entry)
        else None) }
{
    if address == b"/osc/rec".as_slice() {
        read_fields(version, args)
    } else {
        None
    }
}

fn read_fields(version: Version, mut args: Args<'_>) -> Option<Limits>
    ensures { result ≡ limits_told version (left args.entry) }
{
    let number = next_int(&mut args)?;
    let units = next_int(&mut args)?;
    let blocks = next_int(&mut args)?;
    let methods = next_int(&mut args)?;
    let nodes = next_int(&mut args)?;
    let callers = next_int(&mut args)?;
    let recording = next_int(&mut args)?;
    let late = next_later(version, &mut args)?;
    if args.next().is_some() || number != number_of(version) {
        return None;
    }
    Some(Limits {
        units,
        blocks,
        methods,
        nodes,
        callers,
        recording,
        late: late_told(late)?,
    })
}

/// The number of a version.
fn number_of(version: Version) -> u32
    ensures { result ≡ version_number version }
{
    match version {
        Version::First => 1,
        Version::Second => 2,
    }
}
