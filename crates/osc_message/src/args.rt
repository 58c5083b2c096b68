//! The arguments of a message, one after another.
ghost use Rattle.osc_atoms.specs.declared.limits.TheConstants.{MAX_BYTES};
ghost use Rattle.std.specs.Prelude.{◌≡◌, ◌%◌, ◌≤◌, length, IsTrue, is_ok};
ghost use Rattle.osc_message.specs.ArgumentReading.{arguments_end, arguments_of};

use crate::Arg;
use crate::argument_at::known_argument;
use crate::parts::check_arguments;

/// The arguments of a message that are left, in order.
#[derive(Drop)]
pub struct Args<'a> {
    tags: &'a [u8],
    bytes: &'a [u8],
    place: u32,
    ghost whole: { length bytes.now % 4 ≡ 0 },
    ghost small: { length bytes.now ≤ MAX_BYTES },
    ghost aligned: { place % 4 ≡ 0 },
    ghost inside: { place ≤ length bytes.now },
    ghost readable: { IsTrue (is_ok (arguments_end tags.now bytes.now place)) },
}

impl<'a> Args<'a> {
    ghost use Rattle.osc_atoms.specs.declared.limits.TheConstants.{MAX_BYTES};
    ghost use Rattle.osc_message.specs.Left.{left};
    ghost use Rattle.std.specs.Prelude.{◌≡◌, ◌%◌, ◌≤◌, length, IsTrue, IfSome, is_ok, is_some};
    ghost use Rattle.osc_message.specs.ArgumentReading.{arguments_end, arguments_of};
    ghost use Rattle.osc_message.specs.Reading.{arguments_read};

    /// The arguments of these tags from `place` on, if they end where the bytes end. So the arguments of a message are
    /// read whose pattern and tags are known by their bytes.
    pub fn read(tags: &'a [u8], bytes: &'a [u8], place: u32) -> Option<Args<'a>>
        requires whole { length bytes.now % 4 ≡ 0 }
        requires aligned { place % 4 ≡ 0 }
        requires inside { place ≤ length bytes.now }
        requires small { length bytes.now ≤ MAX_BYTES }
        ensures exact { is_some result ≡ is_ok (arguments_read bytes.now tags.now place) }
        ensures read { IfSome result (λ args. left args ≡ arguments_of tags.now bytes.now place) }
    {
        match check_arguments(bytes, tags, place) {
            Ok(()) => Some(Args::new(tags, bytes, place)),
            Err(_) => None,
        }
    }

    /// The arguments of these tags, from `place` on.
    pub(crate) fn new(tags: &'a [u8], bytes: &'a [u8], place: u32) -> Self
        requires whole { length bytes.now % 4 ≡ 0 }
        requires small { length bytes.now ≤ MAX_BYTES }
        requires aligned { place % 4 ≡ 0 }
        requires inside { place ≤ length bytes.now }
        requires readable { IsTrue (is_ok (arguments_end tags.now bytes.now place)) }
        ensures { left result ≡ arguments_of tags.now bytes.now place }
    {
        Args { tags, bytes, place }
    }
}

impl<'a> Iterator for Args<'a> {
    type Item = Arg<'a>;

    ghost use Rattle.std.specs.Iterator.{YieldsFirstBy, item_count};
    ghost use Rattle.osc_message.specs.Shown.{shown};
    ghost use Rattle.osc_message.specs.Left.{left};

    ghost next_gives = { YieldsFirstBy shown left };

    ghost remaining = { item_count left };

    fn next(&mut self) -> Option<Arg<'a>> {
        let (tag, tags) = self.tags.split_first()?;
        let (argument, place) = known_argument(*tag, self.bytes, self.place);
        self.tags = tags;
        self.place = place;
        Some(argument)
    }
}
