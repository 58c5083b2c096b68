//! The trait of methods.
ghost use Rattle.std.specs.Prelude.{◌≡◌, ◌≤◌, ℕ, List, [], length, Option, IfSome};
ghost use Rattle.std.specs.Option.{option_map};
ghost use Rattle.osc_method.specs.Heard.{Fixed, after_call, byte_heard};
ghost use Rattle.osc_method.specs.Calls.{call_bytes};

use crate::Call;

/// What is called when a message reaches a method's address. No call can fail.
///
/// A method may tell the last bytes of what it was told since its reset. Per call these are the unit's number in 8
/// bytes, the message's index and its length in 4 bytes each, all big-endian, and the message.
pub trait Method: Drop {
    /// What no call changes: how many bytes it keeps at most, where it tells, and its name.
    ghost keep: { Self → Fixed };

    /// The bytes that it was told since its reset, the last of them, where it tells.
    ghost heard: { Self → Option (List ℕ) };

    /// Forgets what it was told.
    fn reset(&mut self)
        ensures keep { keep self.new ≡ keep self.old }
        ensures heard { heard self.new ≡ option_map (λ _. []) (heard self.old) };

    /// Takes the call.
    fn invoke(&mut self, call: &Call<'_>)
        ensures keep { keep self.new ≡ keep self.old }
        ensures heard { heard self.new
            ≡ after_call (keep self.old).most (call_bytes call.now) (heard self.old) };

    /// How many bytes it tells; `None` where it tells nothing.
    fn told(&self) -> Option<u32>
        ensures count { result ≡ option_map length (heard self.now) }
        ensures within { IfSome result (λ count. count ≤ (keep self.now).most) };

    /// One of the bytes that it tells, counted from the oldest; 0 where it tells none in that place.
    fn byte(&self, k: u32) -> u8
        ensures { result ≡ byte_heard (heard self.now) k };
}
