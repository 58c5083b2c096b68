//! What the definitions of relays say of messages. These functions do nothing; their contracts are the laws.
ghost use Rattle.std.specs.Prelude.{◌≡◌, ◌<◌, ◌++◌, ◌∷◌, ℕ, List, [], length, map, Option, Some};
ghost use Rattle.std.specs.Prelude.{codes};
ghost use Rattle.std.specs.Option.{option_map};
ghost use Rattle.std.specs.List.{AllByRecursion};
ghost use Rattle.osc_message.specs.Messages.{Form, IsLawful, message_text};
ghost use Rattle.osc_pattern.specs.Addresses.{IsAddress};
ghost use Rattle.osc_method.specs.Heard.{last_of};
ghost use Rattle.osc_relay.specs.Relayed.{relayed, to_address};
ghost use Rattle.osc_relay.specs.Sent.{Called, IsShort, calls_text, messages_of, Relays};
ghost use Rattle.osc_relay.specs.Sent.{HasRelayed};

/// What is sent on of a message is the message with another pattern, and with the same tags and arguments. To an
/// address it is a message again.
pub fn a_relayed_message_is_the_message_to_another_address()
    ensures text { (form : Form) (address : List ℕ) → IsLawful form
        → relayed address (message_text form) ≡ message_text (to_address address form) }
    ensures lawful { (form : Form) (address : List ℕ) → IsLawful form → IsAddress address
        → IsLawful (to_address address form) }
{
    osc_message::laws::written_is_read_again();
    osc_pattern::laws::an_address_is_a_pattern();
}

/// What was sent is what was called. A server says of a method which bytes it has heard, the last of those of its calls.
/// Where these are all of them, an outlet of a relay with these bytes was handed exactly the messages of these calls, and
/// each was sent or lost. Where none was lost, the datagrams are these messages to the relay's address.
pub fn what_was_sent_is_what_was_called()
    ensures each { (address : List ℕ) (room keep : ℕ) (calls : List Called)
        (sent : Option (List (List ℕ))) (losses : ℕ)
        → AllByRecursion IsShort calls → length (calls_text calls) < keep
        → ∥ HasRelayed address room keep (Some (last_of keep (calls_text calls))) sent losses ∥₁
        → ∥ Relays address room (messages_of calls) sent losses ∥₁ }
    ensures all { (address : List ℕ) (room : ℕ) (messages : List (List ℕ))
        (sent : Option (List (List ℕ)))
        → ∥ Relays address room messages sent 0 ∥₁
        → sent ≡ option_map (λ _. map (relayed address) messages) sent }
{}

/// The message `/light/*` with `7` and `0.5`, sent on to `/light/dim`; and one without tags.
pub fn examples()
    ensures tagged { relayed (codes "/light/dim")
        (codes "/light/*" ++ 0 ∷ 0 ∷ 0 ∷ 0 ∷ codes ",if" ++ 0 ∷ 0 ∷ 0 ∷ 0 ∷ 7 ∷ 63 ∷ 0 ∷ 0 ∷ 0 ∷ [])
        ≡ codes "/light/dim" ++ 0 ∷ 0 ∷ codes ",if" ++ 0 ∷ 0 ∷ 0 ∷ 0 ∷ 7 ∷ 63 ∷ 0 ∷ 0 ∷ 0 ∷ [] }
    ensures bare { relayed (codes "/a") (codes "/?" ++ 0 ∷ 0 ∷ []) ≡ codes "/a" ++ 0 ∷ 0 ∷ [] }
{}
