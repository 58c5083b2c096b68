//! What the definitions of packets say of each other. These functions do nothing; their contracts are the laws.
ghost use Rattle.std.specs.Prelude.{◌≡◌, ◌<◌, ◌^◌, ◌↔◌, ℕ, List, [], ◌∷◌, ◌++◌, replicate, codes};
ghost use Rattle.std.specs.Prelude.{Some, None, map};
ghost use Rattle.osc_atoms.specs.declared.fault.Fault.{Fault};
ghost use Rattle.osc_atoms.specs.Atoms.{AreBytes};
ghost use Rattle.osc_message.specs.Messages.{Form, bare, message_text};
ghost use Rattle.osc_packet.specs.Packets.{Packet, message, bundle, none, more, packet_text};
ghost use Rattle.osc_packet.specs.Packets.{IsValid, IsPacket};
ghost use Rattle.osc_packet.specs.Bundling.{bundled, elements_of};
ghost use Rattle.osc_packet.specs.Units.{units_of, blocks};
ghost use Rattle.osc_packet.specs.Wants.{FirstFault};
ghost use Rattle.osc_packet.specs.Reading.{packet_fault, units_read};
ghost use Rattle.osc_packet.specs.Known.{OfMessages};

use osc_message::laws as messages;

/// What the laws of messages say, as one.
pub(crate) fn of_messages()
    ensures { OfMessages }
{
    messages::written_is_read_again();
    messages::texts_differ();
    messages::faults_are_first();
    messages::messages_begin_with_a_slash();
}

/// A byte list is the text of at most one valid packet.
pub fn texts_differ()
    ensures { (most : ℕ) (one other : Packet) → most < 2 ^ 32 → IsValid most one
        → IsValid most other → packet_text one ≡ packet_text other → one ≡ other }
{
    of_messages();
}

/// Bytes are the text of a valid packet, or they have exactly one first fault.
pub fn faults_are_first()
    ensures none { (most : ℕ) (bytes : List ℕ) → most < 2 ^ 32 → AreBytes bytes
        → ((fault : Fault) → FirstFault bytes most fault → ⊥) ↔ IsPacket most bytes }
    ensures one { (most : ℕ) (bytes : List ℕ) (fault other : Fault) → FirstFault bytes most fault
        → FirstFault bytes most other → fault ≡ other }
    ensures told { (most : ℕ) (bytes : List ℕ) (fault : Fault) → AreBytes bytes
        → packet_fault most bytes ≡ Some fault ↔ FirstFault bytes most fault }
    ensures silent { (most : ℕ) (bytes : List ℕ) → most < 2 ^ 32 → AreBytes bytes
        → packet_fault most bytes ≡ None ↔ IsPacket most bytes }
{
    of_messages();
}

/// A valid packet's text is read as that packet's units.
pub fn units_are_read_again()
    ensures { (most : ℕ) (packet : Packet) → most < 2 ^ 32 → IsValid most packet
        → units_read (packet_text packet) ≡ units_of packet }
{
    of_messages();
}

/// The bytes of a bundle in the making are the text of that bundle of its messages.
pub fn a_bundle_is_written()
    ensures { (own : ℕ) (forms : List Form)
        → bundled (record { tag = own; messages = map message_text forms })
        ≡ packet_text (bundle own (elements_of forms)) }
{}

/// A bundle of `/a`, a bundle of `/b`, and `/c`: its text, its units where the inner tag is 2 and where it is 1, and
/// blocks at their edges.
pub fn examples()
    ensures text { packet_text
        (bundle 3 (more (message (bare (codes "/a")))
        (more (bundle 4 (more (message (bare (codes "/b"))) none))
        (more (message (bare (codes "/c"))) none))))
        ≡ codes "#bundle" ++ (0 ∷ 0 ∷ 0 ∷ 0 ∷ 0 ∷ 0 ∷ 0 ∷ 0 ∷ 3 ∷ 0 ∷ 0 ∷ 0 ∷ 4 ∷ []) ++ codes "/a"
        ++ (0 ∷ 0 ∷ 0 ∷ 0 ∷ 0 ∷ 24 ∷ [])
        ++ codes "#bundle" ++ (0 ∷ 0 ∷ 0 ∷ 0 ∷ 0 ∷ 0 ∷ 0 ∷ 0 ∷ 4 ∷ 0 ∷ 0 ∷ 0 ∷ 4 ∷ []) ++ codes "/b"
        ++ (0 ∷ 0 ∷ 0 ∷ 0 ∷ 0 ∷ 4 ∷ []) ++ codes "/c" ++ (0 ∷ 0 ∷ []) }
    ensures units { units_of
        (bundle 2 (more (message (bare (codes "/a")))
        (more (bundle 2 (more (message (bare (codes "/b"))) none))
        (more (message (bare (codes "/c"))) none))))
        ≡ record {
          tag = 2;
          messages = (codes "/a" ++ 0 ∷ 0 ∷ []) ∷ (codes "/c" ++ 0 ∷ 0 ∷ []) ∷ [];
        }
        ∷ record { tag = 2; messages = (codes "/b" ++ 0 ∷ 0 ∷ []) ∷ [] } ∷ [] }
    ensures immediately { units_of (bundle 5 (more (bundle 1 (more (bundle 1 none) none)) none))
        ≡ record { tag = 5; messages = [] } ∷ record { tag = 5; messages = [] }
        ∷ record { tag = 5; messages = [] } ∷ [] }
    ensures one_block { blocks (record { tag = 1; messages = replicate 60 0 ∷ [] }) ≡ 1 }
    ensures two_blocks { blocks (record { tag = 1; messages = replicate 64 0 ∷ [] }) ≡ 2 }
    ensures no_block { blocks (record { tag = 1; messages = [] }) ≡ 0 }
{}
