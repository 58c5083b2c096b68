//! What the definitions of messages say of each other. These functions do nothing; their contracts are the laws.
ghost use Rattle.std.specs.Prelude.{◌≡◌, ◌%◌, ◌<◌, ◌≤◌, ◌↔◌, ℕ, pos, negsuc, IsTrue, List, [], ◌∷◌};
ghost use Rattle.std.specs.Prelude.{◌++◌, length, map, codes, slice_index, find, Some, None};
ghost use Rattle.osc_atoms.specs.declared.fault.Fault.{Fault};
ghost use Rattle.osc_atoms.specs.Atoms.{AreBytes};
ghost use Rattle.osc_message.specs.Tags.{is_unknown};
ghost use Rattle.osc_message.specs.Messages.{Argument, tag_of, Form, bare, known, unknown};
ghost use Rattle.osc_message.specs.Messages.{IsLawful, IsMessage, message_text, integer, float};
ghost use Rattle.osc_message.specs.Messages.{text};
ghost use Rattle.osc_atoms.specs.Faults.{empty};
ghost use Rattle.osc_message.specs.Faults.{of_pattern, no_tags, brackets, left_over};
ghost use Rattle.osc_message.specs.Wants.{Want, Leads, FirstFault};
ghost use Rattle.osc_message.specs.Reading.{is_message, pattern_of, message_fault};
ghost use Rattle.osc_message.specs.Arguments.{tags_of, unknown_of, message_arguments};
ghost use Rattle.osc_message.specs.declared.limits.TheConstants.{MAX_BUILT};

/// What is written as a message is read again: it is accepted, and its pattern, tags and arguments are those written
/// (OSC 1.0, "OSC Messages").
pub fn written_is_read_again()
    ensures accepted { (form : Form) (most : ℕ) → IsLawful form → length (message_text form) ≤ most
        → IsTrue (is_message most (message_text form)) }
    ensures of_bare { (pattern : List ℕ) → IsLawful (bare pattern)
        → (pattern_of (message_text (bare pattern)) ≡ pattern)
        × (tags_of (message_text (bare pattern)) ≡ None)
        × (message_arguments (message_text (bare pattern)) ≡ [])
        × (unknown_of (message_text (bare pattern)) ≡ None) }
    ensures of_known { (pattern : List ℕ) (arguments : List Argument)
        → IsLawful (known pattern arguments)
        → (pattern_of (message_text (known pattern arguments)) ≡ pattern)
        × (tags_of (message_text (known pattern arguments)) ≡ Some (map tag_of arguments))
        × (message_arguments (message_text (known pattern arguments)) ≡ arguments)
        × (unknown_of (message_text (known pattern arguments)) ≡ None) }
    ensures of_unknown { (pattern tags rest : List ℕ) → IsLawful (unknown pattern tags rest)
        → (pattern_of (message_text (unknown pattern tags rest)) ≡ pattern)
        × (tags_of (message_text (unknown pattern tags rest)) ≡ Some tags)
        × (message_arguments (message_text (unknown pattern tags rest)) ≡ [])
        × (unknown_of (message_text (unknown pattern tags rest)) ≡ find is_unknown tags) }
{}

/// No two messages have one text.
pub fn texts_differ()
    ensures { (one other : Form) → IsLawful one → IsLawful other
        → message_text one ≡ message_text other → one ≡ other }
{}

/// Bytes are a message of at most so many, or they have exactly one first fault.
pub fn faults_are_first()
    ensures none { (most : ℕ) (bytes : List ℕ) → AreBytes bytes
        → IsMessage most bytes ↔ ((fault : Fault) → FirstFault bytes most fault → ⊥) }
    ensures one { (most : ℕ) (bytes : List ℕ) (fault other : Fault) → FirstFault bytes most fault
        → FirstFault bytes most other → fault ≡ other }
    ensures told { (most : ℕ) (bytes : List ℕ) (fault : Fault) → AreBytes bytes
        → message_fault most bytes ≡ Some fault ↔ FirstFault bytes most fault }
    ensures silent { (most : ℕ) (bytes : List ℕ) → AreBytes bytes
        → message_fault most bytes ≡ None ↔ IsMessage most bytes }
{}

/// Every message begins with a slash, and its length is a multiple of 4.
pub fn messages_begin_with_a_slash()
    ensures { (most : ℕ) (bytes : List ℕ) → IsMessage most bytes
        → (0 < length bytes) × (length bytes % 4 ≡ 0) × (slice_index bytes 0 ≡ 47) }
{}

/// A want that stands has one next want.
pub fn wants_lead_on()
    ensures { (bytes : List ℕ) (want next other : Want) → Leads bytes want next
        → Leads bytes want other → next ≡ other }
{}

/// The standard's own message to `/foo` (OSC 1.0 examples), and the first faults of some bytes.
#[tactic(auto, unfolding(crate::specs::Reading::message_read))]
pub fn examples()
    ensures written { message_text
        (known (codes "/foo")
        (integer (pos 1000) ∷ integer (negsuc 0) ∷ text (codes "hello") ∷ float 0x3f9df3b6
        ∷ float 0x40b5b22d ∷ []))
        ≡ codes "/foo" ++ 0 ∷ 0 ∷ 0 ∷ 0 ∷ codes ",iisff"
        ++ 0 ∷ 0 ∷ 0 ∷ 0 ∷ 3 ∷ 232 ∷ 255 ∷ 255 ∷ 255 ∷ 255 ∷ codes "hello"
        ++ 0 ∷ 0 ∷ 0 ∷ 63 ∷ 157 ∷ 243 ∷ 182 ∷ 64 ∷ 181 ∷ 178 ∷ 45 ∷ [] }
    ensures no_bytes { message_fault MAX_BUILT [] ≡ Some empty }
    ensures no_pattern_byte { message_fault MAX_BUILT (codes "/a" ++ 255 ∷ 0 ∷ [])
        ≡ Some (of_pattern 0 10 2) }
    ensures open_pattern { message_fault MAX_BUILT (codes "/[a" ++ 0 ∷ [])
        ≡ Some (of_pattern 0 11 1) }
    ensures lawful_pattern { message_fault MAX_BUILT (codes "/*/x" ++ 0 ∷ 0 ∷ 0 ∷ 0 ∷ []) ≡ None }
    ensures no_comma { message_fault MAX_BUILT (codes "/a" ++ 0 ∷ 0 ∷ 0 ∷ 0 ∷ 0 ∷ 1 ∷ [])
        ≡ Some (no_tags 4) }
    ensures stray_bracket { message_fault MAX_BUILT (codes "/a" ++ 0 ∷ 0 ∷ codes ",]" ++ 0 ∷ 0 ∷ [])
        ≡ Some (brackets 5) }
    ensures open_bracket { message_fault MAX_BUILT (codes "/a" ++ 0 ∷ 0 ∷ codes ",[" ++ 0 ∷ 0 ∷ [])
        ≡ Some (brackets 5) }
    ensures more_bytes { message_fault MAX_BUILT
        (codes "/a" ++ 0 ∷ 0 ∷ codes ",i" ++ 0 ∷ 0 ∷ 0 ∷ 0 ∷ 0 ∷ 1 ∷ 0 ∷ 0 ∷ 0 ∷ 2 ∷ [])
        ≡ Some (left_over 12) }
    ensures unknown_tag { message_fault MAX_BUILT
        (codes "/a" ++ 0 ∷ 0 ∷ codes ",x]" ++ 0 ∷ codes "abcd") ≡ None }
{}
