//! What the definitions of atoms say of each other. These functions do nothing; their contracts are the laws.
ghost use Rattle.std.specs.Prelude.{◌≡◌, ◌↔◌, ◌+◌, ◌%◌, ◌<◌, ◌≤◌, ◌^◌, ℕ, IsTrue, List, [], ◌∷◌};
ghost use Rattle.std.specs.Prelude.{◌++◌, length, drop, codes, Ok, Err};
ghost use Rattle.osc_atoms.specs.declared.fault.Fault.{Fault};
ghost use Rattle.osc_atoms.specs.Atoms.{AreBytes, word, tag, string, string_end, has_no_zero, blob};
ghost use Rattle.osc_atoms.specs.Atoms.{blob_end};
ghost use Rattle.osc_atoms.specs.Faults.{unterminated, padding, blob_size, short};
ghost use Rattle.osc_atoms.specs.Reading.{word_read, tag_read, string_read, blob_read};
ghost use Rattle.osc_atoms.specs.Standing.{StartsWithWord, StartsWithTag, StartsWithString};
ghost use Rattle.osc_atoms.specs.Standing.{StartsWithBlob, NamesShort, NamesStringFault};
ghost use Rattle.osc_atoms.specs.Standing.{NamesBlobFault};

/// What is encoded is read again, whatever follows it.
pub fn encoded_is_read_again()
    ensures of_word { (bytes : List ℕ) (at number : ℕ) → StartsWithWord bytes at number
        → word_read bytes at ≡ Ok (number, at + length (word number)) }
    ensures of_tag { (bytes : List ℕ) (at number : ℕ) → StartsWithTag bytes at number
        → tag_read bytes at ≡ Ok (number, at + length (tag number)) }
    ensures of_string { (bytes : List ℕ) (at : ℕ) (text : List ℕ) → StartsWithString bytes at text
        → string_read bytes at ≡ Ok (text, at + length (string text)) }
    ensures of_blob { (bytes : List ℕ) (at : ℕ) (content : List ℕ) → StartsWithBlob bytes at content
        → blob_read bytes at ≡ Ok (content, at + length (blob content)) }
{}

/// What is read was encoded, and stands there.
pub fn read_was_encoded()
    ensures of_word { (bytes : List ℕ) (at : ℕ) (read : ℕ × ℕ) → AreBytes bytes
        → word_read bytes at ≡ Ok read
        → StartsWithWord bytes at read.0 × (read.1 ≡ at + length (word read.0)) }
    ensures of_tag { (bytes : List ℕ) (at : ℕ) (read : ℕ × ℕ) → AreBytes bytes
        → tag_read bytes at ≡ Ok read → StartsWithTag bytes at read.0
        × (read.1 ≡ at + length (tag read.0)) }
    ensures of_string { (bytes : List ℕ) (at : ℕ) (read : List ℕ × ℕ)
        → length (drop at bytes) % 4 ≡ 0 → string_read bytes at ≡ Ok read
        → StartsWithString bytes at read.0 × (read.1 ≡ at + length (string read.0)) }
    ensures of_blob { (bytes : List ℕ) (at : ℕ) (read : List ℕ × ℕ) → AreBytes bytes
        → length (drop at bytes) % 4 ≡ 0 → blob_read bytes at ≡ Ok read
        → StartsWithBlob bytes at read.0 × (read.1 ≡ at + length (blob read.0)) }
{}

/// A reading is refused exactly by the fault that the bytes have.
pub fn refused_is_named()
    ensures of_word { (bytes : List ℕ) (at : ℕ) (fault : Fault) → AreBytes bytes
        → (word_read bytes at ≡ Err fault) ↔ NamesShort 4 bytes at fault }
    ensures of_tag { (bytes : List ℕ) (at : ℕ) (fault : Fault) → AreBytes bytes
        → (tag_read bytes at ≡ Err fault) ↔ NamesShort 8 bytes at fault }
    ensures of_string { (bytes : List ℕ) (at : ℕ) (fault : Fault) → length (drop at bytes) % 4 ≡ 0
        → (string_read bytes at ≡ Err fault) ↔ NamesStringFault bytes at fault }
    ensures of_blob { (bytes : List ℕ) (at : ℕ) (fault : Fault) → AreBytes bytes
        → length (drop at bytes) % 4 ≡ 0
        → (blob_read bytes at ≡ Err fault) ↔ NamesBlobFault bytes at fault }
{}

/// No two values have one encoding.
pub fn encodings_differ()
    ensures of_words { (a b : ℕ) → a < 2 ^ 32 → b < 2 ^ 32 → word a ≡ word b → a ≡ b }
    ensures of_tags { (a b : ℕ) → a < 2 ^ 64 → b < 2 ^ 64 → tag a ≡ tag b → a ≡ b }
    ensures of_strings { (a b : List ℕ) → IsTrue (has_no_zero a) → IsTrue (has_no_zero b)
        → string a ≡ string b → a ≡ b }
    ensures of_blobs { (a b : List ℕ) → length a < 2 ^ 31 → length b < 2 ^ 31 → blob a ≡ blob b
        → a ≡ b }
{}

/// Every encoding's length is a multiple of 4.
pub fn sizes_are_multiples_of_four()
    ensures of_word { (number : ℕ) → length (word number) % 4 ≡ 0 }
    ensures of_tag { (number : ℕ) → length (tag number) % 4 ≡ 0 }
    ensures of_string { (text : List ℕ) → length (string text) % 4 ≡ 0 }
    ensures of_blob { (content : List ℕ) → length (blob content) % 4 ≡ 0 }
{}

/// A string ends with at least one zero byte, a blob with any number, and no fewer would reach a multiple of 4.
pub fn ends_are_the_fewest()
    ensures of_string { (size end : ℕ) → 0 < end → (size + end) % 4 ≡ 0
        → (0 < string_end size) × (string_end size ≤ end) }
    ensures of_blob { (size end : ℕ) → (size + end) % 4 ≡ 0 → blob_end size ≤ end }
{}

/// The two strings that the standard shows (OSC 1.0, "Atomic Data Types"), and readings of some bytes.
pub fn examples()
    ensures osc { string (codes "OSC") ≡ codes "OSC" ++ 0 ∷ [] }
    ensures data { string (codes "data") ≡ codes "data" ++ 0 ∷ 0 ∷ 0 ∷ 0 ∷ [] }
    ensures of_blob { blob (7 ∷ []) ≡ 0 ∷ 0 ∷ 0 ∷ 1 ∷ 7 ∷ 0 ∷ 0 ∷ 0 ∷ [] }
    ensures of_word { word_read (0 ∷ 0 ∷ 3 ∷ 232 ∷ []) 0 ≡ Ok (1000, 4) }
    ensures of_string { string_read (0 ∷ 0 ∷ 0 ∷ 0 ∷ codes "data" ++ 0 ∷ 0 ∷ 0 ∷ 0 ∷ []) 4
        ≡ Ok (codes "data", 12) }
    ensures no_end { string_read (codes "/abc") 0 ≡ Err (unterminated 0) }
    ensures bad_padding { string_read (codes "/a" ++ 0 ∷ 1 ∷ []) 0 ≡ Err (padding 3) }
    ensures no_word { word_read (codes "/a" ++ 0 ∷ 0 ∷ []) 4 ≡ Err (short 4) }
    ensures past_end { blob_read (0 ∷ 0 ∷ 0 ∷ 5 ∷ 0 ∷ 0 ∷ 0 ∷ 0 ∷ []) 0 ≡ Err (blob_size 0) }
{}
