//! What the definitions say, apart from any code.
ghost use Rattle.std.specs.Prelude.{◌≡◌, ◌↔◌, ℕ, true, false, IsTrue, List, [], ◌∷◌, Ok, codes};
ghost use Rattle.std.specs.List.{list_any};
ghost use Rattle.osc_pattern.specs.Items.{Item};
ghost use Rattle.osc_pattern.specs.Parts.{IsPart, MatchPart, MatchesName};
ghost use Rattle.osc_pattern.specs.Cuts.{match_items};
ghost use Rattle.osc_pattern.specs.Reading.{read_part, match_part};
ghost use Rattle.osc_pattern.specs.Patterns.{IsPattern, Match, is_pattern, is_special, matches};
ghost use Rattle.osc_pattern.specs.Addresses.{IsAddress, is_address};
ghost use Rattle.osc_pattern.specs.Methods.{nodes};

/// A part is made of items in at most one way, and reading it from left to right finds them.
pub fn one_reading()
    ensures unique { (part : List ℕ) → (first second : List Item) → IsPart part first
        → IsPart part second → first ≡ second }
    ensures found { (part : List ℕ) → (items : List Item)
        → ((read_part part ≡ Ok items) ↔ IsPart part items) }
{}

/// Trying each cut answers whether there is one.
pub fn each_cut_is_tried()
    ensures { (items : List Item) → (name : List ℕ)
        → ((match_items items name ≡ true) ↔ MatchPart items name) }
{}

/// The tests that other crates' contracts cite answer the relations.
pub fn tests_are_exact()
    ensures part { (part name : List ℕ) → (IsTrue (match_part part name) ↔ MatchesName part name) }
    ensures whole { (pattern address : List ℕ)
        → (IsTrue (matches pattern address) ↔ Match pattern address) }
    ensures pattern { (bytes : List ℕ) → (IsTrue (is_pattern bytes) ↔ IsPattern bytes) }
    ensures address { (bytes : List ℕ) → (IsTrue (is_address bytes) ↔ IsAddress bytes) }
{}

/// A pattern without `?`, `*`, `[` and `{` matches exactly the address with its bytes.
pub fn plain_pattern()
    ensures { (pattern address : List ℕ) → IsPattern pattern → IsAddress address
        → list_any is_special pattern ≡ false → (Match pattern address ↔ (pattern ≡ address)) }
{}

/// An address is a pattern too, and as a pattern it matches itself alone.
pub fn an_address_is_a_pattern()
    ensures lawful { (address : List ℕ) → IsAddress address → IsPattern address }
    ensures itself_alone { (address other : List ℕ) → IsAddress address → IsAddress other
        → (Match address other ↔ (address ≡ other)) }
{}

/// The first choice or the longest star isn't enough; a reversed range; a `-` after a range; nodes
/// that methods share.
pub fn examples()
    ensures choice { matches (codes "/{a,ab}c") (codes "/abc") ≡ true }
    ensures star { matches (codes "/*ab") (codes "/aab") ≡ true }
    ensures both { matches (codes "/{a,ab}*c") (codes "/abbc") ≡ true }
    ensures reversed { matches (codes "/[c-a]") (codes "/b") ≡ true }
    ensures dash { matches (codes "/[a-c-e]") (codes "/d") ≡ false }
    ensures shared { nodes
        (record { id = 0; address = codes "/a/b" } ∷ record { id = 1; address = codes "/a/c" } ∷ [])
        ≡ 3 }
{}
