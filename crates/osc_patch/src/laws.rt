//! What the definitions say of all patches, and of the examples of docs/FORMATS.md.
ghost use Rattle.osc_patch.specs.declared.patch.TheConstants.{MAX_PATCH};
ghost use Rattle.std.specs.Prelude.{◌≡◌, ◌≤◌, ◌+◌, ℕ, true, List, [], ◌∷◌, ◌++◌, length, IsTrue};
ghost use Rattle.std.specs.Prelude.{Some, None, Ok, Err, IfOk, codes};
ghost use Rattle.std.specs.List.{AllByRecursion};
ghost use Rattle.std.specs.Net.Grammar.{IsIpv4Text};
ghost use Rattle.std.specs.declared.net.ipv4_addr.Ipv4Addr.{Ipv4Addr};
ghost use Rattle.osc_patch.specs.declared.fault.Fault.TheVariants.{UnknownWord, WordCount, Pattern};
ghost use Rattle.osc_patch.specs.declared.fault.Fault.TheVariants.{Address, Host, Port, Repeated};
ghost use Rattle.osc_patch.specs.declared.fault.Fault.TheVariants.{Nested, TooMany};
ghost use Rattle.osc_patch.specs.declared.fault.PatchError.TheVariants.{NoMethod, Lines};
ghost use Rattle.osc_patch.specs.declared.fault.WrongLine.{WrongLine};
ghost use Rattle.osc_patch.specs.Words.{is_blank, lines_of};
ghost use Rattle.osc_patch.specs.Hosts.{is_dotted, is_host, port_of};
ghost use Rattle.osc_patch.specs.Entries.{wrong_line, line_says};
ghost use Rattle.osc_patch.specs.Patches.{patch_of, outcome_of, unread, ArePatched};
ghost use Rattle.osc_patch.specs.Written.{Form, IsForm, written, settled_all};

/// A patch of forms, a line each, is read as these forms, and the lines are counted from 1.
#[tactic(auto, using(crate::proofs::Again::patch_again))]
pub fn written_patches_are_read_again()
    ensures { (limit : ℕ) (forms : List Form) → AllByRecursion IsForm forms
        → length (written forms) ≤ MAX_PATCH
        → patch_of limit (written forms) ≡ outcome_of (settled_all limit 1 unread forms) }
{}

/// Each line that is wrong by itself is told, with its number, counted from 1, whatever stands
/// before and after it.
pub fn each_wrong_line_is_told()
    ensures { (limit : ℕ) (bytes : List ℕ) (before : List (List ℕ)) (text : List ℕ)
        (after : List (List ℕ)) (line : WrongLine) → lines_of bytes ≡ before ++ text ∷ after
        → line_says (length before + 1) text ≡ Err line → length bytes ≤ MAX_PATCH
        → (front rest : List WrongLine)
        × (patch_of limit bytes ≡ Err (Lines (front ++ line ∷ rest))) }
{}

/// A comment says nothing, nor does a space or a tab before a line's first word.
#[tactic(auto, using(crate::proofs::Comments::comment, crate::proofs::Comments::blank))]
pub fn comments_and_blanks_say_nothing()
    ensures comment { (line : ℕ) (rest : List ℕ) → line_says line (35 ∷ rest) ≡ Ok None }
    ensures blank { (line byte : ℕ) (text : List ℕ) → is_blank byte ≡ true
        → line_says line (byte ∷ text) ≡ line_says line text }
    ensures empty { (line : ℕ) → line_says line [] ≡ Ok None }
{}

/// The hosts of digits and dots are the IPv4 addresses, as the standard library reads them.
#[tactic(auto, using(crate::proofs::Dotted::dotted_is))]
pub fn dotted_hosts_are_addresses()
    ensures address { (word : List ℕ) → IsTrue (is_dotted word)
        → (address : Ipv4Addr) × IsIpv4Text word address }
    ensures host { (word : List ℕ) (address : Ipv4Addr) → IsIpv4Text word address
        → IsTrue (is_dotted word) }
{}

/// The methods of a patch can be added one after the other: there is one at least and at most as
/// many as the limit, their addresses differ, and none lies under another.
#[tactic(auto, using(crate::proofs::Apart::patched))]
pub fn patches_are_apart()
    ensures { (limit : ℕ) (bytes : List ℕ) → IfOk (patch_of limit bytes) (ArePatched limit) }
{}

/// Each fault, comments and blanks, and several lines for one address.
pub fn examples()
    ensures unknown { line_says 1 (codes "remove /a")
        ≡ Err (wrong_line 1 UnknownWord (codes "remove")) }
    ensures few { line_says 2 (codes "add") ≡ Err (wrong_line 2 WordCount (codes "add")) }
    ensures two { line_says 2 (codes "add /a 10.0.0.7")
        ≡ Err (wrong_line 2 WordCount (codes "add")) }
    ensures many { line_says 2 (codes "add /a 10.0.0.7 9 9")
        ≡ Err (wrong_line 2 WordCount (codes "add")) }
    ensures pattern { line_says 3 (codes "add /light/dim*")
        ≡ Err (wrong_line 3 Pattern (codes "/light/dim*")) }
    ensures bare { line_says 3 (codes "add dim") ≡ Err (wrong_line 3 Address (codes "dim")) }
    ensures octet { line_says 4 (codes "add /a 10.0.0.256 9")
        ≡ Err (wrong_line 4 Host (codes "10.0.0.256")) }
    ensures name { line_says 4 (codes "add /a my_desk 9")
        ≡ Err (wrong_line 4 Host (codes "my_desk")) }
    ensures zero { line_says 5 (codes "add /a 10.0.0.7 0") ≡ Err (wrong_line 5 Port (codes "0")) }
    ensures high { line_says 5 (codes "add /a 10.0.0.7 65536")
        ≡ Err (wrong_line 5 Port (codes "65536")) }
    ensures commented { line_says 6 (codes " \t# add /a") ≡ Ok None }
    ensures later { line_says 6 (codes "add /a # lamp" ++ 13 ∷ [])
        ≡ Ok (Some (record { line = 6; address = codes "/a"; route = None })) }
    ensures routed { line_says 7 (codes "add\t/a  desk.local 9")
        ≡ Ok (Some (record {
          line = 7;
          address = codes "/a";
          route = Some (record { host = codes "desk.local"; port = 9; line = 7 });
        })) }
    ensures outlets { patch_of 9 (codes "add /a 10.0.0.7 9\nadd /b\nadd /a 10.0.0.8 9\n")
        ≡ Ok (record {
          address = codes "/a";
          line = 1;
          routes = record { host = codes "10.0.0.7"; port = 9; line = 1 }
              ∷ record { host = codes "10.0.0.8"; port = 9; line = 3 } ∷ [];
        }
        ∷ record { address = codes "/b"; line = 2; routes = [] } ∷ []) }
    ensures repeated { patch_of 9 (codes "add /a h 9\nadd /a h 9")
        ≡ Err (Lines (wrong_line 2 (Repeated 1) (codes "/a") ∷ [])) }
    ensures nested { patch_of 9 (codes "add /a\nadd /a/b\nadd /c/d\nadd /c")
        ≡ Err (Lines (wrong_line 2 (Nested 1) (codes "/a/b")
        ∷ wrong_line 4 (Nested 3) (codes "/c") ∷ [])) }
    ensures full { patch_of 1 (codes "add /a\nadd /b")
        ≡ Err (Lines (wrong_line 2 (TooMany 1) (codes "/b") ∷ [])) }
    ensures none { patch_of 9 (codes "# nothing\n") ≡ Err NoMethod }
{}
