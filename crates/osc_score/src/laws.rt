//! What the definitions of scores come to.
ghost use Rattle.std.specs.Prelude.{◌≡◌, ℕ, List, [], ◌∷◌, ◌++◌, length, codes, pos};
ghost use Rattle.std.specs.Prelude.{negsuc, Ok, Err, IfOk};
ghost use Rattle.osc_message.specs.Messages.{integer, text, content, true_};
ghost use Rattle.osc_score.specs.Scores.{Note};
ghost use Rattle.osc_score.specs.Scripted.{score_script};
ghost use Rattle.osc_score.specs.Plans.{plan_of, plan_script};
ghost use Rattle.osc_score.specs.Reading.{score_of, IsScored};

use osc_pattern::laws as addresses;

/// What is read is a score: each note is lawful, no tag is below 2 or below the one before, no
/// bundle is too long, and the distinct addresses make a lawful tree. Its lines are no longer than
/// the input.
pub fn what_is_read_is_a_score()
    ensures { (bytes : List ℕ) → IfOk (score_of bytes) (IsScored (length bytes)) }
{
    addresses::tests_are_exact();
}

/// What is kept of a score plays it.
pub fn what_is_kept_plays_the_score()
    ensures { (notes : List Note) → plan_script (plan_of notes) ≡ score_script notes }
{}

/// Three notes at two moments, read, and the script that plays them; faults of most kinds; and
/// words of each form.
#[tactic(auto, unfolding(hex::specs::Hex::encode_with))]
pub fn examples()
    ensures read { score_of
        (codes "83aa7e8000000000 /a i:1\n83aa7e8000000000 /b s:hi T\n83aa7e8100000000 /a\n")
        ≡ Ok
        (record { tag = 0x83aa7e8000000000; address = codes "/a"; arguments = integer (pos 1) ∷ [] }
        ∷ record {
          tag = 0x83aa7e8000000000;
          address = codes "/b";
          arguments = text (codes "hi") ∷ true_ ∷ [];
        }
        ∷ record { tag = 0x83aa7e8100000000; address = codes "/a"; arguments = [] } ∷ []) }
    ensures order { score_of (codes "0000000000000005 /a\n0000000000000004 /a\n")
        ≡ Err (record { line = 2; kind = 34 }) }
    ensures count { score_of (codes "# a\n\n0000000000000002\n")
        ≡ Err (record { line = 3; kind = 32 }) }
    ensures tag { score_of (codes "2 /a") ≡ Err (record { line = 1; kind = 33 }) }
    ensures least { score_of (codes "0000000000000001 /a") ≡ Err (record { line = 1; kind = 34 }) }
    ensures address { score_of (codes "0000000000000002 a i:x")
        ≡ Err (record { line = 1; kind = 35 }) }
    ensures arg { score_of (codes "0000000000000002 /a [ i:01")
        ≡ Err (record { line = 1; kind = 36 }) }
    ensures brackets { score_of (codes "0000000000000002 /a [ i:-1")
        ≡ Err (record { line = 1; kind = 37 }) }
    ensures clash { score_of (codes "0000000000000002 /a/b\n0000000000000002 /a\n")
        ≡ Err (record { line = 2; kind = 39 }) }
    ensures words { score_of (codes "00000000000000FF /a b:00fF i:-2147483648 s:\\x20\\xff")
        ≡ Ok (record {
          tag = 255;
          address = codes "/a";
          arguments = content (0 ∷ 255 ∷ []) ∷ integer (negsuc 2147483647)
              ∷ text (32 ∷ 255 ∷ []) ∷ [];
        } ∷ []) }
    ensures script { score_script
        (record { tag = 0x83aa7e8000000000; address = codes "/a"; arguments = integer (pos 1) ∷ [] }
        ∷ record {
          tag = 0x83aa7e8000000000;
          address = codes "/b";
          arguments = text (codes "hi") ∷ true_ ∷ [];
        }
        ∷ record { tag = 0x83aa7e8100000000; address = codes "/a"; arguments = [] } ∷ [])
        ≡ codes "add /a\nadd /b\n"
        ++ codes "send 2362756e646c650083aa7e8000000000"
        ++ codes "0000000c2f6100002c690000000000010000000c2f6200002c73540068690000\n"
        ++ codes "send 2362756e646c650083aa7e8100000000000000082f6100002c000000\n"
        ++ codes "tick 83aa7e8000000000\npump\ntick 83aa7e8100000000\npump\n" }
{}
