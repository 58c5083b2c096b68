//! What the definitions say, apart from any code.
ghost use Rattle.std.specs.Prelude.{◌≡◌, ◌↔◌, ◌+◌, ◌≤◌, ℕ, List, [], ◌∷◌, ◌++◌, length, None, Some};
ghost use Rattle.std.specs.Prelude.{codes};
ghost use Rattle.std.specs.List.Sorted.{IsPermutation};
ghost use Rattle.osc_pattern.specs.Addresses.{IsAddress};
ghost use Rattle.osc_pattern.specs.Methods.{Method, nodes};
ghost use Rattle.osc_tree.specs.Registry.{Registry, IsLawful, IsNewId};
ghost use Rattle.osc_tree.specs.Nodes.{new_nodes};
ghost use Rattle.osc_tree.specs.Adding.{IsAddable, Refusal, Refuses, is_container, nodes_full};
ghost use Rattle.osc_tree.specs.Adding.{add_refusal};
ghost use Rattle.osc_tree.specs.Matching.{matched, matching, matching_ids, IsAscending};

/// The methods that a pattern matches stand in ascending order of their addresses, and are those
/// that match, each once.
pub fn the_matching_methods_ascend()
    ensures exactly { (pattern : List ℕ) (methods : List Method)
        → IsPermutation (matched pattern methods) (matching pattern methods) }
    ensures ascending { (pattern : List ℕ) (methods : List Method)
        → IsAscending (matching pattern methods) }
{}

/// A list of methods with one more, wherever it stands, has the nodes of the others and the
/// prefixes of the new address that no other address has.
pub fn an_address_adds_its_new_nodes()
    ensures { (method : Method) (front back : List Method)
        → nodes (front ++ method ∷ back)
        ≡ nodes (front ++ back) + new_nodes (front ++ back) method.address }
{}

/// An address that can be added, with a new id, leaves a tree as lawful as it was.
pub fn an_added_method_is_lawful()
    ensures { (tree : Registry) (id : ℕ) (address : List ℕ) → IsLawful tree
        → IsNewId tree.methods id → IsAddress address → IsAddable tree address
        → IsLawful (record tree {
          methods = tree.methods
              ++ record { id = id; address = address } ∷ [];
        }) }
{}

/// An address is refused by the first of the five lines that applies, and by none where it can be
/// added.
pub fn an_address_is_refused_by_the_first_line()
    ensures refused { (tree : Registry) (address : List ℕ) (refusal : Refusal)
        → length tree.methods ≤ tree.method_limit →
        add_refusal tree address ≡ Some refusal → Refuses tree address refusal }
    ensures added { (tree : Registry) (address : List ℕ) → length tree.methods ≤ tree.method_limit →
        (add_refusal tree address ≡ None) ↔ IsAddable tree address }
{}

/// Methods in the order of their bytes and not of their names; a node that two addresses share; a
/// container.
pub fn examples()
    ensures bytes { matching_ids (codes "/*/x")
        (record { id = 0; address = codes "/a/x" } ∷ record { id = 1; address = codes "/a-b/x" }
        ∷ []) ≡ 1 ∷ 0 ∷ [] }
    ensures shared { new_nodes (record { id = 0; address = codes "/a/b" } ∷ []) (codes "/a/c") ≡ 1 }
    ensures full { add_refusal
        (record {
          methods = record { id = 0; address = codes "/a/b" } ∷ [];
          method_limit = 9;
          node_limit = 2;
        }) (codes "/a/c") ≡ Some (nodes_full 1 0) }
    ensures room { add_refusal
        (record {
          methods = record { id = 0; address = codes "/a/b" } ∷ [];
          method_limit = 9;
          node_limit = 3;
        }) (codes "/a/c") ≡ None }
    ensures container { add_refusal
        (record {
          methods = record { id = 1; address = codes "/a/b" } ∷ [];
          method_limit = 9;
          node_limit = 9;
        }) (codes "/a") ≡ Some is_container }
{}
