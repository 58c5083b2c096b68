//! What the order of the items says of every queue.
ghost use Rattle.std.specs.Prelude.{◌≡◌, ◌≢◌, ◌<◌, ◌↔◌, ◌⊎◌, true, List, ◌∷◌};
ghost use Rattle.std.specs.List.{Contains};
ghost use Rattle.std.specs.List.Sorted.{IsPermutation};
ghost use Rattle.osc_queue.specs.Timed.{Item, due_of, unit_of, is_before, enter, IsInOrder};
ghost use Rattle.osc_queue.specs.Timed.{IsLeast, IsNewUnit};

/// An item is taken before another if it is due earlier, or at the same moment with the lower unit number. Of two
/// items with different unit numbers, one is taken before the other, and never both.
pub fn the_order_is_by_due_and_unit<T>()
    ensures before { (a b : Item T)
        → (is_before a b ≡ true)
        ↔ ((due_of a < due_of b) ⊎ ((due_of a ≡ due_of b) × (unit_of a < unit_of b))) }
    ensures either { (a b : Item T) → unit_of a ≢ unit_of b
        → (is_before a b ≡ true) ⊎ (is_before b a ≡ true) }
    ensures not_both { (a b : Item T) → is_before a b ≡ true → is_before b a ≢ true }
{}

/// An item that enters joins the others, none of which is lost, and the order stays where its unit number is new.
pub fn an_item_enters_the_queue<T>()
    ensures joined { (item : Item T) (items : List (Item T))
        → IsPermutation (item ∷ items) (enter item items) }
    ensures ordered { (item : Item T) (items : List (Item T)) → IsNewUnit (unit_of item) items
        → IsInOrder items → IsInOrder (enter item items) }
{}

/// The head of a queue in order is the least, and the only one. The others stay in order.
pub fn the_head_is_the_least<T>()
    ensures least { (item : Item T) (items : List (Item T)) → IsInOrder (item ∷ items)
        → IsLeast item (item ∷ items) }
    ensures only { (item other : Item T) (items : List (Item T)) → IsInOrder (item ∷ items)
        → Contains (item ∷ items) other → IsLeast other (item ∷ items) → other ≡ item }
    ensures others { (item : Item T) (items : List (Item T)) → IsInOrder (item ∷ items)
        → IsInOrder items }
{}

/// Two queues in order that hold the same items are the same.
pub fn the_order_is_one<T>()
    ensures { (one other : List (Item T)) → IsInOrder one → IsInOrder other
        → ((item : Item T) → Contains one item → Contains other item)
        → ((item : Item T) → Contains other item → Contains one item) → one ≡ other }
{}
