//! Laws of filters, each the contract of a function that does nothing: what the list of a filter
//! is, and what it permits.
ghost use Rattle.std.specs.Prelude.{◌≡◌, ℕ, ◌↔◌, List, Contains};
ghost use Rattle.std.specs.List.Sorted.{IsStrictlyIncreasing};
ghost use Rattle.type_filter.specs.Numbers.{in_order};
ghost use Rattle.type_filter.specs.Permitted.{Listed, permits};

/// The list that a filter makes of given numbers: exactly these numbers, in increasing order, each
/// once. A list that is already so stays as it is, and so does one that a filter made.
pub fn numbers_are_put_in_order()
    ensures same { (given : List ℕ) (number : ℕ)
        → Contains (in_order given) number ↔ Contains given number }
    ensures rising { (given : List ℕ) → IsStrictlyIncreasing (in_order given) }
    ensures stays { (given : List ℕ) → IsStrictlyIncreasing given → in_order given ≡ given }
    ensures again { (given : List ℕ) → in_order (in_order given) ≡ in_order given }
{}

/// Neither the order of the given numbers nor repeats change what is permitted.
pub fn order_changes_no_permission()
    ensures { (given frame : List ℕ)
        → permits (Listed (in_order given)) frame ≡ permits (Listed given) frame }
{}
