//! Laws of the choice, each a clause of a function that does nothing.

ghost use Rattle.std.specs.Prelude.{◌≡◌, ◌↔◌, ℕ, ◌-◌, ◌*◌, ◌<◌, ◌≤◌, List, length, slice_index, Option, Some};
ghost use Rattle.gga_read.specs.declared.Position.{Position};
ghost use Rattle.base_select.specs.declared.Base.{Base};
ghost use Rattle.base_select.specs.Choice.{measures, mounts, IsNearest, nearest_of, place_of, IsChoice, choice_of};

/// What a choice is: one of the bases, and only one can be chosen. A rover without a base takes the
/// one that no other is nearer than, and of equally near ones the first; a rover whose base is not
/// in the list chooses as one without a base.
pub fn choice_is_of_the_bases()
    ensures among { (current : Option ℕ) (rover : Position) (bases : List Base) (h mount : ℕ)
        → IsChoice current rover bases h mount
        → (n : ℕ) × (n < length bases) × (mount ≡ slice_index (mounts bases) n) }
    ensures only { (current : Option ℕ) (rover : Position) (bases : List Base) (h a b : ℕ)
        → IsChoice current rover bases h a → IsChoice current rover bases h b → a ≡ b }
    ensures without { (rover : Position) (bases : List Base) (h mount : ℕ)
        → IsChoice None rover bases h mount
        → (n : ℕ) × IsNearest (measures rover bases) n × (mount ≡ slice_index (mounts bases) n) }
    ensures elsewhere { (present : ℕ) (rover : Position) (bases : List Base) (h mount : ℕ)
        → place_of (Some present) bases ≡ None
        → IsChoice (Some present) rover bases h mount → IsChoice None rover bases h mount }
{}

/// A rover whose base is in the list leaves it for the nearest where that beats it by the
/// hysteresis, `h` percent of the distance, and else stays.
pub fn choice_is_kept_unless_beaten()
    ensures leaves { (present place near : ℕ) (rover : Position) (bases : List Base) (h mount : ℕ)
        → place_of (Some present) bases ≡ Some place → IsNearest (measures rover bases) near
        → slice_index (measures rover bases) near * 10000
        < slice_index (measures rover bases) place * (100 - h) * (100 - h)
        → IsChoice (Some present) rover bases h mount → mount ≡ slice_index (mounts bases) near }
    ensures stays { (present place near : ℕ) (rover : Position) (bases : List Base) (h mount : ℕ)
        → place_of (Some present) bases ≡ Some place → IsNearest (measures rover bases) near
        → slice_index (measures rover bases) place * (100 - h) * (100 - h)
        ≤ slice_index (measures rover bases) near * 10000
        → IsChoice (Some present) rover bases h mount → mount ≡ slice_index (mounts bases) place }
{}

/// The nearest base and the choice are functions: a list that is not empty has one nearest place,
/// and `choice_of` is the mountpoint that is chosen, none exactly where nothing can be chosen.
pub fn choice_is_a_function()
    ensures nearest { (all : List ℕ) (n : ℕ) → 0 < length all
        → IsNearest all n ↔ (n ≡ nearest_of all) }
    ensures choice { (current : Option ℕ) (rover : Position) (bases : List Base) (h mount : ℕ)
        → IsChoice current rover bases h mount ↔ (choice_of current rover bases h ≡ Some mount) }
{}
