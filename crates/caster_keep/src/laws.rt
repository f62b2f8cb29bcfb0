//! What follows from the definitions of this crate. These functions do nothing.

ghost use Rattle.std.specs.Prelude.{◌≡◌, ℕ, List};
ghost use mathlib.Core.Option.{some};
ghost use lib.ListN.{get_elem?};
ghost use Rattle.caster_keep.specs.declared.stop.Stop.{Stop};
ghost use Rattle.caster_keep.specs.declared.stop.Stop.TheVariants as stops;
ghost use Rattle.caster_keep.specs.Keeping.{first_stop};

/// Where a caster tells that its gates were over, every one of its callers stopped since its gate
/// was.
pub fn over_is_of_all()
    ensures { (list : List Stop) (k : ℕ) (stop : Stop) → first_stop list ≡ stops.Over
        → get_elem? list k ≡ some stop → stop ≡ stops.Over }
{}
