//! What is not promised of links, and why.
ghost use Rattle.std.specs.Prelude.{◌≡◌, ◌<◌, ◌^◌, ℕ, List, []};
ghost use Rattle.cast_io.specs.declared.link.Got.TheVariants.{Idle};
ghost use Rattle.cast_io.specs.Causes.{Rose};
ghost use Rattle.cast_io.specs.Links.{HasRead, step_of};
ghost use Rattle.cast_io.specs.Told.{LinkTold};
ghost use Rattle.caster_record.specs.Moves.{heard_by};

/// A link's count of faults may rise in a read that does not fail, and nothing is recorded of that
/// read. So a `break` tells of a call that failed, and not of each rise of a count.
pub fn a_count_may_rise_without_a_break()
    ensures { (k : ℕ) (told : LinkTold) (buf : List ℕ) → told.faults < 2 ^ 64
        → (later : LinkTold) × HasRead told later Idle buf × Rose told.faults later.faults
        × (heard_by k (step_of Idle buf) ≡ []) }
{}
