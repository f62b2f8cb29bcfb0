//! A place of a run at the ring of a mountpoint.

use cast_config::Config;
use mount_ring::Ring;
use std::alloc::{AllocError, Global};
use turn_log::{Desk, Played, Turns};

/// A place at the ring of a mountpoint, at which nobody but the connections of a run takes turns.
pub trait RingPlace: Turns<Ring> + Sized + Drop {
    ghost use Rattle.std.specs.Prelude.{◌≡◌, ◌<◌, ℕ, [], length, get_or, IfOk, IsTrue, true};
    ghost use Rattle.cast_config.specs.Kept.{KeepsRules};
    ghost use Rattle.mount_ring.specs.declared.shape.RingShape.{RingShape};
    ghost use Rattle.session_model.specs.Setting.{shapes};

    /// The place at a new ring of the mountpoint of this number, with a filter for each group.
    ///
    /// # Errors
    /// For want of memory.
    fn open(alloc: Global, config: &Config, number: u32) -> Result<Self, AllocError>
        requires kept { (cap : ℕ) × KeepsRules cap config.now }
        requires there { number < length config.now.mount }
        ensures shape { (d : RingShape) → IfOk result (λ place.
            Self.shape place ≡ get_or (shapes config.now) number d) }
        ensures uncalled { IfOk result (λ place. Self.seen place ≡ []) };

    /// The ring as the calls so far left it.
    fn ring(&self) -> &Ring
        ensures { ⟦<Ring as Played>⟧.stands result.now (Self.seen self.now) };

    /// It speaks for every caller.
    ghost speaks_for_all: { (place : Self) (me : ℕ) → IsTrue (Self.speaks place me) };

    /// Nobody else takes turns at the ring.
    ghost is_alone: { (place : Self) → Self.alone place ≡ true };
}

impl RingPlace for Desk<Ring> {
    ghost use Rattle.std.specs.Prelude.{refl};

    fn open(alloc: Global, config: &Config, number: u32) -> Result<Desk<Ring>, AllocError> {
        let capacity = config.mount.as_slice()[number as usize].ring;
        let ring = Ring::new(alloc, capacity, config.filters(number))?;
        Ok(Desk::new(ring))
    }

    fn ring(&self) -> &Ring {
        self.value()
    }

    ghost speaks_for_all = { λ place me. refl };

    ghost is_alone = { λ place. refl };
}
