//! Where bytes go.
ghost use Rattle.std.specs.Prelude.{◌≡◌, ℕ, List, Option, OnOk, OnErr};
ghost use Rattle.std.specs.Io.KnownBytes.{Appends};
ghost use Rattle.cast_io.specs.Causes.{HasCause};
ghost use Rattle.cast_io.specs.Pieces.{AppendsPrefix};

use crate::fault::Failed;

/// Where bytes go.
pub trait Sink {
    /// The bytes that were written so far, where the sink tells them.
    ghost taken: { Self → Option (List ℕ) };

    /// How often the sink failed so far, held in a `u64`.
    ghost faults: { Self → ℕ };

    /// Writes the whole piece. After `Failed` some first bytes of it were written, none to all.
    fn write(&mut self, piece: &[u8]) -> Result<(), Failed>
        ensures whole { OnOk result (Appends (taken self.old) (taken self.new) piece.now) }
        ensures torn { OnErr result (AppendsPrefix (taken self.old) (taken self.new) piece.now) }
        ensures cause { HasCause (faults self.old) (faults self.new) result }

        // Who writes all pieces knows the count: a fault is answered, and never kept silent.
        ensures unharmed { OnOk result (faults self.new ≡ faults self.old) };
}
