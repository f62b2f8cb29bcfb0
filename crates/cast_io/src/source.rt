//! Where bytes come from.
ghost use Rattle.std.specs.Prelude.{◌≡◌, ◌<◌, ℕ, List, [], ◌∷◌, Option, None, length};
ghost use Rattle.std.specs.Io.{ReadsAtMost};
ghost use Rattle.std.specs.Io.KnownBytes.{ReadConsumes};
ghost use Rattle.cast_io.specs.Causes.{HasCause, next_count};
ghost use Rattle.cast_io.specs.Logs.{Log, step_of_read};
ghost use Rattle.cast_io.specs.Told.{Grew, StoreTold, no_store};

use crate::fault::Failed;

/// Where bytes come from.
pub trait Source {
    /// The bytes that are left to read, where the source tells them.
    ghost left: { Self → Option (List ℕ) };

    /// How often the source failed so far, held in a `u64`.
    ghost faults: { Self → ℕ };

    /// How often the source was read so far, held in a `u64`.
    ghost reads: { Self → ℕ };

    /// What a store tells of its files. A source that is no store tells nothing.
    ghost store: { Self → StoreTold } = { λ _. no_store };

    /// The steps that the source took so far, in order, where it tells them.
    ghost log: { Self → Log } = { λ _. None };

    /// Fills the front of `buf` and answers how many bytes it wrote there; 0 is the end of the
    /// input. After `Failed` no byte that was left has been taken.
    fn read(&mut self, buf: &mut [u8]) -> Result<usize, Failed>
        requires { 0 < length buf.old }
        ensures bound { ReadsAtMost result buf.new }
        ensures bytes { ReadConsumes (left self.old) (left self.new) result buf.new }
        ensures cause { HasCause (faults self.old) (faults self.new) result }
        ensures counted { reads self.new ≡ next_count (reads self.old) }
        ensures kept { store self.new ≡ store self.old }
        ensures logged { Grew (log self.old) (log self.new) (step_of_read result buf.new ∷ []) };
}
