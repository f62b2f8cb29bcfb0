//! Where files are read by their paths.
ghost use Rattle.std.specs.Prelude.{◌≡◌, [], ◌∷◌};
ghost use Rattle.cast_io.specs.Causes.{HasCause};
ghost use Rattle.cast_io.specs.Logs.{step_of_open};
ghost use Rattle.cast_io.specs.Stores.{HasOpened};
ghost use Rattle.cast_io.specs.Told.{Grew};

use crate::fault::Failed;
use crate::source::Source;

/// Files, of which the one that was opened last is read.
pub trait Store: Source {
    /// Opens the file of this path, with whose first byte `read` goes on. Where there is no such
    /// file the call fails, and after `Failed` nothing is left to read.
    fn open(&mut self, path: &str) -> Result<(), Failed>
        ensures opened { HasOpened path.now (Self.store self.old) (Self.store self.new)
            (Self.left self.new) result }
        ensures cause { HasCause (Self.faults self.old) (Self.faults self.new) result }
        ensures reads { Self.reads self.new ≡ Self.reads self.old }
        ensures logged { Grew (Self.log self.old) (Self.log self.new)
            (step_of_open result path.now ∷ []) };
}
