//! Where an operator asks how things stand.
ghost use Rattle.std.specs.Prelude.{◌≡◌};

use crate::wanted::Wanted;

/// Where an operator asks how things stand. It knows how many workers serve a link; that this is so
/// is not claimed.
pub trait Console {
    ghost use Rattle.cast_console.specs.Consoles.{ConsoleTold, HasHeard};

    /// What it tells of itself.
    ghost told: { Self → ConsoleTold };

    /// What is wanted now.
    fn hear(&mut self) -> Wanted
        ensures { HasHeard result (told self.old) (told self.new) };

    /// Waits a little.
    fn rest(&mut self)
        ensures { told self.new ≡ told self.old };
}
