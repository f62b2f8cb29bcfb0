//! Where consoles are given, and given back.
ghost use Rattle.std.specs.Prelude.{◌≡◌, ◌∷◌, ◌++◌, []};

use crate::console::Console;

/// Where consoles are given, and given back.
pub trait Lodge {
    ghost use Rattle.std.specs.Prelude.{List};
    ghost use Rattle.cast_console.specs.Consoles.{ConsoleTold, IsNewConsole};

    type Console: Console;

    /// The consoles that came back, in order, as they were then.
    ghost back: { Self → List ConsoleTold };

    /// Gives a console, at which nothing was wanted yet.
    fn console(&mut self) -> Self::Console
        ensures fresh { IsNewConsole (Self.Console.told result) }
        ensures same { back self.new ≡ back self.old };

    /// Takes back a console that it gave.
    fn take_console(&mut self, console: Self::Console)
        ensures { back self.new ≡ back self.old ++ Self.Console.told console ∷ [] };
}
