ghost use Rattle.std.specs.Prelude.{◌≡◌, ◌≢◌, ℕ, Bool, IsTrue, [], ◌∷◌, ◌++◌};
ghost use Rattle.turn_log.specs.History.{History, IsLegalAfter, own};

use crate::object::Played;

/// The law of `fits`: what fits a history also fits it followed by any fitting entries of other
/// callers. It does nothing.
pub fn fits_stays<V: Played>()
    ensures { (s : V.Shape) (h more : History V.Call) (me : ℕ) (call : V.Call)
        → IsTrue (V.fits s h me call) → IsLegalAfter (V.fits s) h more → own me more ≡ []
        → IsTrue (V.fits s (h ++ more) me call) }
{}

/// The law of facts that last: a test of histories that each fitting entry of another caller
/// keeps is kept by any number of them. It does nothing.
pub fn fact_stays<V: Played>()
    ensures { (s : V.Shape) (me : ℕ) (holds : History V.Call → Bool)
        → ((h : History V.Call) (by : ℕ) (other : V.Call)
        → IsTrue (holds h) → by ≢ me → IsTrue (V.fits s h by other)
        → IsTrue (holds (h ++ (by, other) ∷ [])))
        → (h more : History V.Call)
        → IsTrue (holds h) → IsLegalAfter (V.fits s) h more → own me more ≡ []
        → IsTrue (holds (h ++ more)) }
{}
