ghost use Rattle.std.specs.Prelude.{◌≡◌, ℕ, ◌^◌, ◌<◌, ◌≢◌, Bool, IsTrue, [], ◌∷◌, ◌++◌, length};
ghost use Rattle.turn_log.specs.History.{History};

/// An object that callers take turns on, such as a ring or a book of accounts.
///
/// What it does is said by its history alone: the calls that were made of it so far, each with
/// the number of its caller. Caller numbers are any `u32`.
pub trait Played {
    /// What may be asked of the object. A place notes each call, so it is plain data.
    type Call: Copy;

    /// What the object answers to a call.
    type Answer;

    /// Where a call may put what it gives beside its answer, made by the caller beforehand.
    type Room;

    /// What no call changes, such as a capacity. No value of this type is ever made: clauses
    /// alone speak of it.
    type Shape;

    /// What no call changes.
    ghost shape: { Self → Self.Shape };

    /// The value is what these calls leave of a new one.
    ghost stands: { Self → History Self.Call → Type 0 };

    /// That a value stands for a history is one fact, and not a choice: so a place can keep it.
    ghost stands_once: { (v : Self) (h : History Self.Call) → IsProp (stands v h) };

    /// The caller may make this call after the history.
    ghost fits: { Self.Shape → History Self.Call → ℕ → Self.Call → Bool };

    /// What the call is answered after the history.
    ghost answer: { Self.Shape → History Self.Call → ℕ → Self.Call → Self.Answer };

    /// What the room holds after the call, from what it held before.
    ghost filled: { Self.Shape → History Self.Call → ℕ → Self.Call → Self.Room → Self.Room };

    /// Makes one call of the caller `me`. It takes no memory and cannot fail: what a call needs
    /// was made with the object.
    fn play(&mut self, me: u32, call: Self::Call, room: &mut Self::Room) -> Self::Answer
        requires { (h : History Self.Call)
            × stands self.old h × (length h < 2 ^ 63) × IsTrue (fits (shape self.old) h me call) }
        ensures shape { shape self.new ≡ shape self.old }

        // Whatever history the value stood for, it stands for that history and this entry, and
        // answer and room are the ones at that point.
        ensures played { (h : History Self.Call) → stands self.old h → length h < 2 ^ 63
            → IsTrue (fits (shape self.old) h me call)
            → stands self.new (h ++ (me, call) ∷ [])
            × (result ≡ answer (shape self.old) h me call)
            × (room.new ≡ filled (shape self.old) h me call room.old) };

    /// What fits a history also fits it followed by a fitting entry of another caller.
    ghost still_fits: { (s : Self.Shape) (h : History Self.Call)
        (me by : ℕ) (call other : Self.Call)
        → IsTrue (fits s h me call) → by ≢ me → IsTrue (fits s h by other)
        → IsTrue (fits s (h ++ (by, other) ∷ []) me call) };
}
