//! Laws of histories of a book, each the contract of a function that does nothing.
ghost use Rattle.std.specs.Prelude.{◌≡◌, ℕ, Bool, true, ◌+◌, ◌<◌, ◌≤◌, IsTrue, List, [], ◌∷◌, ◌++◌, ◌==◌, length};
ghost use Rattle.caster_accounts.specs.History.{answer, callers_in, cap_at, fits, inside, may_leave};
ghost use Rattle.caster_accounts.specs.Counts.{count_of, ended, opened};
ghost use Rattle.turn_log.specs.History.{IsLegal};
ghost use Rattle.caster_accounts.specs.declared.call.BookCall.TheVariants.{Enter};
ghost use Rattle.caster_accounts.specs.declared.call.BookAnswer.TheVariants.{Entered};

use crate::call::BookCall;

/// No more sessions of an account are open than its cap, after any history.
pub fn inside_is_capped()
    ensures { (cap account : ℕ) (h : List (ℕ × BookCall)) → inside cap account h ≤ cap }
{}

/// Who asked to enter and was answered Entered may leave.
pub fn entered_may_leave()
    ensures { (caps : List ℕ) (h : List (ℕ × BookCall)) (me account : ℕ)
        → IsTrue (fits caps h me (Enter account)) → answer caps h (Enter account) ≡ Entered
        → IsTrue (may_leave caps (h ++ (me, Enter account) ∷ []) me account) }
{}

/// Who may leave an account is counted among those inside it, so that somebody is.
pub fn leaver_is_inside()
    ensures { (caps : List ℕ) (h : List (ℕ × BookCall)) (me account : ℕ)
        → IsTrue (may_leave caps h me account) → 0 < inside (cap_at caps account) account h }
{}

/// The open sessions are those that were opened less those that ended, after any history of calls
/// that fitted: of all callers, and of those that any test chooses, such as one caller alone.
pub fn sessions_are_counted()
    ensures inside { (caps : List ℕ) (account : ℕ) (h : List (ℕ × BookCall))
        → IsLegal (fits caps) h
        → inside (cap_at caps account) account h + ended account (λ _. true) h
        ≡ opened caps account (λ _. true) [] h }
    ensures chosen { (caps : List ℕ) (account : ℕ) (is_of : ℕ → Bool) (h : List (ℕ × BookCall))
        → IsLegal (fits caps) h
        → count_of is_of (callers_in (cap_at caps account) account h) + ended account is_of h
        ≡ opened caps account is_of [] h }
{}

/// Who may leave an account is who entered it more often than it left it, after any history of
/// calls that fitted.
pub fn leaver_entered_more()
    ensures may { (caps : List ℕ) (h : List (ℕ × BookCall)) (me account : ℕ)
        → IsLegal (fits caps) h → IsTrue (may_leave caps h me account)
        → ended account (λ caller. caller == me) h
        < opened caps account (λ caller. caller == me) [] h }
    ensures only { (caps : List ℕ) (h : List (ℕ × BookCall)) (me account : ℕ)
        → IsLegal (fits caps) h → account < length caps
        → ended account (λ caller. caller == me) h
        < opened caps account (λ caller. caller == me) [] h
        → IsTrue (may_leave caps h me account) }
{}
