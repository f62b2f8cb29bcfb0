//! Laws of plans and of histories, each a clause of a function that does nothing.

ghost use Rattle.std.specs.Prelude.{◌≡◌, ℕ, Bool, true, false, IsTrue, List, [], ◌++◌};
ghost use Rattle.turn_log.specs.History.{History, entries_of};
ghost use Rattle.turn_log.specs.Heard.{told, calls_in};
ghost use Rattle.mount_ring.specs.declared.shape.RingShape.{RingShape};
ghost use Rattle.session_calls.specs.Steps.{Step, on_ring};
ghost use Rattle.session_calls.specs.Plans.{Plan, left, IsMade, IsBegun, Begins};
ghost use Rattle.session_calls.specs.Rings.{history_at, answer_at, Went, WentOn};

use mount_ring::RingCall;

/// Where one plan is a beginning of another, what is made of the first and then of what is left of
/// the second is the second as a whole; and what is begun then is a beginning of it.
pub fn plans_go_on()
    ensures made { (plan later : Plan) (first second : List Step) → Begins plan later
        → IsMade plan first → IsMade (left later first) second → IsMade later (first ++ second) }
    ensures begun { (plan later : Plan) (first second : List Step) → Begins plan later
        → IsMade plan first → IsBegun (left later first) second → IsBegun later (first ++ second) }
    ensures whole { (plan : Plan) (steps : List Step) → IsMade plan steps → IsBegun plan steps }
    ensures rest { (plan : Plan) (first second : List Step) → IsMade plan (first ++ second)
        → IsMade (left plan first) second }
    ensures longer { (plan later : Plan) (steps : List Step) → Begins plan later
        → IsBegun plan steps → IsBegun later steps }
{}

/// What a caller's steps add to the histories of several mountpoints: nothing where there are none,
/// the steps of one call and then of the next are those of both, and what others call in between
/// leaves them as they were.
pub fn histories_go_on()
    ensures none { (shapes : List RingShape) (alone : Bool) (histories : List (History RingCall))
        (me : ℕ) → Went shapes alone histories histories me [] }
    ensures both { (shapes : List RingShape) (alone : Bool) (a b c : List (History RingCall))
        (me : ℕ) (first second : List Step) → Went shapes alone a b me first
        → Went shapes alone b c me second → Went shapes alone a c me (first ++ second) }
    ensures others { (shapes : List RingShape) (a b c : List (History RingCall)) (me : ℕ)
        (steps : List Step) → Went shapes false a b me steps → WentOn b c me
        → Went shapes false a c me steps }
    ensures less { (shapes : List RingShape) (alone less : Bool)
        (old now : List (History RingCall)) (me : ℕ) (steps : List Step)
        → (IsTrue less → IsTrue alone) → Went shapes alone old now me steps
        → Went shapes less old now me steps }
{}

/// Where nobody else calls, the calls that a caller makes at a mountpoint decide its history and
/// each of their answers.
pub fn calls_decide_alone()
    ensures history { (shapes : List RingShape) (old now : List (History RingCall)) (me : ℕ)
        (steps : List Step) (mount : ℕ) → Went shapes true old now me steps
        → history_at now mount
        ≡ history_at old mount ++ entries_of me (calls_in (on_ring mount steps)) }
    ensures answers { (shapes : List RingShape) (old now : List (History RingCall)) (me : ℕ)
        (steps : List Step) (mount : ℕ) → Went shapes true old now me steps
        → on_ring mount steps ≡ told (answer_at shapes mount) me (history_at old mount)
        (entries_of me (calls_in (on_ring mount steps))) }
{}
