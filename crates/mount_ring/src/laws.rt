//! Laws of reads and of histories, each the contract of a function that does nothing: what readers
//! and sources may count on, for any filter, any capacity and any frames that were published.
ghost use Rattle.std.specs.Prelude.{◌≡◌, ℕ, ◌+◌, ◌<◌, ◌≤◌, ◌↔◌, min, List, [], ◌∷◌, ◌++◌, length, take, IsTrue, IfSome, slice_get};
ghost use Rattle.std.specs.List.{filter, count_by};
ghost use Rattle.mount_ring.specs.Reads.{most_taken, read_report};
ghost use Rattle.mount_ring.specs.History.{Shape, State, start, after_call, state_of, permits_at, is_holder, fits, is_readable, joined, answer, own_answers, answers_since, has_none_of};
ghost use Rattle.mount_ring.specs.Places.{between, Reading, reading_report, taken_by, begin_of, end_of, lap_overrun, published_by, claims_given, are_fit};

use crate::call::{Holder, RingAnswer, RingCall};
use crate::cursor::Cursor;

/// Where a read goes: forward from its cursor, and no further than what was published; to the end
/// of that where its budget, of which at most 16 counts, was not filled; else not beyond the frame
/// that filled it. With budget 0 it ends where it began.
pub fn read_goes_on()
    ensures forward { (r : Reading) → (r.cursor.next ≤ begin_of r) × (begin_of r ≤ end_of r) }
    ensures within { (r : Reading) → end_of r ≤ length r.published }
    ensures few { (r : Reading) → (reading_report r).taken ≤ min r.budget most_taken }
    ensures to_the_end { (r : Reading) → (reading_report r).taken < min r.budget most_taken
        → end_of r ≡ length r.published }
    ensures no_further { (r : Reading) (place : ℕ) → begin_of r ≤ place → place < end_of r
        → count_by r.permits (between (begin_of r) place r.published) < min r.budget most_taken }
    ensures no_budget { (r : Reading) → r.budget ≡ 0 → end_of r ≡ begin_of r }
{}

/// What a read takes: the permitted frames from where it begins to where it ends, in order, each
/// once.
pub fn read_takes_permitted()
    ensures frames { (r : Reading)
        → taken_by r ≡ filter r.permits (between (begin_of r) (end_of r) r.published) }
    ensures taken { (r : Reading) → (reading_report r).taken ≡ length (taken_by r) }
{}

/// What a lap names: frames that the ring had overwritten, from the cursor's place to the oldest
/// frame that was kept; and there is one exactly where the cursor stood before that frame.
pub fn lap_is_overwritten()
    ensures none { (r : Reading)
        → ((reading_report r).lapped ≡ None)
        ↔ (length r.published ≤ r.cursor.next + r.capacity) }
    ensures from { (r : Reading)
        → IfSome (reading_report r).lapped (λ lap. lap.from ≡ r.cursor.next) }
    ensures not_empty { (r : Reading)
        → IfSome (reading_report r).lapped (λ lap. lap.from < lap.to) }
    ensures overwritten { (r : Reading)
        → IfSome (reading_report r).lapped (λ lap. lap.to + r.capacity ≡ length r.published) }
    ensures published { (r : Reading)
        → IfSome (reading_report r).lapped (λ lap. lap.published ≡ length r.published) }
    ensures overrun { (r : Reading) → IfSome (reading_report r).lapped
        (λ lap. lap.overrun ≡ count_by r.permits (between lap.from lap.to r.published)) }
{}

/// A read loses none in silence: the permitted frames from the cursor's place to where the read
/// ended are those that the lap passed over, followed by those that were taken, and their number is
/// that of frames taken and overrun together.
pub fn read_loses_none()
    ensures in_order { (r : Reading)
        → filter r.permits (between r.cursor.next (end_of r) r.published)
        ≡ filter r.permits (between r.cursor.next (begin_of r) r.published) ++ taken_by r }
    ensures counted { (r : Reading)
        → (reading_report r).taken + lap_overrun (reading_report r).lapped
        ≡ count_by r.permits (between r.cursor.next (end_of r) r.published) }
{}

/// Which cursors may be read: that of one who joined, that of a read from one that may be read, and
/// each of them later as well. A cursor keeps its filter and counts the permitted frames before it.
pub fn cursor_may_be_read()
    ensures joined { (shape : Shape) (state : State) (number : ℕ) → number < length shape.filters
        → IsTrue (is_readable shape state (joined shape state number)) }
    ensures read { (shape : Shape) (state : State) (cursor : Cursor) (budget : ℕ)
        → IsTrue (is_readable shape state cursor)
        → IsTrue (is_readable shape state (read_report (permits_at shape cursor.filter)
        shape.capacity state.published cursor budget).cursor) }
    ensures later { (shape : Shape) (history more : List (ℕ × RingCall)) (cursor : Cursor)
        → IsTrue (is_readable shape (state_of history) cursor)
        → IsTrue (is_readable shape (state_of (history ++ more)) cursor) }
    ensures filter { (r : Reading) → (reading_report r).cursor.filter ≡ r.cursor.filter }
    ensures passed { (r : Reading)
        → (reading_report r).cursor.passed ≡ count_by r.permits (take (end_of r) r.published) }
{}

/// A history is entered call by call: its state is that before the last entry, changed by that
/// entry alone, and what a caller was answered stands whatever comes later.
pub fn history_by_entries()
    ensures nothing { state_of [] ≡ start }
    ensures entry { (history : List (ℕ × RingCall)) (me : ℕ) (call : RingCall)
        → state_of (history ++ (me, call) ∷ []) ≡ after_call (state_of history) me call }
    ensures answers { (shape : Shape) (me : ℕ) (history more : List (ℕ × RingCall))
        → own_answers shape me (history ++ more)
        ≡ own_answers shape me history ++ answers_since shape me history more }
{}

/// What was published are the frames of all Publish entries, in order: it only grows, and each
/// frame stands at the place that its call was answered.
pub fn published_grows()
    ensures entries { (history : List (ℕ × RingCall))
        → (state_of history).published ≡ published_by history }
    ensures grows { (history more : List (ℕ × RingCall))
        → (state_of (history ++ more)).published
        ≡ (state_of history).published ++ published_by more }
    ensures place { (shape : Shape) (state : State) (me claim : ℕ) (frame : List ℕ)
        → (answer shape state (RingCall.Publish claim frame)
        ≡ RingAnswer.At (length state.published))
        × (slice_get (after_call state me (RingCall.Publish claim frame)).published
        (length state.published) ≡ Some frame) }
{}

/// Claims: one is given exactly where nobody holds the mountpoint, to the caller that asked, and
/// its number is one more than the number of claims that were given before. Else the answer names
/// the holder, and nothing changes.
pub fn claims_are_numbered()
    ensures given { (shape : Shape) (history : List (ℕ × RingCall))
        → (state_of history).holder ≡ None → answer shape (state_of history) RingCall.Claim
        ≡ RingAnswer.Given (claims_given shape start history + 1) }
    ensures holds { (shape : Shape) (history : List (ℕ × RingCall)) (me : ℕ)
        → (state_of history).holder ≡ None
        → (after_call (state_of history) me RingCall.Claim).holder
        ≡ Some (record { caller = me; claim = claims_given shape start history + 1 }) }
    ensures taken { (shape : Shape) (state : State) (holder : Holder) → state.holder ≡ Some holder
        → answer shape state RingCall.Claim ≡ RingAnswer.Taken holder.caller holder.claim }
    ensures unchanged { (state : State) (me : ℕ) (holder : Holder) → state.holder ≡ Some holder
        → after_call state me RingCall.Claim ≡ state }
    ensures latest { (history : List (ℕ × RingCall)) → IfSome (state_of history).holder
        (λ holder. holder.claim ≡ (state_of history).claims) }
{}

/// A look: it may always be made, tells under which claim the mountpoint is held, whoever holds it,
/// and changes nothing.
pub fn look_tells_the_claim()
    ensures may { (shape : Shape) (state : State) (me : ℕ)
        → IsTrue (fits shape state me RingCall.Look) }
    ensures held { (shape : Shape) (state : State) (by claim : ℕ)
        → IsTrue (is_holder state.holder by claim)
        → answer shape state RingCall.Look ≡ RingAnswer.Looked (Some claim) }
    ensures free { (shape : Shape) (state : State) → state.holder ≡ None
        → answer shape state RingCall.Look ≡ RingAnswer.Looked None }
    ensures unchanged { (state : State) (me : ℕ) → after_call state me RingCall.Look ≡ state }
{}

/// The holder: at most one caller, under one claim. It goes on to hold while others make calls that
/// they may make, and holds no longer once it released, which it alone may do.
pub fn holder_is_one()
    ensures one { (state : State) (me by claim other : ℕ)
        → IsTrue (is_holder state.holder me claim) → IsTrue (is_holder state.holder by other)
        → (me ≡ by) × (claim ≡ other) }
    ensures stays { (shape : Shape) (history more : List (ℕ × RingCall)) (me claim : ℕ)
        → IsTrue (is_holder (state_of history).holder me claim)
        → IsTrue (are_fit shape (state_of history) more) → IsTrue (has_none_of me more)
        → IsTrue (is_holder (state_of (history ++ more)).holder me claim) }
    ensures freed { (state : State) (me claim : ℕ)
        → (after_call state me (RingCall.Release claim)).holder ≡ None }
    ensures alone { (shape : Shape) (state : State) (me claim : ℕ)
        → IsTrue (fits shape state me (RingCall.Release claim))
        ↔ IsTrue (is_holder state.holder me claim) }
{}
