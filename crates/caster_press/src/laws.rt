//! What follows from the definitions of this crate. These functions do nothing.
ghost use Rattle.std.specs.Prelude.{◌≡◌, ◌<◌, ℕ, true, List, [], ◌++◌, map, sum_by, length, Option};
ghost use Rattle.std.specs.List.{All};
ghost use mathlib.Core.Option.{some};
ghost use lib.ListN.{get_elem?};
ghost use Rattle.std.specs.Io.KnownBytes.{Appends};
ghost use Rattle.turn_log.specs.History.{History, own};
ghost use Rattle.cast_io.specs.Pieces.{AppendsPrefix};
ghost use Rattle.caster_press.specs.declared.line.Line.{Line};
ghost use Rattle.caster_press.specs.declared.press.OutputStart.{OutputStart};
ghost use Rattle.caster_press.specs.Lines.{IsFirstOf, lines_of, text_in, text_of};
ghost use Rattle.caster_press.specs.Places.{HasPut};
ghost use Rattle.caster_press.specs.Texts.{lines_in};
ghost use Rattle.caster_press.specs.Written.{IsWritten};

/// Who cuts the text of a history at its newlines finds its lines, each whole and in order.
pub fn lines_are_found()
    ensures { (h : History Line) → lines_in (text_in h) ≡ map text_of (lines_of h) }
{}

/// A text whose writing is torn was written up to some byte, from none to all of it.
pub fn torn_is_a_first_part()
    ensures { (start : OutputStart) (taken : Option (List ℕ)) (faults : ℕ) (text : List ℕ)
        → IsWritten true start taken faults text → AppendsPrefix start.taken taken text }
{}

/// What was written of a history is some first lines, each whole, and a part of the next line.
pub fn torn_is_whole_lines_and_a_part()
    ensures { (start : OutputStart) (taken : Option (List ℕ)) (faults : ℕ) (h : History Line)
        → IsWritten true start taken faults (text_in h)
        → (text : List ℕ) × Appends start.taken taken text × IsFirstOf text h }
{}

/// Lines that a caller puts after others are behind them, and its own lines grow by exactly these.
pub fn puts_add_up()
    ensures both { (me : ℕ) (first second : List Line) (old mid new : History Line)
        → HasPut me first old mid → HasPut me second mid new → HasPut me (first ++ second) old new }
    ensures own { (me : ℕ) (lines : List Line) (old new : History Line)
        → HasPut me lines old new → own me new ≡ own me old ++ lines }
{}

/// A history of callers whose own lines are these lists, and of nobody else, adds up to what the
/// lists add up to, whatever is counted of a line: a 1, its bytes, or a number that is told in it.
pub fn lists_add_up()
    ensures { (count : Line → ℕ) (lists : List (List Line)) (whole : History Line)
        → All (λ entry. entry.0 < length lists) whole
        → ((k : ℕ) (lines : List Line) → get_elem? lists k ≡ some lines → own k whole ≡ lines)
        → sum_by count (lines_of whole) ≡ sum_by (λ lines. sum_by count lines) lists }
{}
