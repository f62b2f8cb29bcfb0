//! The laws of writing and reading.

ghost use Rattle.std.specs.Prelude.{◌≡◌, ℕ, ◌≤◌, List, length, IsTrue, Ok, Some};
ghost use Rattle.session_script.specs.declared.Event.{Event};
ghost use Rattle.session_script.specs.declared.ScriptKind.{ScriptKind};
ghost use Rattle.session_script.specs.Line.{is_event, event_of_line};
ghost use Rattle.session_script.specs.Script.{IsSession, script_of};
ghost use Rattle.session_script.specs.Writing.{IsLine, IsNear, IsWritten, script_text};

/// What is written is read. A script of a session's events, of at most 8 MiB, reads as exactly
/// these events, for the same kind: with any comments and empty lines, with CR before LF or
/// without, with hexadecimal digits of either case, with or without an LF behind `stop`, and
/// whatever follows it.
pub fn reads_what_is_written()
    ensures plain { (kind : ScriptKind) (events : List Event) → IsSession kind events
        → length (script_text events) ≤ 8388608 → script_of kind (script_text events) ≡ Ok events }
    ensures any { (kind : ScriptKind) (events : List Event) (bytes : List ℕ) → IsSession kind events
        → IsWritten bytes events → length bytes ≤ 8388608 → script_of kind bytes ≡ Ok events }
{}

/// A line has the form of an event exactly where it reads as that event: the event is of the kind
/// and in the grammar's ranges, and the line is its parts with one space between each two. (A relay
/// whose number no relay has reads as the last number, whatever its own is.)
pub fn reads_lines()
    ensures reads { (kind : ScriptKind) (line : List ℕ) (event : Event)
        → IsTrue (is_event kind event) → IsLine line event → event_of_line kind line ≡ Some event }
    ensures only { (kind : ScriptKind) (line : List ℕ) (event : Event)
        → event_of_line kind line ≡ Some event → IsNear event → IsLine line event }
    ensures ranges { (kind : ScriptKind) (line : List ℕ) (event : Event)
        → event_of_line kind line ≡ Some event → IsTrue (is_event kind event) }
{}
