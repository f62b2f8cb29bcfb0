//! Reading a whole script.

ghost use Rattle.std.specs.Prelude.{◌≡◌, ℕ, ◌+◌, ◌^◌, ◌<◌, ◌≤◌, List, [], ◌∷◌, length, IfOk, IfErr, OnOk, Ok, if◌then◌else◌, sum_by};
ghost use Rattle.session_script.specs.Script.{Gives, IsSession, input_length, items_of, is_skipped, script_of};
ghost use Rattle.session_script.specs.Reading.{line_read};

use crate::connections::Connections;
use crate::line::event_of_line;
use crate::{Event, ScriptFault, ScriptKind};
use cast_text::split_line;
use std::alloc::{AllocError, Global};

/// The most bytes of a script.
const MAX_SCRIPT_BYTES: usize = 8_388_608;

/// The bytes of the shortest line of an event, with its LF.
const SHORTEST_LINE: usize = 6;

/// What a line is.
#[derive(Drop)]
enum LineRead {
    Skipped,
    Stop,
    Happens(Event),
}

/// The events that were read so far, and what the next line needs to know of them.
#[derive(Drop)]
struct Reader {
    kind: ScriptKind,
    line: u32,
    connections: Connections,
    events: Vec<Event>,
}

/// Whether a line is empty or a comment.
fn is_skipped(line: &[u8]) -> bool
    ensures { result ≡ is_skipped line.now }
{
    line.is_empty() || line[0] == b'#'
}

/// What line `n` is.
fn read_line(
    alloc: Global,
    kind: ScriptKind,
    n: u32,
    connections: &Connections,
    line: &[u8],
) -> Result<LineRead, ScriptFault>
    ensures { Gives result (line_read kind n connections.now line.now) }
{
    if is_skipped(line) {
        return Ok(LineRead::Skipped);
    }
    if line == b"stop".as_slice() {
        return Ok(LineRead::Stop);
    }
    let Some(event) = event_of_line(alloc, kind, line)? else {
        return Err(ScriptFault::Line(n));
    };
    if connections.may_follow(kind, &event) {
        Ok(LineRead::Happens(event))
    } else {
        Err(ScriptFault::State(n))
    }
}

impl Reader {
    ghost use Rattle.session_script.specs.Numbers.{no_numbers};
    ghost use Rattle.session_script.specs.Script.{Fails};
    ghost use Rattle.session_script.specs.Reading.{read_on};

    /// Before the first line, with room for so many events.
    fn new(alloc: Global, kind: ScriptKind, room: usize) -> Result<Reader, AllocError>
        ensures kind { IfOk result (λ reader. reader.kind ≡ kind) }
        ensures line { IfOk result (λ reader. reader.line ≡ 1) }
        ensures connections { IfOk result (λ reader. reader.connections ≡ no_numbers) }
        ensures events { IfOk result (λ reader. reader.events.items ≡ []) }
    {
        Ok(Reader {
            kind,
            line: 1,
            connections: Connections::new(alloc),
            events: Vec::with_capacity(alloc, room)?,
        })
    }

    /// Takes the next line, and says whether it is `stop`.
    fn take(&mut self, alloc: Global, line: &[u8]) -> Result<bool, ScriptFault>
        requires { self.old.line + 1 < 2 ^ 32 }
        ensures kind { OnOk result (self.new.kind ≡ self.old.kind) }
        ensures line { OnOk result (self.new.line ≤ self.old.line + 1) }
        ensures goes { (lines : List (List ℕ)) → IfOk result (λ stopped.
            read_on self.old (line.now ∷ lines)
            ≡ (if stopped then Ok self.new.events.items else read_on self.new lines)) }
        ensures fails { (lines : List (List ℕ)) → IfErr result (λ fault.
            Fails fault (read_on self.old (line.now ∷ lines))) }
    {
        match read_line(alloc, self.kind, self.line, &self.connections, line) {
            Ok(LineRead::Skipped) => {
                self.line += 1;
                Ok(false)
            }
            Ok(LineRead::Stop) => Ok(true),
            Ok(LineRead::Happens(event)) => {
                self.connections.follow(&event)?;
                self.events.push(event)?;
                self.line += 1;
                Ok(false)
            }
            Err(fault) => Err(fault),
        }
    }
}

/// The events of the script, or its first fault.
fn events_of(alloc: Global, bytes: &[u8], kind: ScriptKind) -> Result<Vec<Event>, ScriptFault>
    ensures { Gives (items_of result) (script_of kind bytes.now) }
{
    if bytes.len() > MAX_SCRIPT_BYTES {
        return Err(ScriptFault::Long);
    }
    let mut reader = Reader::new(alloc, kind, bytes.len() / SHORTEST_LINE + 1)?;
    let mut rest = bytes;
    while let Some((line, after)) = split_line(rest) {
        match reader.take(alloc, line) {
            Ok(true) => return Ok(reader.events),
            Ok(false) => rest = after,
            Err(fault) => return Err(fault),
        }
    }
    Err(ScriptFault::NoStop)
}

/// The events of a script of this kind.
///
/// # Errors
/// `Long` exactly where there are more than 8 MiB. Else the first faulty line counts: `Line` where
/// it is of no form of its kind, `State` where it has a form but opens a number that was opened
/// before, opens the 257th connection, speaks of a number that was not opened or that `break` or
/// `end` closed, or names a relay beyond the kind's. `NoStop` where no line is faulty and none is
/// `stop`. `Memory` at any time.
pub fn parse(alloc: Global, bytes: &[u8], kind: ScriptKind) -> Result<Vec<Event>, ScriptFault>
    ensures gives { Gives (items_of result) (script_of kind bytes.now) }

    // What is read is a session of the kind, and small.
    ensures session { IfOk result (λ events. IsSession kind events.items) }
    ensures small { IfOk result (λ events. length bytes.now ≤ 8388608) }
    ensures events { IfOk result (λ events. length events.items ≤ length bytes.now) }
    ensures input { IfOk result (λ events. sum_by input_length events.items ≤ length bytes.now) }
{
    events_of(alloc, bytes, kind)
}
