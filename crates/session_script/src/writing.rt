//! Writing a script: one line for each event, and `stop`.

ghost use Rattle.std.specs.Prelude.{◌≡◌, ◌≤◌, [], ◌∷◌, ◌++◌, length, Ok, IfOk, OnOk, OnErr};
ghost use Rattle.std.specs.List.{join_with_byte};
ghost use Rattle.std.specs.Fmt.{decimal};
ghost use Rattle.session_script.specs.declared.ScriptKind.{ScriptKind};
ghost use Rattle.session_script.specs.Line.{line_text};
ghost use Rattle.session_script.specs.Script.{IsSession, script_of};
ghost use Rattle.session_script.specs.Writing.{script_text};

use crate::Event;
use cast_text::push_decimal;
use std::alloc::{AllocError, Global};

/// Appends a line of two parts.
fn push_short(out: &mut Vec<u8>, word: &[u8], number: u32) -> Result<(), AllocError>
    ensures { OnOk result (out.new.items ≡ out.old.items
        ++ join_with_byte 32 (word.now ∷ decimal number ∷ []) ++ 10 ∷ []) }
{
    out.extend_from_slice(word)?;
    out.push(b' ')?;
    push_decimal(out, number as u128)?;
    out.push(b'\n')?;
    Ok(())
}

/// Appends a line of three parts.
fn push_long(out: &mut Vec<u8>, word: &[u8], number: u32, value: &[u8]) -> Result<(), AllocError>
    ensures { OnOk result (out.new.items ≡ out.old.items
        ++ join_with_byte 32 (word.now ∷ decimal number ∷ value.now ∷ []) ++ 10 ∷ []) }
{
    out.extend_from_slice(word)?;
    out.push(b' ')?;
    push_decimal(out, number as u128)?;
    out.push(b' ')?;
    out.extend_from_slice(value)?;
    out.push(b'\n')?;
    Ok(())
}

/// A number in decimal.
fn decimal_of(alloc: Global, number: u64) -> Result<Vec<u8>, AllocError>
    ensures { IfOk result (λ text. text.items ≡ decimal number) }
{
    let mut text = Vec::new(alloc);
    push_decimal(&mut text, number as u128)?;
    Ok(text)
}

/// Appends a line of three parts, of which the third is a number.
fn push_numbers(out: &mut Vec<u8>, word: &[u8], number: u32, value: u64) -> Result<(), AllocError>
    ensures { OnOk result (out.new.items ≡ out.old.items
        ++ join_with_byte 32 (word.now ∷ decimal number ∷ decimal value ∷ []) ++ 10 ∷ []) }
{
    let value = decimal_of(*out.allocator(), value)?;
    push_long(out, word, number, &value)
}

/// Appends the line of bytes that come in, as hexadecimal digits.
fn push_input(out: &mut Vec<u8>, number: u32, bytes: &[u8]) -> Result<(), AllocError>
    ensures { OnOk result (out.new.items ≡ out.old.items
        ++ line_text (Event.In number bytes.now) ++ 10 ∷ []) }
{
    let digits = hex::encode(*out.allocator(), bytes)?;
    push_long(out, b"in", number, digits.as_bytes())
}

/// Appends the line of an event, with an LF.
///
/// # Errors
/// Where there is no memory. Then some first part of the line was appended.
pub fn push_line(out: &mut Vec<u8>, event: &Event) -> Result<(), AllocError>
    ensures { OnOk result (out.new.items ≡ out.old.items ++ line_text event.now ++ 10 ∷ []) }
{
    match event {
        Event::Source(number, mount) => push_long(out, b"source", *number, mount.bytes()),
        Event::Rover(number, mount) => push_long(out, b"rover", *number, mount.bytes()),
        Event::Open(number) => push_short(out, b"open", *number),
        Event::Relay(number, relay) => {
            push_numbers(out, b"relay", *number, u64::from(*relay) + 1)
        }
        Event::In(number, bytes) => push_input(out, *number, bytes.bytes()),
        Event::Turn(number, budget) => push_numbers(out, b"turn", *number, u64::from(*budget)),
        Event::Break(number) => push_short(out, b"break", *number),
        Event::End(number) => push_short(out, b"end", *number),
    }
}

/// Appends a script of these events: one line for each of them, in order, and `stop`, each with an
/// LF behind it. Numbers are decimal, and bytes are hexadecimal digits in lower case.
///
/// # Errors
/// Where there is no memory. Then `out` is as it was.
pub fn script_text(events: &[Event], out: &mut Vec<u8>) -> Result<(), AllocError>
    ensures ok { OnOk result (out.new.items ≡ out.old.items ++ script_text events.now) }
    ensures err { OnErr result (out.new.items ≡ out.old.items) }

    // What is appended parses as these events, for each kind that they are a session of.
    ensures reads { (kind : ScriptKind) → IsSession kind events.now
        → length (script_text events.now) ≤ 8388608
        → script_of kind (script_text events.now) ≡ Ok events.now }
{
    let mut text = Vec::new(*out.allocator());
    for event in events {
        push_line(&mut text, event)?;
    }
    text.extend_from_slice(b"stop\n")?;
    out.extend_from_slice(&text)?;
    Ok(())
}
