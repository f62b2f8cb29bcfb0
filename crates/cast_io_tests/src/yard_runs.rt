//! Gates and yards in memory, and runs of them: calls as words, and what they answer as words.
ghost use Rattle.std.specs.Prelude.{IfOk, IsTrue};
ghost use Rattle.std.specs.List.{list_all};
ghost use Rattle.cast_io.specs.FakeGates.{is_new_gate};
ghost use Rattle.cast_io.specs.FakeYards.{are_new_notes};

use crate::runs::{say, say_taken};
use crate::street_runs::{door_of, say_fault, say_number, street_of};
use cast_io::{Arrived, Gate, GateEnd, MemGate, MemSink, MemStreet, MemYard, PeerAddr, Sink, Yard};
use std::alloc::{AllocError, Global};
use std::test::Fail;

// A gate at which one link arrives, then nothing, then another one, of which the peer is not told.
// The accepts of these numbers fail.
pub(crate) fn gate_of(alloc: Global, end: GateEnd, fails: &[u64]) -> Result<MemGate, Fail>
    ensures { IfOk result (λ gate. IsTrue (is_new_gate gate)) }
{
    let door = door_of(alloc, fails)?;
    let peers = vec![in alloc; PeerAddr::new(b"192.0.2.7:51234")]?;
    Ok(MemGate::new(door, peers, end))
}

// Three gates: one that is over when it is asked, one that is not, one whose first accept fails.
fn three_gates(alloc: Global) -> Result<Vec<MemGate>, Fail>
    ensures { IfOk result (λ gates. IsTrue (list_all is_new_gate gates.items)) }
{
    let first = gate_of(alloc, GateEnd::Asked(1), &[])?;
    let second = gate_of(alloc, GateEnd::Asked(9), &[])?;
    let third = gate_of(alloc, GateEnd::UsedUp, &[1])?;
    Ok(vec![in alloc; first, second, third]?)
}

// Two notes, of which the first tears its second write after two bytes.
fn two_notes(alloc: Global) -> Result<Vec<MemSink>, Fail>
    ensures { IfOk result (λ notes. IsTrue (list_all are_new_notes notes.items)) }
{
    let first = MemSink::torn(alloc, vec![in alloc; (2, 2)]?);
    let second = MemSink::new(alloc, Vec::new(alloc));
    Ok(vec![in alloc; first, second]?)
}

// A street of three gates and two notes, whose calls of these numbers for them fail.
pub(crate) fn yard_of(alloc: Global, fails: &[u64]) -> Result<MemStreet, Fail> {
    let street = street_of(alloc, &[])?;
    let gates = three_gates(alloc)?;
    let notes = two_notes(alloc)?;
    let yard = MemYard::new(alloc, gates, notes, fails.to_vec(alloc)?)?;
    Ok(street.with_yard(yard))
}

// Appends whether a gate is over.
fn say_over(out: &mut Vec<u8>, over: bool) -> Result<(), AllocError> {
    say(out, if over { b"over" } else { b"open" })
}

// One call of a gate: whether it is over, its peer, or an accept, after which a link comes back.
fn call_gate<G: Gate>(gate: &mut G, call: &str, out: &mut Vec<u8>) -> Result<(), AllocError> {
    match call {
        "over" => say_over(out, gate.is_over()),
        "peer" => say(out, gate.peer().as_slice()),
        _ => match gate.accept() {
            Arrived::Link(link) => {
                gate.hang_up(link);
                say(out, b"link")
            }
            Arrived::Idle => say(out, b"idle"),
            Arrived::Failed => say(out, b"failed"),
        },
    }
}

// What these calls of a gate answer.
pub(crate) fn run_gate(
    alloc: Global,
    mut gate: MemGate,
    calls: &str,
) -> Result<Vec<u8>, AllocError> {
    let mut out = Vec::new(alloc);
    for call in calls.split(' ') {
        call_gate(&mut gate, call, &mut out)?;
    }
    Ok(out)
}

// Opens so many gates, which all come back. The answer is how many came.
fn open_gates(street: &mut MemStreet, gates: u32, out: &mut Vec<u8>) -> Result<(), AllocError> {
    let opened = match street.open_gates("here", gates, 300) {
        Ok(opened) => opened,
        Err(fault) => return say_fault(out, fault),
    };
    let told = say_number(out, opened.len() as u64);
    for gate in opened {
        street.shut_gate(gate);
    }
    told
}

// Reaches a peer, calls the gate once, and gives it back.
fn reach<Y: Yard>(yard: &mut Y, call: &str, out: &mut Vec<u8>) -> Result<(), AllocError> {
    let mut gate = match yard.reach("a", 7) {
        Ok(gate) => gate,
        Err(fault) => return say_fault(out, fault),
    };
    let told = call_gate(&mut gate, call, out);
    yard.shut_gate(gate);
    told
}

// Writes two words into notes, and gives these back.
fn note<Y: Yard>(yard: &mut Y, out: &mut Vec<u8>) -> Result<(), AllocError> {
    let mut notes = match yard.notes() {
        Ok(notes) => notes,
        Err(fault) => return say_fault(out, fault),
    };
    let first = say_taken(out, notes.write(b"one"));
    let second = say_taken(out, notes.write(b"two"));
    yard.take_notes(notes);
    first?;
    second
}

// Appends whether each gate that came back is over, or `none` where they are told no longer.
fn say_gates(out: &mut Vec<u8>, gates: Option<&[MemGate]>) -> Result<(), AllocError> {
    let Some(gates) = gates else {
        return say(out, b"none");
    };
    for gate in gates {
        say_over(out, gate.has_ended())?;
    }
    Ok(())
}

// Appends what each of the notes that came back took, or `none` where they are told no longer.
fn say_notes(out: &mut Vec<u8>, notes: Option<&[MemSink]>) -> Result<(), AllocError> {
    let Some(notes) = notes else {
        return say(out, b"none");
    };
    for notes in notes {
        say(out, notes.bytes())?;
    }
    Ok(())
}

// What came back to the yard, or how often it failed and how many notes came back with faults.
fn say_yard(yard: &MemYard, call: &str, out: &mut Vec<u8>) -> Result<(), AllocError> {
    match call {
        "gates" => say_gates(out, yard.gates_back()),
        "marks" => say_notes(out, yard.notes_back()),
        _ => {
            say_number(out, yard.faults())?;
            say_number(out, yard.note_faults())
        }
    }
}

// One call of a street for gates or notes, or about them.
fn call_yard(
    alloc: Global,
    street: &mut MemStreet,
    call: &str,
    out: &mut Vec<u8>,
) -> Result<(), Fail> {
    match call {
        "gates" | "marks" | "faults" => say_yard(street.yard(), call, out)?,
        "stray" => street.shut_gate(gate_of(alloc, GateEnd::UsedUp, &[])?),
        "over" | "accept" => reach(street, call, out)?,
        "notes" => note(street, out)?,
        digit => open_gates(street, digit.parse::<u32>().unwrap_or(0), out)?,
    }
    Ok(())
}

// What these calls of a street answer.
pub(crate) fn run_yard(
    alloc: Global,
    street: &mut MemStreet,
    calls: &str,
) -> Result<Vec<u8>, Fail> {
    let mut out = Vec::new(alloc);
    for call in calls.split(' ') {
        call_yard(alloc, street, call, &mut out)?;
    }
    Ok(out)
}
