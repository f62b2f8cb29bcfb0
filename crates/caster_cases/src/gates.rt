//! The yard of a case, its gates and the place for lines; and its lodge.
ghost use Rattle.std.specs.Prelude.{IsTrue, IfOk};
ghost use Rattle.std.specs.List.{list_all};
ghost use Rattle.cast_io.specs.FakeGates.{is_new_gate};

use crate::links::{door_of, writes_of};
use crate::numbers::{number, numbers};
use crate::parts::Case;
use cast_console::{MemLodge, Wanted};
use cast_io::{GateEnd, MemGate, MemSink, MemYard, PeerAddr};
use std::alloc::{AllocError, Global};

/// The yard of the case.
pub fn yard_of(alloc: Global, case: &Case<'_>) -> Result<MemYard, AllocError> {
    let gates = gates_of(alloc, case)?;
    let torn = writes_of(alloc, case.setting("notes").unwrap_or(""))?;
    let notes = vec![in alloc; MemSink::torn(alloc, torn)]?;
    let calls = numbers(alloc, case.setting("yard").unwrap_or(""))?;
    MemYard::new(alloc, gates, notes, calls)
}

/// Its gates.
fn gates_of(alloc: Global, case: &Case<'_>) -> Result<Vec<MemGate>, AllocError>
    ensures { IfOk result (λ gates. IsTrue (list_all is_new_gate gates.items)) }
{
    let mut gates = Vec::new(alloc);
    for line in case.settings.lines() {
        if let Some(gate) = line.strip_prefix("gate ") {
            gates.push(gate_of(alloc, case, gate)?)?;
        }
    }
    Ok(gates)
}

/// A gate: its links, their peers, and when it is over.
fn gate_of(alloc: Global, case: &Case<'_>, text: &str) -> Result<MemGate, AllocError>
    ensures { IfOk result (λ gate. IsTrue (is_new_gate gate)) }
{
    let door = door_of(alloc, case, text)?;
    let peers = peers_of(alloc, case)?;
    Ok(MemGate::new(door, peers, end_of(case)))
}

/// The peers of the links of a gate, in order.
fn peers_of(alloc: Global, case: &Case<'_>) -> Result<Vec<PeerAddr>, AllocError> {
    let mut peers = Vec::new(alloc);
    for word in case.setting("peers").unwrap_or("").split_whitespace() {
        peers.push(PeerAddr::new(word.as_bytes()))?;
    }
    Ok(peers)
}

/// When a gate is over: once its links have arrived, or once it was asked so often.
fn end_of(case: &Case<'_>) -> GateEnd {
    match case.setting("over") {
        Some(times) => GateEnd::Asked(number(times)),
        None => GateEnd::UsedUp,
    }
}

/// The lodge of the case: at its console it is wanted how things stand, each time with so many busy
/// workers.
pub fn lodge_of(alloc: Global, case: &Case<'_>) -> Result<MemLodge, AllocError> {
    let mut wanted = Vec::new(alloc);
    for busy in case.setting("status").unwrap_or("").split_whitespace() {
        wanted.push(Wanted::Status {
            busy: u32::try_from(number(busy)).unwrap_or(u32::MAX),
        })?;
    }
    Ok(MemLodge::new(alloc, wanted))
}
