//! The network as a yard.
ghost use Rattle.std.specs.Prelude.{◌≡◌, ◌≤◌, [], vec_len, vec_capacity, IfOk, OnOk};
ghost use Rattle.std.specs.Arc.{arc_value};
ghost use Rattle.std.specs.List.{All};
ghost use Rattle.cast_io.specs.declared.yard_asked.YardAsked.TheVariants as asked;
ghost use Rattle.caster_net.specs.Gates.{new_gate, yard_logged};

use crate::door::{Porch, share_porch};
use crate::gate::{Ground, TcpGate};
use crate::note_out::NoteOut;
use crate::note_sink::NoteSink;
use crate::notes::CallNote;
use crate::redial::Redial;
use crate::street::TcpStreet;
use crate::waiting::{MAX_KEPT_REST, count_fault};
use cast_io::{Origin, StreetFault, Yard};
use std::alloc::{AllocError, Global};
use std::sync::Arc;

impl<'a> Yard for TcpStreet<'a> {
    type Gate = TcpGate<'a>;

    type Notes = NoteSink<'a, NoteOut>;

    ghost kept = { λ s. yard_logged s.yard };

    fn open_gates(
        &mut self,
        addr: &str,
        gates: u32,
        quiet: u32,
    ) -> Result<Vec<TcpGate<'a>>, StreetFault> {
        self.calls.add(&CallNote::Gates(Origin::of_open_gates(addr, gates, quiet)));
        match opened_at(self.ground, addr, gates, quiet) {
            Err(StreetFault::Failed) => count_fault(
                &mut self.yard_faults,
                Err(StreetFault::Failed),
            ),
            answer => answer,
        }
    }

    fn reach(&mut self, addr: &str, quiet: u32) -> Result<TcpGate<'a>, StreetFault> {
        self.calls
            .add(&CallNote::Gates(Origin::of_reach(addr, quiet)));
        let ground = self.ground;
        match String::from_str(ground.rt.alloc(), addr) {
            Ok(peer) => Ok(TcpGate::to_peer(ground, Redial::of(peer), addr, quiet)),
            Err(AllocError) => Err(StreetFault::Memory),
        }
    }

    fn notes(&mut self) -> Result<NoteSink<'a, NoteOut>, StreetFault> {
        self.calls.add(&CallNote::Notes);
        let ground = self.ground;
        Ok(NoteSink::new(ground.halt, NoteOut::new(ground.rt)))
    }

    fn shut_gate(&mut self, gate: TcpGate<'a>) {
        self.gates.add(&gate);
        self.yard_faults = self.yard_faults.saturating_add(gate.faults().min(1));
    }

    fn take_notes(&mut self, notes: NoteSink<'a, NoteOut>) {
        self.notes.add(&notes);
        self.note_faults = self.note_faults.saturating_add(notes.faults().min(1));
    }
}

// So many gates at this address.
fn opened_at<'a>(
    ground: Ground<'a>,
    addr: &str,
    gates: u32,
    quiet: u32,
) -> Result<Vec<TcpGate<'a>>, StreetFault>
    ensures count { IfOk result (λ given. vec_len given ≡ gates) }
    ensures each { IfOk result (λ given. All
        (λ gate. gate ≡ new_gate (asked.OpenGates addr.now gates quiet)) given.items) }
{
    let Ok(mut opened) = Vec::with_capacity(ground.rt.alloc(), gates as usize) else {
        return Err(StreetFault::Memory);
    };
    let porch = porch_at(ground.rt, addr)?;
    match open_all(ground, &porch, addr, gates, quiet, &mut opened) {
        Ok(()) => Ok(opened),
        Err(AllocError) => Err(StreetFault::Memory),
    }
}

// A place for gates at this address, which they share.
fn porch_at(rt: &HostRuntime, addr: &str) -> Result<Arc<Porch, Global>, StreetFault>
    ensures { IfOk result (λ porch. (arc_value porch).addr.value ≡ addr.now) }
{
    match Porch::bind_gates(rt, addr, MAX_KEPT_REST) {
        Ok(porch) => share_porch(rt, porch),
        Err(_) => Err(StreetFault::Failed),
    }
}

// Opens so many gates at this place, which is at this address, into a list with room for them.
fn open_all<'a>(
    ground: Ground<'a>,
    porch: &Arc<Porch, Global>,
    addr: &str,
    gates: u32,
    quiet: u32,
    opened: &mut Vec<TcpGate<'a>>,
) -> Result<(), AllocError>
    requires empty { opened.old.items ≡ [] }
    requires room { gates ≤ vec_capacity opened.old }
    requires at { (arc_value porch.now).addr.value ≡ addr.now }
    ensures count { OnOk result (vec_len opened.new ≡ gates) }
    ensures each { OnOk result (All (λ gate. gate ≡ new_gate (asked.OpenGates addr.now gates quiet))
        opened.new.items) }
{
    for _ in 0..gates {
        opened.push_reserved(TcpGate::over_porch(ground, porch.clone()?, addr, gates, quiet));
    }
    Ok(())
}
