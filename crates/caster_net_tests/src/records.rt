//! What contracts of another crate can say of the records of the adapters. Each function makes one
//! call, and its contract says what the record is then.
ghost use Rattle.std.specs.Prelude.{◌≡◌, ◌<◌, ℕ, List, [], ◌∷◌, ◌++◌, length, take, IfOk, OnOk, map};
ghost use Rattle.cast_io.specs.Links.{step_of};
ghost use Rattle.cast_io.specs.Logs.{step_of_open, step_of_read};
ghost use Rattle.cast_io.specs.declared.link.Got.TheVariants as got;
ghost use Rattle.cast_io.specs.declared.steps.Asked.TheVariants as asked;
ghost use Rattle.cast_io.specs.declared.yard_asked.YardAsked.TheVariants as calls;
ghost use Rattle.cast_io.specs.Logged.{door_logged, link_logged};
ghost use Rattle.caster_net.specs.Gates.{gate_logged, notes_logged};
ghost use Rattle.caster_net.specs.Told.{link_told};

use cast_io::{Door, Failed, Gate, Got, Link, Sink, Source, Store, Street, StreetFault, Yard};
use caster_net::{
    FileStore, NoteOut, NoteSink, ReaderSource, TcpDoor, TcpGate, TcpLink, TcpStreet, Wire,
    WriterSink,
};
use std::io::{Read, Write};
use std::os::fd::RawFd;

/// One read of a wire over these bytes. It gives the first of them, and is at the end only where
/// there are none.
pub fn slice_read(bytes: &[u8], buf: &mut [u8]) -> Got
    requires { 0 < length buf.old }
    ensures first { (n : ℕ) → result ≡ got.Bytes n
        → (rest : List ℕ) × (bytes.now ≡ take n buf.new ++ rest) }
    ensures end { result ≡ got.End → bytes.now ≡ [] }
{
    let mut wire = Wire::over(bytes);
    wire.read(buf)
}

/// A write of a wire over a `Vec`, which holds the piece then.
pub fn vec_written(rt: &HostRuntime, fd: RawFd, piece: &[u8]) -> Result<Vec<u8>, Failed>
    ensures { IfOk result (λ v. v.items ≡ piece.now) }
{
    let mut wire = Wire::over(Vec::new(rt.alloc()));
    wire.write(rt, fd, piece)?;
    Ok(wire.into_stream())
}

/// One read of a link.
pub fn heard(link: &mut TcpLink<'_>, buf: &mut [u8]) -> Got
    requires { 0 < length buf.old }
    ensures { link.new.wire.taken ≡ link.old.wire.taken ++ step_of result buf.new ∷ [] }
{
    link.read(buf)
}

/// One write of a link.
pub fn write_piece(link: &mut TcpLink<'_>, piece: &[u8]) -> Result<(), Failed>
    ensures { OnOk result (link.new.wire.bytes ≡ link.old.wire.bytes ++ piece.now) }
{
    link.write(piece)
}

/// A link is given back to its door.
pub fn hung_up<'a>(door: &mut TcpDoor<'a>, link: TcpLink<'a>)
    ensures { map link_logged door.new.back
        ≡ map link_logged door.old.back ++ link_told link.entry ∷ [] }
{
    door.hang_up(link);
}

/// Doors are opened at an address.
pub fn open_doors<'a>(
    street: &mut TcpStreet<'a>,
    addr: &str,
    doors: u32,
) -> Result<Vec<TcpDoor<'a>>, StreetFault>
    ensures { street.new.street.asked ≡ street.old.street.asked ++ asked.Open addr.now doors ∷ [] }
{
    street.open(addr, doors)
}

/// An address is dialled.
pub fn dial_link<'a>(street: &mut TcpStreet<'a>, addr: &str) -> Result<TcpLink<'a>, StreetFault>
    ensures asked { street.new.street.asked ≡ street.old.street.asked ++ asked.Dial addr.now ∷ [] }
    ensures none_yet { IfOk result (λ link. (link.wire.taken ≡ []) × (link.wire.bytes ≡ [])) }
{
    street.dial(addr)
}

/// A link is given back to its street.
pub fn give_link_back<'a>(street: &mut TcpStreet<'a>, link: TcpLink<'a>)
    ensures { map link_logged street.new.street.links
        ≡ map link_logged street.old.street.links ++ link_told link.entry ∷ [] }
{
    street.hang_up(link);
}

/// A door is given back to its street.
pub fn give_door_back<'a>(street: &mut TcpStreet<'a>, door: TcpDoor<'a>)
    ensures { map door_logged street.new.street.doors
        ≡ map door_logged street.old.street.doors ++ door_logged door.entry ∷ [] }
{
    street.shut(door);
}

/// A link is given back to its gate.
pub fn hung_up_at<'a>(gate: &mut TcpGate<'a>, link: TcpLink<'a>)
    ensures { map link_logged gate.new.door.back
        ≡ map link_logged gate.old.door.back ++ link_told link.entry ∷ [] }
{
    gate.hang_up(link);
}

/// A gate is asked whether it is over.
pub fn is_over(gate: &mut TcpGate<'_>) -> bool
    ensures { result ≡ gate.new.over }
{
    gate.is_over()
}

/// Gates are opened at an address.
pub fn gates_opened<'a>(
    street: &mut TcpStreet<'a>,
    addr: &str,
    gates: u32,
    quiet: u32,
) -> Result<Vec<TcpGate<'a>>, StreetFault>
    ensures { street.new.yard.asked
        ≡ street.old.yard.asked ++ calls.OpenGates addr.now gates quiet ∷ [] }
{
    street.open_gates(addr, gates, quiet)
}

/// A gate is made that dials an address.
pub fn reach_gate<'a>(
    street: &mut TcpStreet<'a>,
    addr: &str,
    quiet: u32,
) -> Result<TcpGate<'a>, StreetFault>
    ensures asked { street.new.yard.asked
        ≡ street.old.yard.asked ++ calls.Reach addr.now quiet ∷ [] }
    ensures made { IfOk result (λ gate. gate.origin ≡ calls.Reach addr.now quiet) }
{
    street.reach(addr, quiet)
}

/// A place for notes is made.
pub fn notes_of<'a>(street: &mut TcpStreet<'a>) -> Result<NoteSink<'a, NoteOut>, StreetFault>
    ensures asked { street.new.yard.asked ≡ street.old.yard.asked ++ calls.Notes ∷ [] }
    ensures none_yet { IfOk result (λ notes. notes.taken ≡ []) }
{
    street.notes()
}

/// A gate is given back to its street.
pub fn gate_shut<'a>(street: &mut TcpStreet<'a>, gate: TcpGate<'a>)
    ensures { map gate_logged street.new.yard.gates
        ≡ map gate_logged street.old.yard.gates ++ gate_logged gate.entry ∷ [] }
{
    street.shut_gate(gate);
}

/// A place for notes is given back to its street.
pub fn notes_back<'a>(street: &mut TcpStreet<'a>, notes: NoteSink<'a, NoteOut>)
    ensures { street.new.yard.notes ≡ street.old.yard.notes ++ notes_logged notes.entry ∷ [] }
{
    street.take_notes(notes);
}

/// One read of a source.
pub fn read_of<R: Read>(source: &mut ReaderSource<R>, buf: &mut [u8]) -> Result<usize, Failed>
    requires { 0 < length buf.old }
    ensures { source.new.log ≡ source.old.log ++ step_of_read result buf.new ∷ [] }
{
    source.read(buf)
}

/// One write of a sink.
pub fn write_to_sink<W: Write>(sink: &mut WriterSink<W>, piece: &[u8]) -> Result<(), Failed>
    ensures { OnOk result (sink.new.taken ≡ sink.old.taken ++ piece.now) }
{
    sink.write(piece)
}

/// The file of a path is opened.
pub fn opened_at(store: &mut FileStore<'_>, path: &str) -> Result<(), Failed>
    ensures asked { store.new.asked ≡ store.old.asked ++ path.now ∷ [] }
    ensures log { store.new.log ≡ store.old.log ++ step_of_open result path.now ∷ [] }
{
    store.open(path)
}

/// One read of a store.
pub fn read_on(store: &mut FileStore<'_>, buf: &mut [u8]) -> Result<usize, Failed>
    requires { 0 < length buf.old }
    ensures { store.new.log ≡ store.old.log ++ step_of_read result buf.new ∷ [] }
{
    store.read(buf)
}
