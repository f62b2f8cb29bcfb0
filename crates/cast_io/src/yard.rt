//! What a caster asks for that serves until it is told to stop.
ghost use Rattle.std.specs.Prelude.{◌≡◌, IfOk, vec_len};
ghost use Rattle.std.specs.List.{All};
ghost use Rattle.cast_io.specs.Doors.{IsNewDoor};

use crate::gate::Gate;
use crate::sink::Sink;
use crate::street::{Street, StreetFault};

/// Where gates are opened, peers are reached and notes are made, and where all of these are given
/// back. What the yard tells as a street stays in each of these calls; what it tells as a yard may
/// change in a call of the street.
///
/// `quiet` is a number of seconds: a link of the gate that gave no byte and took none for so long
/// is to be cut; 0 is never. The clauses say only that it was asked for.
pub trait Yard: Street {
    ghost use Rattle.cast_io.specs.Yards.{YardTold, AreNewNotes, HasBeenAsked, HasAnswered, HasShutGate, HasTakenNotes};
    ghost use Rattle.cast_io.specs.declared.yard_asked.YardAsked.TheVariants as asked;

    type Gate: Gate<Link = Self::Link>;

    type Notes: Sink;

    /// What the yard tells of itself beside the street.
    ghost kept: { Self → YardTold };

    /// Opens so many gates at one address. Each is made for that, and none of them has given or
    /// taken anything.
    fn open_gates(
        &mut self,
        addr: &str,
        gates: u32,
        quiet: u32,
    ) -> Result<Vec<Self::Gate>, StreetFault>
        ensures wanted { HasBeenAsked (asked.OpenGates addr.now gates quiet)
            (kept self.old) (kept self.new) }
        ensures count { IfOk result (λ given. vec_len given ≡ gates) }
        ensures each { IfOk result
            (λ given. All (λ gate. IsNewDoor (Self.Gate.told gate)) given.items) }
        ensures made { IfOk result (λ given. All (λ gate. Self.Gate.origin gate
            ≡ asked.OpenGates addr.now gates quiet) given.items) }
        ensures answered { HasAnswered result (kept self.old) (kept self.new) }
        ensures street { Self.told self.new ≡ Self.told self.old };

    /// Makes a gate whose links are dialled: each connects to the peer at this address, and the
    /// gate is made for that. Nothing is asked of the peer yet.
    fn reach(&mut self, addr: &str, quiet: u32) -> Result<Self::Gate, StreetFault>
        ensures wanted { HasBeenAsked (asked.Reach addr.now quiet) (kept self.old) (kept self.new) }
        ensures each { IfOk result (λ gate. IsNewDoor (Self.Gate.told gate)) }
        ensures made { IfOk result
            (λ gate. Self.Gate.origin gate ≡ asked.Reach addr.now quiet) }
        ensures answered { HasAnswered result (kept self.old) (kept self.new) }
        ensures street { Self.told self.new ≡ Self.told self.old };

    /// Makes a place for notes. It took nothing yet.
    fn notes(&mut self) -> Result<Self::Notes, StreetFault>
        ensures wanted { HasBeenAsked asked.Notes (kept self.old) (kept self.new) }
        ensures each { IfOk result (λ notes. AreNewNotes (record {
          taken = Self.Notes.taken notes;
          faults = Self.Notes.faults notes;
        })) }
        ensures answered { HasAnswered result (kept self.old) (kept self.new) }
        ensures street { Self.told self.new ≡ Self.told self.old };

    /// Takes back a gate that `open_gates` or `reach` gave. A gate that failed is a fault of the
    /// yard.
    fn shut_gate(&mut self, gate: Self::Gate)
        ensures shut { HasShutGate
            (record { door = Self.Gate.told gate; over = Self.Gate.over gate })
            (kept self.old) (kept self.new) }
        ensures street { Self.told self.new ≡ Self.told self.old };

    /// Takes back notes that `notes` gave.
    fn take_notes(&mut self, notes: Self::Notes)
        ensures taken { HasTakenNotes
            (record { taken = Self.Notes.taken notes; faults = Self.Notes.faults notes })
            (kept self.old) (kept self.new) }
        ensures street { Self.told self.new ≡ Self.told self.old };
}
