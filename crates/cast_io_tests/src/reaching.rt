//! A caller over any yard, for the tests: what it says is proved over the clauses of the trait.
ghost use Rattle.std.specs.Prelude.{◌≡◌, [], ◌∷◌, IfOk, IsErrOf};
ghost use Rattle.cast_io.specs.Causes.{Rose};
ghost use Rattle.cast_io.specs.Told.{Grew};
ghost use Rattle.cast_io.specs.Doors.{IsNewDoor};
ghost use Rattle.cast_io.specs.Yards.{GateTold};
ghost use Rattle.cast_io.specs.declared.yard_asked.YardAsked.TheVariants as asked;

use cast_io::{Gate, StreetFault, Yard};

/// Makes a gate that dials this address, asks whether it is over, and gives it back.
pub fn reach_once<Y: Yard>(yard: &mut Y, addr: &str, quiet: u32) -> Result<bool, StreetFault>
    ensures asked { Grew (Y.kept yard.old).asked (Y.kept yard.new).asked
        (asked.Reach addr.now quiet ∷ []) }
    ensures gates { IfOk result (λ over. (gate : GateTold) × IsNewDoor gate.door
        × (gate.over ≡ over)
        × Grew (Y.kept yard.old).gates (Y.kept yard.new).gates (gate ∷ [])) }
    ensures cause { IsErrOf result StreetFault.Failed
        → Rose (Y.kept yard.old).faults (Y.kept yard.new).faults }
    ensures street { Y.told yard.new ≡ Y.told yard.old }
{
    let mut gate = yard.reach(addr, quiet)?;
    let over = gate.is_over();
    yard.shut_gate(gate);
    Ok(over)
}
