//! Gates are opened for all workers, and one is made to the peer of each relay; all of them go back
//! to the yard.

ghost use Rattle.std.specs.Prelude.{◌≡◌, ◌≤◌, ◌+◌, ◌<◌, ◌^◌, ℕ, ◌++◌, [], List, length, map, take, vec_len, vec_capacity, IsErrOf, OnOk};
ghost use Rattle.std.specs.List.{All};
ghost use Rattle.cast_config.specs.Kept.{KeepsRelay, KeepsRules};
ghost use Rattle.cast_io.specs.Causes.{Rose};
ghost use Rattle.cast_io.specs.Doors.{IsNewDoor};
ghost use Rattle.caster_keep.specs.Gates.{HasAsked, HasTakenBack, gates_asked, gates_of, made_of, reach_of, relays_from, roles_of};
ghost use Rattle.caster_keep.specs.Stations.{new_keeper};
ghost use Rattle.caster_keep.specs.Together.{IsNewKeeper, role_at};

use crate::keeper::Keeper;
use cast_config::{Config, Relay};
use cast_io::{Door, Gate, StreetFault, Yard};
use caster_link::Role;
use caster_serve::address_of;

/// Puts a worker's keeper at each gate behind what stands in `keepers`, in order.
fn put_workers<G>(gates: Vec<G>, keepers: &mut Vec<Keeper<G>>)
    requires room { vec_len keepers.old + length gates.items ≤ vec_capacity keepers.old }
    ensures put { keepers.new.items
        ≡ keepers.old.items ++ map (new_keeper Role.Caller) gates.items }
    ensures space { vec_capacity keepers.old ≤ vec_capacity keepers.new }
{
    let mut gates = gates.into_iter();
    while let Some(gate) = gates.next() {
        keepers.push_reserved(Keeper::new(Role::Caller, gate));
    }
    gates.destroy_empty();
}

/// Makes a gate to the peer of each of these relays, numbered from `number` on, until one is
/// refused.
fn reach_from<Y: Yard>(
    relays: &[Relay],
    number: u32,
    quiet: u32,
    yard: &mut Y,
    keepers: &mut Vec<Keeper<Y::Gate>>,
) -> Result<(), StreetFault>
    requires kept { (mounts : ℕ) × All (KeepsRelay mounts) relays.now }
    requires few { number + length relays.now < 2 ^ 32 }
    requires room { vec_len keepers.old + length relays.now ≤ vec_capacity keepers.old }
    ensures asked { (n : ℕ)
        × HasAsked (map (reach_of quiet) (take n relays.now)) (Y.kept yard.old) (Y.kept yard.new)
        × OnOk result (n ≡ length relays.now) }
    ensures given { (more : List _) × (keepers.new.items ≡ keepers.old.items ++ more)
        × All IsNewKeeper more × All (λ keeper. IsNewDoor (Y.Gate.told keeper.gate)) more
        × OnOk result (map role_at more ≡ relays_from number relays.now)
        × OnOk result (map (λ keeper. Y.Gate.origin keeper.gate) more
        ≡ map (reach_of quiet) relays.now) }
    ensures cause { IsErrOf result StreetFault.Failed
        → Rose (Y.kept yard.old).faults (Y.kept yard.new).faults }
    ensures street { Y.told yard.new ≡ Y.told yard.old }
{
    let Some((relay, later)) = relays.split_first() else {
        return Ok(());
    };
    let gate = yard.reach(address_of(relay), quiet)?;
    keepers.push_reserved(Keeper::new(Role::Relay(number), gate));
    reach_from(later, number + 1, quiet, yard, keepers)
}

/// Opens a gate for each worker at this address, and then makes one to the peer of each relay, in
/// order, until one of these is refused. What was given stands in `keepers`, in that order.
///
/// # Errors
/// What the yard answered: `Failed` only where its count of faults rose.
pub(crate) fn ask_gates<Y: Yard>(
    config: &Config,
    addr: &str,
    quiet: u32,
    yard: &mut Y,
    keepers: &mut Vec<Keeper<Y::Gate>>,
) -> Result<(), StreetFault>
    requires kept { (cap : ℕ) × KeepsRules cap config.now }
    requires empty { keepers.old.items ≡ [] }
    requires room { config.now.workers + length config.now.relay ≤ vec_capacity keepers.old }
    ensures asked { (n : ℕ)
        × HasAsked (take n (gates_asked config.now addr.now quiet)) (Y.kept yard.old)
        (Y.kept yard.new)
        × OnOk result (n ≡ length (gates_asked config.now addr.now quiet)) }
    ensures fresh { All IsNewKeeper keepers.new.items }
    ensures unused { All (λ keeper. IsNewDoor (Y.Gate.told keeper.gate)) keepers.new.items }
    ensures roles { OnOk result (map role_at keepers.new.items ≡ roles_of config.now) }
    ensures made { OnOk result (map (λ keeper. Y.Gate.origin keeper.gate) keepers.new.items
        ≡ made_of config.now addr.now quiet) }
    ensures cause { IsErrOf result StreetFault.Failed
        → Rose (Y.kept yard.old).faults (Y.kept yard.new).faults }
    ensures street { Y.told yard.new ≡ Y.told yard.old }
{
    let gates = yard.open_gates(addr, config.workers, quiet)?;
    put_workers(gates, keepers);
    reach_from(config.relay.as_slice(), 0, quiet, yard, keepers)
}

/// Gives the gates of all of these back to the yard that they came from, in order.
pub(crate) fn give_back<Y: Yard>(yard: &mut Y, keepers: Vec<Keeper<Y::Gate>>)
    ensures back { HasTakenBack (gates_of Y.Gate.told Y.Gate.over keepers.items) (Y.kept yard.old)
        (Y.kept yard.new) }
    ensures street { Y.told yard.new ≡ Y.told yard.old }
{
    let mut keepers = keepers.into_iter();
    while let Some(keeper) = keepers.next() {
        let Keeper {
            gate,
            role: _,
            tally: _,
            count: _,
            stop: _,
        } = keeper;
        yard.shut_gate(gate);
    }
    keepers.destroy_empty();
}
