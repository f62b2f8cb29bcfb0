//! Doors are opened for all workers, and the peer of each relay is dialled; all that was given goes
//! back to the street.

ghost use Rattle.std.specs.Prelude.{◌≡◌, ◌≤◌, ◌+◌, ◌<◌, ◌^◌, ℕ, ◌++◌, [], List, length, map, take, vec_len, vec_capacity, IsErrOf, OnOk};
ghost use Rattle.std.specs.List.{All};
ghost use Rattle.cast_config.specs.Kept.{KeepsRelay, KeepsRules};
ghost use Rattle.cast_io.specs.Causes.{Rose};
ghost use Rattle.caster_serve.specs.Endpoints.{HasAsked, HasTakenBack, IsUnserved, IsUnused, asked_of, at_new_door, dial_of, end_told, kind_of, kinds, relays_from};

use crate::caller_task::{CallerTask, Endpoint};
use cast_config::{Config, Relay};
use cast_io::{Street, StreetFault};
use std::str;

/// The address of a relay's peer.
pub fn address_of(relay: &Relay) -> &str
    requires { (mounts : ℕ) × KeepsRelay mounts relay.now }
    ensures { result.now ≡ relay.now.address }
{
    match str::from_utf8(relay.address.bytes()) {
        Ok(address) => address,
        Err(_) => unreachable!(),
    }
}

/// Puts a task at each door behind what stands in `tasks`, in order.
fn put_doors<D, L>(doors: Vec<D>, tasks: &mut Vec<CallerTask<D, L>>)
    requires room { vec_len tasks.old + length doors.items ≤ vec_capacity tasks.old }
    ensures put { tasks.new.items ≡ tasks.old.items ++ map at_new_door doors.items }
    ensures space { vec_capacity tasks.old ≤ vec_capacity tasks.new }
{
    let mut doors = doors.into_iter();
    while let Some(door) = doors.next() {
        tasks.push_reserved(CallerTask::new(Endpoint::Door(door)));
    }
    doors.destroy_empty();
}

/// Dials the peer of each of these relays, numbered from `number` on, until one is refused.
fn dial_from<N: Street>(
    relays: &[Relay],
    number: u32,
    street: &mut N,
    tasks: &mut Vec<CallerTask<N::Door, N::Link>>,
) -> Result<(), StreetFault>
    requires kept { (mounts : ℕ) × All (KeepsRelay mounts) relays.now }
    requires few { number + length relays.now < 2 ^ 32 }
    requires room { vec_len tasks.old + length relays.now ≤ vec_capacity tasks.old }
    ensures asked { (n : ℕ)
        × HasAsked (map dial_of (take n relays.now)) (N.told street.old) (N.told street.new)
        × OnOk result (n ≡ length relays.now) }
    ensures given { (more : List _) × (tasks.new.items ≡ tasks.old.items ++ more)
        × All IsUnused (map (end_told N.Door.told N.Link.told) more)
        × OnOk result (map kind_of (map (end_told N.Door.told N.Link.told) more)
        ≡ relays_from number relays.now) }
    ensures unserved { All IsUnserved tasks.old.items → All IsUnserved tasks.new.items }
    ensures cause { IsErrOf result StreetFault.Failed
        → Rose (N.told street.old).faults (N.told street.new).faults }
{
    let Some((relay, later)) = relays.split_first() else {
        return Ok(());
    };
    let link = street.dial(address_of(relay))?;
    tasks.push_reserved(CallerTask::new(Endpoint::Link(number, link)));
    dial_from(later, number + 1, street, tasks)
}

/// Opens a door for each worker at this address, and then dials the peer of each relay, in order,
/// until one of these is refused. What was given stands in `tasks`, in that order.
///
/// # Errors
/// What the street answered: `Failed` only where its count of faults rose.
pub fn ask_all<N: Street>(
    config: &Config,
    addr: &str,
    street: &mut N,
    tasks: &mut Vec<CallerTask<N::Door, N::Link>>,
) -> Result<(), StreetFault>
    requires kept { (cap : ℕ) × KeepsRules cap config.now }
    requires empty { tasks.old.items ≡ [] }
    requires room { config.now.workers + length config.now.relay ≤ vec_capacity tasks.old }
    ensures asked { (n : ℕ)
        × HasAsked (take n (asked_of config.now addr.now)) (N.told street.old) (N.told street.new)
        × OnOk result (n ≡ length (asked_of config.now addr.now)) }
    ensures kinds { OnOk result (map kind_of
        (map (end_told N.Door.told N.Link.told) tasks.new.items) ≡ kinds config.now) }
    ensures unused { All IsUnused (map (end_told N.Door.told N.Link.told) tasks.new.items) }
    ensures unserved { All IsUnserved tasks.new.items }
    ensures cause { IsErrOf result StreetFault.Failed
        → Rose (N.told street.old).faults (N.told street.new).faults }
{
    let doors = street.open(addr, config.workers)?;
    put_doors(doors, tasks);
    dial_from(config.relay.as_slice(), 0, street, tasks)
}

/// Gives the ends of all of these back to the street that they came from, in order: each door is
/// shut, and each link is hung up.
pub fn give_back<N: Street>(street: &mut N, tasks: Vec<CallerTask<N::Door, N::Link>>)
    ensures { HasTakenBack (map (end_told N.Door.told N.Link.told) tasks.items) (N.told street.old)
        (N.told street.new) }
{
    let mut tasks = tasks.into_iter();
    while let Some(task) = tasks.next() {
        let CallerTask {
            end,
            tally: _,
            served: _,
        } = task;
        match end {
            Endpoint::Door(door) => street.shut(door),
            Endpoint::Link(_, link) => street.hang_up(link),
        }
    }
    tasks.destroy_empty();
}
