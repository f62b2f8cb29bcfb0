//! A session that is recorded over the links of one door.
ghost use Rattle.std.specs.Prelude.{◌≤◌, IfOk, IsErrOf, OnErr};
ghost use Rattle.cast_io.specs.Causes.{Rose};
ghost use Rattle.cast_config.specs.Kept.{KeepsRules};
ghost use Rattle.caster_record.specs.Arriving.{HaveLeft};
ghost use Rattle.caster_top.specs.Recording.{HasNotRecorded, HasRecorded, IsRecording};

use cast_config::Config;
use cast_io::{Door, Street, StreetFault};
use caster_record::{Recorded, RecorderFault, hang_up_all, record};
use session_script::Event;
use std::alloc::Global;
use std::sync::Wait;

/// Records a session of so many connections at this address, and gives its events. The street is
/// asked for one door, which is shut at last, when the links that it gave have come back to it.
pub fn record_at<R: Wait, N: Street>(
    rt: &R,
    alloc: Global,
    config: &Config,
    addr: &str,
    limit: u32,
    street: &mut N,
) -> Result<Vec<Event>, RecorderFault>
    requires kept { KeepsRules 1000000 config.now }
    requires limit { (1 ≤ limit) × (limit ≤ 256) }
    ensures recorded { IfOk result (λ events. HasRecorded config.now addr.now limit
        (N.told street.old) (N.told street.new) events.items) }
    ensures left { OnErr result (HasNotRecorded addr.now (N.told street.old) (N.told street.new)) }
    ensures network { IsErrOf result RecorderFault.Network
        → Rose (N.told street.old).faults (N.told street.new).faults }
    ensures later { (N.told street.old).faults ≤ (N.told street.new).faults }
{
    let mut doors = match street.open(addr, 1) {
        Ok(doors) => doors,
        Err(StreetFault::Failed) => return Err(RecorderFault::Network),
        Err(StreetFault::Memory) => return Err(RecorderFault::Memory),
    };
    let Some(mut door) = doors.pop() else {
        unreachable!();
    };
    doors.destroy_empty();
    let recorded = record_over(rt, alloc, config, limit, &mut door);
    street.shut(door);
    recorded
}

// Records a session over the links of this door, which it takes back at last.
fn record_over<D: Door, R: Wait>(
    rt: &R,
    alloc: Global,
    config: &Config,
    limit: u32,
    door: &mut D,
) -> Result<Vec<Event>, RecorderFault>
    requires kept { KeepsRules 1000000 config.now }
    requires limit { (1 ≤ limit) × (limit ≤ 256) }
    ensures recorded { IfOk result (λ events. IsRecording config.now limit
        (D.told door.old) (D.told door.new) events.items) }
    ensures left { OnErr result (HaveLeft (D.told door.old) (D.told door.new)) }
    ensures network { IsErrOf result RecorderFault.Network
        → Rose (D.told door.old).faults (D.told door.new).faults }
{
    let Recorded {
        events,
        report: _,
        links,
    } = record(rt, alloc, config, limit, door)?;
    hang_up_all(door, links);
    Ok(events)
}
