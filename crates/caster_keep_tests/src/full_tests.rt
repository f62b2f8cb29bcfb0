//! A rover is refused since its account is full: another rover of it is there meanwhile, at another
//! worker.

ghost use Rattle.std.specs.Prelude.{IfOk};
ghost use Rattle.cast_config.specs.Kept.{KeepsRules};

use crate::fakes::ROVER;
use cast_config::{Config, read_config};
use cast_console::{Lodge, MemLodge};
use caster_keep::{Stop, keep};
use std::alloc::Global;
use std::str;
use std::sync::Wait;
use std::sync::atomic::AtomicBool;
use std::test::Fail;
use std::thread::Threads;
use std::time::Clock;
use test_support::link_of;
use test_timed_io::{Stop as Pause, TimedDoor, TimedLink, TimedYard};

// Two workers, and an account for one rover at a time.
const FILE: &[u8] = b"version = 1
workers = 2
[[mount]]
name = 'ALPHA'
password = 'sesame'
ring = 4
latitude = 481173000
longitude = 115166666
[[group]]
name = 'field'
mounts = ['ALPHA']
types = 'all'
[[account]]
user = 'rover1'
password = 'secret'
group = 'field'
cap = 1
";

/// No flag.
const NONE: usize = 2;

/// The lines of the rover that came first.
const FIRST: &[u8] = b"0.1 from -
0.1 asks 1 rover ALPHA rover1
0.1 rover rover1
0.1 segment ALPHA 0 0 0 0
0.1 end rover:rover1 0 0 0 rover-end
";

/// Those of the one that was refused.
const REFUSED: &[u8] = b"1.1 from -
1.1 asks 1 rover ALPHA rover1
1.1 end - 0 0 0 full 1 1
";

/// Those of no link.
const TOTALS: &[u8] = b"mount ALPHA 0 0
account rover1 1 0 0
total 1 0 0
";

/// The configuration that is tried.
fn two_workers(alloc: Global) -> Result<Config, Fail>
    ensures { IfOk result (KeepsRules 1000000) }
{
    Ok(read_config(alloc, FILE)?)
}

/// A door at which rover1 arrives, with these pauses.
fn rover_door<'a, R: Clock>(
    rt: &'a R,
    alloc: Global,
    flags: &'a [AtomicBool],
    pauses: &[Pause],
) -> Result<TimedDoor<'a, R>, Fail> {
    let rover = link_of(alloc, &[ROVER], &[])?;
    let pauses = pauses.to_vec(alloc)?;
    Ok(TimedDoor::new(TimedLink::new(rt, alloc, flags, pauses, rover)))
}

/// A yard of two rovers of one account. Once the first one was let in, behind its head and its
/// reply, its next read waits for the reply of the second, whose head comes only then.
fn yard_of<'a, R: Clock>(
    rt: &'a R,
    alloc: Global,
    flags: &'a [AtomicBool],
) -> Result<TimedYard<'a, R>, Fail> {
    let stays = Pause {
        call: 3,
        sets: 0,
        awaits: 1,
    };
    let comes = Pause {
        call: 1,
        sets: NONE,
        awaits: 0,
    };
    let answered = Pause {
        call: 2,
        sets: 1,
        awaits: NONE,
    };
    let first = rover_door(rt, alloc, flags, &[stays])?;
    let second = rover_door(rt, alloc, flags, &[comes, answered])?;
    Ok(TimedYard::new(alloc, first, second))
}

/// The lines of this text that begin so, or all that begin with no digit.
fn lines_from(alloc: Global, text: &str, front: Option<&str>) -> Result<Vec<u8>, Fail> {
    let mut lines = Vec::new(alloc);
    for line in text.lines() {
        let is_meant = match front {
            Some(front) => line.starts_with(front),
            None => line.starts_with(|c: char| !c.is_ascii_digit()),
        };
        if is_meant {
            lines.extend_from_slice(line.as_bytes())?;
            lines.push(b'\n')?;
        }
    }
    Ok(lines)
}

/// Lets a caster keep serving over this yard until its gates are over.
fn keep_over<R: Clock + Threads + Wait + Sync, Z: Lodge>(
    rt: &R,
    alloc: Global,
    yard: &mut TimedYard<'_, R>,
    lodge: &mut Z,
) -> Result<(), Fail>
where
    Z::Console: Send,
{
    let config = two_workers(alloc)?;
    let kept = keep(rt, alloc, &config, "127.0.0.1:0", 300, yard, lodge);
    match kept.map(|outcome| (outcome.stop, outcome.is_torn)) {
        Ok((Stop::Over, false)) => Ok(()),
        _ => Err("it did not stop since its gates were over".into()),
    }
}

/// The lines of this text of the first worker, of the second, and of no link.
fn parts_of(alloc: Global, text: &[u8]) -> Result<[Vec<u8>; 3], Fail> {
    let text = str::from_utf8(text).or(Err("the text is not UTF-8"))?;
    Ok([
        lines_from(alloc, text, Some("0."))?,
        lines_from(alloc, text, Some("1."))?,
        lines_from(alloc, text, None)?,
    ])
}

/// The lines of a caster over this yard.
pub(crate) fn parts_over<R: Clock + Threads + Wait + Sync, Z: Lodge>(
    rt: &R,
    alloc: Global,
    yard: &mut TimedYard<'_, R>,
    lodge: &mut Z,
) -> Result<[Vec<u8>; 3], Fail>
where
    Z::Console: Send,
{
    keep_over(rt, alloc, yard, lodge)?;
    parts_of(alloc, yard.text())
}

/// The lines of a caster of these rovers: of each of them, and of no link.
fn keep_full<R: Clock + Threads + Wait + Sync>(
    rt: &R,
    alloc: Global,
) -> Result<[Vec<u8>; 3], Fail> {
    let flags = [AtomicBool::new(false), AtomicBool::new(false)];
    let mut yard = yard_of(rt, alloc, &flags)?;
    let mut lodge = MemLodge::new(alloc, Vec::new(alloc));
    parts_over(rt, alloc, &mut yard, &mut lodge)
}

// The lines of the two rovers may alternate, and those of each stand in order.
#[test]
fn a_full_account_is_told(rt: HostRuntime) -> Result<(), Fail> {
    let lines = keep_full(&rt, rt.alloc())?;
    for (lines, wanted) in lines.iter().zip([FIRST, REFUSED, TOTALS]) {
        assert!(rt; lines.as_slice() == wanted);
    }
    Ok(())
}
