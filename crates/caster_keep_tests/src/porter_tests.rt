//! A porter at a console and at the desks of two mountpoints, with no caster around it.

ghost use Rattle.std.specs.Prelude.{◌≡◌, ◌<◌, IfOk, length, map};
ghost use Rattle.std.specs.List.{All};
ghost use Rattle.turn_log.specs.Desks.{desk_shape};
ghost use Rattle.caster_keep_tests.specs.LonePorters.{MayWait};

use cast_config::{Config, read_config};
use cast_console::{MemConsole, Wanted};
use cast_io::MemSink;
use caster_press::{AtPress, Writer, write_at_once};
use keep_porter::wait_at;
use mount_ring::Ring;
use rtcm_frame::Cutter;
use source_session::SourceSession;
use std::alloc::Global;
use std::sync::Wait;
use std::test::Fail;
use std::thread::Threads;
use turn_log::Desk;
use type_filter::{Filter, Filters};

/// Five workers, and two mountpoints.
const FILE: &[u8] = b"version = 1
workers = 5
[[mount]]
name = 'ALPHA'
password = 'sesame'
ring = 4
latitude = 481173000
longitude = 115166666
[[mount]]
name = 'BRAVO'
password = ''
ring = 4
latitude = 482000000
longitude = 115166666
[[group]]
name = 'field'
mounts = ['ALPHA']
types = 'all'
";

/// A frame of the message 1005 and one of the message 1077.
const FRAMES: &[u8] = b"\xd3\x00\x02\x3e\xd0\xa4\xe0\x00\xd3\x00\x02\x43\x50\x06\xa2\x7e";

/// What is wanted: twice how things stand, with a rest between.
const TWICE: [Wanted; 3] = [
    Wanted::Status { busy: 3 },
    Wanted::Nothing,
    Wanted::Status { busy: 0 },
];

/// What is written of it, by docs/FORMATS.md, "Lines of how things stand".
const SAID: &[u8] = b"now mount ALPHA 2 1
now mount BRAVO 0 -
now workers 3 5
now end
now mount ALPHA 2 1
now mount BRAVO 0 -
now workers 0 5
now end
";

/// A porter at this console and at these desks, one for the ring of each mountpoint.
#[derive(Drop)]
struct Waiting<'a> {
    config: &'a Config,
    rings: Vec<Desk<Ring>>,
    console: MemConsole,
}

impl<'a> Writer for Waiting<'a> {
    ghost use Rattle.std.specs.Prelude.{◌≡◌, map, true};
    ghost use Rattle.turn_log.specs.Desks.{desk_shape};
    ghost use Rattle.cast_console.specs.Fakes.{console_told};
    ghost use Rattle.caster_keep_tests.specs.LonePorters.{MayWait};

    ghost ready = { λ waiting. MayWait waiting.config.now (map desk_shape waiting.rings.items) };

    ghost wrote = { λ old new lines. (console_told new.console).over ≡ true };

    fn write<P: AtPress, R: Wait>(&mut self, rt: &R, place: &mut P, me: u32) {
        let rings = self.rings.as_mut_slice();
        wait_at(rt, self.config, rings, 0, &mut self.console, place, me);
    }
}

/// A desk of a new ring, which nobody holds.
fn free_desk(alloc: Global) -> Result<Desk<Ring>, Fail>
    ensures { IfOk result (λ desk. 0 < length (desk_shape desk).filters) }
{
    let mut list = Vec::new(alloc);
    list.push(Filter::all())?;
    Ok(Desk::new(Ring::new(alloc, 4, &Filters::new(list))?))
}

/// A source claims the mountpoint of a desk, for the first time, and publishes two frames there.
fn publish_two(alloc: Global, desk: &mut Desk<Ring>) -> Result<(), Fail>
    ensures { desk_shape desk.new ≡ desk_shape desk.old }
{
    let cutter = Box::new(alloc, Cutter::new())?;
    let mut source = SourceSession::claim(1, false, cutter, desk)?;
    source.feed(FRAMES, desk)?;
    Ok(())
}

/// A desk of a new ring, which a source holds that published two frames.
fn held_desk(alloc: Global) -> Result<Desk<Ring>, Fail>
    ensures { IfOk result (λ desk. 0 < length (desk_shape desk).filters) }
{
    let mut desk = free_desk(alloc)?;
    publish_two(alloc, &mut desk)?;
    Ok(desk)
}

/// The desks of a configuration of two mountpoints: a source holds the first, and nobody the
/// second.
fn desks_of(alloc: Global, config: &Config) -> Result<Vec<Desk<Ring>>, Fail>
    ensures { IfOk result (λ desks. MayWait config.now (map desk_shape desks.items)) }
{
    if config.mount.as_slice().len() != 2 {
        return Err(Fail::from("another number of mountpoints"));
    }
    let held = held_desk(alloc)?;
    let free = free_desk(alloc)?;
    Ok(Vec::from_array(alloc, [held, free])?)
}

/// A porter at whose console these are wanted.
fn porter_of<'a>(alloc: Global, config: &'a Config, wanted: &[Wanted]) -> Result<Waiting<'a>, Fail>
    ensures { IfOk result ⟦<Waiting<'a> as Writer>⟧.ready }
{
    Ok(Waiting {
        config,
        rings: desks_of(alloc, config)?,
        console: MemConsole::new(wanted.to_vec(alloc)?),
    })
}

/// The work of that porter alone.
fn works_of<'a>(
    alloc: Global,
    config: &'a Config,
    wanted: &[Wanted],
) -> Result<Vec<Waiting<'a>>, Fail>
    ensures one { IfOk result (λ works. length works.items ≡ 1) }
    ensures ready { IfOk result (λ works. All ⟦<Waiting<'a> as Writer>⟧.ready works.items) }
{
    let porter = porter_of(alloc, config, wanted)?;
    Ok(Vec::from_array(alloc, [porter])?)
}

/// What this output takes of these works, and whether it is torn.
fn text_of<'a, R: Threads + Wait + Sync>(
    rt: &R,
    alloc: Global,
    sink: MemSink,
    works: &mut Vec<Waiting<'a>>,
) -> Result<(Vec<u8>, bool), Fail>
    requires one { length works.old.items ≡ 1 }
    requires ready { All ⟦<Waiting<'a> as Writer>⟧.ready works.old.items }
{
    let closed = write_at_once(rt, alloc, sink, works)?;
    Ok((closed.sink.bytes().to_vec(alloc)?, closed.is_torn))
}

/// What the output takes of a porter at whose console these are wanted, and whether it is torn.
fn wait_with<R: Threads + Wait + Sync>(
    rt: &R,
    alloc: Global,
    config: &Config,
    wanted: &[Wanted],
    sink: MemSink,
) -> Result<(Vec<u8>, bool), Fail> {
    let mut works = works_of(alloc, config, wanted)?;
    text_of(rt, alloc, sink, &mut works)
}

/// The same of the configuration that is tried.
fn wait_alone<R: Threads + Wait + Sync>(
    rt: &R,
    alloc: Global,
    wanted: &[Wanted],
    sink: MemSink,
) -> Result<(Vec<u8>, bool), Fail> {
    let config = read_config(alloc, FILE)?;
    wait_with(rt, alloc, &config, wanted, sink)
}

/// Whether a porter at whose console these are wanted waits until nothing is, this is written, and
/// that is torn or not. The write of this number, from 1, takes so many bytes and fails.
fn is_said<R: Threads + Wait + Sync>(
    rt: &R,
    alloc: Global,
    wanted: &[Wanted],
    fails: (u64, u64),
    said: &[u8],
    torn: bool,
) -> Result<bool, Fail> {
    let sink = MemSink::torn(alloc, [fails].to_vec(alloc)?);
    let (text, is_torn) = wait_alone(rt, alloc, wanted, sink)?;
    Ok(text.as_slice() == said && is_torn == torn)
}

#[test]
fn a_porter_alone_says_how_things_stand_when_it_is_wanted(rt: HostRuntime) -> Result<(), Fail> {
    assert!(rt; is_said(&rt, rt.alloc(), &TWICE, (0, 0), SAID, false)?);
    assert!(rt; is_said(&rt, rt.alloc(), &[], (0, 0), b"", false)?);
    Ok(())
}

#[test]
fn a_porter_alone_waits_to_the_end_where_a_write_fails(rt: HostRuntime) -> Result<(), Fail> {
    let said = b"now mount ALPHA 2 1\nnow mount B";
    assert!(rt; is_said(&rt, rt.alloc(), &TWICE, (2, 11), said, true)?);
    Ok(())
}
