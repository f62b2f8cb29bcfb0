//! An object whose turns threads take at a lock.
ghost use Rattle.std.specs.Prelude.{◌≡◌, IsTrue, None, OnOk};
ghost use Rattle.turn_log.specs.Turn.{SamePlace};
ghost use Rattle.ring_tests.specs.Newest.{fits_newest};
ghost use Rattle.turn_log.specs.Lock.{pass_number, IsPassOf};

use crate::locks::{close_two, open_two};
use std::alloc::{AllocError, Global};
use std::sync::Wait;
use std::test::Fail;
use std::thread::{Threads, join};
use turn_log::{Pass, Played, Turn, TurnFault, Turns};

/// Adds up what caller 0 says, and what all others say.
#[derive(Drop)]
struct Sums {
    first: u64,
    others: u64,
}

impl Played for Sums {
    ghost use Rattle.std.specs.Prelude.{◌≡◌, ◌==◌, ◌%◌, ◌^◌, true, refl, sum_by, if◌then◌else◌};
    ghost use Rattle.std.specs.Coded.{Coded-set, coded_ℕ};

    type Call = u32;

    type Answer = ();

    type Room = ();

    type Shape = ();

    ghost shape = { λ sums. tt };

    ghost stands = { λ sums h.
        (sums.first ≡ sum_by (λ e. if e.0 == 0 then e.1 else 0) h % 2 ^ 64)
        × (sums.others ≡ sum_by (λ e. if e.0 == 0 then 0 else e.1) h % 2 ^ 64) };

    ghost stands_once = { λ sums h. Prim.hlevel (Coded-set coded_ℕ) };

    ghost fits = { λ _ h me amount. true };

    ghost answer = { λ _ h me amount. tt };

    ghost filled = { λ _ h me amount room. room };

    fn play(&mut self, me: u32, amount: u32, room: &mut ()) {
        if me == 0 {
            self.first = self.first.wrapping_add(u64::from(amount));
        } else {
            self.others = self.others.wrapping_add(u64::from(amount));
        }
    }

    ghost still_fits = { λ _ h me by amount other fits apart fitting. refl };
}

/// A ring of one place, with the frame that was published last. Who knows that some frame was
/// published may read: `None` reads, and `Some` publishes.
#[derive(Drop)]
struct Newest {
    frame: Option<u32>,
}

impl Played for Newest {
    ghost use Rattle.std.specs.Prelude.{◌≡◌, is_some, None, refl, if◌then◌else◌};
    ghost use Rattle.std.specs.Coded.{Coded-set, coded_ℕ, coded_option};
    ghost use Rattle.ring_tests.specs.Newest.{newest, fits_newest, newest_stays};

    type Call = Option<u32>;

    type Answer = Option<u32>;

    type Room = ();

    type Shape = ();

    ghost shape = { λ ring. tt };

    ghost stands = { λ ring h. ring.frame ≡ newest h };

    ghost stands_once = { λ ring h. Coded-set (coded_option coded_ℕ) ring.frame (newest h) };

    ghost fits = { λ _ h me call. fits_newest h call };

    ghost answer = { λ _ h me call. newest h };

    ghost filled = { λ _ h me call room. room };

    fn play(&mut self, me: u32, call: Option<u32>, room: &mut ()) -> Option<u32> {
        let before = self.frame;
        if call.is_some() {
            self.frame = call;
        }
        before
    }

    ghost still_fits = { λ _ h me by call other fits apart fitting.
        newest_stays h by call other fits };
}

/// As many turns under one number.
fn add_many<R: Wait + Sync>(
    turn: &Turn<Sums>,
    rt: &R,
    pass: Pass<Sums>,
    me: u32,
    amount: u32,
    times: u32,
) -> Pass<Sums>
    requires pass { IsPassOf pass turn.now }
    requires me { pass_number pass ≡ me }
    ensures { IsPassOf result turn.now }
{
    let mut seat = turn.seat(rt, pass);
    for _ in 0..times {
        let _taken = seat.turn(me, amount, &mut ());
    }
    seat.leave()
}

/// Two threads with one pass each.
fn add_both<R: Threads + Wait + Sync>(
    turn: &Turn<Sums>,
    rt: &R,
    first: Pass<Sums>,
    second: Pass<Sums>,
) -> (Pass<Sums>, Pass<Sums>)
    requires first { IsPassOf first turn.now × (pass_number first ≡ 0) }
    requires second { IsPassOf second turn.now × (pass_number second ≡ 1) }
    ensures { IsPassOf result.0 turn.now × IsPassOf result.1 turn.now }
{
    join(
        rt,
        move ||
            requires { IsPassOf first turn.now × (pass_number first ≡ 0) }
        { add_many(turn, rt, first, 0, 3, 1000) },
        move ||
            requires { IsPassOf second turn.now × (pass_number second ≡ 1) }
        { add_many(turn, rt, second, 1, 5, 1000) },
    )
}

/// Publishes a frame and reads the newest one, at any place.
fn publish_and_read<T: Turns<Newest>>(
    place: &mut T,
    me: u32,
    frame: u32,
) -> Result<Option<u32>, TurnFault>
    requires speaks { IsTrue (T.speaks place.old me) }
    ensures same { SamePlace T.shape T.speaks T.may_lack T.alone T.home place.old place.new }
    ensures ok { OnOk result (IsTrue (fits_newest (T.seen place.new) None)) }
{
    place.turn(me, Some(frame), &mut ())?;
    place.turn(me, None, &mut ())
}

/// The first pass publishes and reads, and the second reads once it was told.
fn tell<R: Wait + Sync>(
    turn: &Turn<Newest>,
    rt: &R,
    first: Pass<Newest>,
    mut second: Pass<Newest>,
) -> Result<(Option<u32>, Option<u32>), TurnFault>
    requires first { IsPassOf first turn.now × (pass_number first ≡ 0) }
    requires second { IsPassOf second turn.now × (pass_number second ≡ 1) }
{
    let mut seat = turn.seat(rt, first);
    let own = publish_and_read(&mut seat, 0, 7)?;
    let mut first = seat.leave();
    let note = turn.note(&mut first);
    turn.meet(&mut second, note);
    let mut seat = turn.seat(rt, second);
    let told = seat.turn(1, None, &mut ())?;
    Ok((own, told))
}

/// What two callers said to a lock in a thread each, added up for each of them.
fn sums_of_two<R: Threads + Wait + Sync>(rt: &R, alloc: Global) -> Result<(u64, u64), AllocError> {
    let sums = Sums {
        first: 0,
        others: 0,
    };
    let (turn, first, second) = open_two(alloc, sums)?;
    let (first, second) = add_both(&turn, rt, first, second);
    let sums = close_two(alloc, turn, first, second)?;
    Ok((sums.first, sums.others))
}

#[test]
fn two_threads_add_up_a_thousand_turns_each(rt: HostRuntime) -> Result<(), Fail> {
    assert_eq!(rt; sums_of_two(&rt, rt.alloc())?, (3000, 5000));
    Ok(())
}

/// What the first of two callers reads behind its own frame, and the second once it was told.
fn read_by_two<R: Wait + Sync>(rt: &R, alloc: Global) -> Result<(Option<u32>, Option<u32>), Fail> {
    let (turn, first, second) = open_two(alloc, Newest { frame: None })?;
    Ok(tell(&turn, rt, first, second)?)
}

#[test]
fn who_met_a_note_reads_what_its_writer_published(rt: HostRuntime) -> Result<(), Fail> {
    assert_eq!(rt; read_by_two(&rt, rt.alloc())?, (Some(7), Some(7)));
    Ok(())
}
