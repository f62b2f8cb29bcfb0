//! An object whose turns are taken at a desk.
ghost use Rattle.std.specs.Prelude.{◌≡◌, ℕ, ◌+◌, ◌-◌, ◌≤◌, nat_le, IsTrue, List, [], ◌∷◌, length, IfOk, IfErr, OnErr, OnOk, map};
ghost use Rattle.turn_log.specs.Heard.{Heard, HeardFirst};
ghost use Rattle.turn_log.specs.Turn.{SamePlace};
ghost use Rattle.turn_log.specs.Faults.{IsHandedOn};

use std::snapshot::Snapshot;
use std::test::Fail;
use turn_log::laws::{fact_stays, fits_stays};
use turn_log::{Desk, Played, TurnFault, Turns};

/// Hands out ticket numbers from `first` on. A call says how many tickets its caller knows to be
/// given, and its room gets how many were given beyond these.
#[derive(Drop)]
struct Tickets {
    first: u32,
    given: u64,
}

impl Played for Tickets {
    ghost use Rattle.std.specs.Prelude.{◌≡◌, ◌+◌, ◌-◌, nat_le, length};
    ghost use Rattle.std.specs.Coded.{Coded-set, coded_ℕ};
    ghost use Rattle.std.proofs.Common.{[], ◌∷◌, ◌++◌, arith, length-append};
    ghost use Rattle.std.proofs.lemmas.Bool.{leb-true, le-leb};

    type Call = u64;

    type Answer = u64;

    type Room = u64;

    type Shape = u32;

    ghost shape = { λ tickets. tickets.first };

    ghost stands = { λ tickets h. tickets.given ≡ length h };

    ghost stands_once = { λ tickets h. Coded-set coded_ℕ tickets.given (length h) };

    ghost fits = { λ first h me known. nat_le known (length h) };

    ghost answer = { λ first h me known. first + length h };

    ghost filled = { λ first h me known room. length h - known };

    fn play(&mut self, me: u32, known: u64, room: &mut u64) -> u64 {
        *room = self.given - known;
        let number = u64::from(self.first) + self.given;
        self.given += 1;
        number
    }

    // What a caller knows to be given stays given.
    ghost still_fits = { λ first h me by known other fits apart fitting.
        le-leb known (length (h ++ (by, other) ∷ []))
        (Prim.omega (arith, leb-true known (length h) fits, length-append h ((by, other) ∷ []))) };
}

/// Two tickets for one caller, at any place: the second time it knows of its first ticket.
fn take_two<T: Turns<Tickets>>(
    place: &mut T,
    me: u32,
    room: &mut u64,
) -> Result<(u64, u64), TurnFault>
    requires speaks { IsTrue (T.speaks place.old me) }
    ensures same { SamePlace T.shape T.speaks T.may_lack T.alone T.home place.old place.new }
    ensures worn { T.worn place.old ≤ T.worn place.new }
    ensures ok { IfOk result (λ numbers.
        Heard (T.alone place.old) (⟦<Tickets as Played>⟧.answer (T.shape place.old))
        (T.seen place.old) (T.seen place.new) me ((0, numbers.0) ∷ (1, numbers.1) ∷ [])) }
    ensures err { OnErr result
        (HeardFirst (T.alone place.old) (⟦<Tickets as Played>⟧.answer (T.shape place.old))
        (T.seen place.old) (T.seen place.new) me (0 ∷ 1 ∷ [])) }
    ensures fault { IfErr result (IsHandedOn (T.may_lack place.old) (T.worn place.new)) }
{
    let first = place.turn(me, 0, room)?;
    let second = place.turn(me, 1, room)?;
    Ok((first, second))
}

/// So many tickets for one caller, at any place.
fn take_many<T: Turns<Tickets>>(
    place: &mut T,
    me: u32,
    n: u32,
    room: &mut u64,
) -> Result<(), TurnFault>
    requires speaks { IsTrue (T.speaks place.old me) }
    ensures same { SamePlace T.shape T.speaks T.may_lack T.alone T.home place.old place.new }
    ensures worn { T.worn place.old ≤ T.worn place.new }
    ensures ok { OnOk result ((numbers : List ℕ) × (length numbers ≡ n) ×
        Heard (T.alone place.old) (⟦<Tickets as Played>⟧.answer (T.shape place.old))
        (T.seen place.old) (T.seen place.new) me (map (λ number. (0, number)) numbers)) }
{
    for _ in 0..n {
        place.turn(me, 0, room)?;
    }
    Ok(())
}

/// The same at a desk, where the numbers follow one another.
fn two_at_desk(desk: &mut Desk<Tickets>, me: u32, room: &mut u64) -> Result<(u64, u64), TurnFault>
    ensures next { IfOk result (λ numbers. numbers.1 ≡ numbers.0 + 1) }
{
    take_two(desk, me, room)
}

/// Two tickets for one caller, one for another, who knows of none, and two more for the first: the
/// first three numbers, what the room held after each of the three calls, and how many were given.
fn five_tickets() -> Result<([u64; 3], [u64; 3], u64), TurnFault> {
    let mut desk = Desk::new(Tickets { first: 7, given: 0 });
    let mut missed = 9;
    let (first, second) = two_at_desk(&mut desk, 3, &mut missed)?;
    let behind_two = missed;
    let third = desk.turn(5, 0, &mut missed)?;
    let behind_three = missed;
    take_many(&mut desk, 3, 2, &mut missed)?;
    let numbers = [first, second, third];
    Ok((
        numbers,
        [behind_two, behind_three, missed],
        desk.value().given,
    ))
}

#[test]
fn a_desk_answers_by_its_history(rt: HostRuntime) -> Result<(), Fail> {
    assert_eq!(rt; five_tickets()?, ([7, 8, 9], [0, 2, 4], 5));
    fits_stays::<Tickets>();
    fact_stays::<Tickets>();
    Ok(())
}

/// Takes 100,000 tickets at a desk: what the room held after the last, and how many were given.
fn long_history() -> Result<(u64, u64), TurnFault> {
    let mut desk = Desk::new(Tickets { first: 0, given: 0 });
    let mut missed = 0;
    take_many(&mut desk, 3, 100_000, &mut missed)?;
    Ok((missed, desk.value().given))
}

// A desk is its object, a count and a mark, however many turns it gave: the history has no bytes.
#[test]
fn a_long_history_has_no_bytes(rt: HostRuntime) -> Result<(), Fail> {
    assert_eq!(rt; size_of::<Snapshot<[u64; 100]>>(), 0);
    assert_eq!(rt; size_of::<Desk<Tickets>>(), size_of::<Tickets>() + 16);
    assert_eq!(rt; long_history()?, (99_999, 100_000));
    Ok(())
}
