//! A lock with two passes, opened and closed.
ghost use Rattle.std.specs.Prelude.{◌≡◌, [], IfOk};
ghost use Rattle.turn_log.specs.Lock.{turn_passes, turn_value, pass_number, IsPassOf};

use std::alloc::{AllocError, Global};
use turn_log::{Pass, Played, Turn};

/// A lock with two passes.
pub fn open_two<V: Played + Drop>(
    alloc: Global,
    value: V,
) -> Result<(Turn<V>, Pass<V>, Pass<V>), AllocError>
    requires { V.stands value [] }
    ensures first { IfOk result (λ opened.
        IsPassOf opened.1 opened.0 × (pass_number opened.1 ≡ 0)) }
    ensures second { IfOk result (λ opened.
        IsPassOf opened.2 opened.0 × (pass_number opened.2 ≡ 1)) }
    ensures passes { IfOk result (λ opened. turn_passes opened.0 ≡ 2) }
    ensures shape { IfOk result (λ opened. V.shape (turn_value opened.0) ≡ V.shape value) }
{
    let (turn, mut passes) = Turn::open(alloc, value, 2)?;
    let Some(second) = passes.pop() else {
        unreachable!()
    };
    let Some(first) = passes.pop() else {
        unreachable!()
    };
    Ok((turn, first, second))
}

/// Closes such a lock.
pub fn close_two<V: Played + Drop>(
    alloc: Global,
    turn: Turn<V>,
    first: Pass<V>,
    second: Pass<V>,
) -> Result<V, AllocError>
    requires first { IsPassOf first turn }
    requires second { IsPassOf second turn }
    requires passes { turn_passes turn ≡ 2 }
{
    let passes = Vec::from_array(alloc, [first, second])?;
    Ok(turn.close(passes))
}
