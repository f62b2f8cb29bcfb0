//! The measure between two positions.

ghost use Rattle.std.specs.Prelude.{◌≡◌, ◌+◌, ◌*◌, ◌≤◌, unsigned_abs};
ghost use Rattle.base_select.specs.Measure.{IsOnEarth, cosine, north_apart, turn_apart, east_apart, measure_of};

use gga_read::Position;

/// One degree, in units of 10^-7 degree.
const DEGREE: u64 = 10_000_000;

/// A whole turn, in units of 10^-7 degree.
const TURN: u64 = 3_600_000_000;

/// The cosine of so many degrees in units of 1 / 10000, by Bhaskara's approximation.
fn cosine(degrees: u64) -> u64
    requires { degrees ≤ 90 }
    ensures value { result ≡ cosine degrees }
    ensures bound { result ≤ 10000 }
{
    10000 * (32400 - 4 * degrees * degrees) / (32400 + degrees * degrees)
}

/// The difference of latitude, in units of 10^-7 degree.
fn north_apart(p: Position, q: Position) -> u64
    requires p { IsOnEarth p }
    requires q { IsOnEarth q }
    ensures value { result ≡ north_apart p q }
    ensures bound { result ≤ 1800000000 }
{
    p.lat.abs_diff(q.lat)
}

/// The difference of longitude the short way round, in units of 10^-7 degree.
fn turn_apart(p: Position, q: Position) -> u64
    requires p { IsOnEarth p }
    requires q { IsOnEarth q }
    ensures value { result ≡ turn_apart p q }
    ensures bound { result ≤ 1800000000 }
{
    let apart = p.lon.abs_diff(q.lon);
    apart.min(TURN - apart)
}

/// The difference of longitude as degrees of a great circle, in units of 10^-7 degree.
fn east_apart(p: Position, q: Position) -> u64
    requires p { IsOnEarth p }
    requires q { IsOnEarth q }
    ensures value { result ≡ east_apart p q }
    ensures bound { result ≤ 1800000000 }
{
    let scale = cosine(p.lat.unsigned_abs() / DEGREE);
    turn_apart(p, q) * scale / 10000
}

/// The square of a number that fits.
fn square(side: u64) -> u64
    requires { side ≤ 1800000000 }
    ensures value { result ≡ side * side }
    ensures bound { result ≤ 3240000000000000000 }
{
    side * side
}

/// The measure between a rover and a base, for comparing bases: about the square of their distance
/// in units of 10^-7 degree of a great circle. It is exact as the sum of the squares of the
/// difference of latitude and of the difference of longitude the short way round, scaled by
/// Bhaskara's cosine at the rover's whole degrees of latitude.
#[tactic(auto, unfolding(crate::specs::Measure::measure_of))]
pub fn measure(rover: Position, base: Position) -> u64
    requires rover { IsOnEarth rover }
    requires base { IsOnEarth base }
    ensures { result ≡ measure_of rover base }
{
    square(north_apart(rover, base)) + square(east_apart(rover, base))
}
