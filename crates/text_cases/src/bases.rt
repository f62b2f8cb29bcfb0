//! The nearest base.
ghost use Rattle.std.specs.Prelude.{◌≤◌, IfSome};
ghost use Rattle.base_select.specs.Measure.{IsOnEarth};

use crate::printing::say;
use crate::rows::{count_at, number_at};
use base_select::{Base, measure, select};
use gga_read::Position;
use std::alloc::AllocError;

/// The position whose latitude and longitude are the words from this place on, on the earth.
fn position_at(words: &str, place: usize) -> Option<Position>
    ensures { IfSome result IsOnEarth }
{
    let lat = number_at(words, place)?;
    let lon = number_at(words, place.saturating_add(1))?;
    if lat.unsigned_abs() > 900_000_000 || lon.unsigned_abs() > 1_800_000_000 {
        return None;
    }
    Some(Position { lat, lon })
}

/// The base whose mountpoint and position are the words from this place on.
fn base_at(words: &str, place: usize) -> Option<Base>
    ensures { IfSome result (λ base. IsOnEarth base.at) }
{
    let at = position_at(words, place.saturating_add(1))?;
    let mount = count_at(words, place).min(9) as u32;
    Some(Base { mount, at })
}

/// The measure between two positions, each of a latitude and a longitude.
pub fn measure_positions(words: &str, out: &mut Vec<u8>) -> Result<(), AllocError> {
    match (position_at(words, 0), position_at(words, 2)) {
        (Some(rover), Some(base)) => say(out, &measure(rover, base)),
        _ => Ok(()),
    }
}

/// What is selected of none, two or three bases.
fn choice(words: &str, present: Option<u32>, percent: u32) -> Option<u32>
    requires { percent ≤ 50 }
{
    let rover = position_at(words, 2)?;
    match (base_at(words, 4), base_at(words, 7), base_at(words, 10)) {
        (Some(a), Some(b), Some(c)) => select(present, rover, &[a, b, c], percent),
        (Some(a), Some(b), None) => select(present, rover, &[a, b], percent),
        _ => select(present, rover, &[], percent),
    }
}

/// The selected mountpoint: the present one of 1 to 9, or 0, the hysteresis of 0 to 50, the rover's
/// latitude and longitude, and the mountpoint, the latitude and the longitude of each base.
pub fn select_base(words: &str, out: &mut Vec<u8>) -> Result<(), AllocError> {
    let present = match count_at(words, 0).min(9) as u32 {
        0 => None,
        mount => Some(mount),
    };
    let percent = count_at(words, 1).min(50) as u32;
    say(out, &choice(words, present, percent))
}
