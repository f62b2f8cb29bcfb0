//! The choice of a base.

ghost use Rattle.std.specs.Prelude.{◌≡◌, ◌==◌, position, ◌<◌, ◌≤◌, [], length, All, slice_index, IfSome, IfNone};
ghost use Rattle.base_select.specs.Measure.{IsOnEarth};
ghost use Rattle.base_select.specs.Choice.{measures, mounts, IsNearest, place_of, chosen, IsChoice};

use crate::Base;
use crate::distance::measure;
use gga_read::Position;

/// The measure of the base at this place.
fn measure_at(rover: Position, bases: &[Base], place: usize) -> u64
    requires rover { IsOnEarth rover }
    requires bases { All (λ base. IsOnEarth base.at) bases.now }
    requires place { place < length bases.now }
    ensures { result ≡ slice_index (measures rover bases.now) place }
{
    measure(rover, bases[place].at)
}

/// The mountpoint's number of the base at this place.
fn mount_at(bases: &[Base], place: usize) -> u32
    requires { place < length bases.now }
    ensures { result ≡ slice_index (mounts bases.now) place }
{
    bases[place].mount
}

/// The place of the nearest base, of equally near ones the first.
fn nearest(rover: Position, bases: &[Base]) -> usize
    requires rover { IsOnEarth rover }
    requires bases { All (λ base. IsOnEarth base.at) bases.now }
    requires some { 0 < length bases.now }
    ensures within { result < length bases.now }
    ensures nearest { IsNearest (measures rover bases.now) result }
{
    let mut best = 0;
    for place in 1..bases.len() {
        if measure_at(rover, bases, place) < measure_at(rover, bases, best) {
            best = place;
        }
    }
    best
}

/// The first place of this mountpoint.
fn place_of_mount(mount: u32, bases: &[Base]) -> Option<usize>
    ensures value { result ≡ position (λ base. base.mount == mount) bases.now }
    ensures within { IfSome result (λ place. place < length bases.now) }
{
    bases.iter().position(|base| base.mount == mount)
}

/// The place of the rover's present base, if it is in the list.
fn place_of(current: Option<u32>, bases: &[Base]) -> Option<usize>
    ensures value { result ≡ place_of current bases.now }
    ensures within { IfSome result (λ place. place < length bases.now) }
{
    match current {
        None => None,
        Some(mount) => place_of_mount(mount, bases),
    }
}

/// The place that is chosen of the nearest and the present one.
fn choose_place(
    rover: Position,
    bases: &[Base],
    h: u32,
    nearest: usize,
    present: Option<usize>,
) -> usize
    requires rover { IsOnEarth rover }
    requires bases { All (λ base. IsOnEarth base.at) bases.now }
    requires percent { h ≤ 50 }
    requires nearest { nearest < length bases.now }
    requires present { IfSome present (λ place. place < length bases.now) }
    ensures value { result ≡ chosen (measures rover bases.now) h nearest present }
    ensures within { result < length bases.now }
{
    match present {
        None => nearest,
        Some(place) => {
            let new = u128::from(measure_at(rover, bases, nearest));
            let old = u128::from(measure_at(rover, bases, place));
            let kept = u128::from(100 - h);
            if new * 10000 < old * kept * kept {
                nearest
            } else {
                place
            }
        }
    }
}

/// The mountpoint's number of the base that a rover takes: of no base, or of one that is not in the
/// list, it goes to the nearest. Of a base in the list it goes to the nearest only where that is
/// nearer by more than `h` percent. `None` exactly where there are no bases.
pub fn select(current: Option<u32>, rover: Position, bases: &[Base], h: u32) -> Option<u32>
    requires rover { IsOnEarth rover }
    requires bases { All (λ base. IsOnEarth base.at) bases.now }
    requires percent { h ≤ 50 }
    ensures none { IfNone result (bases.now ≡ []) }
    ensures some { IfSome result (λ mount. IsChoice current rover bases.now h mount) }
{
    if bases.is_empty() {
        return None;
    }
    let near = nearest(rover, bases);
    let place = choose_place(rover, bases, h, near, place_of(current, bases));
    Some(mount_at(bases, place))
}
