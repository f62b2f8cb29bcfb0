//! Following a rover's reports: which base it takes, and a segment for each base.

ghost use Rattle.std.specs.Prelude.{◌≡◌, ℕ, ◌<◌, ◌≤◌, List, [], ◌∷◌, ◌++◌, length, map, reverse, All, IfSome, IfErr, OnOk, Some, option_to_list};
ghost use Rattle.std.specs.Result.{result_err};
ghost use Rattle.cast_text.specs.Lines as lines;
ghost use Rattle.gga_read.specs.declared.Position.{Position};
ghost use Rattle.gga_read.specs.Report.{reports};
ghost use Rattle.base_select.specs.Measure.{IsOnEarth};
ghost use Rattle.session_calls.specs.Plans.{done};
ghost use Rattle.session_calls.specs.Rings.{AllSpeak, all_alone};
ghost use Rattle.rover_session.specs.Owed.{chooses, changed, joins, follows, heeds};
ghost use Rattle.rover_session.specs.Made.{present_base, IsRefusedBy};
ghost use Rattle.rover_session.specs.Places.{StayAtRings};
ghost use Rattle.rover_session.specs.Standing.{KnowsFilter, AreWithin, KeepsSegments, Followed, terms_of};

use crate::admitted::Admitted;
use crate::places::{held_among, join_at};
use base_select::{Base, select};
use gga_read::{Position, Reports};
use mount_ring::Ring;
use rover_cursor::{SegFault, Segment};
use std::alloc::Global;
use turn_log::Turns;

/// Begins a segment at this mountpoint. Room for it is taken first.
pub(crate) fn begin_segment<T: Turns<Ring>>(
    alloc: Global,
    segments: &mut Vec<Segment>,
    me: u32,
    mount: u32,
    filter: u32,
    places: &mut [T],
) -> Result<(), SegFault>
    requires within { mount < length places.old }
    requires speaks { AllSpeak T.speaks places.old me }
    requires filter { KnowsFilter (map T.shape places.old) filter }
    ensures stay { StayAtRings T.Turns places.old places.new }
    ensures followed { Followed (map T.shape places.old) (all_alone T.alone places.old)
        (map T.seen places.old) (map T.seen places.new) me (joins filter (Some mount) done)
        (result_err result) (reverse segments.old.items) (reverse segments.new.items) }
    ensures cause { IfErr result (IsRefusedBy (map T.worn places.new)) }
{
    if segments.reserve(1).is_err() {
        return Err(SegFault::Memory);
    }
    let segment = join_at(alloc, places, me, mount, filter)?;
    segments.push_reserved(segment);
    Ok(())
}

/// The mountpoint that a rover is to join next: the one that it takes among these bases, where it
/// is not its present one. `h` percent of the distance another base must be nearer.
fn next_base(present: Option<u32>, rover: Position, held: &[Base], h: u32) -> Option<u32>
    requires rover { IsOnEarth rover }
    requires bases { All (λ base. IsOnEarth base.at) held.now }
    requires percent { h ≤ 50 }
    ensures choice { result ≡ changed present (chooses h present rover held.now) }
    ensures within { (count : ℕ) → AreWithin count held.now
        → IfSome result (λ mount. mount < count) }
{
    match select(present, rover, held, h) {
        Some(mount) => unless_present(present, mount),
        None => None,
    }
}

/// The mountpoint, where it is not the present one.
fn unless_present(present: Option<u32>, mount: u32) -> Option<u32>
    ensures { result ≡ changed present (Some mount) }
{
    match present {
        Some(base) if base == mount => None,
        _ => Some(mount),
    }
}

/// The mountpoint that was joined last.
fn present_of(segments: &[Segment]) -> Option<u32>
    ensures { result ≡ present_base (reverse segments.now) }
{
    segments.last().map(|segment| segment.mount)
}

/// Looks which bases are held, chooses for this report, and begins a segment where the choice
/// changed.
fn follow<T: Turns<Ring>>(
    alloc: Global,
    admitted: &Admitted,
    segments: &mut Vec<Segment>,
    rover: Position,
    places: &mut [T],
) -> Result<(), SegFault>
    requires rover { IsOnEarth rover }
    requires within { AreWithin (length places.old) admitted.now.bases.items }
    requires speaks { AllSpeak T.speaks places.old admitted.now.me }
    requires filter { KnowsFilter (map T.shape places.old) admitted.now.filter }
    ensures stay { StayAtRings T.Turns places.old places.new }
    ensures followed { Followed (map T.shape places.old) (all_alone T.alone places.old)
        (map T.seen places.old) (map T.seen places.new) admitted.now.me
        (follows (terms_of admitted.now) (present_base (reverse segments.old.items)) (rover ∷ []))
        (result_err result) (reverse segments.old.items) (reverse segments.new.items) }
    ensures cause { IfErr result (IsRefusedBy (map T.worn places.new)) }
{
    let held = held_among(alloc, places, admitted.me, admitted.bases.as_slice())?;
    let present = present_of(segments.as_slice());
    match next_base(present, rover, held.as_slice(), admitted.hysteresis) {
        Some(mount) => {
            begin_segment(alloc, segments, admitted.me, mount, admitted.filter, places)
        }
        None => Ok(()),
    }
}

/// Follows a report, if there is one and the rover is near.
pub(crate) fn heed<T: Turns<Ring>>(
    alloc: Global,
    admitted: &Admitted,
    segments: &mut Vec<Segment>,
    report: Option<Position>,
    places: &mut [T],
) -> Result<(), SegFault>
    requires report { IfSome report IsOnEarth }
    requires within { AreWithin (length places.old) admitted.now.bases.items }
    requires speaks { AllSpeak T.speaks places.old admitted.now.me }
    requires filter { KnowsFilter (map T.shape places.old) admitted.now.filter }
    ensures stay { StayAtRings T.Turns places.old places.new }
    ensures followed { Followed (map T.shape places.old) (all_alone T.alone places.old)
        (map T.seen places.old) (map T.seen places.new) admitted.now.me
        (heeds admitted.now.near (terms_of admitted.now)
        (present_base (reverse segments.old.items)) (option_to_list report))
        (result_err result) (reverse segments.old.items) (reverse segments.new.items) }
    ensures cause { IfErr result (IsRefusedBy (map T.worn places.new)) }
{
    match report {
        Some(rover) => {
            if admitted.near {
                follow(alloc, admitted, segments, rover, places)
            } else {
                Ok(())
            }
        }
        None => Ok(()),
    }
}

/// Takes bytes that the rover sent, and heeds each report as its line ends.
pub(crate) fn heed_all<T: Turns<Ring>>(
    alloc: Global,
    admitted: &Admitted,
    reader: &mut Reports,
    segments: &mut Vec<Segment>,
    bytes: &[u8],
    places: &mut [T],
) -> Result<(), SegFault>
    requires within { AreWithin (length places.old) admitted.now.bases.items }
    requires speaks { AllSpeak T.speaks places.old admitted.now.me }
    requires filter { KnowsFilter (map T.shape places.old) admitted.now.filter }
    ensures stay { StayAtRings T.Turns places.old places.new }
    ensures line { OnOk result ((before : List ℕ) → lines.StandsFor reader.old before
        → lines.StandsFor reader.new (before ++ bytes.now)) }
    ensures followed { (before : List ℕ) → lines.StandsFor reader.old before
        → (new : List Position) × (reports (before ++ bytes.now) ≡ reports before ++ new)
        × Followed (map T.shape places.old) (all_alone T.alone places.old)
        (map T.seen places.old) (map T.seen places.new) admitted.now.me
        (heeds admitted.now.near (terms_of admitted.now)
        (present_base (reverse segments.old.items)) new)
        (result_err result) (reverse segments.old.items) (reverse segments.new.items) }
    ensures keeps { KeepsSegments (map T.shape places.old) admitted.now.me
        (map T.seen places.old) (map T.seen places.new)
        (reverse segments.old.items) (reverse segments.new.items) }
    ensures cause { IfErr result (IsRefusedBy (map T.worn places.new)) }
{
    for byte in bytes {
        let report = reader.push(*byte);
        heed(alloc, admitted, segments, report, places)?;
    }
    Ok(())
}
