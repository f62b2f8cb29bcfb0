//! The lines of a receipt, put one by one.

ghost use Rattle.std.specs.Prelude.{IsTrue, [], ◌∷◌, map};
ghost use Rattle.std.specs.List.{flat_map};
ghost use Rattle.caster_press.specs.Lines.{text_of};
ghost use Rattle.caster_press.specs.Places.{IsSamePlace};
ghost use Rattle.keep_lines.specs.Lines.{lap_line, receipt_lines, segment_lines};
ghost use Rattle.keep_lines.specs.Puts.{HasTold};

use crate::lines::{end_line, lap_line, segment_line};
use crate::told::{LinkNumber, Who};
use cast_config::Config;
use caster_press::{AtPress, Line, WaitsAtEnd};
use mount_ring::Lap;
use rover_cursor::Segment;
use session_model::Receipt;

/// Puts a line.
fn put_line<P: AtPress, R: WaitsAtEnd>(rt: &R, place: &mut P, me: u32, line: Line)
    requires { IsTrue ((P.told place.old).speaks me) }
    ensures same { IsSamePlace (P.told place.old) (P.told place.new) }
    ensures put { HasTold me (text_of line ∷ []) (P.told place.old).seen (P.told place.new).seen }
{
    place.put(rt, me, &line);
}

/// Puts the lines of laps, in order.
fn put_laps<P: AtPress, R: WaitsAtEnd>(
    rt: &R,
    place: &mut P,
    me: u32,
    link: LinkNumber,
    laps: &[Lap],
)
    requires { IsTrue ((P.told place.old).speaks me) }
    ensures same { IsSamePlace (P.told place.old) (P.told place.new) }
    ensures put { HasTold me (map (lap_line link) laps.now)
        (P.told place.old).seen (P.told place.new).seen }
{
    for lap in laps {
        put_line(rt, place, me, lap_line(link, lap));
    }
}

/// Puts the line of a segment, and those of its laps.
#[tactic(auto, using(crate::proofs::PutLemmas::told_behind))]
fn put_segment<P: AtPress, R: WaitsAtEnd>(
    rt: &R,
    place: &mut P,
    me: u32,
    config: &Config,
    link: LinkNumber,
    segment: &Segment,
)
    requires { IsTrue ((P.told place.old).speaks me) }
    ensures same { IsSamePlace (P.told place.old) (P.told place.new) }
    ensures put { HasTold me (segment_lines config.now link segment.now)
        (P.told place.old).seen (P.told place.new).seen }
{
    put_line(rt, place, me, segment_line(config, link, segment));
    put_laps(rt, place, me, link, segment.laps.as_slice());
}

/// Puts the lines of segments, in order.
fn put_segments<P: AtPress, R: WaitsAtEnd>(
    rt: &R,
    place: &mut P,
    me: u32,
    config: &Config,
    link: LinkNumber,
    segments: &[Segment],
)
    requires { IsTrue ((P.told place.old).speaks me) }
    ensures same { IsSamePlace (P.told place.old) (P.told place.new) }
    ensures put { HasTold me (flat_map (segment_lines config.now link) segments.now)
        (P.told place.old).seen (P.told place.new).seen }
{
    for segment in segments {
        put_segment(rt, place, me, config, link, segment);
    }
}

/// Puts the lines of a receipt as the caller `me`, one by one: of each segment its line and those
/// of its laps, in order, and then the last line, which says whose receipt it is. So a receipt is
/// whole exactly where its last line is there. No memory is taken.
#[tactic(auto, using(crate::proofs::PutLemmas::told_then))]
pub fn put_receipt<P: AtPress, R: WaitsAtEnd>(
    rt: &R,
    place: &mut P,
    me: u32,
    config: &Config,
    link: LinkNumber,
    who: Who,
    receipt: &Receipt,
)
    requires { IsTrue ((P.told place.old).speaks me) }
    ensures same { IsSamePlace (P.told place.old) (P.told place.new) }
    ensures put { HasTold me (receipt_lines config.now link who receipt.now)
        (P.told place.old).seen (P.told place.new).seen }
{
    put_segments(rt, place, me, config, link, receipt.segments.as_slice());
    put_line(rt, place, me, end_line(config, link, who, receipt));
}
