//! A rover's session over the mountpoints that it is admitted to.
ghost use Rattle.std.specs.Prelude.{◌≡◌, ℕ, ◌≤◌, false, List, [], ◌++◌, length, map, reverse, All, OnErr, IfOk, IfErr, IfSome, IfNone, Option, Err};
ghost use Rattle.std.specs.Result.{result_err};
ghost use Rattle.gga_read.specs.declared.Position.{Position};
ghost use Rattle.base_select.specs.Measure.{IsOnEarth};
ghost use Rattle.session_calls.specs.Steps.{Step};
ghost use Rattle.session_calls.specs.Rings.{AllSpeak, all_alone};
ghost use Rattle.rover_session.specs.Made.{IsRefusedBy, sent_in, overrun_in};
ghost use Rattle.rover_session.specs.Places.{StayAtRings};
ghost use Rattle.rover_session.specs.Standing.{KnowsFilter, AreWithin, IsResumable, WasResumable, SentSoFar, frames_sent, frames_read, Stands, Told, TurnSent, SameAdmission, SameButSegments, IsNew};

use crate::admitted::Admitted;
use crate::body::{MAX_TURN_BYTES, append_frames};
use crate::follow::{begin_segment, heed, heed_all};
use crate::places::read_at;
use base_select::Base;
use gga_read::{Position, Reports};
use mount_ring::{Outbox, Ring};
use ntrip_head::Version;
use rover_cursor::{SegFault, Segment};
use std::alloc::{AllocError, Global};
use std::marker::Model;
use turn_log::Turns;

/// A rover that was admitted: it joins the bases that its reports select, reads on in the last of
/// them, and is sent the frames.
///
/// A rover that is not near has one base. A near one takes the nearest of its bases that a source
/// holds at the time of a report, with hysteresis. Each base that it takes begins a segment.
///
/// Contracts see the `Rover` that it keeps. `Stands` ties a session to what it was told so far, and
/// to all that it called; each call says what it makes of that. Once a call of `start` or `feed`
/// was refused the session is halted: it answers the same from then on, and calls nothing.
#[derive(Debug, Drop)]
pub struct RoverSession {
    alloc: Global,
    admitted: Admitted,
    reports: Reports,
    segments: Vec<Segment>,
    halt: Option<SegFault>,
}

impl Model for RoverSession {
    ghost use Rattle.rover_session.specs.Standing.{Rover};

    ghost Value = { Rover };

    ghost use Rattle.rover_session.specs.Kept.{rover_in};

    ghost view = { rover_in };
}

impl RoverSession {
    /// A rover before its first call, which is served as `me` and sees frames through the filter
    /// of this number. It may take these 1 to 16 bases, the nearest by its reports where it is
    /// near, and another one has to be nearer by more than `h` percent, at most 50. A rover that is
    /// not near has one base.
    pub fn new(
        alloc: Global,
        version: Version,
        me: u32,
        filter: u32,
        bases: Vec<Base>,
        h: u32,
        near: bool,
    ) -> Result<RoverSession, AllocError>
        requires count { (1 ≤ length bases.items) × (length bases.items ≤ 16) }
        requires on_earth { All (λ base. IsOnEarth base.at) bases.items }
        requires percent { h ≤ 50 }
        requires one { near ≡ false → length bases.items ≡ 1 }
        ensures begins { IfOk result (λ session. IsNew session) }
        ensures version { IfOk result (λ session. session.version ≡ version) }
        ensures me { IfOk result (λ session. session.me ≡ me) }
        ensures terms { IfOk result (λ session. session.terms ≡ record {
          near = near;
          filter = filter;
          hysteresis = h;
          bases = bases.items;
        }) }
    {
        let reports = Reports::new(alloc)?;
        Ok(RoverSession {
            alloc,
            admitted: Admitted {
                version,
                me,
                filter,
                hysteresis: h,
                near,
                bases,
            },
            reports,
            segments: Vec::new(alloc),
            halt: None,
        })
    }

    /// The first call, with the report of the rover's head, if it had one. A rover that is not near
    /// joins its one base; a near one looks which of its bases are held, and joins the nearest of
    /// them to the report, if there is one.
    ///
    /// # Errors
    /// Worn as a place answered it, or Memory. Then the session is halted.
    pub fn start<T: Turns<Ring>>(
        &mut self,
        first: Option<Position>,
        places: &mut [T],
    ) -> Result<(), SegFault>
        requires new { IsNew self.old }
        requires first { IfSome first IsOnEarth }
        requires within { AreWithin (length places.old) self.old.terms.bases }
        requires speaks { AllSpeak T.speaks places.old self.old.me }
        requires filter { KnowsFilter (map T.shape places.old) self.old.terms.filter }
        ensures stay { StayAtRings T.Turns places.old places.new }
        ensures admission { SameAdmission self.old self.new }
        ensures told { Told (map T.shape places.old) (all_alone T.alone places.old)
            (map T.seen places.old) (map T.seen places.new) self.new first [] [] }
        ensures sent { SentSoFar (map T.shape places.old) self.old.me (map T.seen places.new)
            self.new.segments [] }
        ensures halt { self.new.halt ≡ result_err result }
        ensures cause { IfErr result (IsRefusedBy (map T.worn places.new)) }
    {
        let begun = if self.admitted.near {
            heed(
                self.alloc,
                &self.admitted,
                &mut self.segments,
                first,
                places,
            )
        } else {
            let mount = self.admitted.bases[0].mount;
            begin_segment(
                self.alloc,
                &mut self.segments,
                self.admitted.me,
                mount,
                self.admitted.filter,
                places,
            )
        };
        self.halt = begun.err();
        begun
    }

    /// Takes more bytes that the rover sent. Each line of at most 128 bytes that reports a position
    /// (NMEA 0183 GGA) makes a near rover look which of its bases are held and choose among them;
    /// where the choice changes it joins the new base, and a segment begins. Where none is held the
    /// choice stays.
    ///
    /// # Errors
    /// Worn as a place answered it, or Memory. Then the session is halted.
    pub fn feed<T: Turns<Ring>>(&mut self, bytes: &[u8], places: &mut [T]) -> Result<(), SegFault>
        requires within { AreWithin (length places.old) self.old.terms.bases }
        requires speaks { AllSpeak T.speaks places.old self.old.me }
        requires filter { KnowsFilter (map T.shape places.old) self.old.terms.filter }
        requires resumes { WasResumable (map T.shape places.old) self.old.me
            (map T.seen places.old) self.old.segments }
        ensures stay { StayAtRings T.Turns places.old places.new }
        ensures admission { SameAdmission self.old self.new }
        ensures told { (first : Option Position) (before : List ℕ) (steps : List Step)
            → Stands self.old first before steps
            → Told (map T.shape places.old) (all_alone T.alone places.old)
            (map T.seen places.old) (map T.seen places.new) self.new first
            (before ++ bytes.now) steps }
        ensures sent { SentSoFar (map T.shape places.old) self.old.me (map T.seen places.new)
            self.new.segments (frames_sent (map T.shape places.old) (map T.seen places.old)
            self.old.segments) }
        ensures halt { self.new.halt ≡ result_err result }
        ensures halted { IfSome self.old.halt (λ fault. (result ≡ Err fault)
            × (self.new ≡ self.old) × (places.new ≡ places.old)) }
        ensures cause { IfNone self.old.halt
            (IfErr result (IsRefusedBy (map T.worn places.new))) }
    {
        match self.halt {
            Some(fault) => Err(fault),
            None => {
                let fed = heed_all(
                    self.alloc,
                    &self.admitted,
                    &mut self.reports,
                    &mut self.segments,
                    bytes,
                    places,
                );
                self.halt = fed.err();
                fed
            }
        }
    }

    /// Reads on in the newest segment, with this budget, of which at most 16 counts, and appends
    /// the frames that the read took: as they are under NTRIP 1.0, and one chunk each under NTRIP
    /// 2.0. Gives their number, and 0 without a segment. Room for all that a read may take is there
    /// before the read.
    ///
    /// # Errors
    /// Worn as a place answered it, or Memory. Then session, places and `out` hold what they held.
    /// A session that was halted answers what halted it.
    pub fn turn<T: Turns<Ring>>(
        &mut self,
        budget: u32,
        places: &mut [T],
        out: &mut Vec<u8>,
    ) -> Result<u32, SegFault>
        requires speaks { AllSpeak T.speaks places.old self.old.me }
        requires resumes { WasResumable (map T.shape places.old) self.old.me
            (map T.seen places.old) self.old.segments }
        ensures stay { StayAtRings T.Turns places.old places.new }
        ensures same { SameButSegments self.old self.new }
        ensures turned { IfOk result (TurnSent (map T.shape places.old)
            (all_alone T.alone places.old) (map T.seen places.old) (map T.seen places.new) budget
            self.old self.new (frames_read (map T.shape places.old) (map T.seen places.new) budget
            self.old.segments) out.old.items out.new.items) }
        ensures resumable { IsResumable (map T.shape places.old) self.old.me
            (map T.seen places.new) self.new.segments }
        ensures err { OnErr result ((self.new ≡ self.old)
            × (map T.seen places.new ≡ map T.seen places.old) × (out.new.items ≡ out.old.items)) }
        ensures halted { IfSome self.old.halt (λ fault. (result ≡ Err fault)
            × (places.new ≡ places.old)) }
        ensures cause { IfNone self.old.halt
            (IfErr result (IsRefusedBy (map T.worn places.new))) }
    {
        if let Some(fault) = self.halt {
            return Err(fault);
        }
        let Some(newest) = self.segments.len().checked_sub(1) else {
            return Ok(0);
        };
        if out.reserve(MAX_TURN_BYTES).is_err() {
            return Err(SegFault::Memory);
        }
        let mut outbox = Outbox::new();
        let segment = &mut self.segments[newest];
        let taken = read_at(segment, places, self.admitted.me, budget, &mut outbox)?;
        append_frames(self.admitted.version, outbox.frames(), out);
        Ok(taken)
    }

    /// The version of NTRIP in which it is served.
    pub fn version(&self) -> Version
        ensures { result ≡ self.now.version }
    {
        self.admitted.version
    }

    /// The segments, in the order of their joins.
    pub fn segments(&self) -> &[Segment]
        ensures { reverse result.now ≡ self.now.segments }
    {
        self.segments.as_slice()
    }

    /// The segments, in the order of their joins, of a session that is over.
    pub fn into_segments(self) -> Vec<Segment>
        ensures { reverse result.items ≡ self.segments }
    {
        self.segments
    }

    /// The frames sent in all segments; 2^64 - 1 in place of a greater sum.
    pub fn sent(&self) -> u64
        ensures { result ≡ sent_in self.now.segments }
    {
        let mut sum: u64 = 0;
        for segment in self.segments.iter() {
            sum = sum.saturating_add(segment.sent);
        }
        sum
    }

    /// The frames counted as overrun in all segments; 2^64 - 1 in place of a greater sum.
    pub fn overrun(&self) -> u64
        ensures { result ≡ overrun_in self.now.segments }
    {
        let mut sum: u64 = 0;
        for segment in self.segments.iter() {
            sum = sum.saturating_add(segment.overrun);
        }
        sum
    }
}
