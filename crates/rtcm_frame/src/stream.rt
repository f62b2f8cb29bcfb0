//! Cutting a stream as its bytes come, one at a time or in blocks.
ghost use Rattle.std.specs.Prelude.{◌≡◌, ℕ, ◌+◌, ◌-◌, ◌^◌, ◌*◌, ◌<◌, ◌≤◌, List, [], ◌∷◌, ◌++◌, length};
ghost use Rattle.std.specs.Prelude.{take, drop, false, IfSome, IfNone, IsTrue};
ghost use Rattle.rtcm_frame.specs.Transport.{longest, is_frame};
ghost use Rattle.rtcm_frame.specs.Cut.{IsWaiting, begins_with_frame, is_unfinished};
ghost use Rattle.rtcm_frame.specs.Front.{IsFrontOf};
ghost use Rattle.rtcm_frame.specs.Pending.{Pending, Gave, GaveAll, Took, IsBehindJunk};

use crate::buffer::{put_from, with_room};
use crate::cutting::{Front, bytes_before_preamble};
use crate::framing::{Frame, MAX_FRAME_BYTES, PREAMBLE, claimed_length, is_whole, is_whole_by};
use crate::sums::{part_crc, reach};
use std::fmt;
use std::marker::Model;

// The buffer holds twice the longest frame. So each time that what waits is moved to its front, at
// least a longest frame's length of bytes was passed over before.
const ROOM: usize = 2 * MAX_FRAME_BYTES;

// A sum stands before each byte of the buffer, and one behind the last.
const SUMS: usize = ROOM + 1;

/// Cuts a byte stream into frames as its bytes come. Contracts see the bytes that are not yet cut
/// and the count of junk. It takes no memory beyond its fixed buffer.
///
/// With the frames given so far and all bytes taken so far a cutter stands in the relation `Gave`;
/// each call says what it makes of that. So the frames given are always a prefix of the frames of
/// these bytes, and all of them once `next` answers none.
///
/// Where a candidate's checksum fails, running sums are made over its bytes, and every later
/// candidate that begins among them is judged by these in constant time. So a stream of false
/// preambles is no slower to cut than its sums are to make; no clause speaks of time.
#[derive(Drop)]
pub struct Cutter {
    buffer: [u8; ROOM],
    sums: [u32; SUMS],
    start: usize,
    len: usize,
    summed: usize,
    junk: u64,
}

impl Model for Cutter {
    ghost use Rattle.std.specs.Prelude.{take, drop};
    ghost use Rattle.rtcm_frame.specs.Held.{IsHeld};
    ghost use Rattle.rtcm_frame.specs.Pending.{Pending};

    ghost Value = { Pending };

    ghost view = { λ c. record { bytes = take c.len (drop c.start c.buffer); junk = c.junk } };

    ghost invariant = { IsHeld };
}

impl Default for Cutter {
    ghost is_default = { λ c. c ≡ record { bytes = []; junk = 0 } };

    /// A cutter that has taken no byte.
    fn default() -> Cutter {
        Cutter::new()
    }
}

impl fmt::Debug for Cutter {
    fn fmt<W: fmt::Write>(&self, f: &mut fmt::Formatter<W>) -> fmt::Result {
        f.debug_struct("Cutter")
            .field("waiting", &self.uncut_bytes())
            .field("junk", &self.junk)
            .finish()
    }
}

impl Cutter {
    /// A cutter that has taken no byte.
    pub fn new() -> Cutter
        ensures empty { result ≡ record { bytes = []; junk = 0 } }
        ensures stands { Gave [] [] result }
    {
        Cutter {
            buffer: [0; ROOM],
            sums: [0; SUMS],
            start: 0,
            len: 0,
            summed: 0,
            junk: 0,
        }
    }

    /// Takes the stream's next byte. What waits must be nothing or an unfinished frame, as it is
    /// after `next` answered none.
    #[inline]
    #[tactic(auto, using(crate::proofs::PendingLemmas::waiting_fits))]
    pub fn push(&mut self, byte: u8)
        requires { IsWaiting self.old.bytes }
        ensures behind { self.new
            ≡ record { bytes = self.old.bytes ++ byte ∷ []; junk = self.old.junk } }
        ensures stands { (given : List (List ℕ)) (all : List ℕ)
            → Gave given all self.old → Gave given (all ++ byte ∷ []) self.new }
    {
        let place = with_room(&mut self.buffer, self.start, self.len, self.summed);
        self.buffer[place.start + self.len] = byte;
        self.start = place.start;
        self.summed = place.summed;
        self.len += 1;
    }

    /// Takes the stream's next bytes from the front of these, and answers how many it took: at
    /// least one of them where `next` has answered none since the last call. Those that are left
    /// are given to the next call.
    pub fn feed(&mut self, bytes: &[u8]) -> usize
        ensures within { result ≤ length bytes.now }
        ensures some { IsWaiting self.old.bytes → 0 < length bytes.now → 0 < result }
        ensures behind { self.new
            ≡ record { bytes = self.old.bytes ++ take result bytes.now; junk = self.old.junk } }
        ensures stands { (given : List (List ℕ)) (all : List ℕ) → Gave given all self.old
            → Gave given (all ++ take result bytes.now) self.new }
    {
        let place = with_room(&mut self.buffer, self.start, self.len, self.summed);
        let count = put_from(&mut self.buffer, place.start + self.len, bytes);
        self.start = place.start;
        self.summed = place.summed;
        self.len += count;
        count
    }

    /// The next frame of the bytes so far; none exactly where they hold no further whole frame. Of
    /// the bytes that wait those in front of the frame are counted as junk, and none behind it. The
    /// condition on the count of junk holds where fewer than 2^63 bytes were pushed.
    #[inline(always)]
    pub fn next(&mut self) -> Option<Frame>
        requires { self.old.junk + length self.old.bytes < 2 ^ 64 }
        ensures found { IfSome result (λ frame. Took self.old self.new (frame ∷ [])) }
        ensures in_front { IfSome result (λ frame. IsBehindJunk self.old self.new frame) }
        ensures none { IfNone result (Took self.old self.new [] × IsWaiting self.new.bytes) }
        ensures gave { (given : List (List ℕ)) (all : List ℕ) → Gave given all self.old
            → IfSome result (λ frame. Gave (given ++ frame ∷ []) all self.new) }
        ensures gave_all { (given : List (List ℕ)) (all : List ℕ) → Gave given all self.old
            → IfNone result (Gave given all self.new × GaveAll given all self.new) }
    {
        match self.find() {
            Some(count) => Some(self.take_front(count)),
            None => None,
        }
    }

    /// The count of junk bytes so far.
    pub fn junk(&self) -> u64
        ensures { result ≡ self.now.junk }
    {
        self.junk
    }

    // The bytes that are not yet cut.
    #[inline]
    fn uncut_bytes(&self) -> &[u8]
        ensures { result.now ≡ self.now.bytes }
    {
        &self.buffer[self.start..self.start + self.len]
    }

    // Passes over junk up to a whole frame, and answers its length; none where no more is whole.
    fn find(&mut self) -> Option<usize>
        requires { self.old.junk + length self.old.bytes < 2 ^ 64 }
        ensures found { IfSome result (λ count. Took self.old self.new []
            × IsBehindJunk self.old self.new []
            × (count ≤ length self.new.bytes) × IsTrue (is_frame (take count self.new.bytes))) }
        ensures none { IfNone result (Took self.old self.new [] × IsWaiting self.new.bytes) }
    {
        loop {
            match self.front() {
                Front::Whole(count) => return Some(count),
                Front::Waits => return None,
                Front::Junk => self.pass_junk(),
            }
        }
    }

    // What stands in front of the bytes that wait. A checksum is looked at only where the whole
    // length has come.
    fn front(&mut self) -> Front
        ensures front { IsFrontOf self.old.bytes result }
        ensures same { self.new ≡ self.old }
    {
        let waiting = self.uncut_bytes();
        if waiting.is_empty() {
            return Front::Waits;
        }
        if waiting[0] != PREAMBLE {
            return Front::Junk;
        }
        let count = claimed_length(waiting);
        if waiting.len() < count {
            return Front::Waits;
        }
        if self.is_frame(count) {
            Front::Whole(count)
        } else {
            Front::Junk
        }
    }

    // Whether so many bytes in front are a whole frame: by their own checksum, or by the sums where
    // an earlier candidate has failed among them.
    fn is_frame(&mut self, count: usize) -> bool
        requires within { count ≤ length self.old.bytes }
        requires least { 6 ≤ count }
        requires most { count ≤ longest }
        ensures value { result ≡ is_frame (take count self.old.bytes) }
        ensures same { self.new ≡ self.old }
    {
        if self.summed <= self.start && is_whole(&self.uncut_bytes()[..count]) {
            return true;
        }
        self.is_frame_by_sums(count)
    }

    // Whether so many bytes in front are a whole frame, by the sums, which then reach over them.
    fn is_frame_by_sums(&mut self, count: usize) -> bool
        requires within { count ≤ length self.old.bytes }
        requires least { 6 ≤ count }
        requires most { count ≤ longest }
        ensures value { result ≡ is_frame (take count self.old.bytes) }
        ensures same { self.new ≡ self.old }
    {
        let end = self.start + count - 3;
        let summed = self.summed.max(self.start);
        self.summed = reach(&mut self.sums, &self.buffer, summed, end);
        let crc = part_crc(&self.sums, self.start, end);
        is_whole_by(&self.uncut_bytes()[..count], crc)
    }

    // Takes the frame of so many bytes in front.
    fn take_front(&mut self, count: usize) -> Frame
        requires within { count ≤ length self.old.bytes }
        requires whole { IsTrue (is_frame (take count self.old.bytes)) }
        ensures frame { result ≡ take count self.old.bytes }
        ensures behind { self.new
            ≡ record { bytes = drop count self.old.bytes; junk = self.old.junk } }
    {
        let frame = Frame::of_valid(&self.uncut_bytes()[..count]);
        self.skip(count);
        frame
    }

    // Passes over bytes in front.
    #[tactic(auto, using(crate::proofs::HeldLemmas::passed_over))]
    fn skip(&mut self, count: usize)
        requires { count ≤ length self.old.bytes }
        ensures { self.new ≡ record { bytes = drop count self.old.bytes; junk = self.old.junk } }
    {
        self.start += count;
        self.len -= count;
    }

    // Counts the first byte as junk, with those behind it up to the next preamble.
    fn pass_junk(&mut self)
        requires some { 1 ≤ length self.old.bytes }
        requires no_frame { begins_with_frame self.old.bytes ≡ false }
        requires finished { is_unfinished self.old.bytes ≡ false }
        requires room { self.old.junk + length self.old.bytes < 2 ^ 64 }
        ensures took { Took self.old self.new [] }
        ensures passed { IsBehindJunk self.old self.new [] }
        ensures less { length self.new.bytes < length self.old.bytes }
    {
        let run = 1 + bytes_before_preamble(&self.uncut_bytes()[1..]);
        self.count_junk(run);
    }

    // Counts bytes in front as junk, and passes over them.
    fn count_junk(&mut self, count: usize)
        requires within { count ≤ length self.old.bytes }
        requires room { self.old.junk + count < 2 ^ 64 }
        ensures { self.new
            ≡ record { bytes = drop count self.old.bytes; junk = self.old.junk + count } }
    {
        self.skip(count);
        self.junk += count as u64;
    }
}
