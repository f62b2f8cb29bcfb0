//! The buffer of a cutter: bytes that wait from a place on.
ghost use Rattle.std.specs.Prelude.{◌≡◌, ℕ, ◌+◌, ◌-◌, ◌≤◌, ◌<◌, List, length, take, drop};
ghost use Rattle.rtcm_frame.specs.Sums.{Chained};

// Where the bytes that wait begin, and how far the sums over the buffer reach.
#[derive(Clone, Copy)]
pub(crate) struct Place {
    pub(crate) start: usize,
    pub(crate) summed: usize,
}

// Moves the bytes that wait to the buffer's front where they reach its end, and answers where they
// stand then. There are fewer than the buffer holds, or nothing moves. The sums are given up where
// something moved.
pub(crate) fn with_room(buffer: &mut [u8], start: usize, count: usize, summed: usize) -> Place
    requires within { start + count ≤ length buffer.old }
    requires reached { summed ≤ start + count }
    ensures within { result.start + count ≤ length buffer.new }
    ensures room { count < length buffer.new → result.start + count < length buffer.new }
    ensures reached { result.summed ≤ result.start + count }
    ensures bytes { take count (drop result.start buffer.new) ≡ take count (drop start buffer.old) }
    ensures chained { (sums : List ℕ) → Chained buffer.old sums start summed
        → Chained buffer.new sums result.start result.summed }
{
    if start + count < buffer.len() {
        return Place { start, summed };
    }
    buffer.copy_within(start.., 0);
    Place {
        start: 0,
        summed: 0,
    }
}

// Writes as many of these bytes as there is room for from a place on, and answers how many.
pub(crate) fn put_from(buffer: &mut [u8], place: usize, bytes: &[u8]) -> usize
    requires { place ≤ length buffer.old }
    ensures within { place + result ≤ length buffer.new }
    ensures most { result ≤ length bytes.now }
    ensures some { place < length buffer.old → 0 < length bytes.now → 0 < result }
    ensures bytes { take result (drop place buffer.new) ≡ take result bytes.now }
    ensures front { take place buffer.new ≡ take place buffer.old }
{
    let count = bytes.len().min(buffer.len() - place);
    buffer[place..place + count].copy_from_slice(&bytes[..count]);
    count
}
