ghost use Rattle.std.specs.Prelude.{◌≡◌, ℕ, ◌+◌, ◌^◌, ◌<◌, ◌≤◌, List, [], ◌∷◌, ◌++◌, length, IfOk, IsTrue};

use crate::call::{Holder, RingAnswer, RingCall};
use crate::cursor::{Cursor, ReadReport};
use crate::outbox::{MAX_BUDGET, Outbox};
use crate::reading::{ReadStart, take_frames};
use crate::watch::{Watch, count_for_each};
use circular_buffer::HeapCircularBuffer;
use rtcm_frame::Frame;
use std::alloc::{AllocError, Global};
use turn_log::Played;
use type_filter::Filters;

mod playing;

/// The ring of a mountpoint: who holds it, and the last frames that were published there, as many
/// as its capacity.
///
/// It is `Played`: connections call it by `RingCall`, and a read puts its frames into an `Outbox`.
/// All memory is taken when it is made. For each filter it counts how many permitted frames were
/// published and how many of these it no longer keeps, so that joins and laps need no search.
#[derive(Debug, Drop)]
pub struct Ring {
    frames: HeapCircularBuffer<Frame>,
    watches: Vec<Watch>,
    published: u64,
    claims: u64,
    holder: Option<Holder>,
    // Its capacity is 1 to 4,096 frames.
    ghost sized: { (1 ≤ frames.capacity) × (frames.capacity ≤ 4096) },
}

// A ring is its last frames, the counts for its filters, two numbers and the holder. There is no
// list of all frames beside them.
const _: () = prove!(
    size_of::<Ring>()
        == size_of::<HeapCircularBuffer<Frame>>()
            + size_of::<Vec<Watch>>()
            + size_of::<[u64; 2]>()
            + size_of::<Option<Holder>>()
);

impl Ring {
    ghost use Rattle.mount_ring.specs.History.{State, state_of, claim_answer, after_claim, joined, live_claim};
    ghost use Rattle.mount_ring.specs.History.{is_readable, permits_at};
    ghost use Rattle.mount_ring.specs.Reads.{read_report, read_frames};
    ghost use Rattle.mount_ring.specs.Shapes.{shape_of};
    ghost use Rattle.mount_ring.specs.Kept.{Keeps, ring_shape};

    /// A ring of this capacity, 1 to 4,096 frames, that offers these filters, on which no call was
    /// made.
    pub fn new(alloc: Global, capacity: u32, filters: &Filters) -> Result<Ring, AllocError>
        requires capacity { (1 ≤ capacity) × (capacity ≤ 4096) }
        ensures shape { IfOk result (λ ring. ⟦<Ring as Played>⟧.shape ring
            ≡ record { capacity = capacity; filters = filters.now }) }
        ensures stands { IfOk result (λ ring. ⟦<Ring as Played>⟧.stands ring []) }
    {
        let mut watches = Vec::new(alloc);
        for number in 0..filters.len() {
            watches.push(Watch::new(filters.get(number).copy(alloc)?))?;
        }
        Ok(Ring {
            frames: HeapCircularBuffer::with_capacity(alloc, capacity as usize)?,
            watches,
            published: 0,
            claims: 0,
            holder: None,
        })
    }

    /// How many frames were published.
    pub fn published(&self) -> u64
        ensures { (h : List (ℕ × RingCall)) → ⟦<Ring as Played>⟧.stands self.now h
            → result ≡ length (state_of h).published }
    {
        self.published
    }

    /// How many claims were given.
    pub fn claims(&self) -> u64
        ensures { (h : List (ℕ × RingCall)) → ⟦<Ring as Played>⟧.stands self.now h
            → result ≡ (state_of h).claims }
    {
        self.claims
    }

    /// Claims the mountpoint for a caller: given with the next number where nobody holds it.
    fn claim(&mut self, me: u32) -> RingAnswer
        requires { (s : State) × (s.claims < 2 ^ 63) × Keeps self.old s }
        ensures shape { ring_shape self.new ≡ ring_shape self.old }
        ensures answer { (s : State) → Keeps self.old s → result ≡ claim_answer s s.holder }
        ensures state { (s : State) → Keeps self.old s
            → Keeps self.new (after_claim s me s.holder) }
    {
        match self.holder {
            Some(holder) => RingAnswer::Taken {
                caller: holder.caller,
                claim: holder.claim,
            },
            None => {
                self.claims += 1;
                self.holder = Some(Holder {
                    caller: me,
                    claim: self.claims,
                });
                RingAnswer::Given(self.claims)
            }
        }
    }

    /// Gives the held claim back: nobody holds the mountpoint afterwards.
    fn release(&mut self)
        ensures shape { ring_shape self.new ≡ ring_shape self.old }
        ensures state { (s : State) → Keeps self.old s
            → Keeps self.new (record s { holder = None }) }
    {
        self.holder = None;
    }

    /// The claim under which the mountpoint is held, if it is held.
    fn look(&self) -> Option<u64>
        ensures { (s : State) → Keeps self.now s → result ≡ live_claim s.holder }
    {
        self.holder.map(|holder| holder.claim)
    }

    /// Publishes a frame, and gives its place. A full ring drops its oldest frame for it.
    fn publish(&mut self, frame: Frame) -> u64
        requires { (s : State) × (length s.published < 2 ^ 63) × Keeps self.old s }
        ensures shape { ring_shape self.new ≡ ring_shape self.old }
        ensures place { (s : State) → Keeps self.old s → result ≡ length s.published }
        ensures state { (s : State) → length s.published < 2 ^ 63 → Keeps self.old s
            → Keeps self.new (record s { published = s.published ++ frame ∷ [] }) }
    {
        let place = self.published;
        let fallen = self.frames.push_back(frame);
        count_for_each(&mut self.watches, &frame, &fallen);
        self.published += 1;
        place
    }

    /// The cursor of a reader that joins: behind all frames that were published so far.
    fn join(&self, filter: u32) -> Cursor
        requires { filter < length (ring_shape self.now).filters }
        ensures { (s : State) → Keeps self.now s
            → result ≡ joined (shape_of (ring_shape self.now)) s filter }
    {
        Cursor {
            next: self.published,
            passed: self.watches[filter as usize].permitted,
            filter,
        }
    }

    /// Reads from a cursor with a budget, of which at most 16 counts, into the outbox.
    fn read(&self, cursor: Cursor, budget: u32, out: &mut Outbox) -> ReadReport
        requires { (s : State) × (length s.published < 2 ^ 63) × Keeps self.now s
            × IsTrue (is_readable (shape_of (ring_shape self.now)) s cursor) }
        ensures report { (s : State) → Keeps self.now s
            → IsTrue (is_readable (shape_of (ring_shape self.now)) s cursor)
            → result ≡ read_report (permits_at (shape_of (ring_shape self.now)) cursor.filter)
            self.now.frames.capacity s.published cursor budget }
        ensures taken { (s : State) → Keeps self.now s
            → IsTrue (is_readable (shape_of (ring_shape self.now)) s cursor)
            → out.new ≡ read_frames (permits_at (shape_of (ring_shape self.now)) cursor.filter)
            self.now.frames.capacity s.published cursor budget }
    {
        let watch = &self.watches[cursor.filter as usize];
        let kept_from = self.published - self.frames.len() as u64;
        let start = ReadStart::find(cursor, watch.dropped, kept_from, self.published);
        let from = (start.place - kept_from) as usize;
        let budget = budget.min(MAX_BUDGET) as usize;
        let looked = take_frames(&self.frames, from, &watch.filter, budget, out) as u64;
        let taken = out.frames().len() as u32;
        ReadReport {
            cursor: Cursor {
                next: start.place + looked,
                passed: start.passed + u64::from(taken),
                filter: cursor.filter,
            },
            lapped: start.lapped,
            taken,
        }
    }
}
