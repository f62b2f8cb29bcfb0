ghost use Rattle.std.specs.Prelude.{◌≡◌, ℕ, ◌+◌, ◌<◌, ◌≤◌, List, [], ◌∷◌, ◌++◌, length};
ghost use Rattle.mount_ring.specs.Reads.{most_taken};

use rtcm_frame::Frame;
use std::fmt;
use std::marker::Model;

/// The largest budget of a read: the most frames that it takes.
pub const MAX_BUDGET: u32 = 16;

/// The frames that a read took, at most 16, held in the outbox itself: it takes no memory.
///
/// Contracts see it as the list of its frames.
#[derive(Drop)]
pub struct Outbox {
    frames: [Frame; MAX_BUDGET as usize],
    len: usize,
}

impl Model for Outbox {
    ghost use Rattle.std.specs.Prelude.{List, ℕ, ◌≤◌, take};

    ghost Value = { List (List ℕ) };

    ghost view = { λ o. take o.len o.frames };

    ghost use Rattle.mount_ring.specs.Reads.{most_taken};

    ghost invariant = { λ o. o.len ≤ most_taken };
}

impl Outbox {
    /// An outbox with no frames.
    pub fn new() -> Self
        ensures { result ≡ [] }
    {
        Outbox {
            frames: [Frame::default(); MAX_BUDGET as usize],
            len: 0,
        }
    }

    /// The frames, in the order in which they were taken.
    pub fn frames(&self) -> &[Frame]
        ensures frames { result.now ≡ self.now }
        ensures few { length result.now ≤ most_taken }
    {
        &self.frames[..self.len]
    }

    /// Lets its frames go.
    pub(crate) fn clear(&mut self)
        ensures { self.new ≡ [] }
    {
        self.len = 0;
    }

    /// Adds a frame at the end, of which no more than its own bytes is copied.
    pub(crate) fn push(&mut self, frame: &Frame)
        requires { length self.old < most_taken }
        ensures { self.new ≡ self.old ++ frame.now ∷ [] }
    {
        self.frames[self.len].copy_from(frame);
        self.len += 1;
    }
}

impl Default for Outbox {
    ghost use Rattle.std.specs.Prelude.{◌≡◌, []};

    ghost is_default = { λ o. o ≡ [] };

    fn default() -> Self {
        Outbox::new()
    }
}

impl fmt::Debug for Outbox {
    fn fmt<W: fmt::Write>(&self, f: &mut fmt::Formatter<W>) -> fmt::Result {
        write!(f, "Outbox({:?})", self.frames())
    }
}
