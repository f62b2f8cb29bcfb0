//! What a caller of a station brings for what it is given.
ghost use Rattle.std.specs.Prelude.{◌≡◌, ◌<◌, ◌≤◌, ◌++◌, [], length};
ghost use Rattle.std.specs.Option.{option_to_list};
ghost use Rattle.type_filter.specs.Permitted.{permits};
ghost use Rattle.last_frames.specs.Latest.{permitted_of};
ghost use Rattle.last_frames.specs.Greeted.{greeting_from, read_from};

use crate::latest::Latest;
use mount_ring::{Outbox, RingCall};
use rtcm_frame::Frame;
use std::fmt;
use std::marker::Model;
use type_filter::Filter;

/// The most frames of a greeting: one of each message number that a station keeps.
pub(crate) const MAX_GREETING: usize = 6;

/// The frames that a rover is greeted by, at most six, held in the greeting itself: it takes no
/// memory.
///
/// Contracts see it as the list of its frames.
#[derive(Drop)]
pub(crate) struct Greeting {
    frames: [Frame; MAX_GREETING],
    len: usize,
}

impl Model for Greeting {
    ghost use Rattle.std.specs.Prelude.{List, ℕ, ◌≤◌, take};

    ghost Value = { List (List ℕ) };

    ghost view = { λ g. take g.len g.frames };

    ghost invariant = { λ g. g.len ≤ 6 };
}

impl Greeting {
    /// A greeting with no frames.
    fn new() -> Greeting
        ensures { result ≡ [] }
    {
        Greeting {
            frames: [Frame::default(); MAX_GREETING],
            len: 0,
        }
    }

    /// The frames, in their order.
    pub(crate) fn frames(&self) -> &[Frame]
        ensures { result.now ≡ self.now }
    {
        &self.frames[..self.len]
    }

    /// Lets its frames go.
    fn clear(&mut self)
        ensures { self.new ≡ [] }
    {
        self.len = 0;
    }

    /// Adds the frame at the end, if there is one, of which no more than its own bytes is copied.
    fn add(&mut self, frame: Option<Frame>)
        requires { length self.old < 6 }
        ensures { self.new ≡ self.old ++ option_to_list frame }
    {
        if let Some(frame) = frame {
            self.frames[self.len].copy_from(&frame);
            self.len += 1;
        }
    }

    /// It gets the frames that are kept and that the filter permits, in their order.
    pub(crate) fn fill(&mut self, kept: &[Latest], filter: &Filter)
        requires few { length kept.now ≤ 6 }
        ensures { self.new ≡ permitted_of (permits filter.now) kept.now }
    {
        self.clear();
        for latest in kept {
            self.add(latest.permitted_frame(filter));
        }
    }
}

impl fmt::Debug for Greeting {
    fn fmt<W: fmt::Write>(&self, f: &mut fmt::Formatter<W>) -> fmt::Result {
        write!(f, "Greeting({:?})", self.frames())
    }
}

/// The room that a caller of a station makes beforehand: an outbox for the frames that it reads,
/// and one for those that it is greeted by when it joins. It takes no memory.
///
/// Contracts see the frames of both.
#[derive(Debug, Drop)]
pub struct Hall {
    pub(crate) outbox: Outbox,
    pub(crate) greeting: Greeting,
}

impl Model for Hall {
    ghost use Rattle.last_frames.specs.Placed.{InHall};

    ghost Value = { InHall };

    ghost view = { λ h. record { outbox = h.outbox; greeting = h.greeting } };
}

impl Hall {
    /// A hall with nothing in it.
    pub fn new() -> Hall
        ensures { result ≡ record { outbox = []; greeting = [] } }
    {
        Hall {
            outbox: Outbox::new(),
            greeting: Greeting::new(),
        }
    }

    /// The outbox, with the frames that were read last.
    pub fn outbox(&self) -> &Outbox
        ensures { result.now ≡ self.now.outbox }
    {
        &self.outbox
    }

    /// The frames that the last one who joined was greeted by, at most six.
    pub fn greeting(&self) -> &[Frame]
        ensures { result.now ≡ self.now.greeting }
    {
        self.greeting.frames()
    }

    /// Hands over what this call put into a new hall: the greeting of one who joined, or the frames
    /// that were read.
    pub(crate) fn hand_over(
        self,
        call: &RingCall,
        greeting: &mut Option<Greeting>,
        room: &mut Outbox,
    )
        ensures greeting { greeting.new ≡ greeting_from call.now self.greeting greeting.old }
        ensures room { room.new ≡ read_from call.now self.outbox room.old }
    {
        match call {
            RingCall::Join(_) => *greeting = Some(self.greeting),
            RingCall::Read { .. } => *room = self.outbox,
            _ => (),
        }
    }
}

impl Default for Hall {
    ghost use Rattle.std.specs.Prelude.{◌≡◌, []};

    ghost is_default = { λ h. h ≡ record { outbox = []; greeting = [] } };

    fn default() -> Self {
        Hall::new()
    }
}
