//! The last frame of one message.
ghost use Rattle.std.specs.Prelude.{◌≡◌, [], map};
ghost use Rattle.std.specs.Option.{option_to_list};
ghost use Rattle.type_filter.specs.Permitted.{permits};
ghost use Rattle.last_frames.specs.Last.{has_number, if_permitted};
ghost use Rattle.last_frames.specs.Latest.{latest_of, noted, noted_by};

use mount_ring::RingCall;
use rtcm_frame::Frame;
use type_filter::Filter;

/// The last frame with a message number (RTCM 10403.3, DF002) that was published, if there was one.
#[derive(Debug, Drop)]
pub(crate) struct Latest {
    pub(crate) number: u16,
    pub(crate) frame: Option<Frame>,
}

/// Whether the frame has this message number.
fn has_number(frame: &Frame, number: u16) -> bool
    ensures { result ≡ has_number number frame.now }
{
    match frame.number() {
        Some(found) => found == number,
        None => false,
    }
}

impl Latest {
    /// For a message number, before the first frame.
    pub(crate) fn new(number: u16) -> Latest
        ensures { result ≡ latest_of [] number }
    {
        Latest {
            number,
            frame: None,
        }
    }

    /// Keeps the frame in place of the last one, if it has the number.
    fn note(&mut self, frame: &Frame)
        ensures { self.new ≡ noted frame.now self.old }
    {
        if has_number(frame, self.number) {
            self.frame = Some(*frame);
        }
    }

    /// The frame, if there is one and the filter permits it.
    pub(crate) fn permitted_frame(&self, filter: &Filter) -> Option<Frame>
        ensures { option_to_list result ≡ if_permitted (permits filter.now) self.now.frame }
    {
        match self.frame {
            Some(frame) => {
                if filter.permits(&frame) {
                    Some(frame)
                } else {
                    None
                }
            }
            None => None,
        }
    }
}

/// Each keeps the frame, if it has its number.
fn note_in(kept: &mut Vec<Latest>, frame: &Frame)
    ensures { kept.new.items ≡ map (noted frame.now) kept.old.items }
{
    for latest in kept.iter_mut() {
        latest.note(frame);
    }
}

/// Keeps the frame that a call publishes, if it publishes one.
pub(crate) fn note_call(kept: &mut Vec<Latest>, call: &RingCall)
    ensures { kept.new.items ≡ noted_by call.now kept.old.items }
{
    match call {
        RingCall::Publish(_, frame) => note_in(kept, frame),
        _ => (),
    }
}
