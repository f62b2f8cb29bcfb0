//! What is done with a frame.
use rtcm_frame::Frame;

/// One who takes each frame of a stream, in order.
pub trait Taker {
    /// Takes the next frame.
    fn take(&mut self, frame: &Frame);
}

/// Lets each frame go.
#[derive(Clone, Copy, Debug, Drop)]
pub struct Nobody;

impl Taker for Nobody {
    fn take(&mut self, _frame: &Frame) {}
}
