//! A connection: a peer that sends bytes and is sent bytes, and may have nothing to say yet.
ghost use Rattle.std.specs.Prelude.{◌≡◌, ◌<◌, length};
ghost use Rattle.cast_io.specs.Told.{LinkTold};

use crate::fault::Failed;

/// What a read of a link gave.
#[derive(Clone, Copy, Debug, PartialEq, Eq)]
pub enum Got {
    /// So many bytes, at the front of the buffer.
    Bytes(usize),
    /// Nothing is there yet.
    Idle,
    /// The peer has ended.
    End,
    /// The read failed.
    Failed,
}

/// A connection with a peer.
pub trait Link {
    ghost use Rattle.cast_io.specs.Links.{IsGot, HasRead, HasWritten};

    /// What the link tells of itself.
    ghost told: { Self → LinkTold };

    /// Fills the front of `buf`, which is not empty, with bytes of the peer.
    fn read(&mut self, buf: &mut [u8]) -> Got
        requires { 0 < length buf.old }
        ensures bound { IsGot result (length buf.old) }
        ensures read { HasRead (told self.old) (told self.new) result buf.new };

    /// Sends the whole piece to the peer. After `Failed` some first bytes of it were sent, none to
    /// all.
    fn write(&mut self, piece: &[u8]) -> Result<(), Failed>
        ensures written { HasWritten (told self.old) (told self.new) result piece.now };

    /// May wait a while, after a read that found nothing. Changes nothing.
    fn rest(&mut self)
        ensures { told self.new ≡ told self.old };

    /// Tells the link at which mountpoint, by its number, its session is: what it gives is
    /// published there, and what it is sent comes from there. It may rest as suits that. Changes
    /// nothing.
    fn set_mount(&mut self, mount: u32)
        ensures { told self.new ≡ told self.old };
}
