//! Standard output as lines go there while others are served.
ghost use Rattle.std.specs.Prelude.{◌≡◌, pos};

use libc::write;
use std::io;
use std::io::Write;
use std::os::fd::{AsRawFd, RawFd};

/// What is open at a descriptor, as standard output. Where nobody reads it, a write fails: the
/// program was started with the signal ignored that would end it.
#[derive(Drop)]
pub struct NoteOut {
    fd: RawFd,
}

impl NoteOut {
    /// Standard output.
    pub fn new(rt: &HostRuntime) -> NoteOut
        ensures standard { result.fd ≡ pos 1 }
    {
        NoteOut::over(rt.stdout().as_raw_fd())
    }

    /// What is open there. It is to stay open.
    pub fn over(fd: RawFd) -> NoteOut
        ensures place { result.fd ≡ fd }
    {
        NoteOut { fd }
    }
}

impl Write for NoteOut {
    // Untied: where a line goes.
    fn write(&mut self, buf: &[u8]) -> io::Result<usize> {
        match usize::try_from(write(self.fd, buf)) {
            Ok(count) => Ok(count.min(buf.len())),
            Err(_) => Err(io::Error::from_raw_os_error(os::errno())),
        }
    }

    // Nothing is held back.
    fn flush(&mut self) -> io::Result<()> {
        Ok(())
    }
}
