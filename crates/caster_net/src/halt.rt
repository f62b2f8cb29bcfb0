//! The stop of a caster that serves until it is told to, and what else its input asks.
ghost use Rattle.std.specs.Prelude.{◌≡◌, count_by, IfSome, pos};
ghost use Rattle.std.specs.List.{list_any};
ghost use Rattle.caster_net.specs.Words.{is_status, is_stop, line_behind_all, words_in};

use crate::waiting::asked_of;
use crate::words::{Line, Word};
use libc::net::{POLLHUP, POLLIN, POLLNVAL, poll};
use libc::{getpgrp, read, tcgetpgrp};
use std::os::fd::{AsRawFd, RawFd};
use std::sync::atomic::{AtomicU32, AtomicU64, Ordering};
use std::sync::{Mutex, OnceLock, OnceToken};
use std::time::{Duration, Instant};

// How long the input is left alone after a look at it, in milliseconds.
const LOOK_EVERY: u64 = 100;

// The most bytes that one read takes.
const MAX_READ_BYTES: usize = 4096;

/// What shows that a stop was asked for, and of which one.
pub(crate) type Asked<'a> = OnceToken<'a, ()>;

/// Whether all gates of a street are to be over and all links of these to end. It is asked for by
/// the line `stop` of an input, and by who else finds a cause for it; then it stands for good.
///
/// Each line `status` of the input is counted, for who says how things stand; and so are the links
/// that workers serve, and the gates at which nobody serves yet.
///
/// No thread waits for the input: those that serve, and who says how things stand, have a look at
/// it now and then. A look takes only what is there, and where another thread is having one, it
/// does nothing.
#[derive(Drop)]
pub struct Halt {
    // Written once the stop is asked for.
    pub(crate) asked: OnceLock<()>,
    // How many lines `status` came.
    pub(crate) statuses: AtomicU64,
    // How many workers serve a link.
    pub(crate) busy: AtomicU32,
    // How many gates were made at which nobody serves yet.
    pub(crate) unasked: AtomicU32,
    // The input, which may be a FIFO, a pipe, a terminal, a file or /dev/null. None where nothing
    // is open there.
    input: Option<RawFd>,
    heard: Mutex<Heard>,
}

// What words came in one look.
#[derive(Clone, Copy)]
struct Came {
    stop: bool,
    statuses: u64,
}

// The input as far as it was looked at.
#[derive(Drop)]
struct Heard {
    line: Line,
    // The last look.
    looked: Option<Instant>,
}

impl Halt {
    /// A stop that was not asked for yet, and is by the line `stop` of standard input. Where the
    /// program was started without one, no line asks for it.
    pub fn new(rt: &HostRuntime) -> Halt
        ensures reads { IfSome result.input (λ input. input ≡ pos 0) }
    {
        Halt::over(rt.stdin().as_raw_fd())
    }

    /// A stop that the line `stop` from this descriptor asks for. The descriptor is to stay open.
    pub fn over(fd: RawFd) -> Halt
        ensures reads { IfSome result.input (λ input. input ≡ fd) }
    {
        Halt {
            asked: OnceLock::new(),
            statuses: AtomicU64::new(0),
            busy: AtomicU32::new(0),
            unasked: AtomicU32::new(0),
            input: if is_open(fd) { Some(fd) } else { None },
            heard: Mutex::new(Heard {
                line: Line::new(),
                looked: None,
            }),
        }
    }

    /// Has a look at the input, where the last one is a while ago, and heeds the words that came.
    /// What shows that the stop was asked for, if it was.
    // Untied: whether the input is looked at.
    pub(crate) fn look(&self, rt: &HostRuntime) -> Option<Asked<'_>>
        ensures of_this { IfSome result (λ asked. asked.of ≡ self.now.asked.id) }
    {
        if self.asked.get().is_none() {
            self.hear(rt);
        }
        self.asked.witness()
    }

    // Heeds the words that came, where the last look at the input is a while ago.
    // Untied: when the input is looked at.
    fn hear(&self, rt: &HostRuntime) {
        let Some(fd) = self.input else {
            return;
        };
        let Some(mut heard) = self.heard.try_lock() else {
            return;
        };
        if heard.is_due(rt) {
            self.heed(heard.take_words(fd));
        }
    }

    // Heeds these words.
    // Untied: what its words bring about.
    fn heed(&self, came: Came) {
        if came.statuses > 0 {
            let _ = self.statuses.fetch_add(came.statuses, Ordering::SeqCst);
        }
        if came.stop {
            let _ = self.asked.try_set(());
        }
    }
}

impl Heard {
    // Whether the last look is a while ago. If so, this is the last one from now on.
    // Untied: when the input is looked at.
    fn is_due(&mut self, rt: &HostRuntime) -> bool {
        let Ok(now) = Instant::now(rt) else {
            return true;
        };
        if let Some(looked) = self.looked
            && now.duration_since(looked) < Duration::from_millis(LOOK_EVERY)
        {
            return false;
        }
        self.looked = Some(now);
        true
    }

    // Takes what is there, and answers which words its lines are.
    // Untied: what of the input is taken.
    fn take_words(&mut self, fd: RawFd) -> Came {
        let mut taken = [0u8; MAX_READ_BYTES];
        match self.take(fd, &mut taken) {
            Some(bytes) => words_in(&mut self.line, bytes),
            None => Came {
                stop: false,
                statuses: 0,
            },
        }
    }

    // Takes what is there, without a wait. At the end of the input, behind which more may come of a
    // FIFO, the line that has not ended is none.
    // Untied: what of the input is taken.
    fn take<'b>(&mut self, fd: RawFd, taken: &'b mut [u8]) -> Option<&'b [u8]> {
        if !has_come(fd) || !is_ours(fd) {
            return None;
        }
        let count = usize::try_from(read(fd, taken)).ok()?;
        if count == 0 {
            self.line.forget();
        }
        taken.get(..count)
    }
}

// Which words the lines are that end within these bytes, the next ones of this line.
fn words_in(line: &mut Line, bytes: &[u8]) -> Came
    ensures stop { result.stop ≡ list_any is_stop (words_in line.old bytes.now) }
    ensures statuses { result.statuses ≡ count_by is_status (words_in line.old bytes.now) }
    ensures line { line.new ≡ line_behind_all line.old bytes.now }
{
    let mut came = Came {
        stop: false,
        statuses: 0,
    };
    for byte in bytes {
        match line.hear(*byte) {
            Some(Word::Stop) => came.stop = true,
            Some(Word::Status) => came.statuses = came.statuses.saturating_add(1),
            None => {}
        }
    }
    came
}

// What is ready at this descriptor now.
// Untied: what is ready.
fn ready_at(fd: RawFd) -> i16 {
    let mut asked = asked_of(fd, POLLIN);
    if poll(&mut asked, 0) > 0 {
        asked[0].revents
    } else {
        0
    }
}

// Something is open at this descriptor.
// Untied: whether there is an input.
fn is_open(fd: RawFd) -> bool {
    ready_at(fd) & POLLNVAL == 0
}

// Bytes are there, or the end is.
// Untied: whether bytes are there.
fn has_come(fd: RawFd) -> bool {
    ready_at(fd) & (POLLIN | POLLHUP) != 0
}

// A terminal stops a program in its background that reads from it. What is no terminal of this
// program has no group in the foreground.
// Untied: whether the terminal is ours.
fn is_ours(fd: RawFd) -> bool {
    let foreground = tcgetpgrp(fd);
    foreground < 0 || foreground == getpgrp()
}
