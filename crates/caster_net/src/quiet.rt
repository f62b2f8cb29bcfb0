//! Links that are quiet for too long.
ghost use Rattle.std.specs.Prelude.{◌≡◌, IfOk, IfSome, IsSome, IsTrue, is_some};
ghost use Rattle.std.specs.Duration.{as_nanos};
ghost use Rattle.std.specs.Option.{ForSome};
ghost use Rattle.caster_net.specs.Silence.{IsTooLong, but_found, given, new_quiet, taken};

use std::io;
use std::marker::Model;
use std::time::{Duration, Instant};

/// What shows that a link was quiet for too long: for how long it might be, and for how long it
/// was. It is made of a look at the clock alone.
#[derive(Clone, Copy)]
pub(crate) struct Silence {
    limit: Duration,
    since: Duration,
}

impl Silence {
    // What the clock shows now of a time since then, where it is as long as this limit.
    // Untied: whether the clock shows it.
    fn since(rt: &HostRuntime, limit: Duration, then: &Instant) -> Option<Silence>
        ensures { IfSome result (IsTooLong (as_nanos limit)) }
    {
        let since = then.elapsed(rt).ok()?;
        if since < limit {
            return None;
        }
        Some(Silence { limit, since })
    }
}

/// For how long a link may be quiet, and since when it is. It is quiet for too long where it gave
/// no byte and took none for so long, as found by a read that gave nothing; and where nothing was
/// written to it for so long from its beginning on, whatever it gave. Contracts see how long it may
/// be quiet, whether anything was written, and whether a read found it quiet for so long.
#[derive(Drop)]
pub(crate) struct Quiet {
    limit: Duration,
    begun: Instant,
    // When it last gave or took a byte; at first, its beginning.
    moved: Instant,
    is_written: bool,
    // The last read gave nothing, so long after that, as this shows.
    found: Option<Silence>,
    ghost shown: { ForSome found (IsTooLong (as_nanos limit)) },
}

impl Model for Quiet {
    ghost use Rattle.std.specs.Prelude.{is_some};
    ghost use Rattle.std.specs.Duration.{as_nanos};
    ghost use Rattle.caster_net.specs.Silence.{QuietState};

    ghost Value = { QuietState };

    ghost view = { λ q. record {
      limit = as_nanos q.limit;
      is_written = q.is_written;
      is_found = is_some q.found;
    } };
}

impl Quiet {
    /// That of a link that begins now and may be quiet for so many seconds.
    pub(crate) fn from_now(rt: &HostRuntime, seconds: u32) -> io::Result<Quiet>
        ensures new { IfOk result (λ quiet. quiet ≡ new_quiet seconds) }
    {
        let now = Instant::now(rt)?;
        Ok(Quiet {
            limit: Duration::from_secs(u64::from(seconds)),
            begun: now,
            moved: now,
            is_written: false,
            found: None,
        })
    }

    /// The link gave bytes.
    pub(crate) fn give(&mut self, rt: &HostRuntime)
        ensures given { self.new ≡ given self.old }
    {
        self.moved = Instant::now(rt).unwrap_or(self.moved);
        self.found = None;
    }

    /// The link took bytes.
    pub(crate) fn take(&mut self, rt: &HostRuntime)
        ensures taken { self.new ≡ taken self.old }
    {
        self.give(rt);
        self.is_written = true;
    }

    /// A read gave nothing.
    // Untied: whether a read found the link quiet.
    pub(crate) fn find_nothing(&mut self, rt: &HostRuntime)
        ensures rest { but_found self.new ≡ but_found self.old }
    {
        self.found = Silence::since(rt, self.limit, &self.moved);
    }

    /// What shows that the link gave no byte and took none for too long, if so.
    pub(crate) fn lasting(&self, rt: &HostRuntime) -> Option<Silence>
        ensures shown { IfSome result (IsTooLong self.now.limit) }
    {
        Silence::since(rt, self.limit, &self.moved)
    }

    /// What shows that the link is quiet for too long, if it is.
    pub(crate) fn silence(&self, rt: &HostRuntime) -> Option<Silence>
        ensures shown { IfSome result (IsTooLong self.now.limit) }
        ensures found { IsTrue self.now.is_found → IsSome result }
        ensures written { IsTrue self.now.is_written → is_some result ≡ self.now.is_found }
    {
        match self.found {
            Some(silence) => Some(silence),
            None if self.is_written => None,
            None => Silence::since(rt, self.limit, &self.begun),
        }
    }
}
