//! What a link of a gate heeds.
ghost use Rattle.std.specs.Prelude.{◌≡◌, Some, IfOk, IfSome, IsSome, IsTrue, IsSomeAnd};
ghost use Rattle.caster_net.specs.declared.keep.Cut.TheVariants as cuts;
ghost use Rattle.caster_net.specs.Silence.{IsTooLong, keep_but_found, keep_given, keep_taken, new_keep};

use crate::halt::{Asked, Halt};
use crate::quiet::{Quiet, Silence};
use send_room::Stuck;
use std::io;
use std::marker::Model;

/// Why a link is read no more.
#[derive(Drop)]
pub(crate) enum Cut<'a> {
    /// The stop was asked for, as this shows.
    Stopped(Asked<'a>),
    /// It was quiet for too long, as this shows.
    Quiet(Silence),
    /// Its socket had no room for too long, as this shows.
    Stuck(Stuck),
}

/// The stop, and for how long the link may be quiet. Contracts see which stop it is, and how long
/// the link may be quiet, or none where that is for ever.
#[derive(Drop)]
pub(crate) struct Keep<'a> {
    rt: &'a HostRuntime,
    halt: &'a Halt,
    // None where it may be for ever.
    quiet: Option<Quiet>,
}

impl<'a> Model for Keep<'a> {
    ghost use Rattle.caster_net.specs.Silence.{KeepState};

    ghost Value = { KeepState };

    ghost view = { λ k. record { quiet = k.quiet; stop = k.halt.now.asked.id } };
}

impl<'a> Keep<'a> {
    /// That of a link that begins now and may be quiet for so many seconds: 0 is for ever.
    pub(crate) fn from_now(rt: &'a HostRuntime, halt: &'a Halt, quiet: u32) -> io::Result<Self>
        ensures new { IfOk result (λ keep.
            keep ≡ new_keep quiet halt.now.asked.id) }
    {
        let quiet = if quiet == 0 {
            None
        } else {
            Some(Quiet::from_now(rt, quiet)?)
        };
        Ok(Keep { rt, halt, quiet })
    }

    /// Whether the stop was asked for.
    // Untied: whether the input is looked at.
    pub(crate) fn is_stopped(&self) -> bool {
        self.halt.look(self.rt).is_some()
    }

    /// Whether the link is read no more, and why.
    pub(crate) fn cut(&self) -> Option<Cut<'a>>
        ensures stopped { (asked : _) → result ≡ Some (cuts.Stopped asked)
            → asked.of ≡ self.now.stop }
        ensures quiet { (silence : _) → result ≡ Some (cuts.Quiet silence)
            → IsSomeAnd self.now.quiet (λ quiet. IsTooLong quiet.limit silence) }
        ensures not_stuck { (stuck : _) → result ≡ Some (cuts.Stuck stuck) → ⊥ }
        ensures found { IfSome self.now.quiet (λ quiet. IsTrue quiet.is_found → IsSome result) }
    {
        if let Some(asked) = self.halt.look(self.rt) {
            return Some(Cut::Stopped(asked));
        }
        let silence = self.quiet.as_ref()?.silence(self.rt)?;
        Some(Cut::Quiet(silence))
    }

    /// Whether the link is read no more, and why, where its read has found no room yet.
    pub(crate) fn cut_in_wait(&self) -> Option<Cut<'a>>
        ensures stopped { (asked : _) → result ≡ Some (cuts.Stopped asked)
            → asked.of ≡ self.now.stop }
        ensures quiet { (silence : _) → result ≡ Some (cuts.Quiet silence)
            → IsSomeAnd self.now.quiet (λ quiet. IsTooLong quiet.limit silence) }
        ensures not_stuck { (stuck : _) → result ≡ Some (cuts.Stuck stuck) → ⊥ }
    {
        if let Some(asked) = self.halt.look(self.rt) {
            return Some(Cut::Stopped(asked));
        }
        let silence = self.quiet.as_ref()?.lasting(self.rt)?;
        Some(Cut::Quiet(silence))
    }

    /// The link gave bytes.
    pub(crate) fn give(&mut self)
        ensures given { self.new ≡ keep_given self.old }
    {
        if let Some(quiet) = &mut self.quiet {
            quiet.give(self.rt);
        }
    }

    /// The link took bytes.
    pub(crate) fn take(&mut self)
        ensures taken { self.new ≡ keep_taken self.old }
    {
        if let Some(quiet) = &mut self.quiet {
            quiet.take(self.rt);
        }
    }

    /// A read gave nothing.
    // Untied: whether a read that found nothing is noted.
    pub(crate) fn find_nothing(&mut self)
        ensures rest { keep_but_found self.new ≡ keep_but_found self.old }
    {
        if let Some(quiet) = &mut self.quiet {
            quiet.find_nothing(self.rt);
        }
    }
}
