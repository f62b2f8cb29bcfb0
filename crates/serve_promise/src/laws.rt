//! The laws of links that were served: each the contract of a function that does nothing.

ghost use Rattle.std.specs.Prelude.{ℕ, List, Ok};
ghost use Rattle.cast_io.specs.declared.steps.Step.{Step};
ghost use Rattle.cast_io.specs.Links.{bytes_in};
ghost use Rattle.cast_io.specs.Told.{StreetTold};
ghost use Rattle.turn_log.specs.History.{History};
ghost use Rattle.mount_ring.specs.declared.call.RingCall.{RingCall};
ghost use Rattle.cast_config.specs.declared.config.Config.{Config};
ghost use Rattle.session_model.specs.declared.ending.Last.{Last};
ghost use Rattle.session_model.specs.declared.report.Closed.{Closed};
ghost use Rattle.session_model.specs.declared.report.Receipt.{Receipt};
ghost use Rattle.session_model.specs.Judged.{Opening};
ghost use Rattle.session_model.specs.Run.{Histories};
ghost use Rattle.caster_link.specs.Served.{LinkGoes};
ghost use Rattle.caster_serve.specs.Callers.{Caller};
ghost use Rattle.caster_serve.specs.Caster.{AllServed, HasServed};
ghost use Rattle.serve_promise.specs.Links.{AllFrames, GoOnTo, IsLinkKept};
ghost use Rattle.serve_promise.specs.Callers.{AllKept, AllPromised};

/// A link that was served is promised, by whatever histories its own go on to, where whole frames
/// alone were published.
pub fn links_are_promised()
    ensures { (c : Config) (opening : Opening) (me : ℕ) (start now : Histories) (taken : List Step)
        (written : List ℕ) (last : Last) (receipt : Receipt)
        (histories : List (History RingCall))
        → LinkGoes c opening me start now taken written last receipt
        → GoOnTo now.rings histories → AllFrames histories
        → IsLinkKept c opening me start.rings now.rings histories (bytes_in taken) written last
        receipt }
{}

/// Each link that a caster served is promised, by one history for each mountpoint, whether each
/// worker served as many as it was to or its door failed before.
pub fn served_links_are_promised()
    ensures { (c : Config) (limit : ℕ) (old new : StreetTold) (callers : List Caller)
        (histories : Histories) → AllServed c limit old new callers histories
        → AllKept c old new callers histories }
{}

/// A caster that served to its end is promised: so is each of its links, and its totals are theirs.
pub fn casters_are_promised()
    ensures { (c : Config) (addr : List ℕ) (limit : ℕ) (old new : StreetTold) (closed : Closed)
        → HasServed c addr limit old new (Ok closed) → AllPromised c limit old new closed }
{}
