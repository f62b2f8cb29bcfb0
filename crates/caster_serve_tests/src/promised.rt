//! Casters that are promised: calls of `caster_serve`, with what the laws say of each.
ghost use Rattle.std.specs.Prelude.{ℕ, IfOk};
ghost use Rattle.cast_config.specs.Kept.{KeepsRules};
ghost use Rattle.serve_promise.specs.Callers.{AllPromised};

use cast_config::Config;
use cast_io::Street;
use caster_serve::{ServeFault, serve};
use serve_promise::laws::casters_are_promised;
use session_core::Closed;
use std::alloc::Global;
use std::sync::Wait;
use std::thread::Threads;

/// What a caster came to that serves so many links at each door. Where it served to its end, all
/// its links and its totals are as they are promised.
pub(crate) fn promised_totals<N: Street, R: Threads + Wait + Sync>(
    rt: &R,
    alloc: Global,
    config: &Config,
    addr: &str,
    limit: u64,
    street: &mut N,
) -> Result<Closed, ServeFault>
where
    N::Door: Send,
    N::Link: Send,
    requires kept { (cap : ℕ) × KeepsRules cap config.now }
    ensures { IfOk result (λ closed.
        AllPromised config.now limit (N.told street.old) (N.told street.new) closed) }
{
    casters_are_promised();
    serve(rt, alloc, config, addr, limit, street)
}
