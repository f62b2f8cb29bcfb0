//! One target is tried.

ghost use Rattle.std.specs.Prelude.{◌≡◌, ◌≢◌, ◌<◌, ◌≤◌, IfOk, IfErr, IsTrue};
ghost use Rattle.std.specs.Str.{is_utf8};
ghost use Rattle.ntrip_fetch.specs.Sinks.{CountsFor};
ghost use Rattle.ntrip_fetch.specs.Request.{IsSpoken};
ghost use Rattle.ntrip_fetch.specs.Tries.{RunEnded, RunStopped};

use crate::left::{FetchFault, Left, Try};
use crate::receiving::fetch_link;
use crate::target::Target;
use cast_io::{Sink, Street, StreetFault};
use std::alloc::Global;
use std::str;
use std::sync::Wait;

/// The address of a target.
fn address_of(target: &Target) -> &str
    requires { IsTrue (is_utf8 target.now.address) }
    ensures { result.now ≡ target.now.address }
{
    match str::from_utf8(target.address.bytes()) {
        Ok(address) => address,
        Err(_) => unreachable!(),
    }
}

/// Dials the target, fetches over the link, and hangs it up.
pub(crate) fn try_one<N: Street, O: Sink, R: Wait>(
    rt: &R,
    alloc: Global,
    target: &Target,
    most: u64,
    street: &mut N,
    out: &mut O,
) -> Result<Try, FetchFault>
    requires spoken { IsSpoken target.now }
    requires text { IsTrue (is_utf8 target.now.address) }
    requires some { 1 ≤ most }
    requires few { most ≤ 1000000 }
    ensures run { IfOk result (RunEnded target.now most (N.told street.old) (N.told street.new)
        (O.taken out.old) (O.taken out.new)) }
    ensures stopped { IfErr result (RunStopped target.now most (N.told street.old)
        (N.told street.new) (O.taken out.old) (O.taken out.new)) }
    ensures within { IfOk result (λ tried. tried.frames ≤ most) }
    ensures fewer { IfOk result (λ tried. tried.left ≢ Left.Enough → tried.frames < most) }
    ensures sink { CountsFor (O.faults out.old) (O.faults out.new) result }
{
    match street.dial(address_of(target)) {
        Ok(mut link) => {
            let tried = fetch_link(rt, alloc, target, most, &mut link, out);
            street.hang_up(link);
            tried
        }
        Err(StreetFault::Failed) => Ok(Try {
            frames: 0,
            left: Left::Dial,
        }),
        Err(StreetFault::Memory) => Err(FetchFault::Memory),
    }
}
