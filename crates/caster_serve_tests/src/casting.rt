//! Whole casters, and what is wanted of them.

use crate::promised::promised_totals;
use crate::setting::{ADDRESS, config_of};
use crate::telling::{Back, Ended, back_to};
use cast_io::{MemStreet, Street};
use caster_accounts::Sum;
use caster_serve::ServeFault;
use session_core::{Closed, MountTotal};
use std::alloc::Global;
use std::sync::Wait;
use std::test::Fail;
use std::thread::Threads;

/// So many frames published, under so many claims.
pub(crate) fn mount(published: u64, claims: u64) -> MountTotal {
    MountTotal { published, claims }
}

/// So many sessions, which were sent so many frames, and of which so many were overrun.
pub(crate) fn sum(sessions: u64, sent: u128, overrun: u128) -> Sum {
    Sum {
        sessions,
        sent,
        overrun,
    }
}

/// What ALPHA and BRAVO came to, and the sums of rover1, of rover2, and of these two.
pub(crate) type Totals = ([MountTotal; 2], [Sum; 2], Sum);

/// What a caster came to.
pub(crate) type Answer = Result<Totals, ServeFault>;

/// These totals are of two mountpoints and two accounts.
fn totals_of(closed: &Closed) -> Option<Totals> {
    let [alpha, bravo] = closed.mounts.as_slice() else {
        return None;
    };
    let [first, second] = closed.accounts.as_slice() else {
        return None;
    };
    Some(([*alpha, *bravo], [*first, *second], closed.total))
}

/// What a caster came to, whose totals are of two mountpoints and two accounts.
fn answer_of(served: Result<Closed, ServeFault>) -> Result<Answer, Fail> {
    match served {
        Ok(closed) => Ok(Ok(totals_of(&closed).ok_or("totals of others")?)),
        Err(fault) => Ok(Err(fault)),
    }
}

/// What a caster came to over this street that serves so many links at each door. Its configuration
/// has this behind it.
pub(crate) fn cast<N: Street, R: Threads + Wait + Sync>(
    rt: &R,
    alloc: Global,
    more: &[u8],
    limit: u64,
    street: &mut N,
) -> Result<Answer, Fail>
where
    N::Door: Send,
    N::Link: Send,
{
    let config = config_of(alloc, more)?;
    let served = promised_totals(rt, alloc, &config, ADDRESS, limit, street);
    answer_of(served)
}

/// What a caster came to over this street in memory, and what came back to it.
pub(crate) fn carry_out<R: Threads + Wait + Sync>(
    rt: &R,
    alloc: Global,
    more: &[u8],
    limit: u64,
    mut street: MemStreet,
) -> Result<(Answer, Back), Fail> {
    let answer = cast(rt, alloc, more, limit, &mut street)?;
    Ok((answer, back_to(alloc, &street)?))
}

/// The caster came to these totals of ALPHA and BRAVO, and of rover1 and rover2, and to the sums of
/// these two.
pub(crate) fn is_closed(
    answer: Answer,
    mounts: [MountTotal; 2],
    accounts: [Sum; 2],
    total: Sum,
) -> bool {
    answer == Ok((mounts, accounts, total))
}

/// The caster met a fault of the network.
pub(crate) fn is_network(answer: Answer) -> bool {
    matches!(answer, Err(ServeFault::Network))
}

/// So many doors and links came back to the street. It was asked this, and failed so often.
pub(crate) fn came_back(
    back: &Back,
    doors: usize,
    links: usize,
    asked: &[u8],
    faults: u64,
) -> bool {
    back.doors.len() == doors
        && back.links.len() == links
        && back.asked.as_slice() == asked
        && back.faults == faults
}

/// Of these links the one of this number, from 0, was sent this and took so many steps.
pub(crate) fn has_ended(links: &[Ended], number: usize, bytes: &[u8], steps: usize) -> bool {
    match links.get(number) {
        Some(link) => link.is(bytes, steps),
        None => false,
    }
}

/// The links of the door of this number, from 0, none where no such door came back.
pub(crate) fn links_at(back: &Back, door: usize) -> &[Ended] {
    match back.doors.get(door) {
        Some(links) => links,
        None => &[],
    }
}
