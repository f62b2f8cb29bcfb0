//! What the mountpoints and accounts of a run came to.

ghost use Rattle.std.specs.Prelude.{◌≡◌, ◌^◌, ◌<◌, length, IfOk};
ghost use Rattle.cast_config.specs.declared.config.Config.{Config as ConfigValue};
ghost use Rattle.session_model.specs.Reports.{closed_of, sums_from};
ghost use Rattle.session_model.specs.Run.{Histories};
ghost use Rattle.session_model.specs.Setting.{caps};
ghost use Rattle.caster_replay.specs.Caster.{ArePlaces, mount_totals};

use crate::desks::Desks;
use crate::ring_place::RingPlace;
use cast_config::Config;
use caster_accounts::{Book, Sum};
use session_core::{Closed, MountTotal, MountTotals, Sums};
use std::alloc::{AllocError, Global};
use turn_log::Played;

/// The totals of the mountpoints of these places.
fn mounts<P: RingPlace>(alloc: Global, places: &[P]) -> Result<Vec<MountTotal>, AllocError>
    ensures { IfOk result (λ totals. totals.items ≡ mount_totals P.Turns places.now) }
{
    let mut totals = Vec::new(alloc);
    for place in places {
        let ring = place.ring();
        totals.push(MountTotal {
            published: ring.published(),
            claims: ring.claims(),
        })?;
    }
    Ok(totals)
}

/// The totals of the named accounts, which are numbered from 1.
fn accounts(alloc: Global, config: &Config, book: &Book) -> Result<Vec<Sum>, AllocError>
    requires shape { ⟦<Book as Played>⟧.shape book.now ≡ caps config.now }
    requires few { length config.now.account < 2 ^ 31 }
    ensures { (seen : Histories) → ⟦<Book as Played>⟧.stands book.now seen.book
        → IfOk result (λ sums. sums.items ≡ sums_from 1 seen config.now.account) }
{
    let mut sums = Vec::new(alloc);
    for number in 0..config.account.as_slice().len() {
        sums.push(book.total(number as u32 + 1))?;
    }
    Ok(sums)
}

/// The total of all accounts, with that of rovers without credentials.
fn total<P: RingPlace>(desks: &Desks<P>) -> Sum
    ensures { (c : ConfigValue) → ArePlaces c desks.now
        → result ≡ (closed_of c desks.now.seen).total }
{
    desks.places.book.value().total_of_all()
}

/// The totals of a run.
pub(crate) fn totals<P: RingPlace>(
    alloc: Global,
    config: &Config,
    desks: &Desks<P>,
) -> Result<Closed, AllocError>
    requires places { ArePlaces config.now desks.now }
    requires few { length config.now.account < 2 ^ 31 }
    ensures { IfOk result (λ closed. closed ≡ closed_of config.now desks.now.seen) }
{
    let mounts = mounts(alloc, desks.rings())?;
    let accounts = accounts(alloc, config, desks.book())?;
    Ok(Closed {
        mounts: MountTotals::new(mounts),
        accounts: Sums::new(accounts),
        total: total(desks),
    })
}
