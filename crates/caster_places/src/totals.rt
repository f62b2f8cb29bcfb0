ghost use Rattle.std.specs.Prelude.{IfOk};
ghost use Rattle.caster_places.specs.Rows.{IsRoomFor};

use cast_config::Config;
use caster_accounts::Sum;
use session_core::MountTotal;
use std::alloc::{AllocError, Global};

/// Room for what a caster comes to, which is made before it serves.
#[derive(Drop)]
pub struct Totals {
    /// For the mountpoints.
    pub(crate) mounts: Vec<MountTotal>,
    /// For the named accounts.
    pub(crate) accounts: Vec<Sum>,
}

impl Totals {
    /// Room for what a caster of this configuration comes to.
    pub fn with_room(alloc: Global, config: &Config) -> Result<Totals, AllocError>
        ensures { IfOk result (IsRoomFor config.now) }
    {
        Ok(Totals {
            mounts: Vec::with_capacity(alloc, config.mount.as_slice().len())?,
            accounts: Vec::with_capacity(alloc, config.account.as_slice().len())?,
        })
    }
}
