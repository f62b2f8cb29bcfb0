//! The smallest configuration, and the filters that a configuration gives.

ghost use Rattle.std.specs.Prelude.{◌≡◌, ◌≤◌, ◌<◌, [], ◌∷◌, length, IfOk, Ok};
ghost use Rattle.config_keys.specs.Answers.{Gives};
ghost use Rattle.cast_config.specs.Bare.{bare, group_all, mount_a, origin_a, signals_a, station_a};

use crate::config::{Anonymous, Config, Group, Mount};
use crate::lists::{Accounts, GroupFilters, Groups, Mounts, Nears, Numbers, Relays};
use crate::mountpoint::{Origin, Signals, Station, mount_from};
use crate::served::all_filters;
use config_keys::{KeyFault, group_name, mount_name, text_in};
use gga_read::Position;
use sourcetable::Records;
use std::alloc::{AllocError, Global};
use type_filter::{Filter, Filters};

fn station_a(alloc: Global, capacity: u32) -> Result<Station, KeyFault>
    ensures { Gives result (Ok (station_a capacity)) }
{
    let name = mount_name(alloc, b"A")?;
    let password = text_in(alloc, b"")?;
    Ok(Station {
        name,
        password,
        ring: capacity,
        at: Position { lat: 0, lon: 0 },
    })
}

fn signals_a(alloc: Global) -> Result<Signals, KeyFault>
    ensures { Gives result (Ok signals_a) }
{
    let identifier = text_in(alloc, b"A")?;
    let details = text_in(alloc, b"")?;
    let carrier = text_in(alloc, b"2")?;
    let navigation = text_in(alloc, b"GPS")?;
    Ok(Signals {
        identifier,
        details,
        carrier,
        navigation,
    })
}

fn origin_a(alloc: Global) -> Result<Origin, KeyFault>
    ensures { Gives result (Ok origin_a) }
{
    let network = text_in(alloc, b"")?;
    let country = text_in(alloc, b"")?;
    let generator = text_in(alloc, b"")?;
    let misc = text_in(alloc, b"")?;
    Ok(Origin {
        network,
        country,
        generator,
        bitrate: 0,
        misc,
    })
}

fn mount_a(alloc: Global, capacity: u32) -> Result<Mount, KeyFault>
    ensures { Gives result (Ok (mount_a capacity)) }
{
    let station = station_a(alloc, capacity)?;
    let signals = signals_a(alloc)?;
    let origin = origin_a(alloc)?;
    Ok(mount_from(station, signals, origin))
}

fn group_all(alloc: Global) -> Result<Group, KeyFault>
    ensures { Gives result (Ok group_all) }
{
    Ok(Group {
        name: group_name(alloc, b"all")?,
        mounts: Numbers::new(vec![in alloc; 0]?),
        types: Filter::all(),
        filter: GroupFilters::new(Vec::new(alloc)),
    })
}

fn mounts_a(alloc: Global, capacity: u32) -> Result<Mounts, KeyFault>
    ensures { Gives result (Ok (mount_a capacity ∷ [])) }
{
    let mount = mount_a(alloc, capacity)?;
    Ok(Mounts::new(vec![in alloc; mount]?))
}

fn groups_all(alloc: Global) -> Result<Groups, KeyFault>
    ensures { Gives result (Ok (group_all ∷ [])) }
{
    let group = group_all(alloc)?;
    Ok(Groups::new(vec![in alloc; group]?))
}

fn bare_in(alloc: Global, capacity: u32) -> Result<Config, KeyFault>
    ensures { Gives result (Ok (bare capacity)) }
{
    let mount = mounts_a(alloc, capacity)?;
    let group = groups_all(alloc)?;
    let permits = all_filters(alloc, mount.as_slice(), group.as_slice())?;
    Ok(Config {
        workers: 4,
        hysteresis: 10,
        records: Records::new(Vec::new(alloc)),
        mount,
        near: Nears::new(Vec::new(alloc)),
        group,
        account: Accounts::new(Vec::new(alloc)),
        relay: Relays::new(Vec::new(alloc)),
        anonymous: Some(Anonymous {
            group: 0,
            cap: u32::MAX,
        }),
        permits,
    })
}

impl Config {
    ghost use Rattle.cast_config.specs.Kept.{KeepsRules};
    ghost use Rattle.cast_config.specs.Served.{filters_of, GivesItsFilters};

    /// The configuration of one mountpoint, `A`, whose ring keeps so many frames, 1 to 4,096, and
    /// of one group, `all`, that is given all its frames and whose sessions need no credentials.
    pub fn bare(alloc: Global, capacity: u32) -> Result<Config, AllocError>
        requires low { 1 ≤ capacity }
        requires high { capacity ≤ 4096 }
        ensures value { IfOk result (λ config. config ≡ bare capacity) }
        ensures keeps { IfOk result (KeepsRules 4294967295) }
    {
        match bare_in(alloc, capacity) {
            Ok(config) => Ok(config),
            Err(_) => Err(AllocError),
        }
    }

    /// The filters at the mountpoint of this number, one a group: the one that the group has for
    /// this mountpoint, else the group's own.
    pub fn filters(&self, m: u32) -> &Filters
        requires mount { m < length self.now.mount }
        requires kept { GivesItsFilters self.now }
        ensures { result.now ≡ filters_of self.now.group m }
    {
        &self.permits.as_slice()[m as usize]
    }
}
