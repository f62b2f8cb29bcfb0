//! A whole configuration, read from a document.

ghost use Rattle.std.specs.Prelude.{◌≡◌, ◌≤◌, codes, length, IfOk};
ghost use Rattle.config_keys.specs.Answers.{Gives};
ghost use Rattle.config_keys.specs.Rules.{count, optional};
ghost use Rattle.cast_config.specs.Document.{config_from, config_of, heard_of, parties_of, places_of, settings_of, IsRead};
ghost use Rattle.cast_config.specs.Kept.{KeepsRules};
ghost use Rattle.cast_config.specs.Entries.{top};
ghost use Rattle.toml.specs.Data.{get_member};
ghost use Rattle.toml.specs.View.{table_view};

use crate::config::{Anonymous, Config, Group, Mount};
use crate::entries::anonymous_or_none;
use crate::fault::ConfigFault;
use crate::lists::{Accounts, FilterTable, Groups, Mounts, Nears, Relays};
use crate::reading::{accounts, groups, mounts, nears, relays, top};
use crate::served::all_filters;
use config_keys::{KeyFault, count, count_or, records_or, value_at};
use sourcetable::{Record, Records};
use std::alloc::Global;
use toml::Table;

/// The mountpoints and the near mountpoints.
#[derive(Drop)]
struct Places {
    mount: Mounts,
    near: Nears,
}

#[tactic(auto, unfolding(crate::specs::Document::places_of))]
fn places_in(alloc: Global, table: &Table) -> Result<Places, KeyFault>
    ensures read { Gives result (places_of (table_view table.now)) }
    ensures mounts { IfOk result (λ places. length places.mount ≤ 64) }
    ensures nears { IfOk result (λ places. length places.near ≤ 64) }
{
    let mount = mounts(alloc, value_at(table, "mount"))?;
    let near = nears(alloc, value_at(table, "near"), mount.as_slice())?;
    Ok(Places { mount, near })
}

/// What rovers may hear: the mountpoints, the near mountpoints, the groups that list them, and
/// which frames are given.
#[derive(Drop)]
struct RoverOffer {
    mount: Mounts,
    near: Nears,
    group: Groups,
    permits: FilterTable,
}

#[tactic(auto, unfolding(crate::specs::Document::heard_of))]
fn heard_in(alloc: Global, version: u32, table: &Table) -> Result<RoverOffer, KeyFault>
    ensures read { Gives result (heard_of version (table_view table.now)) }
    ensures mounts { IfOk result (λ heard. length heard.mount ≤ 64) }
    ensures groups { IfOk result (λ heard. length heard.group ≤ 64) }
{
    let Places { mount, near } = places_in(alloc, table)?;
    let group = value_at(table, "group");
    let group = groups(alloc, group, version, mount.as_slice(), near.as_slice())?;
    let permits = all_filters(alloc, mount.as_slice(), group.as_slice())?;
    Ok(RoverOffer {
        mount,
        near,
        group,
        permits,
    })
}

/// The accounts, the relays and who has no account.
#[derive(Drop)]
struct Parties {
    account: Accounts,
    relay: Relays,
    anonymous: Option<Anonymous>,
}

#[tactic(auto, unfolding(crate::specs::Document::parties_of))]
fn parties_in(
    alloc: Global,
    mounts: &[Mount],
    groups: &[Group],
    table: &Table,
) -> Result<Parties, KeyFault>
    requires mounts { length mounts.now ≤ 64 }
    requires groups { length groups.now ≤ 64 }
    ensures { Gives result (parties_of mounts.now groups.now (table_view table.now)) }
{
    let account = accounts(alloc, value_at(table, "account"), groups)?;
    let relay = relays(alloc, value_at(table, "relay"), mounts)?;
    let anonymous = anonymous_or_none(value_at(table, "anonymous"), top(10), groups)?;
    Ok(Parties {
        account,
        relay,
        anonymous,
    })
}

/// The keys that are numbers.
#[derive(Clone, Copy)]
struct Settings {
    version: u32,
    workers: u32,
    hysteresis: u32,
}

fn hysteresis_in(table: &Table) -> Result<u32, KeyFault>
    ensures { result ≡ optional 10 (count 0 50) (top 3)
        (get_member (codes "hysteresis") (table_view table.now)) }
{
    count_or(value_at(table, "hysteresis"), top(3), 0, 50, 10)
}

#[tactic(auto, unfolding(crate::specs::Document::settings_of))]
fn settings_in(table: &Table) -> Result<Settings, KeyFault>
    ensures { Gives result (settings_of (table_view table.now)) }
{
    let version = count(value_at(table, "version"), top(1), 1, 2)?;
    let workers = count_or(value_at(table, "workers"), top(2), 1, 256, 4)?;
    let hysteresis = hysteresis_in(table)?;
    Ok(Settings {
        version,
        workers,
        hysteresis,
    })
}

/// The configuration of these parts.
fn config_from(
    settings: Settings,
    records: Vec<Record>,
    heard: RoverOffer,
    parties: Parties,
) -> Config
    ensures { result ≡ config_from settings records.items heard parties }
{
    Config {
        workers: settings.workers,
        hysteresis: settings.hysteresis,
        records: Records::new(records),
        mount: heard.mount,
        near: heard.near,
        group: heard.group,
        account: parties.account,
        relay: parties.relay,
        anonymous: parties.anonymous,
        permits: heard.permits,
    }
}

#[tactic(auto, unfolding(crate::specs::Document::config_of))]
fn config_in(alloc: Global, table: &Table) -> Result<Config, KeyFault>
    ensures { Gives result (config_of (table_view table.now)) }
{
    let settings = settings_in(table)?;
    let records = records_or(alloc, value_at(table, "records"), top(4))?;
    let heard = heard_in(alloc, settings.version, table)?;
    let parties = parties_in(alloc, heard.mount.as_slice(), heard.group.as_slice(), table)?;
    Ok(config_from(settings, records, heard, parties))
}

/// The configuration that a document says, in TOML 1.0. Versions 1 and 2 of the file are read; in
/// version 2 a group may have filters for single mountpoints, and there may be 64 groups in place
/// of 16.
///
/// # Errors
/// `Toml` exactly where the bytes are no document. Otherwise the first rule that it breaks, with
/// its key, in the order that `config_of` has. `Memory` at any time.
pub fn read_config(alloc: Global, bytes: &[u8]) -> Result<Config, ConfigFault>
    ensures read { IsRead bytes.now result }

    // Names differ, numbers of mountpoints and groups are in range, texts are UTF-8, and so on.
    ensures keeps { IfOk result (KeepsRules 1000000) }
{
    match toml::table_from_slice(alloc, bytes) {
        Ok(table) => match config_in(alloc, &table) {
            Ok(config) => Ok(config),
            Err(fault) => Err(ConfigFault::from(fault)),
        },
        Err(fault) => {
            if fault.is_memory() {
                Err(ConfigFault::Memory)
            } else {
                Err(ConfigFault::Toml)
            }
        }
    }
}
