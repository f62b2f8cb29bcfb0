//! The document of a configuration.

ghost use Rattle.std.specs.Prelude.{◌≡◌, ◌++◌, All, IfOk, IfSome, List, OnErr, OnOk, Ok, length, string_bytes, ℕ};
ghost use Rattle.cast_config.specs.Document.{IsDocument, IsRead};
ghost use Rattle.cast_config.specs.Kept.{KeepsAnonymous, KeepsGroup, KeepsMount, KeepsNear, KeepsRules};
ghost use Rattle.config_write.specs.Members.{put_keys};
ghost use Rattle.config_write.specs.Written.{HasVersion, WasRead, config_tree, group_keys, list_keys, party_keys, place_keys, setting_keys, top_keys, with_anonymous};
ghost use Rattle.toml.specs.View.{table_view};

use crate::entries::anonymous_table;
use crate::lists::{
    account_values, group_values, mount_values, near_values, record_values, relay_values,
};
use crate::members::{put_list, put_number, put_table};
use cast_config::{Anonymous, Config, Group, Mount, Near};
use std::alloc::{AllocError, Global};
use toml::Table;

/// Sets the version and the other keys that are numbers.
fn put_settings(alloc: Global, table: &mut Table, config: &Config) -> Result<(), AllocError>
    ensures { OnOk result (table_view table.new
        ≡ put_keys (setting_keys config.now) (table_view table.old)) }
{
    put_number(alloc, table, "version", 2)?;
    put_number(alloc, table, "workers", config.workers)?;
    put_number(alloc, table, "hysteresis", config.hysteresis)
}

/// Sets the keys that stand before the mountpoints.
fn put_top(alloc: Global, table: &mut Table, config: &Config) -> Result<(), AllocError>
    requires { KeepsRules 1000000 config.now }
    ensures { OnOk result (table_view table.new
        ≡ put_keys (top_keys config.now) (table_view table.old)) }
{
    put_settings(alloc, table, config)?;
    let records = record_values(alloc, config.records.as_slice())?;
    put_list(alloc, table, "records", records)
}

/// Sets the mountpoints and the near mountpoints.
fn put_places(
    alloc: Global,
    table: &mut Table,
    mounts: &[Mount],
    nears: &[Near],
) -> Result<(), AllocError>
    requires mounts { All KeepsMount mounts.now }
    requires nears { All (KeepsNear (length mounts.now)) nears.now }
    ensures { OnOk result (table_view table.new
        ≡ put_keys (place_keys mounts.now nears.now) (table_view table.old)) }
{
    let values = mount_values(alloc, mounts)?;
    put_list(alloc, table, "mount", values)?;
    let values = near_values(alloc, mounts, nears)?;
    put_list(alloc, table, "near", values)
}

/// Sets the groups.
fn put_groups(
    alloc: Global,
    table: &mut Table,
    mounts: &[Mount],
    nears: &[Near],
    groups: &[Group],
) -> Result<(), AllocError>
    requires { All (KeepsGroup (length mounts.now) (length nears.now)) groups.now }
    ensures { OnOk result (table_view table.new
        ≡ put_keys (group_keys mounts.now nears.now groups.now) (table_view table.old)) }
{
    let values = group_values(alloc, mounts, nears, groups)?;
    put_list(alloc, table, "group", values)
}

/// Sets the accounts and the relays.
fn put_parties(alloc: Global, table: &mut Table, config: &Config) -> Result<(), AllocError>
    requires { KeepsRules 1000000 config.now }
    ensures { OnOk result (table_view table.new
        ≡ put_keys (party_keys config.now) (table_view table.old)) }
{
    let groups = config.group.as_slice();
    let values = account_values(alloc, groups, config.account.as_slice())?;
    put_list(alloc, table, "account", values)?;
    let values = relay_values(alloc, config.mount.as_slice(), config.relay.as_slice())?;
    put_list(alloc, table, "relay", values)
}

/// Sets the lists of entries.
fn put_lists(alloc: Global, table: &mut Table, config: &Config) -> Result<(), AllocError>
    requires { KeepsRules 1000000 config.now }
    ensures { OnOk result (table_view table.new
        ≡ put_keys (list_keys config.now) (table_view table.old)) }
{
    let mounts = config.mount.as_slice();
    let nears = config.near.as_slice();
    put_places(alloc, table, mounts, nears)?;
    put_groups(alloc, table, mounts, nears, config.group.as_slice())?;
    put_parties(alloc, table, config)
}

/// Sets who has no account, if there may be such.
fn put_anonymous(
    alloc: Global,
    table: &mut Table,
    groups: &[Group],
    anonymous: Option<Anonymous>,
) -> Result<(), AllocError>
    requires { IfSome anonymous (KeepsAnonymous 1000000 (length groups.now)) }
    ensures { OnOk result (table_view table.new
        ≡ with_anonymous groups.now anonymous (table_view table.old)) }
{
    match anonymous {
        None => Ok(()),
        Some(anonymous) => {
            let inner = anonymous_table(alloc, groups, anonymous)?;
            put_table(alloc, table, "anonymous", inner)
        }
    }
}

/// The whole document.
#[tactic(auto, unfolding(crate::specs::Written::config_tree))]
fn config_table(alloc: Global, config: &Config) -> Result<Table, AllocError>
    requires { KeepsRules 1000000 config.now }
    ensures { IfOk result (λ t. table_view t ≡ config_tree config.now) }
{
    let mut table = Table::new(alloc);
    put_top(alloc, &mut table, config)?;
    put_lists(alloc, &mut table, config)?;
    put_anonymous(alloc, &mut table, config.group.as_slice(), config.anonymous)?;
    Ok(table)
}

/// The text of the document.
fn text_of(alloc: Global, config: &Config) -> Result<String, AllocError>
    requires { KeepsRules 1000000 config.now }
    ensures { IfOk result (λ text. IsDocument (string_bytes text) (config_tree config.now)) }
{
    let table = config_table(alloc, config)?;
    match toml::table_to_string(alloc, &table) {
        Ok(text) => Ok(text),
        Err(toml::ser::Error::OutOfMemory) => Err(AllocError),
        Err(toml::ser::Error::DateInvalid) => unreachable!(),
    }
}

/// Appends a document of version 2 that `cast_config::read_config` reads as this configuration. It
/// has every key, also where the value is its default, in the order of the keys' bytes. Without
/// memory `out` stays as it was.
pub fn write_config(config: &Config, out: &mut Vec<u8>) -> Result<(), AllocError>
    requires { WasRead config.now }

    // What is appended is read as the configuration, and is of version 2.
    ensures ok { OnOk result ((text : List ℕ) × (out.new.items ≡ out.old.items ++ text)
        × IsRead text (Ok config.now) × HasVersion 2 text) }
    ensures err { OnErr result (out.new.items ≡ out.old.items) }
{
    let text = text_of(*out.allocator(), config)?;
    out.extend_from_slice(text.as_bytes())?;
    Ok(())
}
