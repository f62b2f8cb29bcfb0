//! The tables of single entries.

ghost use Rattle.std.specs.Prelude.{◌≡◌, ◌<◌, ◌+◌, All, IfOk, IsTrue, OnOk, length};
ghost use Rattle.cast_config.specs.Kept.{KeepsAccount, KeepsAnonymous, KeepsGroup, KeepsMount, KeepsNear, KeepsRelay, filtered};
ghost use Rattle.cast_config.specs.Names.{group_names, heard_names, mount_names};
ghost use Rattle.cast_text.specs.Name.{is_name};
ghost use Rattle.config_keys.specs.Texts.{is_fit};
ghost use Rattle.config_keys.specs.declared.strings.TextKind.TheVariants.{Secret};
ghost use Rattle.config_write.specs.Entries.{account_tree, anonymous_tree, credential_keys, member_keys, origin_keys, signal_keys, filters_keys, group_tree, heard_keys, mount_tree, name_at, near_tree, record_keys, relay_keys, relay_tree, station_keys, with_user};
ghost use Rattle.config_write.specs.Members.{put_keys};
ghost use Rattle.toml.specs.View.{table_view};

use crate::lists::{base_values, filter_values, heard_values, types_value};
use crate::members::{put, put_list, put_name, put_number, put_text, put_whole};
use cast_config::{Account, Anonymous, Group, Mount, Near, Relay};
use cast_text::UserName;
use std::alloc::{AllocError, Global};
use toml::Table;

/// Sets what the source and the rovers of a mountpoint need.
fn put_station(alloc: Global, table: &mut Table, mount: &Mount) -> Result<(), AllocError>
    requires { KeepsMount mount.now }
    ensures { OnOk result (table_view table.new
        ≡ put_keys (station_keys mount.now) (table_view table.old)) }
{
    put_name(alloc, table, "name", mount.name.bytes())?;
    put_text(alloc, table, "password", mount.password.bytes())?;
    put_number(alloc, table, "ring", mount.ring)?;
    put_whole(alloc, table, "latitude", mount.at.lat)?;
    put_whole(alloc, table, "longitude", mount.at.lon)
}

/// Sets what the sourcetable says of a mountpoint's place and its frames.
fn put_signals(alloc: Global, table: &mut Table, mount: &Mount) -> Result<(), AllocError>
    requires { KeepsMount mount.now }
    ensures { OnOk result (table_view table.new
        ≡ put_keys (signal_keys mount.now) (table_view table.old)) }
{
    put_text(alloc, table, "identifier", mount.identifier.bytes())?;
    put_text(alloc, table, "details", mount.details.bytes())?;
    put_text(alloc, table, "carrier", mount.carrier.bytes())?;
    put_text(alloc, table, "navigation", mount.navigation.bytes())
}

/// Sets what the sourcetable says of where its frames come from.
fn put_origin(alloc: Global, table: &mut Table, mount: &Mount) -> Result<(), AllocError>
    requires { KeepsMount mount.now }
    ensures { OnOk result (table_view table.new
        ≡ put_keys (origin_keys mount.now) (table_view table.old)) }
{
    put_text(alloc, table, "network", mount.network.bytes())?;
    put_text(alloc, table, "country", mount.country.bytes())?;
    put_text(alloc, table, "generator", mount.generator.bytes())?;
    put_number(alloc, table, "bitrate", mount.bitrate)?;
    put_text(alloc, table, "misc", mount.misc.bytes())
}

/// Sets what the sourcetable says of a mountpoint.
fn put_record(alloc: Global, table: &mut Table, mount: &Mount) -> Result<(), AllocError>
    requires { KeepsMount mount.now }
    ensures { OnOk result (table_view table.new
        ≡ put_keys (record_keys mount.now) (table_view table.old)) }
{
    put_signals(alloc, table, mount)?;
    put_origin(alloc, table, mount)
}

/// The table of a mountpoint.
#[tactic(auto, unfolding(crate::specs::Entries::mount_tree))]
pub(crate) fn mount_table(alloc: Global, mount: &Mount) -> Result<Table, AllocError>
    requires { KeepsMount mount.now }
    ensures { IfOk result (λ t. table_view t ≡ mount_tree mount.now) }
{
    let mut table = Table::new(alloc);
    put_station(alloc, &mut table, mount)?;
    put_record(alloc, &mut table, mount)?;
    Ok(table)
}

/// The table of a near mountpoint.
#[tactic(auto, unfolding(crate::specs::Entries::near_tree))]
pub(crate) fn near_table(alloc: Global, mounts: &[Mount], near: &Near) -> Result<Table, AllocError>
    requires { KeepsNear (length mounts.now) near.now }
    ensures { IfOk result (λ t. table_view t ≡ near_tree mounts.now near.now) }
{
    let bases = base_values(alloc, mounts, near.bases.as_slice())?;
    let mut table = Table::new(alloc);
    put_name(alloc, &mut table, "name", near.name.bytes())?;
    put_list(alloc, &mut table, "bases", bases)?;
    Ok(table)
}

/// Sets the name of a group and what it lists.
fn put_heard(
    alloc: Global,
    table: &mut Table,
    mounts: &[Mount],
    nears: &[Near],
    group: &Group,
) -> Result<(), AllocError>
    requires { KeepsGroup (length mounts.now) (length nears.now) group.now }
    ensures { OnOk result (table_view table.new
        ≡ put_keys (heard_keys mounts.now nears.now group.now) (table_view table.old)) }
{
    put_name(alloc, table, "name", group.name.bytes())?;
    let heard = heard_values(alloc, mounts, nears, group.mounts.as_slice())?;
    put_list(alloc, table, "mounts", heard)
}

/// Sets which frames a group is given.
fn put_filters(
    alloc: Global,
    table: &mut Table,
    mounts: &[Mount],
    group: &Group,
) -> Result<(), AllocError>
    requires { All (λ n. n < length mounts.now) (filtered group.now.filter) }
    ensures { OnOk result (table_view table.new
        ≡ put_keys (filters_keys mounts.now group.now) (table_view table.old)) }
{
    let types = types_value(alloc, &group.types)?;
    put(alloc, table, "types", types)?;
    let filters = filter_values(alloc, mounts, group.filter.as_slice())?;
    put_list(alloc, table, "filter", filters)
}

/// The table of a group.
#[tactic(auto, unfolding(crate::specs::Entries::group_tree))]
pub(crate) fn group_table(
    alloc: Global,
    mounts: &[Mount],
    nears: &[Near],
    group: &Group,
) -> Result<Table, AllocError>
    requires { KeepsGroup (length mounts.now) (length nears.now) group.now }
    ensures { IfOk result (λ t. table_view t ≡ group_tree mounts.now nears.now group.now) }
{
    let mut table = Table::new(alloc);
    put_heard(alloc, &mut table, mounts, nears, group)?;
    put_filters(alloc, &mut table, mounts, group)?;
    Ok(table)
}

/// The name of the mountpoint of this number.
pub(crate) fn mount_name(mounts: &[Mount], n: u32) -> &[u8]
    requires { n < length mounts.now }
    ensures name { result.now ≡ name_at (mount_names mounts.now) n }
    ensures allowed { IsTrue (is_name result.now) }
{
    mounts[n as usize].name.bytes()
}

/// The name of the mountpoint or near mountpoint of this number: the numbers of near mountpoints go
/// on after those of the mountpoints.
pub(crate) fn heard_name<'a>(mounts: &'a [Mount], nears: &'a [Near], n: u32) -> &'a [u8]
    requires { n < length mounts.now + length nears.now }
    ensures name { result.now ≡ name_at (heard_names mounts.now nears.now) n }
    ensures allowed { IsTrue (is_name result.now) }
{
    let place = n as usize;
    if place < mounts.len() {
        mounts[place].name.bytes()
    } else {
        nears[place - mounts.len()].name.bytes()
    }
}

/// The name of the group of this number.
fn group_name(groups: &[Group], n: u32) -> &[u8]
    requires { n < length groups.now }
    ensures name { result.now ≡ name_at (group_names groups.now) n }
    ensures allowed { IsTrue (is_name result.now) }
{
    groups[n as usize].name.bytes()
}

/// Sets the user and the password of an account.
fn put_credentials(alloc: Global, table: &mut Table, account: &Account) -> Result<(), AllocError>
    requires user { IsTrue (is_name account.now.user) }
    requires password { IsTrue (is_fit Secret account.now.password) }
    ensures { OnOk result (table_view table.new
        ≡ put_keys (credential_keys account.now) (table_view table.old)) }
{
    put_name(alloc, table, "user", account.user.bytes())?;
    put_text(alloc, table, "password", account.password.bytes())
}

/// Sets the group and the cap of an account.
fn put_membership(
    alloc: Global,
    table: &mut Table,
    groups: &[Group],
    account: &Account,
) -> Result<(), AllocError>
    requires { account.now.group < length groups.now }
    ensures { OnOk result (table_view table.new
        ≡ put_keys (member_keys groups.now account.now) (table_view table.old)) }
{
    put_name(alloc, table, "group", group_name(groups, account.group))?;
    put_number(alloc, table, "cap", account.cap)
}

/// The table of an account.
#[tactic(auto, unfolding(crate::specs::Entries::account_tree))]
pub(crate) fn account_table(
    alloc: Global,
    groups: &[Group],
    account: &Account,
) -> Result<Table, AllocError>
    requires { KeepsAccount 1000000 (length groups.now) account.now }
    ensures { IfOk result (λ t. table_view t ≡ account_tree groups.now account.now) }
{
    let mut table = Table::new(alloc);
    put_credentials(alloc, &mut table, account)?;
    put_membership(alloc, &mut table, groups, account)?;
    Ok(table)
}

/// Sets all keys of a relay but its user.
fn put_relay(
    alloc: Global,
    table: &mut Table,
    mounts: &[Mount],
    relay: &Relay,
) -> Result<(), AllocError>
    requires { KeepsRelay (length mounts.now) relay.now }
    ensures { OnOk result (table_view table.new
        ≡ put_keys (relay_keys mounts.now relay.now) (table_view table.old)) }
{
    put_name(alloc, table, "mount", mount_name(mounts, relay.mount))?;
    put_text(alloc, table, "address", relay.address.bytes())?;
    put_name(alloc, table, "upstream", relay.upstream.bytes())?;
    put_number(alloc, table, "protocol", relay.protocol)?;
    put_text(alloc, table, "password", relay.password.bytes())
}

/// Sets the user of a relay, if it has one.
fn put_user(alloc: Global, table: &mut Table, user: &Option<UserName>) -> Result<(), AllocError>
    ensures { OnOk result (table_view table.new ≡ with_user user.now (table_view table.old)) }
{
    match user {
        None => Ok(()),
        Some(user) => put_name(alloc, table, "user", user.bytes()),
    }
}

/// The table of a relay.
#[tactic(auto, unfolding(crate::specs::Entries::relay_tree))]
pub(crate) fn relay_table(
    alloc: Global,
    mounts: &[Mount],
    relay: &Relay,
) -> Result<Table, AllocError>
    requires { KeepsRelay (length mounts.now) relay.now }
    ensures { IfOk result (λ t. table_view t ≡ relay_tree mounts.now relay.now) }
{
    let mut table = Table::new(alloc);
    put_relay(alloc, &mut table, mounts, relay)?;
    put_user(alloc, &mut table, &relay.user)?;
    Ok(table)
}

/// The table of who has no account.
#[tactic(auto, unfolding(crate::specs::Entries::anonymous_tree))]
pub(crate) fn anonymous_table(
    alloc: Global,
    groups: &[Group],
    anonymous: Anonymous,
) -> Result<Table, AllocError>
    requires { KeepsAnonymous 1000000 (length groups.now) anonymous }
    ensures { IfOk result (λ t. table_view t ≡ anonymous_tree groups.now anonymous) }
{
    let mut table = Table::new(alloc);
    put_name(
        alloc,
        &mut table,
        "group",
        group_name(groups, anonymous.group),
    )?;
    put_number(alloc, &mut table, "cap", anonymous.cap)?;
    Ok(table)
}
