//! The entries of a configuration, each read from its table: one call a key, in the order in which
//! the keys are tested.

ghost use Rattle.std.specs.Prelude.{◌≡◌, ◌≤◌, [], length, map, IfOk, IsTrue, None};
ghost use Rattle.cast_text.specs.Name.{is_name};
ghost use Rattle.config_keys.specs.Answers.{Gives, GivesBy};
ghost use Rattle.config_keys.specs.Lists.{each_of};
ghost use Rattle.config_keys.specs.Rules.{required, optional, seen};
ghost use Rattle.config_keys.specs.Texts.{name};
ghost use Rattle.cast_config.specs.Names.{mount_names, heard_names, new_name, named, all_named, entries_once, filters_at, filter_at, some_of};
ghost use Rattle.cast_config.specs.Entries.{place, near_of, hearing_of, given_of, group_of, credentials_of, membership_of, account_of, pull_of, relay_of, anonymous_in, anonymous_of, filters_by};
ghost use Rattle.toml.specs.View.{view, table_view};

use crate::config::{Account, Anonymous, Group, GroupFilter, Mount, Near, Relay};
use crate::known::{
    Named, differ, has_name, heard_numbers, is_heard, names, number_of, numbers_of,
};
use crate::lists::{GroupFilters, Numbers};
use cast_text::{GroupName, MountName, Text, UserName};
use config_keys::{
    FilterEntry, Key, KeyFault, TextKind, count, count_or, filter_entries, group_name, mount_name,
    name_bytes, text, text_or, types, user_name, value_at, whole,
};
use std::alloc::Global;
use toml::{Table, Value};
use type_filter::Filter;

/// The key of an entry of a list.
pub(crate) fn place(list: u32, entry: u32, key: u32) -> Key
    ensures { result ≡ place list entry key }
{
    Key { list, entry, key }
}

/// The bytes of a name that none of these has.
#[tactic(auto, unfolding(crate::specs::Names::new_name))]
pub(crate) fn new_name<'v, T: Named>(
    value: Option<&'v Value>,
    key: Key,
    before: &[T],
) -> Result<&'v [u8], KeyFault>
    ensures read { GivesBy (λ bytes. bytes.now) result
        (required (new_name (map T.title before.now)) key (seen value.entry)) }
    ensures name { IfOk result (λ bytes. IsTrue (is_name bytes.now)) }
{
    let bytes = name_bytes(value, key)?;
    if has_name(before, bytes) {
        return Err(KeyFault::Twice(key));
    }
    Ok(bytes)
}

/// The number of what has to be named at a key.
#[tactic(auto, unfolding(crate::specs::Names::named))]
fn number_named<T: Named>(value: Option<&Value>, key: Key, items: &[T]) -> Result<u32, KeyFault>
    requires { length items.now ≤ 1024 }
    ensures { Gives result (required (named (map T.title items.now)) key (seen value.entry)) }
{
    let bytes = name_bytes(value, key)?;
    number_of(items, bytes, key)
}

/// The name of a near mountpoint that none of these has.
#[tactic(auto, unfolding(crate::specs::Names::new_name))]
fn new_near_name(
    alloc: Global,
    value: Option<&Value>,
    key: Key,
    mounts: &[Mount],
    before: &[Near],
) -> Result<MountName, KeyFault>
    ensures { Gives result
        (required (new_name (heard_names mounts.now before.now)) key (seen value.entry)) }
{
    let bytes = name_bytes(value, key)?;
    if is_heard(mounts, before, bytes) {
        return Err(KeyFault::Twice(key));
    }
    mount_name(alloc, bytes)
}

/// The bases of a near mountpoint.
fn bases(
    alloc: Global,
    value: Option<&Value>,
    key: Key,
    mounts: &[Mount],
) -> Result<Numbers, KeyFault>
    requires { length mounts.now ≤ 64 }
    ensures { Gives result
        (required (all_named (mount_names mounts.now) 1 16) key (seen value.entry)) }
{
    let names = names(alloc, value, key, 1, 16)?;
    let numbers = numbers_of(alloc, mounts, &names, key)?;
    Ok(Numbers::new(numbers))
}

/// The mountpoints of a group.
fn heard(
    alloc: Global,
    value: Option<&Value>,
    key: Key,
    mounts: &[Mount],
    nears: &[Near],
) -> Result<Numbers, KeyFault>
    requires mounts { length mounts.now ≤ 64 }
    requires nears { length nears.now ≤ 64 }
    ensures { Gives result
        (required (all_named (heard_names mounts.now nears.now) 0 64) key (seen value.entry)) }
{
    let names = names(alloc, value, key, 0, 64)?;
    let numbers = heard_numbers(alloc, mounts, nears, &names, key)?;
    Ok(Numbers::new(numbers))
}

/// The near mountpoint of number `n`, from 1, of a table that stands behind these.
#[tactic(auto, unfolding(crate::specs::Entries::near_of))]
pub(crate) fn near_in(
    alloc: Global,
    mounts: &[Mount],
    n: u32,
    before: &[Near],
    table: &Table,
) -> Result<Near, KeyFault>
    requires { length mounts.now ≤ 64 }
    ensures { Gives result (near_of mounts.now n before.now (table_view table.now)) }
{
    let name = new_near_name(
        alloc,
        value_at(table, "name"),
        place(6, n, 1),
        mounts,
        before,
    )?;
    let bases = bases(alloc, value_at(table, "bases"), place(6, n, 2), mounts)?;
    Ok(Near { name, bases })
}

/// The filters of a group for single mountpoints, which are a key of version 2.
fn filters_by(
    alloc: Global,
    version: u32,
    value: Option<&Value>,
    key: Key,
    mounts: &[Mount],
) -> Result<GroupFilters, KeyFault>
    requires { length mounts.now ≤ 64 }
    ensures { Gives result (filters_by version mounts.now key (seen value.entry)) }
{
    if version == 1 {
        return Ok(GroupFilters::new(Vec::new(alloc)));
    }
    match value {
        None => Ok(GroupFilters::new(Vec::new(alloc))),
        Some(value) => filters_in(alloc, value, key, mounts),
    }
}

#[tactic(auto, unfolding(crate::specs::Names::entries_once))]
fn entries_once(alloc: Global, value: &Value, key: Key) -> Result<Vec<FilterEntry>, KeyFault>
    ensures { GivesBy (λ v. v.items) result (entries_once key (view value.now)) }
{
    let entries = filter_entries(alloc, value, key)?;
    if differ(&entries) {
        Ok(entries)
    } else {
        Err(KeyFault::Twice(key))
    }
}

fn filters_in(
    alloc: Global,
    value: &Value,
    key: Key,
    mounts: &[Mount],
) -> Result<GroupFilters, KeyFault>
    requires { length mounts.now ≤ 64 }
    ensures { Gives result (filters_at (mount_names mounts.now) key (view value.now)) }
{
    let entries = entries_once(alloc, value, key)?;
    let filters = numbered_filters(alloc, entries, key, mounts)?;
    Ok(GroupFilters::new(filters))
}

/// The filter of this entry, with the number of its mountpoint in place of the name.
fn numbered_filter(entry: FilterEntry, key: Key, mounts: &[Mount]) -> Result<GroupFilter, KeyFault>
    requires { length mounts.now ≤ 64 }
    ensures { result ≡ filter_at key (mount_names mounts.now) entry }
{
    let mount = number_of(mounts, entry.mount.bytes(), key)?;
    Ok(GroupFilter {
        mount,
        types: entry.types,
    })
}

/// The filters of these entries, each with the number of its mountpoint in place of the name.
fn numbered_filters(
    alloc: Global,
    entries: Vec<FilterEntry>,
    key: Key,
    mounts: &[Mount],
) -> Result<Vec<GroupFilter>, KeyFault>
    requires { length mounts.now ≤ 64 }
    ensures { GivesBy (λ v. v.items) result
        (each_of (filter_at key (mount_names mounts.now)) [] entries.items) }
{
    let mut filters = Vec::new(alloc);
    for entry in entries {
        let filter = numbered_filter(entry, key, mounts)?;
        filters.push(filter)?;
    }
    Ok(filters)
}

/// The name of a group, and what it lists.
#[derive(Drop)]
struct Hearing {
    name: GroupName,
    mounts: Numbers,
}

#[tactic(auto, unfolding(crate::specs::Entries::hearing_of))]
fn hearing_in(
    alloc: Global,
    mounts: &[Mount],
    nears: &[Near],
    n: u32,
    before: &[Group],
    table: &Table,
) -> Result<Hearing, KeyFault>
    requires mounts { length mounts.now ≤ 64 }
    requires nears { length nears.now ≤ 64 }
    ensures { Gives result
        (hearing_of mounts.now nears.now n before.now (table_view table.now)) }
{
    let name = new_name(value_at(table, "name"), place(7, n, 1), before)?;
    let name = group_name(alloc, name)?;
    let listed = value_at(table, "mounts");
    let mounts = heard(alloc, listed, place(7, n, 2), mounts, nears)?;
    Ok(Hearing { name, mounts })
}

/// Which frames a group is given.
#[derive(Drop)]
struct Given {
    types: Filter,
    filter: GroupFilters,
}

#[tactic(auto, unfolding(crate::specs::Entries::given_of))]
fn given_in(
    alloc: Global,
    version: u32,
    mounts: &[Mount],
    n: u32,
    table: &Table,
) -> Result<Given, KeyFault>
    requires { length mounts.now ≤ 64 }
    ensures { Gives result (given_of version mounts.now n (table_view table.now)) }
{
    let types = types(alloc, value_at(table, "types"), place(7, n, 3))?;
    let filter = value_at(table, "filter");
    let filter = filters_by(alloc, version, filter, place(7, n, 4), mounts)?;
    Ok(Given { types, filter })
}

/// The group of number `n`, from 1, of a table that stands behind these.
#[tactic(auto, unfolding(crate::specs::Entries::group_of))]
pub(crate) fn group_in(
    alloc: Global,
    version: u32,
    mounts: &[Mount],
    nears: &[Near],
    n: u32,
    before: &[Group],
    table: &Table,
) -> Result<Group, KeyFault>
    requires mounts { length mounts.now ≤ 64 }
    requires nears { length nears.now ≤ 64 }
    ensures { Gives result
        (group_of version mounts.now nears.now n before.now (table_view table.now)) }
{
    let hearing = hearing_in(alloc, mounts, nears, n, before, table)?;
    let given = given_in(alloc, version, mounts, n, table)?;
    Ok(Group {
        name: hearing.name,
        mounts: hearing.mounts,
        types: given.types,
        filter: given.filter,
    })
}

/// How a rover of an account shows that it is one.
#[derive(Drop)]
struct Credentials {
    user: UserName,
    password: Text,
}

#[tactic(auto, unfolding(crate::specs::Entries::credentials_of))]
fn credentials_in(
    alloc: Global,
    n: u32,
    before: &[Account],
    table: &Table,
) -> Result<Credentials, KeyFault>
    ensures { Gives result (credentials_of n before.now (table_view table.now)) }
{
    let user = new_name(value_at(table, "user"), place(8, n, 1), before)?;
    let user = user_name(alloc, user)?;
    let password = value_at(table, "password");
    let password = text(alloc, password, place(8, n, 2), TextKind::Secret)?;
    Ok(Credentials { user, password })
}

/// The group of an account, and how many sessions it may have open.
#[derive(Clone, Copy)]
struct Membership {
    group: u32,
    cap: u32,
}

#[tactic(auto, unfolding(crate::specs::Entries::membership_of))]
fn membership_in(groups: &[Group], n: u32, table: &Table) -> Result<Membership, KeyFault>
    requires { length groups.now ≤ 64 }
    ensures { Gives result (membership_of groups.now n (table_view table.now)) }
{
    let group = number_named(value_at(table, "group"), place(8, n, 3), groups)?;
    let cap = count(value_at(table, "cap"), place(8, n, 4), 1, 1_000_000)?;
    Ok(Membership { group, cap })
}

/// The account of number `n`, from 1, of a table that stands behind these.
#[tactic(auto, unfolding(crate::specs::Entries::account_of))]
pub(crate) fn account_in(
    alloc: Global,
    groups: &[Group],
    n: u32,
    before: &[Account],
    table: &Table,
) -> Result<Account, KeyFault>
    requires { length groups.now ≤ 64 }
    ensures { Gives result (account_of groups.now n before.now (table_view table.now)) }
{
    let credentials = credentials_in(alloc, n, before, table)?;
    let membership = membership_in(groups, n, table)?;
    Ok(Account {
        user: credentials.user,
        password: credentials.password,
        group: membership.group,
        cap: membership.cap,
    })
}

fn user_or_none(
    alloc: Global,
    value: Option<&Value>,
    key: Key,
) -> Result<Option<UserName>, KeyFault>
    ensures { Gives result (optional None (some_of name) key (seen value.entry)) }
{
    match value {
        None => Ok(None),
        Some(value) => {
            let bytes = name_bytes(Some(value), key)?;
            let user = user_name(alloc, bytes)?;
            Ok(Some(user))
        }
    }
}

fn upstream_name(alloc: Global, value: Option<&Value>, key: Key) -> Result<MountName, KeyFault>
    ensures { Gives result (required name key (seen value.entry)) }
{
    let bytes = name_bytes(value, key)?;
    mount_name(alloc, bytes)
}

/// What a relay pulls, and for which mountpoint.
#[derive(Drop)]
struct Pull {
    mount: u32,
    address: Text,
    upstream: MountName,
}

#[tactic(auto, unfolding(crate::specs::Entries::pull_of))]
fn pull_in(alloc: Global, mounts: &[Mount], n: u32, table: &Table) -> Result<Pull, KeyFault>
    requires { length mounts.now ≤ 64 }
    ensures { Gives result (pull_of mounts.now n (table_view table.now)) }
{
    let mount = number_named(value_at(table, "mount"), place(9, n, 1), mounts)?;
    let address = value_at(table, "address");
    let address = text(alloc, address, place(9, n, 2), TextKind::Address)?;
    let upstream = upstream_name(alloc, value_at(table, "upstream"), place(9, n, 3))?;
    Ok(Pull {
        mount,
        address,
        upstream,
    })
}

/// The relay of number `n`, from 1, of a table.
#[tactic(auto, unfolding(crate::specs::Entries::relay_of))]
pub(crate) fn relay_in(
    alloc: Global,
    mounts: &[Mount],
    n: u32,
    table: &Table,
) -> Result<Relay, KeyFault>
    requires { length mounts.now ≤ 64 }
    ensures { Gives result (relay_of mounts.now n (table_view table.now)) }
{
    let pull = pull_in(alloc, mounts, n, table)?;
    let protocol = count(value_at(table, "protocol"), place(9, n, 4), 1, 2)?;
    let user = user_or_none(alloc, value_at(table, "user"), place(9, n, 5))?;
    let password = value_at(table, "password");
    let password = text_or(alloc, password, place(9, n, 6), TextKind::Secret, b"")?;
    Ok(Relay {
        mount: pull.mount,
        address: pull.address,
        upstream: pull.upstream,
        protocol,
        user,
        password,
    })
}

#[tactic(auto, unfolding(crate::specs::Entries::anonymous_in))]
fn anonymous_in(groups: &[Group], table: &Table) -> Result<Anonymous, KeyFault>
    requires { length groups.now ≤ 64 }
    ensures { Gives result (anonymous_in groups.now (table_view table.now)) }
{
    let group = number_named(value_at(table, "group"), place(10, 0, 1), groups)?;
    let cap = count(value_at(table, "cap"), place(10, 0, 2), 1, 1_000_000)?;
    Ok(Anonymous { group, cap })
}

/// Who gives no credentials, if the file says so.
pub(crate) fn anonymous_or_none(
    value: Option<&Value>,
    key: Key,
    groups: &[Group],
) -> Result<Option<Anonymous>, KeyFault>
    requires { length groups.now ≤ 64 }
    ensures { Gives result
        (optional None (some_of (anonymous_of groups.now)) key (seen value.entry)) }
{
    let Some(value) = value else {
        return Ok(None);
    };
    let Some(table) = value.as_table() else {
        return Err(KeyFault::Wrong(key));
    };
    let anonymous = anonymous_in(groups, table)?;
    Ok(Some(anonymous))
}
