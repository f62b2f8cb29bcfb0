//! The lists of a configuration: each entry is read with its number and those before it.

ghost use Rattle.std.specs.Prelude.{◌≡◌, ◌≤◌, ◌-◌, ℕ, List, [], length, IfOk};
ghost use Rattle.config_keys.specs.Answers.{Gives, GivesBy, Read};
ghost use Rattle.config_keys.specs.Rules.{seen};
ghost use Rattle.cast_config.specs.Entries.{top, mount_of, near_of, group_of, account_of, relay_of};
ghost use Rattle.cast_config.specs.Document.{entries, listed, listed_or_none, most_groups};
ghost use Rattle.toml.specs.Data.{Members};
ghost use Rattle.toml.specs.View.{items_view, table_view};

use crate::config::{Account, Group, Mount, Near, Relay};
use crate::entries::{account_in, group_in, near_in, place, relay_in};
use crate::lists::{Accounts, Groups, Mounts, Nears, Relays};
use crate::mountpoint::mount_in;
use config_keys::{Key, KeyFault, tables, tables_or};
use std::alloc::Global;
use toml::{Table, Value};

/// A top key.
pub(crate) fn top(list: u32) -> Key
    ensures { result ≡ top list }
{
    place(list, 0, 0)
}

/// The entries that the function reads of these tables, each with its number, from 1, and those
/// before it.
fn each<T: Drop, F: Fn(u32, &[T], &Table) -> Result<T, KeyFault>>(
    alloc: Global,
    key: Key,
    values: &[Value],
    one: F,
) -> Result<Vec<T>, KeyFault>
    requires values { length values.now ≤ 1024 }
    requires one { F.IsAlwaysCallable one }
    ensures read { (rule : ℕ → List T → Members → Read T)
        → ((n : ℕ) (before table entry : _)
        → F.post one n before table entry
        → Gives entry (rule n before.now (table_view table.now)))
        → GivesBy (λ v. v.items) result (entries key rule 1 [] (items_view values.now)) }
    ensures length { IfOk result (λ v. length v.items ≡ length values.now) }
{
    let mut list = Vec::new(alloc);
    for i in 0..values.len() {
        let Some(table) = values[i].as_table() else {
            return Err(KeyFault::Wrong(key));
        };
        let entry = one(i as u32 + 1, &list, table)?;
        list.push(entry)?;
    }
    Ok(list)
}

/// The mountpoints.
pub(crate) fn mounts(alloc: Global, value: Option<&Value>) -> Result<Mounts, KeyFault>
    ensures read { Gives result (listed mount_of 1 64 (top 5) (seen value.entry)) }
    ensures few { IfOk result (λ list. length list ≤ 64) }
{
    let values = tables(value, top(5), 1, 64)?;
    let one = |n: u32, before: &[Mount], table: &Table| mount_in(alloc, n, before, table);
    let list = each(alloc, top(5), values, one)?;
    Ok(Mounts::new(list))
}

/// The near mountpoints.
pub(crate) fn nears(
    alloc: Global,
    value: Option<&Value>,
    mounts: &[Mount],
) -> Result<Nears, KeyFault>
    requires { length mounts.now ≤ 64 }
    ensures read { Gives result
        (listed_or_none (near_of mounts.now) (64 - length mounts.now) (top 6) (seen value.entry)) }
    ensures few { IfOk result (λ list. length list ≤ 64) }
{
    let values = tables_or(value, top(6), 64 - mounts.len())?;
    let one = |n: u32, before: &[Near], table: &Table| near_in(alloc, mounts, n, before, table);
    let list = each(alloc, top(6), values, one)?;
    Ok(Nears::new(list))
}

/// How many groups a file of this version may have.
fn most_groups(version: u32) -> usize
    ensures value { result ≡ most_groups version }
    ensures few { result ≤ 64 }
{
    if version == 1 { 16 } else { 64 }
}

/// The groups.
pub(crate) fn groups(
    alloc: Global,
    value: Option<&Value>,
    version: u32,
    mounts: &[Mount],
    nears: &[Near],
) -> Result<Groups, KeyFault>
    requires mounts { length mounts.now ≤ 64 }
    requires nears { length nears.now ≤ 64 }
    ensures read { Gives result
        (listed (group_of version mounts.now nears.now) 1 (most_groups version) (top 7)
        (seen value.entry)) }
    ensures some { IfOk result (λ list. 1 ≤ length list) }
    ensures few { IfOk result (λ list. length list ≤ 64) }
{
    let values = tables(value, top(7), 1, most_groups(version))?;
    let one = |n: u32, before: &[Group], table: &Table| {
        group_in(alloc, version, mounts, nears, n, before, table)
    };
    let list = each(alloc, top(7), values, one)?;
    Ok(Groups::new(list))
}

/// The accounts.
pub(crate) fn accounts(
    alloc: Global,
    value: Option<&Value>,
    groups: &[Group],
) -> Result<Accounts, KeyFault>
    requires { length groups.now ≤ 64 }
    ensures { Gives result
        (listed_or_none (account_of groups.now) 1024 (top 8) (seen value.entry)) }
{
    let values = tables_or(value, top(8), 1024)?;
    let one = |n: u32, before: &[Account], table: &Table| {
        account_in(alloc, groups, n, before, table)
    };
    let list = each(alloc, top(8), values, one)?;
    Ok(Accounts::new(list))
}

/// The relays.
pub(crate) fn relays(
    alloc: Global,
    value: Option<&Value>,
    mounts: &[Mount],
) -> Result<Relays, KeyFault>
    requires { length mounts.now ≤ 64 }
    ensures { Gives result
        (listed_or_none (λ n before. relay_of mounts.now n) 16 (top 9) (seen value.entry)) }
{
    let values = tables_or(value, top(9), 16)?;
    let one = |n: u32, _before: &[Relay], table: &Table| relay_in(alloc, mounts, n, table);
    let list = each(alloc, top(9), values, one)?;
    Ok(Relays::new(list))
}
