//! The lists of a document: of numbers, of names, of filters and of entries.

ghost use Rattle.std.specs.Prelude.{◌≡◌, ◌<◌, ◌+◌, All, IfOk, IsTrue, Ok, OnOk, length};
ghost use Rattle.std.specs.Fn.{TakesAt};
ghost use Rattle.std.specs.Str.{is_utf8};
ghost use Rattle.sourcetable.specs.Record.{line_of};
ghost use Rattle.cast_config.specs.Kept.{KeepsAccount, KeepsGroup, KeepsMount, KeepsNear, KeepsRelay, filtered};
ghost use Rattle.cast_config.specs.Names.{heard_names, mount_names};
ghost use Rattle.config_write.specs.Entries.{accounts_data, filter_keys, filter_tree, groups_data, mounts_data, name_data, nears_data, relays_data, types_data};
ghost use Rattle.config_write.specs.Members.{list_data, number, put_keys};
ghost use Rattle.toml.specs.Data.{Data, array, string, table};
ghost use Rattle.toml.specs.View.{items_view, table_view, view};

use crate::entries::{
    account_table, group_table, heard_name, mount_name, mount_table, near_table, relay_table,
};
use crate::members::{name_value, put, put_name, text_value};
use cast_config::{Account, Group, GroupFilter, Mount, Near, Relay};
use sourcetable::{Record, push_record};
use std::alloc::{AllocError, Global};
use toml::{Table, Value};
use type_filter::Filter;

/// The values that the function makes of these, in their order.
fn values_of<T, F: Fn(&T) -> Result<Value, AllocError>>(
    alloc: Global,
    items: &[T],
    one: F,
) -> Result<Vec<Value>, AllocError>
    requires { All (TakesAt F.FnMut one) items.now }
    ensures { (data_of : T → Data)
        → All (λ item. (shown value : _) → shown.now ≡ item → F.post one shown (Ok value)
        → view value ≡ data_of item) items.now
        → IfOk result (λ v. array (items_view v.items) ≡ list_data data_of items.now) }
{
    let mut values = Vec::new(alloc);
    for item in items {
        let value = one(item)?;
        values.push(value)?;
    }
    Ok(values)
}

fn number_values(alloc: Global, numbers: &[u16]) -> Result<Vec<Value>, AllocError>
    ensures { IfOk result (λ v. array (items_view v.items) ≡ list_data number numbers.now) }
{
    values_of(alloc, numbers, |n| Ok(Value::from(u32::from(*n))))
}

/// The text `all`, or the list of a filter's message numbers.
pub(crate) fn types_value(alloc: Global, filter: &Filter) -> Result<Value, AllocError>
    ensures { IfOk result (λ v. view v ≡ types_data filter.now) }
{
    match filter.numbers() {
        None => Value::string(alloc, "all"),
        Some(numbers) => {
            let values = number_values(alloc, numbers)?;
            Ok(Value::from(values))
        }
    }
}

/// The names of the mountpoints of these numbers.
pub(crate) fn base_values(
    alloc: Global,
    mounts: &[Mount],
    numbers: &[u32],
) -> Result<Vec<Value>, AllocError>
    requires { All (λ n. n < length mounts.now) numbers.now }
    ensures { IfOk result (λ v. array (items_view v.items)
        ≡ list_data (name_data (mount_names mounts.now)) numbers.now) }
{
    values_of(
        alloc,
        numbers,
        |n| name_value(alloc, mount_name(mounts, *n)),
    )
}

/// The names of the mountpoints and near mountpoints of these numbers.
pub(crate) fn heard_values(
    alloc: Global,
    mounts: &[Mount],
    nears: &[Near],
    numbers: &[u32],
) -> Result<Vec<Value>, AllocError>
    requires { All (λ n. n < length mounts.now + length nears.now) numbers.now }
    ensures { IfOk result (λ v. array (items_view v.items)
        ≡ list_data (name_data (heard_names mounts.now nears.now)) numbers.now) }
{
    values_of(
        alloc,
        numbers,
        |n| name_value(alloc, heard_name(mounts, nears, *n)),
    )
}

/// Sets the mountpoint of a filter and its message numbers.
fn put_filter(
    alloc: Global,
    table: &mut Table,
    mounts: &[Mount],
    filter: &GroupFilter,
) -> Result<(), AllocError>
    requires { filter.now.mount < length mounts.now }
    ensures { OnOk result (table_view table.new
        ≡ put_keys (filter_keys (mount_names mounts.now) filter.now) (table_view table.old)) }
{
    put_name(alloc, table, "mount", mount_name(mounts, filter.mount))?;
    let types = types_value(alloc, &filter.types)?;
    put(alloc, table, "types", types)
}

/// The table of a filter for one mountpoint.
fn filter_table(alloc: Global, mounts: &[Mount], filter: &GroupFilter) -> Result<Table, AllocError>
    requires { filter.now.mount < length mounts.now }
    ensures { IfOk result (λ t. table_view t ≡ filter_tree (mount_names mounts.now) filter.now) }
{
    let mut table = Table::new(alloc);
    put_filter(alloc, &mut table, mounts, filter)?;
    Ok(table)
}

pub(crate) fn filter_values(
    alloc: Global,
    mounts: &[Mount],
    filters: &[GroupFilter],
) -> Result<Vec<Value>, AllocError>
    requires { All (λ n. n < length mounts.now) (filtered filters.now) }
    ensures { IfOk result (λ v. array (items_view v.items)
        ≡ list_data (λ f. table (filter_tree (mount_names mounts.now) f)) filters.now) }
{
    values_of(
        alloc,
        filters,
        |filter| Ok(Value::from(filter_table(alloc, mounts, filter)?)),
    )
}

#[tactic(auto, unfolding(crate::specs::Entries::mounts_data))]
pub(crate) fn mount_values(alloc: Global, mounts: &[Mount]) -> Result<Vec<Value>, AllocError>
    requires { All KeepsMount mounts.now }
    ensures { IfOk result (λ v. array (items_view v.items)
        ≡ mounts_data mounts.now) }
{
    values_of(
        alloc,
        mounts,
        |mount| Ok(Value::from(mount_table(alloc, mount)?)),
    )
}

#[tactic(auto, unfolding(crate::specs::Entries::nears_data))]
pub(crate) fn near_values(
    alloc: Global,
    mounts: &[Mount],
    nears: &[Near],
) -> Result<Vec<Value>, AllocError>
    requires { All (KeepsNear (length mounts.now)) nears.now }
    ensures { IfOk result (λ v. array (items_view v.items)
        ≡ nears_data mounts.now nears.now) }
{
    values_of(
        alloc,
        nears,
        |near| Ok(Value::from(near_table(alloc, mounts, near)?)),
    )
}

#[tactic(auto, unfolding(crate::specs::Entries::groups_data))]
pub(crate) fn group_values(
    alloc: Global,
    mounts: &[Mount],
    nears: &[Near],
    groups: &[Group],
) -> Result<Vec<Value>, AllocError>
    requires { All (KeepsGroup (length mounts.now) (length nears.now)) groups.now }
    ensures { IfOk result (λ v. array (items_view v.items)
        ≡ groups_data mounts.now nears.now groups.now) }
{
    values_of(
        alloc,
        groups,
        |group| Ok(Value::from(group_table(alloc, mounts, nears, group)?)),
    )
}

#[tactic(auto, unfolding(crate::specs::Entries::accounts_data))]
pub(crate) fn account_values(
    alloc: Global,
    groups: &[Group],
    accounts: &[Account],
) -> Result<Vec<Value>, AllocError>
    requires { All (KeepsAccount 1000000 (length groups.now)) accounts.now }
    ensures { IfOk result (λ v. array (items_view v.items)
        ≡ accounts_data groups.now accounts.now) }
{
    values_of(
        alloc,
        accounts,
        |account| Ok(Value::from(account_table(alloc, groups, account)?)),
    )
}

#[tactic(auto, unfolding(crate::specs::Entries::relays_data))]
pub(crate) fn relay_values(
    alloc: Global,
    mounts: &[Mount],
    relays: &[Relay],
) -> Result<Vec<Value>, AllocError>
    requires { All (KeepsRelay (length mounts.now)) relays.now }
    ensures { IfOk result (λ v. array (items_view v.items)
        ≡ relays_data mounts.now relays.now) }
{
    values_of(
        alloc,
        relays,
        |relay| Ok(Value::from(relay_table(alloc, mounts, relay)?)),
    )
}

/// The line of a record, as a string.
fn line_value(alloc: Global, entry: &Record) -> Result<Value, AllocError>
    requires { IsTrue (is_utf8 (line_of entry.now)) }
    ensures { IfOk result (λ v. view v ≡ string (line_of entry.now)) }
{
    let mut line = Vec::new(alloc);
    push_record(entry, &mut line)?;
    text_value(alloc, &line)
}

pub(crate) fn record_values(alloc: Global, records: &[Record]) -> Result<Vec<Value>, AllocError>
    requires { All (λ r. IsTrue (is_utf8 (line_of r))) records.now }
    ensures { IfOk result (λ v. array (items_view v.items)
        ≡ list_data (λ r. string (line_of r)) records.now) }
{
    values_of(alloc, records, |entry| line_value(alloc, entry))
}
