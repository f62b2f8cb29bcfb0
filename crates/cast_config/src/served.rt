//! Which frames the rovers of each group are given at each mountpoint.

ghost use Rattle.std.specs.Prelude.{◌≡◌, ◌≤◌, ◌<◌, length, IfOk};
ghost use Rattle.cast_config.specs.Served.{all_filters, filter_for, filters_of};

use crate::config::{Group, GroupFilter, Mount};
use crate::lists::FilterTable;
use std::alloc::{AllocError, Global};
use type_filter::{Filter, Filters};

/// The filter that a list gives for the mountpoint, else this one.
fn filter_for(
    alloc: Global,
    mount: u32,
    types: &Filter,
    filters: &[GroupFilter],
) -> Result<Filter, AllocError>
    ensures { IfOk result (λ filter. filter ≡ filter_for mount types.now filters.now) }
{
    for filter in filters {
        if filter.mount == mount {
            return filter.types.copy(alloc);
        }
    }
    types.copy(alloc)
}

/// The filters at a mountpoint, one a group.
fn filters_of(alloc: Global, groups: &[Group], mount: u32) -> Result<Filters, AllocError>
    requires some { 1 ≤ length groups.now }
    requires few { length groups.now ≤ 64 }
    ensures { IfOk result (λ filters. filters ≡ filters_of groups.now mount) }
{
    let mut list = Vec::new(alloc);
    for group in groups {
        let filter = filter_for(alloc, mount, &group.types, group.filter.as_slice())?;
        list.push(filter)?;
    }
    Ok(Filters::new(list))
}

/// For each mountpoint the filters of all groups.
pub(crate) fn all_filters(
    alloc: Global,
    mounts: &[Mount],
    groups: &[Group],
) -> Result<FilterTable, AllocError>
    requires mounts { length mounts.now ≤ 64 }
    requires some { 1 ≤ length groups.now }
    requires few { length groups.now ≤ 64 }
    ensures { IfOk result (λ table. table ≡ all_filters mounts.now groups.now) }
{
    let mut table = Vec::new(alloc);
    for m in 0..mounts.len() {
        let filters = filters_of(alloc, groups, m as u32)?;
        table.push(filters)?;
    }
    Ok(FilterTable::new(table))
}
