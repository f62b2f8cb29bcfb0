//! Filters: the message numbers of a group, and those of single mountpoints.

ghost use Rattle.std.specs.Prelude.{◌≡◌, List, Result, true, None, Ok, [], position, IfOk};
ghost use Rattle.config_keys.specs.Answers.{Gives, GivesBy, Read};
ghost use Rattle.config_keys.specs.Lists.{each_of};
ghost use Rattle.config_keys.specs.Rules.{required, seen};
ghost use Rattle.config_keys.specs.Types.{at_most, both, each_filter, filter_entry, filter_in, filters, first_of, message_number, push, rank, types, with_fault};
ghost use Rattle.config_keys.specs.Texts.{name};
ghost use Rattle.config_keys.specs.declared.filters.FilterEntry.{FilterEntry as Entry};
ghost use Rattle.toml.specs.View.{view, items_view};
ghost use Rattle.type_filter.specs.Numbers.{in_order, is_good_count, is_too_high};
ghost use Rattle.type_filter.specs.Permitted.{Listed};

use crate::fault::KeyFault;
use crate::key::{Key, value_at};
use crate::lists::integers;
use crate::strings::{mount_name, name_bytes};
use cast_text::MountName;
use std::alloc::Global;
use toml::{Table, Value};
use type_filter::{Filter, FilterFault};

/// The filter of a group for one mountpoint, as the file has it.
#[derive(Drop)]
pub struct FilterEntry {
    /// The name of the mountpoint.
    pub mount: MountName,
    /// The filter.
    pub types: Filter,
}

fn message_number(whole: i64, key: Key) -> Result<u16, KeyFault>
    ensures { result ≡ message_number key whole }
{
    if 0 <= whole && whole <= 4095 {
        Ok(whole as u16)
    } else {
        Err(KeyFault::Range(key))
    }
}

fn message_numbers(alloc: Global, whole: &[i64], key: Key) -> Result<Vec<u16>, KeyFault>
    ensures read { GivesBy (λ v. v.items) result (each_of (message_number key) [] whole.now) }
    ensures low { IfOk result (λ v. position is_too_high v.items ≡ None) }
{
    let mut numbers = Vec::new(alloc);
    for number in whole {
        let number = message_number(*number, key)?;
        numbers.push(number)?;
    }
    Ok(numbers)
}

/// The filter of these numbers.
fn filter_of(alloc: Global, numbers: &[u16]) -> Result<Filter, KeyFault>
    requires count { is_good_count numbers.now ≡ true }
    requires low { position is_too_high numbers.now ≡ None }
    ensures { Gives result (Ok (Listed (in_order numbers.now))) }
{
    match Filter::list(alloc, numbers) {
        Ok(filter) => Ok(filter),
        Err(FilterFault::Count(_)) => unreachable!(),
        Err(FilterFault::Number(_)) => unreachable!(),
        Err(FilterFault::Memory) => Err(KeyFault::Memory),
    }
}

#[tactic(auto, unfolding(crate::specs::Types::types))]
fn types_of(alloc: Global, value: &Value, key: Key) -> Result<Filter, KeyFault>
    ensures { Gives result (types key (view value.now)) }
{
    if let Some(text) = value.as_str() {
        return if text == "all" {
            Ok(Filter::all())
        } else {
            Err(KeyFault::Range(key))
        };
    }
    let whole = integers(alloc, value, key)?;
    let numbers = message_numbers(alloc, &whole, key)?;
    if numbers.is_empty() || numbers.len() > 64 {
        return Err(KeyFault::Range(key));
    }
    filter_of(alloc, &numbers)
}

/// The filter that has to stand at a key: the text `all`, or a list of message numbers.
pub fn types(alloc: Global, value: Option<&Value>, key: Key) -> Result<Filter, KeyFault>
    ensures { Gives result (required types key (seen value.entry)) }
{
    match value {
        None => Err(KeyFault::Missing(key)),
        Some(value) => types_of(alloc, value, key),
    }
}

/// Of two faults of parts that are tested together, the one whose test comes first.
fn first_of(fault: KeyFault, other: KeyFault) -> KeyFault
    ensures { result ≡ first_of fault other }
{
    if rank(fault) <= rank(other) {
        fault
    } else {
        other
    }
}

/// The place of a fault's test in the order of the tests.
fn rank(fault: KeyFault) -> u32
    ensures { result ≡ rank fault }
{
    match fault {
        KeyFault::Memory => 0,
        KeyFault::Missing(_) => 1,
        KeyFault::Wrong(_) => 2,
        KeyFault::Range(_) => 3,
        KeyFault::Twice(_) => 4,
        KeyFault::Unknown(_) => 5,
    }
}

fn mount_of(alloc: Global, value: Option<&Value>, key: Key) -> Result<MountName, KeyFault>
    ensures { Gives result (required name key (seen value.entry)) }
{
    let bytes = name_bytes(value, key)?;
    mount_name(alloc, bytes)
}

/// The element of this name and filter, which are tested together.
fn filter_entry_of(
    mount: Result<MountName, KeyFault>,
    types: Result<Filter, KeyFault>,
) -> Result<FilterEntry, KeyFault>
    ensures { result ≡ both filter_entry mount types }
{
    match mount {
        Ok(mount) => match types {
            Ok(types) => Ok(FilterEntry { mount, types }),
            Err(other) => Err(other),
        },
        Err(fault) => match types {
            Ok(_) => Err(fault),
            Err(other) => Err(first_of(fault, other)),
        },
    }
}

#[tactic(auto, unfolding(crate::specs::Types::filter_in))]
fn filter_in(alloc: Global, value: &Value, key: Key) -> Result<FilterEntry, KeyFault>
    ensures { Gives result (filter_in key (view value.now)) }
{
    let Some(table) = value.as_table() else {
        return Err(KeyFault::Wrong(key));
    };
    let mount = mount_of(alloc, value_at(table, "mount"), key);
    let types = types(alloc, value_at(table, "types"), key);
    filter_entry_of(mount, types)
}

/// The fault of what came before, and that of the next element if it has one.
fn with_fault(fault: KeyFault, next: Result<FilterEntry, KeyFault>) -> KeyFault
    ensures { result ≡ with_fault fault next }
{
    match next {
        Ok(_) => fault,
        Err(other) => first_of(fault, other),
    }
}

/// One more element, tested together with those before it.
fn push_filter_entry(
    before: Result<Vec<FilterEntry>, KeyFault>,
    next: Result<FilterEntry, KeyFault>,
) -> Result<Vec<FilterEntry>, KeyFault>
    ensures { (all : Read (List Entry)) → (one : Read Entry) → GivesBy (λ v. v.items) before all
        → Gives next one → GivesBy (λ v. v.items) result (both push all one) }
{
    match before {
        Ok(mut list) => match next {
            Ok(entry) => {
                list.push(entry)?;
                Ok(list)
            }
            Err(other) => Err(other),
        },
        Err(fault) => Err(with_fault(fault, next)),
    }
}

fn each_filter(alloc: Global, values: &[Value], key: Key) -> Result<Vec<FilterEntry>, KeyFault>
    ensures { let ds = items_view values.now in
        GivesBy (λ v. v.items) result (each_filter key (at_most 64 key ds) ds) }
{
    let mut all = nothing_yet(alloc, values, key);
    for value in values {
        all = push_filter_entry(all, filter_in(alloc, value, key));
    }
    all
}

#[tactic(auto, using(crate::proofs::ListLemmas::count_is))]
fn nothing_yet(alloc: Global, values: &[Value], key: Key) -> Result<Vec<FilterEntry>, KeyFault>
    ensures { GivesBy (λ v. v.items) result (at_most 64 key (items_view values.now)) }
{
    if values.len() <= 64 {
        Ok(Vec::new(alloc))
    } else {
        Err(KeyFault::Range(key))
    }
}

/// The filters for single mountpoints of a list, which are tested together: the fault is the one
/// whose test comes first.
#[tactic(auto, unfolding(crate::specs::Types::filters))]
pub fn filter_entries(alloc: Global, value: &Value, key: Key) -> Result<Vec<FilterEntry>, KeyFault>
    ensures { GivesBy (λ v. v.items) result (filters key (view value.now)) }
{
    match value.as_array() {
        Some(values) => each_filter(alloc, values, key),
        None => Err(KeyFault::Wrong(key)),
    }
}
