//! Names among others.

ghost use Rattle.std.specs.Prelude.{◌≡◌, ◌≤◌, ◌<◌, ◌+◌, List, ℕ, [], map, length, IfSome};
ghost use Rattle.config_keys.specs.Answers.{GivesBy};
ghost use Rattle.config_keys.specs.Lists.{is_among, each_once, each_of};
ghost use Rattle.config_keys.specs.Rules.{required, seen};
ghost use Rattle.cast_config.specs.Names.{place_of, place_at, heard_names, names_once};
ghost use Rattle.toml.specs.View.{view};

use crate::config::{Account, Group, Mount, Near};
use config_keys::{FilterEntry, Key, KeyFault, are_names, each_once, texts};
use std::alloc::Global;
use toml::Value;

/// What has a name in the file.
pub trait Named {
    ghost title: { Self → List ℕ };

    /// The bytes of the name.
    fn title_bytes(&self) -> &[u8]
        ensures { result.now ≡ title self.now };
}

impl Named for Mount {
    ghost title = { λ mount. mount.name };

    fn title_bytes(&self) -> &[u8] {
        self.name.bytes()
    }
}

impl Named for Near {
    ghost title = { λ near. near.name };

    fn title_bytes(&self) -> &[u8] {
        self.name.bytes()
    }
}

impl Named for Group {
    ghost title = { λ group. group.name };

    fn title_bytes(&self) -> &[u8] {
        self.name.bytes()
    }
}

impl Named for Account {
    ghost title = { λ account. account.user };

    fn title_bytes(&self) -> &[u8] {
        self.user.bytes()
    }
}

impl Named for FilterEntry {
    ghost title = { λ entry. entry.mount };

    fn title_bytes(&self) -> &[u8] {
        self.mount.bytes()
    }
}

/// Whether one of these has the name.
#[tactic(auto, using(crate::proofs::KnownLemmas::found_among))]
pub(crate) fn has_name<T: Named>(items: &[T], name: &[u8]) -> bool
    ensures { result ≡ is_among (map T.title items.now) name.now }
{
    place_named(items, name).is_some()
}

/// Whether no two of these have one name.
pub(crate) fn differ<T: Named>(items: &[T]) -> bool
    ensures { result ≡ each_once (map T.title items.now) }
{
    for i in 0..items.len() {
        if has_name(&items[i + 1..], items[i].title_bytes()) {
            return false;
        }
    }
    true
}

/// The place of the first of these that has the name.
pub fn place_named<T: Named>(items: &[T], name: &[u8]) -> Option<usize>
    ensures place { result ≡ place_of (map T.title items.now) name.now }
    ensures within { IfSome result (λ i. i < length items.now) }
{
    for i in 0..items.len() {
        if items[i].title_bytes() == name {
            return Some(i);
        }
    }
    None
}

/// The number of what has the name.
pub(crate) fn number_of<T: Named>(items: &[T], name: &[u8], key: Key) -> Result<u32, KeyFault>
    requires { length items.now ≤ 1024 }
    ensures { result ≡ place_at key (map T.title items.now) name.now }
{
    match place_named(items, name) {
        Some(place) => Ok(place as u32),
        None => Err(KeyFault::Unknown(key)),
    }
}

/// Whether a mountpoint or a near mountpoint has the name.
#[tactic(auto, using(crate::proofs::KnownLemmas::among_both))]
pub(crate) fn is_heard(mounts: &[Mount], nears: &[Near], name: &[u8]) -> bool
    ensures { result ≡ is_among (heard_names mounts.now nears.now) name.now }
{
    has_name(mounts, name) || has_name(nears, name)
}

/// The number of the mountpoint or near mountpoint that has the name, as a group lists it: the
/// numbers of near mountpoints go on after those of the mountpoints.
pub fn place_heard(mounts: &[Mount], nears: &[Near], name: &[u8]) -> Option<usize>
    requires { length mounts.now + length nears.now ≤ 128 }
    ensures place { result ≡ place_of (heard_names mounts.now nears.now) name.now }
    ensures within { IfSome result (λ n. n < length mounts.now + length nears.now) }
{
    match place_named(mounts, name) {
        Some(place) => Some(place),
        None => match place_named(nears, name) {
            Some(place) => Some(mounts.len() + place),
            None => None,
        },
    }
}

/// The number of the mountpoint or near mountpoint that has the name.
fn heard_number(mounts: &[Mount], nears: &[Near], name: &[u8], key: Key) -> Result<u32, KeyFault>
    requires mounts { length mounts.now ≤ 64 }
    requires nears { length nears.now ≤ 64 }
    ensures { result ≡ place_at key (heard_names mounts.now nears.now) name.now }
{
    match place_heard(mounts, nears, name) {
        Some(place) => Ok(place as u32),
        None => Err(KeyFault::Unknown(key)),
    }
}

#[tactic(auto, unfolding(crate::specs::Names::names_once))]
fn names_of(
    alloc: Global,
    value: &Value,
    key: Key,
    least: usize,
    most: usize,
) -> Result<Vec<&str>, KeyFault>
    ensures { GivesBy (λ v. map (λ t. t.now) v.items) result
        (names_once least most key (view value.now)) }
{
    let names = texts(alloc, value, key)?;
    if names.len() < least || most < names.len() || !are_names(&names) {
        return Err(KeyFault::Range(key));
    }
    if !each_once(&names) {
        return Err(KeyFault::Twice(key));
    }
    Ok(names)
}

/// The names, from `least` to `most` of them and each once, that have to stand at a key.
pub(crate) fn names(
    alloc: Global,
    value: Option<&Value>,
    key: Key,
    least: usize,
    most: usize,
) -> Result<Vec<&str>, KeyFault>
    ensures { GivesBy (λ v. map (λ t. t.now) v.items) result
        (required (names_once least most) key (seen value.entry)) }
{
    match value {
        None => Err(KeyFault::Missing(key)),
        Some(value) => names_of(alloc, value, key, least, most),
    }
}

/// The numbers of what has these names.
pub(crate) fn numbers_of<T: Named>(
    alloc: Global,
    items: &[T],
    names: &[&str],
    key: Key,
) -> Result<Vec<u32>, KeyFault>
    requires { length items.now ≤ 1024 }
    ensures { GivesBy (λ v. v.items) result
        (each_of (place_at key (map T.title items.now)) [] (map (λ t. t.now) names.now)) }
{
    let mut numbers = Vec::new(alloc);
    for name in names {
        let number = number_of(items, name.as_bytes(), key)?;
        numbers.push(number)?;
    }
    Ok(numbers)
}

/// The numbers of the mountpoints and near mountpoints that have these names.
pub(crate) fn heard_numbers(
    alloc: Global,
    mounts: &[Mount],
    nears: &[Near],
    names: &[&str],
    key: Key,
) -> Result<Vec<u32>, KeyFault>
    requires mounts { length mounts.now ≤ 64 }
    requires nears { length nears.now ≤ 64 }
    ensures { GivesBy (λ v. v.items) result
        (each_of (place_at key (heard_names mounts.now nears.now)) []
        (map (λ t. t.now) names.now)) }
{
    let mut numbers = Vec::new(alloc);
    for name in names {
        let number = heard_number(mounts, nears, name.as_bytes(), key)?;
        numbers.push(number)?;
    }
    Ok(numbers)
}
