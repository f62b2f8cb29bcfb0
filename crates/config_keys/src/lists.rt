//! Lists.

ghost use Rattle.std.specs.Prelude.{◌≡◌, ◌≤◌, length, map, IfOk};
ghost use Rattle.std.specs.List.{list_all};
ghost use Rattle.cast_text.specs.Name.{is_name};
ghost use Rattle.config_keys.specs.Answers.{GivesBy};
ghost use Rattle.config_keys.specs.Lists.{texts, integers, tables, each_once, is_among, are_tables};
ghost use Rattle.config_keys.specs.Rules.{required, optional, seen};
ghost use Rattle.toml.specs.Data.{no_items};
ghost use Rattle.toml.specs.View.{view, items_view};

use crate::fault::KeyFault;
use crate::key::Key;
use cast_text::is_name;
use std::alloc::Global;
use toml::Value;

/// The texts of a list.
pub fn texts(alloc: Global, value: &Value, key: Key) -> Result<Vec<&str>, KeyFault>
    ensures { GivesBy (λ v. map (λ t. t.now) v.items) result (texts key (view value.now)) }
{
    let Some(values) = value.as_array() else {
        return Err(KeyFault::Wrong(key));
    };
    let mut texts = Vec::new(alloc);
    for value in values {
        let Some(text) = value.as_str() else {
            return Err(KeyFault::Wrong(key));
        };
        texts.push(text)?;
    }
    Ok(texts)
}

/// The whole numbers of a list.
pub fn integers(alloc: Global, value: &Value, key: Key) -> Result<Vec<i64>, KeyFault>
    ensures { GivesBy (λ v. v.items) result (integers key (view value.now)) }
{
    let Some(values) = value.as_array() else {
        return Err(KeyFault::Wrong(key));
    };
    let mut numbers = Vec::new(alloc);
    for value in values {
        let Some(number) = value.as_integer() else {
            return Err(KeyFault::Wrong(key));
        };
        numbers.push(number)?;
    }
    Ok(numbers)
}

/// Whether each of these texts is a name.
pub fn are_names(texts: &[&str]) -> bool
    ensures { result ≡ list_all is_name (map (λ t. t.now) texts.now) }
{
    for text in texts {
        if !is_name(text.as_bytes()) {
            return false;
        }
    }
    true
}

/// Whether this text is among the texts.
fn is_among(texts: &[&str], name: &[u8]) -> bool
    ensures { result ≡ is_among (map (λ t. t.now) texts.now) name.now }
{
    for text in texts {
        if text.as_bytes() == name {
            return true;
        }
    }
    false
}

/// Whether no text stands there twice.
pub fn each_once(texts: &[&str]) -> bool
    ensures { result ≡ each_once (map (λ t. t.now) texts.now) }
{
    for i in 0..texts.len() {
        if is_among(&texts[i + 1..], texts[i].as_bytes()) {
            return false;
        }
    }
    true
}

fn are_tables(values: &[Value]) -> bool
    ensures { result ≡ are_tables (items_view values.now) }
{
    for value in values {
        if !value.is_table() {
            return false;
        }
    }
    true
}

#[tactic(auto, using(crate::proofs::ListLemmas::count_is), unfolding(crate::specs::Lists::tables))]
fn tables_of(value: &Value, key: Key, least: usize, most: usize) -> Result<&[Value], KeyFault>
    ensures read { GivesBy (λ v. items_view v.now) result (tables least most key (view value.now)) }
    ensures some { IfOk result (λ v. least ≤ length v.now) }
    ensures few { IfOk result (λ v. length v.now ≤ most) }
{
    let Some(values) = value.as_array() else {
        return Err(KeyFault::Wrong(key));
    };
    if !are_tables(values) {
        return Err(KeyFault::Wrong(key));
    }
    if values.len() < least || most < values.len() {
        return Err(KeyFault::Range(key));
    }
    Ok(values)
}

/// The tables, from `least` to `most` of them, that have to stand at a key.
pub fn tables(
    value: Option<&Value>,
    key: Key,
    least: usize,
    most: usize,
) -> Result<&[Value], KeyFault>
    ensures read { GivesBy (λ v. items_view v.now) result
        (required (tables least most) key (seen value.entry)) }
    ensures some { IfOk result (λ v. least ≤ length v.now) }
    ensures few { IfOk result (λ v. length v.now ≤ most) }
{
    match value {
        None => Err(KeyFault::Missing(key)),
        Some(value) => tables_of(value, key, least, most),
    }
}

/// The tables, at most so many, that stand at a key; none where the key is not there.
pub fn tables_or(value: Option<&Value>, key: Key, most: usize) -> Result<&[Value], KeyFault>
    ensures read { GivesBy (λ v. items_view v.now) result
        (optional no_items (tables 0 most) key (seen value.entry)) }
    ensures few { IfOk result (λ v. length v.now ≤ most) }
{
    match value {
        None => Ok(&[]),
        Some(value) => tables_of(value, key, 0, most),
    }
}
