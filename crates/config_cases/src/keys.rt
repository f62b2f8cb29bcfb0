//! What stands at single keys of a document, by the calls of `config_keys` alone: `workers`, and
//! the name and the mountpoints of a first group, each as a top key.

use crate::values::push_last;
use config_keys::{
    Key, KeyFault, are_names, count, each_once, name_bytes, push_fault, texts, value_at,
};
use std::alloc::{AllocError, Global};
use toml::Table;

const WORKERS: Key = Key {
    list: 2,
    entry: 0,
    key: 0,
};

const NAME: Key = Key {
    list: 7,
    entry: 1,
    key: 1,
};

const MOUNTS: Key = Key {
    list: 7,
    entry: 1,
    key: 2,
};

/// Appends why the key is refused, and ends the line.
fn push_refused(out: &mut Vec<u8>, fault: KeyFault) -> Result<(), AllocError> {
    push_fault(fault, out)?;
    out.extend_from_slice(b"\n")
}

fn push_workers(out: &mut Vec<u8>, table: &Table) -> Result<(), AllocError> {
    match count(value_at(table, "workers"), WORKERS, 1, 64) {
        Ok(workers) => push_last(out, b"", workers),
        Err(fault) => push_refused(out, fault),
    }
}

fn push_name(out: &mut Vec<u8>, table: &Table) -> Result<(), AllocError> {
    match name_bytes(value_at(table, "name"), NAME) {
        Ok(name) => {
            out.extend_from_slice(name)?;
            out.extend_from_slice(b"\n")
        }
        Err(fault) => push_refused(out, fault),
    }
}

/// Appends whether each of these texts is a name, and whether none stands there twice.
fn push_texts(out: &mut Vec<u8>, texts: &[&str]) -> Result<(), AllocError> {
    let names: &[u8] = if are_names(texts) {
        b"names"
    } else {
        b"no names"
    };
    let once: &[u8] = if each_once(texts) {
        b", each once\n"
    } else {
        b", not each once\n"
    };
    out.extend_from_slice(names)?;
    out.extend_from_slice(once)
}

fn push_mounts(alloc: Global, out: &mut Vec<u8>, table: &Table) -> Result<(), AllocError> {
    let Some(value) = value_at(table, "mounts") else {
        return out.extend_from_slice(b"no mounts\n");
    };
    match texts(alloc, value, MOUNTS) {
        Ok(names) => push_texts(out, &names),
        Err(fault) => push_refused(out, fault),
    }
}

/// Appends a line for each of the keys: its value, or why it is refused.
pub(crate) fn push_keys(
    alloc: Global,
    out: &mut Vec<u8>,
    document: &[u8],
) -> Result<(), AllocError> {
    let Ok(table) = toml::table_from_slice(alloc, document) else {
        return out.extend_from_slice(b"toml\n");
    };
    push_workers(out, &table)?;
    push_name(out, &table)?;
    push_mounts(alloc, out, &table)
}
