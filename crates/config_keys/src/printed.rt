//! What is printed where a key breaks its rule.

ghost use Rattle.std.specs.Prelude.{◌≡◌, ◌++◌, List, ℕ, map, OnOk};
ghost use Rattle.std.specs.Fmt.{decimal};
ghost use Rattle.config_keys.specs.Printed.{name_at, top_keys, keys_of, behind_space, place_text, fault_text};

use crate::fault::KeyFault;
use crate::key::Key;
use cast_text::push_decimal;
use std::alloc::AllocError;

/// The name of this number, counted from 1; nothing where there is none.
fn name_at<'a>(names: &[&'a str], number: u32) -> &'a str
    ensures { result.now ≡ name_at (map (λ t. t.now) names.now) number }
{
    if number == 0 {
        return "";
    }
    let place = number as usize - 1;
    if place < names.len() {
        names[place]
    } else {
        ""
    }
}

fn top_key(list: u32) -> &'static str
    ensures { result.now ≡ name_at top_keys list }
{
    const NAMES: [&str; 10] = [
        "version",
        "workers",
        "hysteresis",
        "records",
        "mount",
        "near",
        "group",
        "account",
        "relay",
        "anonymous",
    ];
    name_at(&NAMES, list)
}

fn key_in(list: u32, key: u32) -> &'static str
    ensures { result.now ≡ name_at (keys_of list) key }
{
    match list {
        5 => name_at(
            &[
                "name",
                "password",
                "ring",
                "latitude",
                "longitude",
                "identifier",
                "details",
                "carrier",
                "navigation",
                "network",
                "country",
                "generator",
                "bitrate",
                "misc",
            ],
            key,
        ),
        6 => name_at(&["name", "bases"], key),
        7 => name_at(&["name", "mounts", "types", "filter"], key),
        8 => name_at(&["user", "password", "group", "cap"], key),
        9 => name_at(
            &[
                "mount", "address", "upstream", "protocol", "user", "password",
            ],
            key,
        ),
        10 => name_at(&["group", "cap"], key),
        _ => "",
    }
}

fn push_entry(entry: u32, out: &mut Vec<u8>) -> Result<(), AllocError>
    ensures ok { OnOk result (out.new.items
        ≡ out.old.items ++ behind_space entry (decimal entry)) }
    ensures begins { (more : List ℕ) × (out.new.items ≡ out.old.items ++ more) }
{
    if entry == 0 {
        return Ok(());
    }
    out.push(b' ')?;
    push_decimal(out, u128::from(entry))
}

fn push_key(list: u32, key: u32, out: &mut Vec<u8>) -> Result<(), AllocError>
    ensures ok { OnOk result (out.new.items
        ≡ out.old.items ++ behind_space key (name_at (keys_of list) key)) }
    ensures begins { (more : List ℕ) × (out.new.items ≡ out.old.items ++ more) }
{
    if key == 0 {
        return Ok(());
    }
    out.push(b' ')?;
    out.extend_from_slice(key_in(list, key).as_bytes())
}

fn push_place(key: Key, out: &mut Vec<u8>) -> Result<(), AllocError>
    ensures ok { OnOk result (out.new.items ≡ out.old.items ++ place_text key) }
    ensures begins { (more : List ℕ) × (out.new.items ≡ out.old.items ++ more) }
{
    out.extend_from_slice(top_key(key.list).as_bytes())?;
    push_entry(key.entry, out)?;
    push_key(key.list, key.key, out)
}

fn push_test(test: &[u8], key: Key, out: &mut Vec<u8>) -> Result<(), AllocError>
    ensures ok { OnOk result (out.new.items ≡ out.old.items ++ (test.now ++ place_text key)) }
    ensures begins { (more : List ℕ) × (out.new.items ≡ out.old.items ++ more) }
{
    out.extend_from_slice(test)?;
    push_place(key, out)
}

/// Appends which test was failed and where, as `range group 1 filter`: the top key, the number of
/// the entry and the entry's key, as far as there are such. A refusal may leave some of it.
pub fn push_fault(fault: KeyFault, out: &mut Vec<u8>) -> Result<(), AllocError>
    ensures ok { OnOk result (out.new.items ≡ out.old.items ++ fault_text fault) }
    ensures begins { (more : List ℕ) × (out.new.items ≡ out.old.items ++ more) }
{
    match fault {
        KeyFault::Missing(key) => push_test(b"missing ", key, out),
        KeyFault::Wrong(key) => push_test(b"wrong ", key, out),
        KeyFault::Range(key) => push_test(b"range ", key, out),
        KeyFault::Twice(key) => push_test(b"twice ", key, out),
        KeyFault::Unknown(key) => push_test(b"unknown ", key, out),
        KeyFault::Memory => out.extend_from_slice(b"memory"),
    }
}
