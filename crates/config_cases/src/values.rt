//! What a configuration holds, as lines: a line each for the numbers, for the sizes of the lists
//! and for the anonymous, and a line for each entry of a list. The values stand in the order of the
//! file's description, with a `;` between them.

use cast_config::{Account, Anonymous, Config, Group, GroupFilter, Mount, Near, Relay};
use cast_text::push_decimal;
use std::alloc::AllocError;
use type_filter::Filter;

/// Appends the word and the number.
pub(crate) fn push_count(out: &mut Vec<u8>, word: &[u8], count: u32) -> Result<(), AllocError> {
    out.extend_from_slice(word)?;
    push_decimal(out, u128::from(count))
}

/// Appends the word and the number, and ends the line.
pub(crate) fn push_last(out: &mut Vec<u8>, word: &[u8], count: u32) -> Result<(), AllocError> {
    push_count(out, word, count)?;
    out.extend_from_slice(b"\n")
}

/// Appends the word and the text, and a `;`.
fn push_text(out: &mut Vec<u8>, word: &[u8], text: &[u8]) -> Result<(), AllocError> {
    out.extend_from_slice(word)?;
    out.extend_from_slice(text)?;
    out.extend_from_slice(b";")
}

/// Appends the number with its sign, and a `;`.
fn push_whole(out: &mut Vec<u8>, number: i64) -> Result<(), AllocError> {
    if number < 0 {
        out.extend_from_slice(b"-")?;
    }
    push_decimal(out, u128::from(number.unsigned_abs()))?;
    out.extend_from_slice(b";")
}

/// Appends the numbers, with a space in front of each.
pub(crate) fn push_numbers(out: &mut Vec<u8>, numbers: &[u32]) -> Result<(), AllocError> {
    for number in numbers {
        push_count(out, b" ", *number)?;
    }
    Ok(())
}

/// Appends the message numbers, with a space in front of each, or `all`.
pub(crate) fn push_types(out: &mut Vec<u8>, types: &Filter) -> Result<(), AllocError> {
    let Some(numbers) = types.numbers() else {
        return out.extend_from_slice(b" all");
    };
    for number in numbers {
        push_count(out, b" ", u32::from(*number))?;
    }
    Ok(())
}

/// The numbers that are no list.
fn push_settings(out: &mut Vec<u8>, config: &Config) -> Result<(), AllocError> {
    push_count(out, b"workers ", config.workers)?;
    push_last(out, b" hysteresis ", config.hysteresis)
}

/// Appends the word and how many elements a list has.
fn push_size<T>(out: &mut Vec<u8>, word: &[u8], list: &[T]) -> Result<(), AllocError> {
    out.extend_from_slice(word)?;
    push_decimal(out, list.len() as u128)
}

/// How many records there are, mountpoints, near mountpoints, groups, accounts and relays.
fn push_sizes(out: &mut Vec<u8>, config: &Config) -> Result<(), AllocError> {
    push_size(out, b"records ", config.records.as_slice())?;
    push_size(out, b" mounts ", config.mount.as_slice())?;
    push_size(out, b" nears ", config.near.as_slice())?;
    push_more_sizes(out, config)
}

fn push_more_sizes(out: &mut Vec<u8>, config: &Config) -> Result<(), AllocError> {
    push_size(out, b" groups ", config.group.as_slice())?;
    push_size(out, b" accounts ", config.account.as_slice())?;
    push_size(out, b" relays ", config.relay.as_slice())?;
    out.extend_from_slice(b"\n")
}

fn push_station(out: &mut Vec<u8>, mount: &Mount) -> Result<(), AllocError> {
    push_text(out, b"mount ", mount.name.bytes())?;
    push_text(out, b"", mount.password.bytes())?;
    push_count(out, b"", mount.ring)?;
    out.extend_from_slice(b";")?;
    push_whole(out, mount.at.lat)?;
    push_whole(out, mount.at.lon)
}

fn push_signals(out: &mut Vec<u8>, mount: &Mount) -> Result<(), AllocError> {
    push_text(out, b"", mount.identifier.bytes())?;
    push_text(out, b"", mount.details.bytes())?;
    push_text(out, b"", mount.carrier.bytes())?;
    push_text(out, b"", mount.navigation.bytes())
}

fn push_origin(out: &mut Vec<u8>, mount: &Mount) -> Result<(), AllocError> {
    push_text(out, b"", mount.network.bytes())?;
    push_text(out, b"", mount.country.bytes())?;
    push_text(out, b"", mount.generator.bytes())?;
    push_count(out, b"", mount.bitrate)?;
    push_end(out, mount.misc.bytes())
}

/// Appends a `;` and the text, and ends the line.
fn push_end(out: &mut Vec<u8>, text: &[u8]) -> Result<(), AllocError> {
    out.extend_from_slice(b";")?;
    out.extend_from_slice(text)?;
    out.extend_from_slice(b"\n")
}

fn push_mounts(out: &mut Vec<u8>, mounts: &[Mount]) -> Result<(), AllocError> {
    for mount in mounts {
        push_station(out, mount)?;
        push_signals(out, mount)?;
        push_origin(out, mount)?;
    }
    Ok(())
}

fn push_nears(out: &mut Vec<u8>, nears: &[Near]) -> Result<(), AllocError> {
    for near in nears {
        push_text(out, b"near ", near.name.bytes())?;
        push_numbers(out, near.bases.as_slice())?;
        out.extend_from_slice(b"\n")?;
    }
    Ok(())
}

/// The filters for single mountpoints: the number of the mountpoint, and the message numbers.
fn push_filters(out: &mut Vec<u8>, filters: &[GroupFilter]) -> Result<(), AllocError> {
    for filter in filters {
        push_count(out, b"; ", filter.mount)?;
        push_types(out, &filter.types)?;
    }
    out.extend_from_slice(b"\n")
}

fn push_group(out: &mut Vec<u8>, group: &Group) -> Result<(), AllocError> {
    push_text(out, b"group ", group.name.bytes())?;
    push_numbers(out, group.mounts.as_slice())?;
    out.extend_from_slice(b";")?;
    push_types(out, &group.types)?;
    push_filters(out, group.filter.as_slice())
}

fn push_groups(out: &mut Vec<u8>, groups: &[Group]) -> Result<(), AllocError> {
    for group in groups {
        push_group(out, group)?;
    }
    Ok(())
}

fn push_accounts(out: &mut Vec<u8>, accounts: &[Account]) -> Result<(), AllocError> {
    for account in accounts {
        push_text(out, b"account ", account.user.bytes())?;
        push_text(out, b"", account.password.bytes())?;
        push_count(out, b"", account.group)?;
        push_last(out, b";", account.cap)?;
    }
    Ok(())
}

/// The user of a relay.
fn push_user(out: &mut Vec<u8>, relay: &Relay) -> Result<(), AllocError> {
    match &relay.user {
        Some(user) => push_text(out, b";", user.bytes()),
        None => push_text(out, b";", b"no user"),
    }
}

fn push_relay(out: &mut Vec<u8>, relay: &Relay) -> Result<(), AllocError> {
    push_count(out, b"relay ", relay.mount)?;
    push_text(out, b";", relay.address.bytes())?;
    push_text(out, b"", relay.upstream.bytes())?;
    push_count(out, b"", relay.protocol)?;
    push_user(out, relay)?;
    out.extend_from_slice(relay.password.bytes())
}

fn push_relays(out: &mut Vec<u8>, relays: &[Relay]) -> Result<(), AllocError> {
    for relay in relays {
        push_relay(out, relay)?;
        out.extend_from_slice(b"\n")?;
    }
    Ok(())
}

/// The group of who gives no credentials, and how many of these there may be.
fn push_anonymous(out: &mut Vec<u8>, anonymous: Option<Anonymous>) -> Result<(), AllocError> {
    let Some(anonymous) = anonymous else {
        return out.extend_from_slice(b"no anonymous\n");
    };
    push_count(out, b"anonymous ", anonymous.group)?;
    push_last(out, b";", anonymous.cap)
}

/// Appends the lines of this part of the configuration.
pub(crate) fn push_part(out: &mut Vec<u8>, config: &Config, part: &str) -> Result<(), AllocError> {
    match part {
        "settings" => push_settings(out, config),
        "sizes" => push_sizes(out, config),
        "mounts" => push_mounts(out, config.mount.as_slice()),
        "nears" => push_nears(out, config.near.as_slice()),
        "groups" => push_groups(out, config.group.as_slice()),
        "accounts" => push_accounts(out, config.account.as_slice()),
        "relays" => push_relays(out, config.relay.as_slice()),
        "anonymous" => push_anonymous(out, config.anonymous),
        _ => out.extend_from_slice(b"no such question\n"),
    }
}
