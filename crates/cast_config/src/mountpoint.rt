//! Mountpoints, each read from its table in three parts: one call a key, in the order in which the
//! keys are tested.

ghost use Rattle.std.specs.Prelude.{◌≡◌, ◌≤◌, codes, length};
ghost use Rattle.config_keys.specs.Answers.{Gives};
ghost use Rattle.config_keys.specs.Rules.{count, required, optional};
ghost use Rattle.config_keys.specs.Texts.{text};
ghost use Rattle.config_keys.specs.declared.strings.TextKind.TheVariants.{Plain};
ghost use Rattle.cast_config.specs.Entries.{place, position_of, station_of, signals_of, origin_of, mount_from, mount_of};
ghost use Rattle.toml.specs.Data.{get_member};
ghost use Rattle.toml.specs.View.{table_view};

use crate::config::Mount;
use crate::entries::{new_name, place};
use cast_text::{MountName, Text};
use config_keys::{
    Key, KeyFault, TextKind, count, count_or, mount_name, text, text_or, value_at, whole,
};
use gga_read::Position;
use std::alloc::Global;
use toml::Table;

/// What the source and the rovers of a mountpoint need.
#[derive(Drop)]
pub(crate) struct Station {
    pub(crate) name: MountName,
    pub(crate) password: Text,
    pub(crate) ring: u32,
    pub(crate) at: Position,
}

/// What the sourcetable says of its place and its frames.
#[derive(Drop)]
pub(crate) struct Signals {
    pub(crate) identifier: Text,
    pub(crate) details: Text,
    pub(crate) carrier: Text,
    pub(crate) navigation: Text,
}

/// What the sourcetable says of where the frames come from.
#[derive(Drop)]
pub(crate) struct Origin {
    pub(crate) network: Text,
    pub(crate) country: Text,
    pub(crate) generator: Text,
    pub(crate) bitrate: u32,
    pub(crate) misc: Text,
}

#[tactic(auto, unfolding(crate::specs::Entries::position_of))]
fn position_in(table: &Table, n: u32) -> Result<Position, KeyFault>
    ensures { result ≡ position_of n (table_view table.now) }
{
    let lat = value_at(table, "latitude");
    let lat = whole(lat, place(5, n, 4), -900_000_000, 900_000_000)?;
    let lon = value_at(table, "longitude");
    let lon = whole(lon, place(5, n, 5), -1_800_000_000, 1_800_000_000)?;
    Ok(Position { lat, lon })
}

/// The plain text that a table has at a key, and this one where the key is not there.
fn plain_or(
    alloc: Global,
    table: &Table,
    name: &str,
    key: Key,
    default: &[u8],
) -> Result<Text, KeyFault>
    requires { length default.now ≤ 100 }
    ensures { Gives result
        (optional default.now (text Plain) key (get_member name.now (table_view table.now))) }
{
    text_or(alloc, value_at(table, name), key, TextKind::Plain, default)
}

/// How many frames are kept.
fn ring_in(table: &Table, n: u32) -> Result<u32, KeyFault>
    ensures { result ≡ required (count 1 4096) (place 5 n 3)
        (get_member (codes "ring") (table_view table.now)) }
{
    count(value_at(table, "ring"), place(5, n, 3), 1, 4096)
}

#[tactic(auto, unfolding(crate::specs::Entries::station_of))]
fn station_in(alloc: Global, n: u32, before: &[Mount], table: &Table) -> Result<Station, KeyFault>
    ensures { Gives result (station_of n before.now (table_view table.now)) }
{
    let name = new_name(value_at(table, "name"), place(5, n, 1), before)?;
    let name = mount_name(alloc, name)?;
    let password = value_at(table, "password");
    let password = text(alloc, password, place(5, n, 2), TextKind::Plain)?;
    let ring = ring_in(table, n)?;
    let at = position_in(table, n)?;
    Ok(Station {
        name,
        password,
        ring,
        at,
    })
}

/// The signals of the mountpoint of this name.
#[tactic(auto, unfolding(crate::specs::Entries::signals_of))]
fn signals_in(alloc: Global, n: u32, name: &[u8], table: &Table) -> Result<Signals, KeyFault>
    requires { length name.now ≤ 100 }
    ensures { Gives result (signals_of n name.now (table_view table.now)) }
{
    let identifier = plain_or(alloc, table, "identifier", place(5, n, 6), name)?;
    let details = plain_or(alloc, table, "details", place(5, n, 7), b"")?;
    let carrier = plain_or(alloc, table, "carrier", place(5, n, 8), b"2")?;
    let navigation = plain_or(alloc, table, "navigation", place(5, n, 9), b"GPS")?;
    Ok(Signals {
        identifier,
        details,
        carrier,
        navigation,
    })
}

#[tactic(auto, unfolding(crate::specs::Entries::origin_of))]
fn origin_in(alloc: Global, n: u32, table: &Table) -> Result<Origin, KeyFault>
    ensures { Gives result (origin_of n (table_view table.now)) }
{
    let network = plain_or(alloc, table, "network", place(5, n, 10), b"")?;
    let country = plain_or(alloc, table, "country", place(5, n, 11), b"")?;
    let generator = plain_or(alloc, table, "generator", place(5, n, 12), b"")?;
    let bitrate = value_at(table, "bitrate");
    let bitrate = count_or(bitrate, place(5, n, 13), 0, 1_000_000_000, 0)?;
    let misc = plain_or(alloc, table, "misc", place(5, n, 14), b"")?;
    Ok(Origin {
        network,
        country,
        generator,
        bitrate,
        misc,
    })
}

/// The mountpoint of these parts.
pub(crate) fn mount_from(station: Station, signals: Signals, origin: Origin) -> Mount
    ensures { result ≡ mount_from station signals origin }
{
    Mount {
        name: station.name,
        password: station.password,
        ring: station.ring,
        at: station.at,
        identifier: signals.identifier,
        details: signals.details,
        carrier: signals.carrier,
        navigation: signals.navigation,
        network: origin.network,
        country: origin.country,
        generator: origin.generator,
        bitrate: origin.bitrate,
        misc: origin.misc,
    }
}

/// The mountpoint of number `n`, from 1, of a table that stands behind these.
#[tactic(auto, unfolding(crate::specs::Entries::mount_of))]
pub(crate) fn mount_in(
    alloc: Global,
    n: u32,
    before: &[Mount],
    table: &Table,
) -> Result<Mount, KeyFault>
    ensures { Gives result (mount_of n before.now (table_view table.now)) }
{
    let station = station_in(alloc, n, before, table)?;
    let signals = signals_in(alloc, n, station.name.bytes(), table)?;
    let origin = origin_in(alloc, n, table)?;
    Ok(mount_from(station, signals, origin))
}
