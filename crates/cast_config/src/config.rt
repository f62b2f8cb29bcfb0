//! The configuration of a caster.

use crate::lists::{Accounts, FilterTable, GroupFilters, Groups, Mounts, Nears, Numbers, Relays};
use cast_text::{GroupName, MountName, Text, UserName};
use gga_read::Position;
use sourcetable::Records;
use type_filter::Filter;

/// The configuration of a caster, as a document says it. A mountpoint, a group or a relay is named
/// by its place in its list, from 0.
#[derive(Drop)]
pub struct Config {
    /// How many threads serve, 1 to 256.
    pub workers: u32,
    /// By how many percent of the distance another base must be nearer than a rover's present one,
    /// 0 to 50.
    pub hysteresis: u32,
    /// Lines of the sourcetable that describe casters and networks, at most 64.
    pub records: Records,
    /// The mountpoints, 1 to 64.
    pub mount: Mounts,
    /// The near mountpoints, at most 64 with the mountpoints.
    pub near: Nears,
    /// The groups, 1 to 64.
    pub group: Groups,
    /// The accounts, at most 1,024.
    pub account: Accounts,
    /// The relays, at most 16.
    pub relay: Relays,
    /// Who gives no credentials, where that is allowed.
    pub anonymous: Option<Anonymous>,
    /// What `Config::filters` gives.
    pub(crate) permits: FilterTable,
}

/// A mountpoint: a source pushes its frames to it, and rovers take them.
#[derive(Drop)]
pub struct Mount {
    /// The name, which no other mountpoint has.
    pub name: MountName,
    /// The password of its source.
    pub password: Text,
    /// How many frames are kept for slow rovers, 1 to 4,096.
    pub ring: u32,
    /// The position of its base.
    pub at: Position,
    /// The source's place, as the sourcetable says it.
    pub identifier: Text,
    /// The message types and their rates, as the sourcetable says them.
    pub details: Text,
    /// The carrier phase, as the sourcetable says it: `2` is L1 and L2.
    pub carrier: Text,
    /// The navigation systems, as the sourcetable says them.
    pub navigation: Text,
    /// The network, as the sourcetable says it.
    pub network: Text,
    /// The country, as the sourcetable says it.
    pub country: Text,
    /// The receiver or the software, as the sourcetable says it.
    pub generator: Text,
    /// The bits a second, as the sourcetable says them, at most 1,000,000,000.
    pub bitrate: u32,
    /// Whatever else the sourcetable says.
    pub misc: Text,
}

/// A near mountpoint: a rover of it is given the frames of the nearest of its bases.
#[derive(Drop)]
pub struct Near {
    /// The name, which no mountpoint and no other near mountpoint has.
    pub name: MountName,
    /// The numbers of its bases, 1 to 16 mountpoints, each once.
    pub bases: Numbers,
}

/// A group of accounts: what they may hear.
#[derive(Drop)]
pub struct Group {
    /// The name, which no other group has.
    pub name: GroupName,
    /// The numbers of its mountpoints, at most 64, each once. The numbers of near mountpoints go on
    /// after those of the mountpoints.
    pub mounts: Numbers,
    /// Which frames its rovers are given.
    pub types: Filter,
    /// Where other frames are given at a mountpoint, at most 64.
    pub filter: GroupFilters,
}

/// Which frames the rovers of a group are given at one mountpoint.
#[derive(Drop)]
pub struct GroupFilter {
    /// The number of the mountpoint, for which the group has no other such filter.
    pub mount: u32,
    /// Which frames.
    pub types: Filter,
}

/// An account of rovers.
#[derive(Drop)]
pub struct Account {
    /// The user, which no other account has.
    pub user: UserName,
    /// The password.
    pub password: Text,
    /// The number of its group.
    pub group: u32,
    /// How many sessions may be open at a time, 1 to 1,000,000.
    pub cap: u32,
}

/// A relay: it pulls the frames of a mountpoint from another caster.
#[derive(Drop)]
pub struct Relay {
    /// The number of the mountpoint that it feeds.
    pub mount: u32,
    /// Where the other caster is, 1 to 100 bytes.
    pub address: Text,
    /// The mountpoint there.
    pub upstream: MountName,
    /// The version of NTRIP that is spoken there, 1 or 2.
    pub protocol: u32,
    /// The user there, if credentials are given.
    pub user: Option<UserName>,
    /// The password there.
    pub password: Text,
}

/// What rovers without credentials may hear.
#[derive(Clone, Copy, Drop)]
pub struct Anonymous {
    /// The number of their group.
    pub group: u32,
    /// How many of their sessions may be open at a time, 1 to 1,000,000.
    pub cap: u32,
}
