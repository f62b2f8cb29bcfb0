//! Admissions of rovers and sources.

ghost use Rattle.std.specs.Prelude.{◌≡◌, ◌≤◌, ◌+◌, length, filter, IfOk};
ghost use Rattle.access_groups.specs.declared.admission.AdmissionError.TheVariants.{Denied, Memory};
ghost use Rattle.access_groups.specs.Admission.{Gives, hears, is_near, heard_bases, admission, admission_in, source_admission};

use crate::numbers::Bases;
use crate::party::{Party, party_of};
use crate::password::is_password;
use cast_config::{Config, place_heard, place_named};
use cast_text::MountName;
use ntrip_head::Auth;
use std::alloc::{AllocError, Global};
use thiserror::Error;

/// What a rover is given.
#[derive(Drop)]
pub struct Admission {
    /// The number of its account: named accounts are numbered from 1, 0 is that of all who give no
    /// credentials.
    pub account: u32,
    /// The number of its group.
    pub group: u32,
    /// Whether it asked for a near mountpoint.
    pub near: bool,
    /// The mountpoints that it may be given, one at least: the one that it asked for, or of a near
    /// mountpoint's bases, in their order there, each that its group lists.
    pub bases: Bases,
}

/// Why a rover is given nothing. The rules are tried in this order.
#[derive(Clone, Copy, Debug, Error)]
pub enum Denial {
    /// The name is that of no mountpoint and of no near mountpoint.
    #[error("no such mountpoint")]
    NoMount,
    /// There are no credentials where some are needed, they cannot be read, or they name no
    /// account.
    #[error("no such account")]
    NoAccount,
    /// The password is not that of this account.
    #[error("another password than that of account {account}")]
    Password {
        /// The account's number, from 1.
        account: u32,
    },
    /// The group of the account does not list the name, or none of the bases of the near
    /// mountpoint.
    #[error("group {group} does not list the mountpoint")]
    Group {
        /// The group's number, from 0.
        group: u32,
    },
}

/// Why there is no admission.
#[derive(Clone, Copy, Debug, Error)]
pub enum AdmissionError {
    /// The rover is given nothing.
    #[error("{0}")]
    Denied(Denial),
    /// There is no memory for what it is given.
    #[error("out of memory")]
    Memory,
}

impl From<Denial> for AdmissionError {
    ghost from_gives = { λ denial e. e ≡ Denied denial };

    fn from(denial: Denial) -> AdmissionError {
        AdmissionError::Denied(denial)
    }
}

impl From<AllocError> for AdmissionError {
    ghost from_gives = { λ _ e. e ≡ Memory };

    fn from(_e: AllocError) -> AdmissionError {
        AdmissionError::Memory
    }
}

/// Why a source may not feed a mountpoint. The rules are tried in this order.
#[derive(Clone, Copy, Debug, Error)]
pub enum SourceDenial {
    /// The name is that of no mountpoint.
    #[error("no such mountpoint")]
    NoMount,
    /// The password is not that of the mountpoint.
    #[error("another password than that of the mountpoint")]
    Password,
}

/// Whether the group lists the mountpoint or near mountpoint of this number.
fn hears(config: &Config, group: u32, n: u32) -> bool
    ensures { result ≡ hears config.now group n }
{
    match config.group.as_slice().get(group as usize) {
        Some(group) => group.lists(n),
        None => false,
    }
}

/// Those of the bases that the group lists.
fn listed_bases(
    alloc: Global,
    config: &Config,
    group: u32,
    bases: &[u32],
) -> Result<Vec<u32>, AllocError>
    ensures { IfOk result (λ v. v.items ≡ filter (hears config.now group) bases.now) }
{
    let mut listed = Vec::new(alloc);
    for base in bases {
        if hears(config, group, *base) {
            listed.push(*base)?;
        }
    }
    Ok(listed)
}

fn is_near(config: &Config, n: u32) -> bool
    ensures { result ≡ is_near config.now n }
{
    config.mount.as_slice().len() <= n as usize
}

/// What the group may hear of the mountpoint or near mountpoint of this number.
fn heard_bases(alloc: Global, config: &Config, group: u32, n: u32) -> Result<Vec<u32>, AllocError>
    ensures { IfOk result (λ v. v.items ≡ heard_bases config.now group n) }
{
    if !is_near(config, n) {
        let mut one = Vec::new(alloc);
        one.push(n)?;
        return Ok(one);
    }
    let place = n as usize - config.mount.as_slice().len();
    match config.near.as_slice().get(place) {
        Some(near) => listed_bases(alloc, config, group, near.bases.as_slice()),
        None => Ok(Vec::new(alloc)),
    }
}

fn admission_in(
    alloc: Global,
    config: &Config,
    n: u32,
    party: Party,
) -> Result<Admission, AdmissionError>
    ensures { Gives result (admission_in config.now n party) }
{
    let group = party.group;
    if !hears(config, group, n) {
        return Err(Denial::Group { group }.into());
    }
    let bases = heard_bases(alloc, config, group, n)?;
    if bases.is_empty() {
        return Err(Denial::Group { group }.into());
    }
    Ok(Admission {
        account: party.account,
        group,
        near: is_near(config, n),
        bases: Bases::new(bases),
    })
}

/// What a rover with these credentials is given that asks for this mountpoint or near mountpoint.
///
/// # Errors
/// `Denied` with the first of these that holds, exactly: `NoMount`, `NoAccount`, `Password`,
/// `Group`. `Memory` at any time.
#[tactic(auto, unfolding(crate::specs::Admission::admission))]
pub fn admit(
    alloc: Global,
    config: &Config,
    auth: &Auth,
    mount: &MountName,
) -> Result<Admission, AdmissionError>
    requires mounts { length config.now.mount + length config.now.near ≤ 64 }
    requires accounts { length config.now.account ≤ 1024 }
    ensures { Gives result (admission config.now auth.now mount.now) }
{
    let mounts = config.mount.as_slice();
    let Some(place) = place_heard(mounts, config.near.as_slice(), mount.bytes()) else {
        return Err(Denial::NoMount.into());
    };
    let party = party_of(config, auth)?;
    admission_in(alloc, config, place as u32, party)
}

/// The number of the mountpoint that a source with this password may feed. It takes no memory.
///
/// # Errors
/// `NoMount` exactly where the name is that of no mountpoint, also where it is that of a near one;
/// then `Password` exactly where the bytes are others.
#[tactic(auto, unfolding(crate::specs::Admission::source_admission))]
pub fn admit_source(
    config: &Config,
    mount: &MountName,
    password: &[u8],
) -> Result<u32, SourceDenial>
    requires { length config.now.mount ≤ 64 }
    ensures { result ≡ source_admission config.now mount.now password.now }
{
    let mounts = config.mount.as_slice();
    match place_named(mounts, mount.bytes()) {
        None => Err(SourceDenial::NoMount),
        Some(place) => {
            if is_password(mounts[place].password.bytes(), password) {
                Ok(place as u32)
            } else {
                Err(SourceDenial::Password)
            }
        }
    }
}
