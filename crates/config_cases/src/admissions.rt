//! Who is admitted by a configuration.

ghost use Rattle.std.specs.Prelude.{◌≤◌, ◌+◌, length};

use crate::values::{push_count, push_last, push_numbers};
use access_groups::{Admission, AdmissionError, Bases, Denial, SourceDenial, admit, admit_source};
use cast_config::Config;
use cast_text::{MountName, Text, push_decimal};
use ntrip_head::Auth;
use std::alloc::{AllocError, Global};

/// The first word and the others.
fn first_word(words: &str) -> (&str, &str) {
    words.split_once(' ').unwrap_or((words, ""))
}

/// The credentials of a rover: `unread` and `none` stand for themselves, and `basic` has the user
/// and the password behind it. What follows is the mountpoint that the rover asks for.
fn credentials(alloc: Global, words: &str) -> Option<(Auth, &str)> {
    let (scheme, words) = first_word(words);
    match scheme {
        "unread" => Some((Auth::Unread, words)),
        "none" => Some((Auth::None, words)),
        "basic" => {
            let (user, words) = first_word(words);
            let (password, words) = first_word(words);
            let user = Text::new(alloc, user.as_bytes()).ok()?;
            let password = Text::new(alloc, password.as_bytes()).ok()?;
            Some((Auth::Basic { user, password }, words))
        }
        _ => None,
    }
}

/// How many bases there are, and which.
fn push_bases(out: &mut Vec<u8>, bases: Bases) -> Result<(), AllocError> {
    out.extend_from_slice(b" bases ")?;
    push_decimal(out, bases.as_slice().len() as u128)?;
    out.extend_from_slice(b":")?;
    push_numbers(out, &bases.into_vec())?;
    out.extend_from_slice(b"\n")
}

/// The account and the group, whether it is near, and the bases.
fn push_admission(out: &mut Vec<u8>, admission: Admission) -> Result<(), AllocError> {
    push_count(out, b"account ", admission.account)?;
    push_count(out, b" group ", admission.group)?;
    let place: &[u8] = if admission.near { b" near" } else { b" itself" };
    out.extend_from_slice(place)?;
    push_bases(out, admission.bases)
}

fn push_denial(out: &mut Vec<u8>, denial: Denial) -> Result<(), AllocError> {
    match denial {
        Denial::NoMount => out.extend_from_slice(b"no mountpoint\n"),
        Denial::NoAccount => out.extend_from_slice(b"no account\n"),
        Denial::Password { account } => push_last(out, b"not the password of account ", account),
        Denial::Group { group } => push_last(out, b"not of group ", group),
    }
}

/// What a rover with these credentials is answered that asks for this mountpoint.
pub(crate) fn push_rover(
    alloc: Global,
    out: &mut Vec<u8>,
    config: &Config,
    words: &str,
) -> Result<(), AllocError>
    requires mounts { length config.now.mount + length config.now.near ≤ 64 }
    requires accounts { length config.now.account ≤ 1024 }
{
    let Some((auth, mount)) = credentials(alloc, words) else {
        return out.extend_from_slice(b"no such credentials\n");
    };
    let Ok(mount) = MountName::new(alloc, mount.as_bytes()) else {
        return out.extend_from_slice(b"no name\n");
    };
    match admit(alloc, config, &auth, &mount) {
        Ok(admission) => push_admission(out, admission),
        Err(AdmissionError::Denied(denial)) => push_denial(out, denial),
        Err(AdmissionError::Memory) => Err(AllocError),
    }
}

/// What a rover is answered over the smallest configuration.
pub(crate) fn push_bare_rover(
    alloc: Global,
    out: &mut Vec<u8>,
    words: &str,
) -> Result<(), AllocError> {
    let config = Config::bare(alloc, 4)?;
    push_rover(alloc, out, &config, words)
}

fn push_feeding(out: &mut Vec<u8>, answer: Result<u32, SourceDenial>) -> Result<(), AllocError> {
    match answer {
        Ok(mount) => push_last(out, b"feeds mountpoint ", mount),
        Err(SourceDenial::NoMount) => out.extend_from_slice(b"no mountpoint\n"),
        Err(SourceDenial::Password) => out.extend_from_slice(b"not the password\n"),
    }
}

/// What a source is answered: the words are the mountpoint and the password.
pub(crate) fn push_source(
    alloc: Global,
    out: &mut Vec<u8>,
    config: &Config,
    words: &str,
) -> Result<(), AllocError>
    requires { length config.now.mount ≤ 64 }
{
    let (mount, password) = first_word(words);
    match MountName::new(alloc, mount.as_bytes()) {
        Ok(mount) => push_feeding(out, admit_source(config, &mount, password.as_bytes())),
        Err(_) => out.extend_from_slice(b"no name\n"),
    }
}
