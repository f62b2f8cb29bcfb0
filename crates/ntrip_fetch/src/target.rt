//! Whom a rover asks, and the request.

ghost use Rattle.std.specs.Prelude.{◌≡◌, ◌≤◌, ◌++◌, OnOk, OnErr};
ghost use Rattle.std.specs.Vec.{vec_capacity};
ghost use Rattle.ntrip_fetch.specs.Request.{IsSpoken, target_request};

use cast_text::{MountName, Text, UserName};
use ntrip_client::{push_request, version_of};
use std::alloc::AllocError;

/// A mountpoint of a caster, and as whom it is asked for. It is shown nowhere, for its password.
#[derive(Drop)]
pub struct Target {
    /// The version of NTRIP that is spoken there, 1 or 2.
    pub protocol: u32,
    /// Where the caster is.
    pub address: Text,
    /// The mountpoint.
    pub mount: MountName,
    /// The user there, if credentials are given.
    pub user: Option<UserName>,
    /// The password there; it is sent only where there is a user.
    pub password: Text,
}

/// Appends the request for the frames of the target's mountpoint, in bytes as they are sent: a
/// `GET` of NTRIP 1.0 or 2.0, with credentials of the scheme `Basic` (RFC 7617, section 2) where
/// there is a user.
///
/// # Errors
/// For want of memory. Then `out` is as it was.
pub fn request_of(t: &Target, out: &mut Vec<u8>) -> Result<(), AllocError>
    requires { IsSpoken t.now }
    ensures ok { OnOk result (out.new.items ≡ out.old.items ++ target_request t.now) }
    ensures err { OnErr result (out.new.items ≡ out.old.items) }
    ensures capacity { vec_capacity out.old ≤ vec_capacity out.new }
{
    push_request(
        version_of(t.protocol),
        &t.mount,
        &t.address,
        t.user.as_ref(),
        &t.password,
        out,
    )
}
