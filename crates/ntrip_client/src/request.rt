//! The request of a client.

ghost use Rattle.std.specs.Prelude.{◌≡◌, ◌≤◌, ◌++◌, ◌∷◌, string_bytes, IfOk, OnOk, OnErr};
ghost use Rattle.std.specs.Option.{option_map};
ghost use Rattle.std.specs.Vec.{vec_capacity};
ghost use Rattle.base64.specs.Engines.{standard};
ghost use Rattle.base64.specs.GeneralPurpose.{encode_of};
ghost use Rattle.ntrip_client.specs.Request.{lines, authorization, joined, request_of_one, request_of_two, request_text, version_of};

use base64::engine::general_purpose::STANDARD;
use cast_text::{MountName, Text, UserName};
use ntrip_head::Version;
use std::alloc::{AllocError, Global};

/// The header line that names this client.
const AGENT: &[u8] = b"User-Agent: NTRIP lapcast/1.0\r\n";

/// The version of NTRIP that this protocol is.
pub fn version_of(protocol: u32) -> Version
    ensures { result ≡ version_of protocol }
{
    if protocol == 2 {
        Version::Two
    } else {
        Version::One
    }
}

/// The parts, one after another.
fn join_parts(alloc: Global, parts: &[&[u8]]) -> Result<Vec<u8>, AllocError>
    ensures { IfOk result (λ text. text.items ≡ joined parts.now) }
{
    let mut text = Vec::new(alloc);
    for part in parts {
        text.extend_from_slice(part)?;
    }
    Ok(text)
}

/// The base64 text of the user, a colon and the password.
fn credentials(alloc: Global, user: &UserName, password: &Text) -> Result<String, AllocError>
    ensures { IfOk result (λ text.
        string_bytes text ≡ encode_of standard (user.now ++ 58 ∷ password.now)) }
{
    let mut pair = Vec::from_slice(alloc, user.bytes())?;
    pair.push(b':')?;
    pair.extend_from_slice(password.bytes())?;
    STANDARD.encode(alloc, &pair)
}

/// The header line with the credentials; without a user it is empty.
fn authorization(
    alloc: Global,
    user: Option<&UserName>,
    password: &Text,
) -> Result<Vec<u8>, AllocError>
    ensures { IfOk result (λ line.
        line.items ≡ lines (authorization (option_map (λ u. u.now) user.entry) password.now)) }
{
    match user {
        None => Ok(Vec::new(alloc)),
        Some(user) => {
            let text = credentials(alloc, user, password)?;
            join_parts(alloc, &[b"Authorization: Basic ", text.as_bytes(), b"\r\n"])
        }
    }
}

/// The request of NTRIP 1.0.
fn request_of_one(
    alloc: Global,
    mount: &MountName,
    user: Option<&UserName>,
    password: &Text,
) -> Result<Vec<u8>, AllocError>
    ensures { IfOk result (λ text. text.items
        ≡ request_of_one mount.now (option_map (λ u. u.now) user.entry) password.now) }
{
    let credentials = authorization(alloc, user, password)?;
    let text = join_parts(
        alloc,
        &[
            b"GET /",
            mount.bytes(),
            b" HTTP/1.0\r\n",
            AGENT,
            &credentials,
            b"\r\n",
        ],
    )?;
    Ok(text)
}

/// The request of NTRIP 2.0.
fn request_of_two(
    alloc: Global,
    mount: &MountName,
    address: &Text,
    user: Option<&UserName>,
    password: &Text,
) -> Result<Vec<u8>, AllocError>
    ensures { IfOk result (λ text. text.items
        ≡ request_of_two mount.now address.now (option_map (λ u. u.now) user.entry) password.now) }
{
    let credentials = authorization(alloc, user, password)?;
    let text = join_parts(
        alloc,
        &[
            b"GET /",
            mount.bytes(),
            b" HTTP/1.1\r\nHost: ",
            address.bytes(),
            b"\r\nNtrip-Version: Ntrip/2.0\r\n",
            AGENT,
            &credentials,
            b"Connection: close\r\n\r\n",
        ],
    )?;
    Ok(text)
}

/// Appends the request for the frames of a mountpoint, in this version of NTRIP, in bytes as they
/// are sent. `address` is where the other caster is, as HTTP names a host (RFC 9110, section
/// 7.2); version 1 does not send it. Credentials are sent where there is a user: those of the
/// scheme `Basic` (RFC 7617, section 2), the user with this password.
///
/// # Errors
/// For want of memory. Then `out` is as it was.
pub fn push_request(
    version: Version,
    mount: &MountName,
    address: &Text,
    user: Option<&UserName>,
    password: &Text,
    out: &mut Vec<u8>,
) -> Result<(), AllocError>
    ensures ok { OnOk result (out.new.items ≡ out.old.items
        ++ request_text version mount.now address.now (option_map (λ u. u.now) user.entry)
        password.now) }
    ensures err { OnErr result (out.new.items ≡ out.old.items) }
    ensures capacity { vec_capacity out.old ≤ vec_capacity out.new }
{
    let alloc = *out.allocator();
    let text = match version {
        Version::One => request_of_one(alloc, mount, user, password)?,
        Version::Two => request_of_two(alloc, mount, address, user, password)?,
    };
    out.extend_from_slice(&text)
}
