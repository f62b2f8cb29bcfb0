//! Credentials of a request.

ghost use Rattle.std.specs.Prelude.{◌≡◌, ◌≤◌, length, Ok};
ghost use Rattle.std.specs.Option.{ForSome, option_map};
ghost use Rattle.base64.specs.Engines.{standard};
ghost use Rattle.base64.specs.GeneralPurpose.{decode_of};
ghost use Rattle.ntrip_head.specs.Credentials.{is_basic, after_spaces, user_and_password, decoded_pair, auth_of, password_of};
ghost use Rattle.ntrip_head.specs.Outcome.{Gives};

use crate::fault::HeadError;
use crate::fields::is_same;
use crate::request::Auth;
use base64::DecodeAllocError;
use base64::engine::general_purpose::STANDARD;
use cast_text::{Text, place_of};
use std::alloc::Global;

/// The text of these bytes.
pub fn text(alloc: Global, bytes: &[u8]) -> Result<Text, HeadError>
    requires { length bytes.now ≤ 8192 }
    ensures { Gives result (Ok bytes.now) }
{
    Ok(Text::of(alloc, bytes)?)
}

/// Whether the value begins with the scheme `Basic`, without case, and a space.
fn is_basic(value: &[u8]) -> bool
    ensures { result ≡ is_basic value.now }
{
    value.len() > 5 && is_same(&value[..5], b"Basic") && value[5] == b' '
}

/// The text without the spaces at its front.
fn after_spaces(text: &[u8]) -> &[u8]
    ensures value { result.now ≡ after_spaces text.now }
    ensures within { length result.now ≤ length text.now }
{
    let mut rest = text;
    while let [b' ', later @ ..] = rest {
        rest = later;
    }
    rest
}

/// The user before the first colon and the password after it, if there is a colon.
fn user_and_password(alloc: Global, pair: &[u8]) -> Result<Auth, HeadError>
    requires { length pair.now ≤ 8192 }
    ensures { Gives result (Ok (user_and_password pair.now)) }
{
    match place_of(b':', pair) {
        None => Ok(Auth::Unread),
        Some(colon) => Ok(Auth::Basic {
            user: text(alloc, &pair[..colon])?,
            password: text(alloc, &pair[colon + 1..])?,
        }),
    }
}

/// The credentials of which this is the base64 text.
fn decode_pair(alloc: Global, encoded: &[u8]) -> Result<Auth, HeadError>
    requires { length encoded.now ≤ 8192 }
    ensures { Gives result (Ok (decoded_pair (decode_of standard encoded.now))) }
{
    match STANDARD.decode(alloc, encoded) {
        Ok(pair) => user_and_password(alloc, &pair),
        Err(DecodeAllocError::DecodeError(_)) => Ok(Auth::Unread),
        Err(DecodeAllocError::OutOfMemory) => Err(HeadError::Memory),
    }
}

/// The credentials of a request with this `Authorization` header, or without one.
pub fn auth_of(alloc: Global, value: Option<&[u8]>) -> Result<Auth, HeadError>
    requires { ForSome (option_map (λ v. v.now) value) (λ v. length v ≤ 8192) }
    ensures { Gives result (Ok (auth_of (option_map (λ v. v.now) value.entry))) }
{
    match value {
        None => Ok(Auth::None),
        Some(value) if is_basic(value) => decode_pair(alloc, after_spaces(&value[5..])),
        Some(_) => Ok(Auth::Unread),
    }
}

/// The password of Basic credentials, else the empty text.
pub fn password_of(alloc: Global, auth: Auth) -> Result<Text, HeadError>
    ensures { Gives result (Ok (password_of auth)) }
{
    match auth {
        Auth::Basic { user: _, password } => Ok(password),
        Auth::None | Auth::Unread => text(alloc, &[]),
    }
}
