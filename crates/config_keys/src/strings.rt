//! Texts and names.

ghost use Rattle.std.specs.Prelude.{◌≡◌, ◌≤◌, length, true, IsTrue, Ok};
ghost use Rattle.std.specs.List.{list_all};
ghost use Rattle.std.specs.Str.{is_utf8};
ghost use Rattle.cast_text.specs.Name.{is_name};
ghost use Rattle.config_keys.specs.Answers.{Gives, GivesBy};
ghost use Rattle.config_keys.specs.Rules.{required, optional, seen};
ghost use Rattle.config_keys.specs.Texts.{is_fit, is_inline, is_plain, name, text};
ghost use Rattle.toml.specs.View.{view};

use crate::fault::KeyFault;
use crate::key::Key;
use cast_text::{GroupName, MountName, Text, UserName, is_name};
use std::alloc::Global;
use toml::Value;

/// What a text is for: it has at most 100 bytes and no CR or LF.
#[derive(Clone, Copy)]
pub enum TextKind {
    /// A field of the sourcetable: no `;`.
    Plain,
    /// A password, which may have a `;`.
    Secret,
    /// An address: no `;`, and at least one byte.
    Address,
}

/// The bytes of a text, which are UTF-8.
pub(crate) fn bytes_of(text: &str) -> &[u8]
    ensures same { result.now ≡ text.now }
    ensures utf8 { is_utf8 text.now ≡ true }
{
    text.as_bytes()
}

fn has_no_line_end(bytes: &[u8]) -> bool
    ensures { result ≡ list_all is_inline bytes.now }
{
    bytes.iter().all(|b| *b != b'\r' && *b != b'\n')
}

fn is_field(bytes: &[u8]) -> bool
    ensures { result ≡ list_all is_plain bytes.now }
{
    bytes
        .iter()
        .all(|b| *b != b'\r' && *b != b'\n' && *b != b';')
}

fn is_fit(text: &str, kind: TextKind) -> bool
    ensures { result ≡ is_fit kind text.now }
{
    let bytes = bytes_of(text);
    if bytes.len() > 100 {
        return false;
    }
    match kind {
        TextKind::Plain => is_field(bytes),
        TextKind::Secret => has_no_line_end(bytes),
        TextKind::Address => is_field(bytes) && !bytes.is_empty(),
    }
}

fn text_of(alloc: Global, value: &Value, key: Key, kind: TextKind) -> Result<Text, KeyFault>
    ensures { Gives result (text kind key (view value.now)) }
{
    let Some(text) = value.as_str() else {
        return Err(KeyFault::Wrong(key));
    };
    if !is_fit(text, kind) {
        return Err(KeyFault::Range(key));
    }
    text_in(alloc, text.as_bytes())
}

/// The text of these bytes, at most 100.
pub fn text_in(alloc: Global, bytes: &[u8]) -> Result<Text, KeyFault>
    requires { length bytes.now ≤ 100 }
    ensures { Gives result (Ok bytes.now) }
{
    Ok(Text::of(alloc, bytes)?)
}

/// The text of this kind that has to stand at a key.
pub fn text(
    alloc: Global,
    value: Option<&Value>,
    key: Key,
    kind: TextKind,
) -> Result<Text, KeyFault>
    ensures { Gives result (required (text kind) key (seen value.entry)) }
{
    match value {
        None => Err(KeyFault::Missing(key)),
        Some(value) => text_of(alloc, value, key, kind),
    }
}

/// The text of this kind that stands at a key, `default` where there is none.
pub fn text_or(
    alloc: Global,
    value: Option<&Value>,
    key: Key,
    kind: TextKind,
    default: &[u8],
) -> Result<Text, KeyFault>
    requires { length default.now ≤ 100 }
    ensures { Gives result (optional default.now (text kind) key (seen value.entry)) }
{
    match value {
        None => text_in(alloc, default),
        Some(value) => text_of(alloc, value, key, kind),
    }
}

fn name_of(value: &Value, key: Key) -> Result<&[u8], KeyFault>
    ensures { GivesBy (λ bytes. bytes.now) result (name key (view value.now)) }
{
    let Some(text) = value.as_str() else {
        return Err(KeyFault::Wrong(key));
    };
    if is_name(text.as_bytes()) {
        Ok(text.as_bytes())
    } else {
        Err(KeyFault::Range(key))
    }
}

/// The bytes of the name that has to stand at a key.
pub fn name_bytes(value: Option<&Value>, key: Key) -> Result<&[u8], KeyFault>
    ensures { GivesBy (λ bytes. bytes.now) result (required name key (seen value.entry)) }
{
    match value {
        None => Err(KeyFault::Missing(key)),
        Some(value) => name_of(value, key),
    }
}

/// The mountpoint's name that these bytes are.
pub fn mount_name(alloc: Global, bytes: &[u8]) -> Result<MountName, KeyFault>
    requires { IsTrue (is_name bytes.now) }
    ensures { Gives result (Ok bytes.now) }
{
    Ok(MountName::of(alloc, bytes)?)
}

/// The user's name that these bytes are.
pub fn user_name(alloc: Global, bytes: &[u8]) -> Result<UserName, KeyFault>
    requires { IsTrue (is_name bytes.now) }
    ensures { Gives result (Ok bytes.now) }
{
    Ok(UserName::of(alloc, bytes)?)
}

/// The group's name that these bytes are.
pub fn group_name(alloc: Global, bytes: &[u8]) -> Result<GroupName, KeyFault>
    requires { IsTrue (is_name bytes.now) }
    ensures { Gives result (Ok bytes.now) }
{
    Ok(GroupName::of(alloc, bytes)?)
}
