//! Whole numbers.

ghost use Rattle.std.specs.Prelude.{◌≡◌, ◌<◌};
ghost use Rattle.config_keys.specs.Rules.{required, optional, count, whole, seen};
ghost use Rattle.toml.specs.View.{view};

use crate::fault::KeyFault;
use crate::key::Key;
use toml::Value;

fn count_of(value: &Value, key: Key, least: u32, most: u32) -> Result<u32, KeyFault>
    ensures { result ≡ count least most key (view value.now) }
{
    let Some(number) = value.as_integer() else {
        return Err(KeyFault::Wrong(key));
    };
    if i64::from(least) <= number && number <= i64::from(most) {
        Ok(number as u32)
    } else {
        Err(KeyFault::Range(key))
    }
}

/// The whole number from `least` to `most` that has to stand at a key.
pub fn count(value: Option<&Value>, key: Key, least: u32, most: u32) -> Result<u32, KeyFault>
    ensures { result ≡ required (count least most) key (seen value.entry) }
{
    match value {
        None => Err(KeyFault::Missing(key)),
        Some(value) => count_of(value, key, least, most),
    }
}

/// The whole number from `least` to `most` that stands at a key, `default` where there is none.
pub fn count_or(
    value: Option<&Value>,
    key: Key,
    least: u32,
    most: u32,
    default: u32,
) -> Result<u32, KeyFault>
    ensures { result ≡ optional default (count least most) key (seen value.entry) }
{
    match value {
        None => Ok(default),
        Some(value) => count_of(value, key, least, most),
    }
}

fn whole_of(value: &Value, key: Key, least: i64, most: i64) -> Result<i64, KeyFault>
    ensures { result ≡ whole least most key (view value.now) }
{
    let Some(number) = value.as_integer() else {
        return Err(KeyFault::Wrong(key));
    };
    if least <= number && number <= most {
        Ok(number)
    } else {
        Err(KeyFault::Range(key))
    }
}

/// The whole number from `least` to `most`, of either sign, that has to stand at a key.
pub fn whole(value: Option<&Value>, key: Key, least: i64, most: i64) -> Result<i64, KeyFault>
    ensures { result ≡ required (whole least most) key (seen value.entry) }
{
    match value {
        None => Err(KeyFault::Missing(key)),
        Some(value) => whole_of(value, key, least, most),
    }
}
