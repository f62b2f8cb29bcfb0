//! Degrees with two decimals.

ghost use Rattle.std.specs.Prelude.{◌≡◌, IfOk};
ghost use Rattle.config_table.specs.Degrees.{degrees, hundredths, sign_of};

use cast_text::push_decimal;
use std::alloc::{AllocError, Global};

/// The hundredths of a degree that a number of units of 10^-7 degree has, without its sign.
fn hundredths(angle: i64) -> u64
    ensures { result ≡ hundredths angle }
{
    angle.unsigned_abs() / 100_000
}

/// `-` where the number is below 0 and its hundredths of a degree are not 0.
fn sign_of(angle: i64) -> &'static [u8]
    ensures { result.now ≡ sign_of angle }
{
    if angle < 0 && hundredths(angle) != 0 {
        b"-"
    } else {
        b""
    }
}

/// The text of a number of units of 10^-7 degree, in degrees with two decimals: what is less is
/// cut.
pub(crate) fn degrees(alloc: Global, angle: i64) -> Result<Vec<u8>, AllocError>
    ensures { IfOk result (λ v. v.items ≡ degrees angle) }
{
    let hundredths = hundredths(angle);
    let tenth = b'0' + (hundredths / 10 % 10) as u8;
    let rest = b'0' + (hundredths % 10) as u8;
    let mut text = Vec::new(alloc);
    text.extend_from_slice(sign_of(angle))?;
    push_decimal(&mut text, u128::from(hundredths / 100))?;
    text.extend_from_slice(&[b'.', tenth, rest])?;
    Ok(text)
}
