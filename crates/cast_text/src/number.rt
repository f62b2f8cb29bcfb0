//! Numbers as text.

ghost use Rattle.std.specs.Prelude.{◌≡◌, ◌+◌, ◌<◌, ◌≤◌, false, ◌++◌, length, drop, vec_len, IsOk, OnOk, OnErr};
ghost use Rattle.std.specs.Vec.{vec_capacity};
ghost use Rattle.std.specs.Fmt.{digit_glyph, digits, decimal};

use std::alloc::AllocError;

/// More digits than any number here has.
const DIGITS: usize = 64;

/// The digit of this value, in lower case.
fn digit(value: u8) -> u8
    requires { value < 16 }
    ensures { result ≡ digit_glyph false value }
{
    if value < 10 {
        b'0' + value
    } else {
        b'a' - 10 + value
    }
}

/// Writes the digits of the value at the end of the room, and says where they begin.
fn write_digits(room: &mut [u8], base: u128, value: u128) -> usize
    requires size { length room.old ≡ 64 }
    requires low { 2 ≤ base }
    requires high { base ≤ 16 }
    ensures within { result ≤ 64 }
    ensures digits { drop result room.new ≡ digits base false value }
{
    let mut at = DIGITS;
    let mut left = value;
    while at > 0 {
        at -= 1;
        room[at] = digit((left % base) as u8);
        left /= base;
        if left == 0 {
            break;
        }
    }
    at
}

/// Appends the digits of the value.
fn push_digits(out: &mut Vec<u8>, base: u128, value: u128) -> Result<(), AllocError>
    requires low { 2 ≤ base }
    requires high { base ≤ 16 }
    ensures ok { OnOk result (out.new.items ≡ out.old.items ++ digits base false value) }
    ensures err { OnErr result (out.new.items ≡ out.old.items) }
    ensures room { vec_len out.old + length (digits base false value) ≤ vec_capacity out.old
        → IsOk result }
    ensures capacity { vec_capacity out.old ≤ vec_capacity out.new }
{
    let mut room = [0; DIGITS];
    let start = write_digits(&mut room, base, value);
    out.extend_from_slice(&room[start..])
}

/// Appends the number in decimal, with no leading zero. A refusal leaves `out` as it was, and none
/// comes where room for the text was reserved.
pub fn push_decimal(out: &mut Vec<u8>, v: u128) -> Result<(), AllocError>
    ensures ok { OnOk result (out.new.items ≡ out.old.items ++ decimal v) }
    ensures err { OnErr result (out.new.items ≡ out.old.items) }
    ensures room { vec_len out.old + length (decimal v) ≤ vec_capacity out.old → IsOk result }
    ensures capacity { vec_capacity out.old ≤ vec_capacity out.new }
{
    push_digits(out, 10, v)
}

/// Appends the number in hexadecimal, in lower case and with no leading zero. A refusal leaves
/// `out` as it was, and none comes where room for the text was reserved.
pub fn push_hex(out: &mut Vec<u8>, v: u64) -> Result<(), AllocError>
    ensures ok { OnOk result (out.new.items ≡ out.old.items ++ digits 16 false v) }
    ensures err { OnErr result (out.new.items ≡ out.old.items) }
    ensures room { vec_len out.old + length (digits 16 false v) ≤ vec_capacity out.old
        → IsOk result }
    ensures capacity { vec_capacity out.old ≤ vec_capacity out.new }
{
    push_digits(out, 16, u128::from(v))
}
