//! Angles: degrees and minutes as digits, and a letter for the side.

ghost use Rattle.std.specs.Prelude.{◌≡◌, ◌+◌, ◌-◌, ◌≤◌, ◌<◌, ◌==◌, ◌&&◌, slice_index, unsigned_abs, IfSome};
ghost use Rattle.std.specs.List.{list_all};
ghost use Rattle.gga_read.specs.Angle.{is_digit, digit_at, ends_with_decimals, whole_minutes, decimals, has_minutes, magnitude, angle_within, latitude_size, longitude_size, is_letter, signed, latitude_of, longitude_of};

/// 90 degrees, in units of 10^-7 degree.
const RIGHT_ANGLE: u64 = 900_000_000;

/// 180 degrees, in units of 10^-7 degree.
const STRAIGHT_ANGLE: u64 = 1_800_000_000;

/// The byte at this place, 0 where the text is shorter.
pub fn byte_at(text: &[u8], place: usize) -> u8
    ensures { result ≡ slice_index text.now place }
{
    if place < text.len() { text[place] } else { 0 }
}

/// Whether a digit stands at this place.
fn is_digit_at(text: &[u8], place: usize) -> bool
    ensures { result ≡ is_digit (slice_index text.now place) }
{
    let byte = byte_at(text, place);
    b'0' <= byte && byte <= b'9'
}

/// The value of the digit at this place, 0 where the text is shorter.
fn digit_at(text: &[u8], place: usize) -> u64
    ensures value { result ≡ digit_at text.now place }
    ensures small { result ≤ 207 }
{
    u64::from(byte_at(text, place).saturating_sub(b'0'))
}

/// Whether each byte is one of `0` to `9`.
fn all_digits(text: &[u8]) -> bool
    ensures { result ≡ list_all is_digit text.now }
{
    text.iter().all(|c| b'0' <= *c && *c <= b'9')
}

/// Whether the text ends at this place, or goes on with `.` and digits.
fn ends_with_decimals(at: usize, text: &[u8]) -> bool
    requires { at ≤ 5 }
    ensures { result ≡ ends_with_decimals at text.now }
{
    if text.len() == at {
        return true;
    }
    byte_at(text, at) == b'.' && all_digits(&text[at + 1..])
}

/// The two digits of the minutes from this place.
fn whole_minutes(at: usize, text: &[u8]) -> u64
    requires { at ≤ 3 }
    ensures value { result ≡ whole_minutes at text.now }
    ensures small { result ≤ 2277 }
{
    10 * digit_at(text, at) + digit_at(text, at + 1)
}

/// The first five decimals of the minutes from this place.
fn decimals(at: usize, text: &[u8]) -> u64
    requires { at ≤ 3 }
    ensures value { result ≡ decimals at text.now }
    ensures small { result ≤ 2299977 }
{
    10000 * digit_at(text, at + 3)
        + 1000 * digit_at(text, at + 4)
        + 100 * digit_at(text, at + 5)
        + 10 * digit_at(text, at + 6)
        + digit_at(text, at + 7)
}

/// Whether minutes below 60 stand from this place to the end.
fn has_minutes(at: usize, text: &[u8]) -> bool
    requires { at ≤ 3 }
    ensures { result ≡ has_minutes at text.now }
{
    is_digit_at(text, at)
        && is_digit_at(text, at + 1)
        && ends_with_decimals(at + 2, text)
        && whole_minutes(at, text) < 60
}

/// The angle in units of 10^-7 degree, rounded down.
fn magnitude(degrees: u64, at: usize, text: &[u8]) -> u64
    requires degrees { degrees ≤ 22977 }
    requires at { at ≤ 3 }
    ensures { result ≡ magnitude degrees at text.now }
{
    degrees * 10_000_000 + (whole_minutes(at, text) * 100_000 + decimals(at, text)) * 5 / 3
}

/// The angle, if minutes stand from this place and it is at most `limit`.
fn angle_within(limit: u64, degrees: u64, at: usize, text: &[u8]) -> Option<u64>
    requires degrees { degrees ≤ 22977 }
    requires at { at ≤ 3 }
    ensures value { result ≡ angle_within limit degrees at text.now }
    ensures within { IfSome result (λ size. size ≤ limit) }
{
    let size = magnitude(degrees, at, text);
    if has_minutes(at, text) && size <= limit {
        Some(size)
    } else {
        None
    }
}

/// The latitude without its sign.
fn latitude_size(text: &[u8]) -> Option<u64>
    ensures value { result ≡ latitude_size text.now }
    ensures within { IfSome result (λ size. size ≤ 900000000) }
{
    if is_digit_at(text, 0) && is_digit_at(text, 1) {
        let degrees = 10 * digit_at(text, 0) + digit_at(text, 1);
        angle_within(RIGHT_ANGLE, degrees, 2, text)
    } else {
        None
    }
}

/// The longitude without its sign.
fn longitude_size(text: &[u8]) -> Option<u64>
    ensures value { result ≡ longitude_size text.now }
    ensures within { IfSome result (λ size. size ≤ 1800000000) }
{
    if is_digit_at(text, 0) && is_digit_at(text, 1) && is_digit_at(text, 2) {
        let degrees = 100 * digit_at(text, 0) + 10 * digit_at(text, 1) + digit_at(text, 2);
        angle_within(STRAIGHT_ANGLE, degrees, 3, text)
    } else {
        None
    }
}

/// Whether the text is this one letter.
fn is_letter(letter: u8, text: &[u8]) -> bool
    ensures { result ≡ is_letter letter text.now }
{
    text.len() == 1 && text[0] == letter
}

/// The angle with the sign that the letter says.
fn with_sign(plus: u8, minus: u8, letter: &[u8], size: u64) -> Option<i64>
    requires { size ≤ 1800000000 }
    ensures value { result ≡ signed plus minus letter.now (Some size) }
    ensures within { IfSome result (λ angle. unsigned_abs angle ≤ size) }
{
    if is_letter(plus, letter) {
        Some(size as i64)
    } else if is_letter(minus, letter) {
        Some(-(size as i64))
    } else {
        None
    }
}

/// The latitude: `ddmm` with decimals of the minutes, and `N` or `S`.
pub fn latitude(text: &[u8], letter: &[u8]) -> Option<i64>
    ensures value { result ≡ latitude_of text.now letter.now }
    ensures within { IfSome result (λ angle. unsigned_abs angle ≤ 900000000) }
{
    match latitude_size(text) {
        None => None,
        Some(size) => with_sign(b'N', b'S', letter, size),
    }
}

/// The longitude: `dddmm` with decimals of the minutes, and `E` or `W`.
pub fn longitude(text: &[u8], letter: &[u8]) -> Option<i64>
    ensures value { result ≡ longitude_of text.now letter.now }
    ensures within { IfSome result (λ angle. unsigned_abs angle ≤ 1800000000) }
{
    match longitude_size(text) {
        None => None,
        Some(size) => with_sign(b'E', b'W', letter, size),
    }
}
