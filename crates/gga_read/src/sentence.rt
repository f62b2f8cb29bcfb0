//! GGA sentences: the frame, the checksum and the fields.

ghost use Rattle.std.specs.Prelude.{unsigned_abs, ◌≤◌, ◌≡◌, ◌<◌, ◌+◌, ◌∷◌, ◌==◌, ◌&&◌, IfSome, IfNone, length, []};
ghost use Rattle.gga_read.specs.Sentence.{exclusive_or, is_hex_digit_of, inner, is_framed, fields, field, is_gga_name, is_gga};
ghost use Rattle.gga_read.specs.Report.{is_fix, fix_of, position_in};

use crate::Position;
use crate::angle::{latitude, longitude};
use cast_text::split_first;

/// The number of a sentence's fields, after its name.
const FIELDS: usize = 14;

/// The exclusive or of the bytes.
fn exclusive_or(bytes: &[u8]) -> u8
    ensures { result ≡ exclusive_or bytes.now }
{
    let mut sum: u8 = 0;
    for byte in bytes {
        sum ^= *byte;
    }
    sum
}

/// Whether the byte is the hexadecimal digit of this value, of either case.
fn is_hex_digit_of(value: u8, byte: u8) -> bool
    requires { value < 16 }
    ensures { result ≡ is_hex_digit_of value byte }
{
    if value < 10 {
        byte == b'0' + value
    } else {
        byte == b'A' - 10 + value || byte == b'a' - 10 + value
    }
}

/// Whether the line is `$`, bytes that are no `*`, `*` and their checksum, and nothing more.
fn is_framed(line: &[u8]) -> bool
    ensures { result ≡ is_framed line.now }
{
    let size = line.len();
    if size < 4 || line[0] != b'$' || line[size - 3] != b'*' {
        return false;
    }
    let inner = &line[1..size - 3];
    if inner.contains(&b'*') {
        return false;
    }
    let sum = exclusive_or(inner);
    is_hex_digit_of(sum / 16, line[size - 2]) && is_hex_digit_of(sum % 16, line[size - 1])
}

/// The number of fields after the name, one for each comma.
fn count_fields(text: &[u8]) -> usize
    ensures { length (fields text.now) ≡ result + 1 }
{
    let mut count: usize = 0;
    for byte in text {
        if *byte == b',' {
            count += 1;
        }
    }
    count
}

/// The part before the first comma.
fn first_field(text: &[u8]) -> &[u8]
    ensures { result.now ≡ field 0 text.now }
{
    match split_first(b',', text) {
        None => text,
        Some((front, _)) => front,
    }
}

/// What comes after the first comma, if there is one.
fn later_fields(text: &[u8]) -> Option<&[u8]>
    ensures some { IfSome result (λ rest. fields text.now ≡ field 0 text.now ∷ fields rest.now) }
    ensures none { IfNone result (fields text.now ≡ text.now ∷ []) }
{
    match split_first(b',', text) {
        None => None,
        Some((_, rest)) => Some(rest),
    }
}

/// The part with this number, empty where there is none.
fn field(number: usize, text: &[u8]) -> &[u8]
    ensures { result.now ≡ field number text.now }
{
    let mut rest = text;
    let mut left = number;
    while left > 0 {
        match later_fields(rest) {
            None => return &[],
            Some(later) => rest = later,
        }
        left -= 1;
    }
    first_field(rest)
}

/// Whether the text is the name of a GGA sentence.
fn is_gga_name(name: &[u8]) -> bool
    ensures { result ≡ is_gga_name name.now }
{
    name.len() == 5
        && name[0].is_ascii_uppercase()
        && name[1].is_ascii_uppercase()
        && name[2] == b'G'
        && name[3] == b'G'
        && name[4] == b'A'
}

/// Whether the text is the name of a GGA sentence and its 14 fields.
fn is_gga(text: &[u8]) -> bool
    ensures { result ≡ is_gga text.now }
{
    is_gga_name(field(0, text)) && count_fields(text) == FIELDS
}

/// Whether the text is one digit that is not 0.
fn is_fix(text: &[u8]) -> bool
    ensures { result ≡ is_fix text.now }
{
    text.len() == 1 && b'1' <= text[0] && text[0] <= b'9'
}

/// The position that the fields say.
fn position_in(text: &[u8]) -> Option<Position>
    ensures value { result ≡ position_in text.now }
    ensures lat { IfSome result (λ at. unsigned_abs at.lat ≤ 900000000) }
    ensures lon { IfSome result (λ at. unsigned_abs at.lon ≤ 1800000000) }
{
    let lat = latitude(field(2, text), field(3, text))?;
    let lon = longitude(field(4, text), field(5, text))?;
    Some(Position { lat, lon })
}

/// The position that the line, without its line end, reports: it is a GGA sentence of NMEA 0183
/// with a fix, minutes below 60, a latitude of at most 90 degrees and a longitude of at most 180
/// degrees. Minutes are cut after five decimals, and the position is rounded towards 0. `None`
/// exactly where the line is no such sentence.
#[tactic(auto, unfolding(crate::specs::Report::fix_of))]
pub fn parse_gga(line: &[u8]) -> Option<Position>
    ensures value { result ≡ fix_of line.now }
    ensures lat { IfSome result (λ at. unsigned_abs at.lat ≤ 900000000) }
    ensures lon { IfSome result (λ at. unsigned_abs at.lon ≤ 1800000000) }
{
    if !is_framed(line) {
        return None;
    }
    let inner = &line[1..line.len() - 3];
    if is_gga(inner) && is_fix(field(6, inner)) {
        position_in(inner)
    } else {
        None
    }
}
