//! The text of a report. The bytes of a connection are written as digits into it, and nowhere else.

ghost use Rattle.std.specs.Prelude.{◌≡◌, ◌<◌, ℕ, List, [], ◌∷◌, ◌++◌, codes, length, slice_get, slice_index, OnErr, OnOk, map};
ghost use Rattle.std.specs.List.{flat_map};
ghost use Rattle.std.specs.Fmt.{decimal};
ghost use Rattle.hex.specs.Hex.{encode_lower, lower_digits};
ghost use Rattle.session_model.specs.Text.{connection_lines, ending_words, hex_or_dash, lap_line, line, name_of, report_text, segment_lines};
ghost use Rattle.session_text.specs.Words.{words_in};

use crate::text::{closed_text, push_line};
use cast_config::Config;
use cast_text::push_decimal;
use mount_ring::Lap;
use rover_cursor::Segment;
use session_model::{Connection, Ending, Report};
use std::alloc::AllocError;

/// The digits of hexadecimal numbers.
const DIGITS: &[u8] = b"0123456789abcdef";

/// Appends a line of a word and numbers. A refusal may leave a part of it.
fn push_words(out: &mut Vec<u8>, word: &[u8], numbers: &[u128]) -> Result<(), AllocError>
    ensures ok { OnOk result (out.new.items
        ≡ out.old.items ++ line (word.now ∷ map decimal numbers.now)) }
    ensures begins { (more : List ℕ) × (out.new.items ≡ out.old.items ++ more) }
{
    push_line(out, b"", word, numbers)
}

/// What an ending is told by: a word, and up to two numbers behind it.
pub enum EndingWords {
    /// The word alone.
    Bare(&'static [u8]),
    /// The word and a number.
    One(&'static [u8], u64),
    /// The word and two numbers.
    Two(&'static [u8], u64, u64),
}

/// What this ending is told by.
pub fn words_of(ending: Ending) -> EndingWords
    ensures { words_in result ≡ ending_words ending }
{
    match ending {
        Ending::SourceEnd { claim } => EndingWords::One(b"source-end", claim),
        Ending::RoverEnd => EndingWords::Bare(b"rover-end"),
        Ending::TableSent => EndingWords::Bare(b"table-sent"),
        Ending::NoHead => EndingWords::Bare(b"no-head"),
        Ending::BadHead => EndingWords::Bare(b"bad-head"),
        Ending::LongHead => EndingWords::Bare(b"long-head"),
        Ending::Method => EndingWords::Bare(b"method"),
        Ending::Coding => EndingWords::Bare(b"coding"),
        Ending::NoMount => EndingWords::Bare(b"no-mount"),
        Ending::NoAccount => EndingWords::Bare(b"no-account"),
        Ending::Password { account } => EndingWords::One(b"password", u64::from(account)),
        Ending::SourcePassword => EndingWords::Bare(b"source-password"),
        Ending::Denied { group } => EndingWords::One(b"denied", u64::from(group)),
        Ending::Taken { caller, claim } => EndingWords::Two(b"taken", u64::from(caller), claim),
        Ending::Full { busy, cap } => EndingWords::Two(b"full", u64::from(busy), u64::from(cap)),
        Ending::BadChunk { at } => EndingWords::One(b"bad-chunk", at),
        Ending::UpstreamTable => EndingWords::Bare(b"upstream-table"),
        Ending::Upstream { status } => EndingWords::One(b"upstream", u64::from(status)),
        Ending::ReadFault => EndingWords::Bare(b"read-fault"),
        Ending::WriteFault => EndingWords::Bare(b"write-fault"),
        Ending::Worn { turns } => EndingWords::One(b"worn", turns),
        Ending::Memory => EndingWords::Bare(b"memory"),
    }
}

/// Appends the words of an ending as a line. A refusal may leave a part of it.
fn push_ending(out: &mut Vec<u8>, ending: Ending) -> Result<(), AllocError>
    ensures ok { OnOk result (out.new.items ≡ out.old.items ++ line (ending_words ending)) }
    ensures begins { (more : List ℕ) × (out.new.items ≡ out.old.items ++ more) }
{
    match words_of(ending) {
        EndingWords::Bare(word) => push_words(out, word, &[]),
        EndingWords::One(word, number) => push_words(out, word, &[u128::from(number)]),
        EndingWords::Two(word, first, second) => {
            push_words(out, word, &[u128::from(first), u128::from(second)])
        }
    }
}

/// Appends the first line of a connection. A refusal may leave a part of it.
fn push_first(out: &mut Vec<u8>, number: u32, ending: Ending) -> Result<(), AllocError>
    ensures ok { OnOk result (out.new.items
        ≡ out.old.items ++ line (codes "connection" ∷ decimal number ∷ ending_words ending)) }
    ensures begins { (more : List ℕ) × (out.new.items ≡ out.old.items ++ more) }
{
    out.extend_from_slice(b"connection ")?;
    push_decimal(out, u128::from(number))?;
    out.extend_from_slice(b" ")?;
    push_ending(out, ending)
}

/// Appends a lap's line. A refusal may leave a part of it.
fn push_lap(out: &mut Vec<u8>, lap: &Lap) -> Result<(), AllocError>
    ensures ok { OnOk result (out.new.items ≡ out.old.items ++ lap_line lap.now) }
    ensures begins { (more : List ℕ) × (out.new.items ≡ out.old.items ++ more) }
{
    let numbers = [
        u128::from(lap.from),
        u128::from(lap.to),
        u128::from(lap.published),
        u128::from(lap.overrun),
    ];
    push_words(out, b"lap", &numbers)
}

/// The name of this mountpoint, and nothing where the configuration has none of this number.
fn mount_name(config: &Config, mount: u32) -> &[u8]
    ensures { result.now ≡ name_of (slice_get config.now.mount mount) }
{
    match config.mount.as_slice().get(mount as usize) {
        None => b"",
        Some(mount) => mount.name.bytes(),
    }
}

/// Appends a segment's line, and those of its laps. A refusal may leave a part of them.
fn push_segment(config: &Config, segment: &Segment, out: &mut Vec<u8>) -> Result<(), AllocError>
    ensures ok { OnOk result (out.new.items
        ≡ out.old.items ++ segment_lines config.now segment.now) }
    ensures begins { (more : List ℕ) × (out.new.items ≡ out.old.items ++ more) }
{
    let numbers = [
        u128::from(segment.from),
        u128::from(segment.to),
        u128::from(segment.sent),
        u128::from(segment.overrun),
    ];
    push_line(
        out,
        b"segment ",
        mount_name(config, segment.mount),
        &numbers,
    )?;
    for lap in segment.laps.as_slice() {
        push_lap(out, lap)?;
    }
    Ok(())
}

/// Appends the lines of segments. A refusal may leave a part of them.
fn push_segments(config: &Config, segments: &[Segment], out: &mut Vec<u8>) -> Result<(), AllocError>
    ensures ok { OnOk result (out.new.items
        ≡ out.old.items ++ flat_map (segment_lines config.now) segments.now) }
    ensures begins { (more : List ℕ) × (out.new.items ≡ out.old.items ++ more) }
{
    for segment in segments {
        push_segment(config, segment, out)?;
    }
    Ok(())
}

/// The digit of this value.
fn digit(value: u8) -> u8
    requires { value < 16 }
    ensures { result ≡ slice_index lower_digits value }
{
    DIGITS[usize::from(value)]
}

/// Appends two digits a byte. A refusal may leave a part of them.
fn push_digits(out: &mut Vec<u8>, bytes: &[u8]) -> Result<(), AllocError>
    ensures ok { OnOk result (out.new.items ≡ out.old.items ++ encode_lower bytes.now) }
    ensures begins { (more : List ℕ) × (out.new.items ≡ out.old.items ++ more) }
{
    for byte in bytes {
        out.push(digit(*byte / 16))?;
        out.push(digit(*byte % 16))?;
    }
    Ok(())
}

/// Appends two digits a byte, or a dash where there is none. A refusal may leave a part of them.
fn push_sent(out: &mut Vec<u8>, bytes: &[u8]) -> Result<(), AllocError>
    ensures ok { OnOk result (out.new.items ≡ out.old.items ++ hex_or_dash bytes.now) }
    ensures begins { (more : List ℕ) × (out.new.items ≡ out.old.items ++ more) }
{
    if bytes.is_empty() {
        return out.extend_from_slice(b"-");
    }
    push_digits(out, bytes)
}

/// Appends the line of the bytes that a connection was sent. A refusal may leave a part of it.
fn push_bytes(out: &mut Vec<u8>, bytes: &[u8]) -> Result<(), AllocError>
    ensures ok { OnOk result (out.new.items
        ≡ out.old.items ++ line (codes "bytes" ∷ hex_or_dash bytes.now ∷ [])) }
    ensures begins { (more : List ℕ) × (out.new.items ≡ out.old.items ++ more) }
{
    out.extend_from_slice(b"bytes ")?;
    push_sent(out, bytes)?;
    out.extend_from_slice(b"\n")
}

/// Appends the lines of a connection that stand before its segments. A refusal may leave a part of
/// them.
fn push_front(out: &mut Vec<u8>, told: &Connection) -> Result<(), AllocError>
    ensures ok { OnOk result (out.new.items ≡ out.old.items
        ++ (line (codes "connection" ∷ decimal told.now.number
        ∷ ending_words told.now.receipt.ending)
        ++ line (codes "junk" ∷ decimal told.now.receipt.junk ∷ []))) }
    ensures begins { (more : List ℕ) × (out.new.items ≡ out.old.items ++ more) }
{
    push_first(out, told.number, told.receipt.ending)?;
    push_words(out, b"junk", &[u128::from(told.receipt.junk)])?;
    Ok(())
}

/// Appends the lines of a connection. A refusal may leave a part of them.
#[tactic(auto, unfolding(session_model::specs::Text::connection_lines))]
fn push_connection(config: &Config, told: &Connection, out: &mut Vec<u8>) -> Result<(), AllocError>
    ensures ok { OnOk result (out.new.items
        ≡ out.old.items ++ connection_lines config.now told.now) }
    ensures begins { (more : List ℕ) × (out.new.items ≡ out.old.items ++ more) }
{
    push_front(out, told)?;
    push_segments(config, told.receipt.segments.as_slice(), out)?;
    push_bytes(out, told.bytes.bytes())?;
    Ok(())
}

/// Appends the lines of connections. A refusal may leave a part of them.
fn push_connections(
    config: &Config,
    connections: &[Connection],
    out: &mut Vec<u8>,
) -> Result<(), AllocError>
    ensures ok { OnOk result (out.new.items
        ≡ out.old.items ++ flat_map (connection_lines config.now) connections.now) }
    ensures begins { (more : List ℕ) × (out.new.items ≡ out.old.items ++ more) }
{
    for told in connections {
        push_connection(config, told, out)?;
    }
    Ok(())
}

/// Appends the text of a report. A refusal may leave a part of it.
fn push_report(config: &Config, report: &Report, out: &mut Vec<u8>) -> Result<(), AllocError>
    requires mounts { length report.now.closed.mounts ≡ length config.now.mount }
    requires accounts { length report.now.closed.accounts ≡ length config.now.account }
    ensures ok { OnOk result (out.new.items ≡ out.old.items ++ report_text config.now report.now) }
    ensures begins { (more : List ℕ) × (out.new.items ≡ out.old.items ++ more) }
{
    push_connections(config, report.connections.as_slice(), out)?;
    closed_text(config, &report.closed, out)
}

/// Appends the text of a report: the lines of its connections, and then what the mountpoints and
/// the accounts came to, as `closed_text` has it. There is a total for each mountpoint and a sum
/// for each named account.
///
/// The bytes of a connection are written into `out` alone, as two digits a byte.
///
/// # Errors
/// For want of memory. Then `out` is as it was.
pub fn report_text(config: &Config, report: &Report, out: &mut Vec<u8>) -> Result<(), AllocError>
    requires mounts { length report.now.closed.mounts ≡ length config.now.mount }
    requires accounts { length report.now.closed.accounts ≡ length config.now.account }
    ensures ok { OnOk result (out.new.items ≡ out.old.items ++ report_text config.now report.now) }
    ensures err { OnErr result (out.new.items ≡ out.old.items) }
{
    let before = out.len();
    let appended = push_report(config, report, out);
    if appended.is_err() {
        out.truncate(before);
    }
    appended
}
