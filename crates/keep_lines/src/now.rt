//! The lines that say how things stand.

ghost use Rattle.std.specs.Prelude.{◌≡◌, ◌≤◌};
ghost use Rattle.caster_press.specs.Lines.{text_of};
ghost use Rattle.keep_lines.specs.Words.{IsPlain, most_of, text_in};
ghost use Rattle.keep_lines.specs.Lines.{now_end_line, now_mount_line, now_workers_line, number_or_dash};

use crate::names::{DASH, mount_word};
use crate::words::{Word, now_line};
use cast_config::Config;
use caster_press::Line;

/// The number, or a dash where there is none.
fn number_or_dash(number: Option<u64>) -> Word<'static>
    ensures value { text_in result ≡ number_or_dash number }
    ensures plain { IsPlain result }
    ensures short { most_of result ≤ 20 }
{
    match number {
        None => Word::Text(DASH),
        Some(number) => Word::Number(number),
    }
}

/// How a mountpoint stands: `now mount NAME PUBLISHED HOLDER`, how many frames were published there
/// and the claim under which it is held. What is not there is a dash.
pub fn now_mount_line(
    config: &Config,
    mount: u32,
    published: Option<u64>,
    claim: Option<u64>,
) -> Line
    ensures { text_of result ≡ now_mount_line config.now mount published claim }
{
    let name = mount_word(config, mount);
    now_line(&[
        Word::Text(b"mount"),
        Word::Text(name),
        number_or_dash(published),
        number_or_dash(claim),
    ])
}

/// How the workers stand: `now workers BUSY ALL`, how many of them serve a link, and how many there
/// are.
pub fn now_workers_line(config: &Config, busy: u32) -> Line
    ensures { text_of result ≡ now_workers_line config.now busy }
{
    now_line(&[
        Word::Text(b"workers"),
        Word::Number(u64::from(busy)),
        Word::Number(u64::from(config.workers)),
    ])
}

/// The last line of how things stand: `now end`.
pub fn now_end_line() -> Line
    ensures { text_of result ≡ now_end_line }
{
    now_line(&[Word::Text(b"end")])
}
