//! The lines of a link.

ghost use Rattle.std.specs.Prelude.{◌≡◌, ◌≤◌};
ghost use Rattle.caster_press.specs.Lines.{text_of};
ghost use Rattle.keep_lines.specs.Words.{IsPlain, IsWord, most_of, text_in};
ghost use Rattle.keep_lines.specs.Lines.{asks_line, end_line, entered_line, kind_word, lap_line, link_line, rover_word, segment_line, target_word, user_shown, version_word, who_word};

use crate::names::{DASH, mount_word, user_word};
use crate::told::{Asks, Entered, LinkNumber, Peer, Wants, Who};
use crate::words::{Word, begin, line_of, put_ending, put_settled, put_words};
use cast_config::Config;
use cast_text::is_name;
use caster_press::Line;
use mount_ring::Lap;
use ntrip_head::Version;
use rover_cursor::Segment;
use session_model::Receipt;

/// Who is at the other end of a link: `from ADDRESS` or `to ADDRESS`.
///
/// An address is shown with `_` for each byte that is a space or a control character, so that it is
/// one word. It is a dash where it is not told, is empty, or has more than 100 bytes.
pub fn link_line(link: LinkNumber, peer: Peer<'_>) -> Line
    ensures { text_of result ≡ link_line link peer.entry }
{
    match peer {
        Peer::From(address) => line_of(link, &[Word::Text(b"from"), Word::Shown(address)]),
        Peer::Unknown => line_of(link, &[Word::Text(b"from"), Word::Text(DASH)]),
        Peer::To(address) => line_of(link, &[Word::Text(b"to"), Word::Shown(address)]),
    }
}

/// The number of a version of NTRIP.
fn version_word(version: Version) -> &'static [u8]
    ensures value { result.now ≡ version_word version }
    ensures word { IsWord result.now }
{
    match version {
        Version::One => b"1",
        Version::Two => b"2",
    }
}

/// What is wanted.
fn kind_word(wants: Wants<'_>) -> &'static [u8]
    ensures value { result.now ≡ kind_word wants.entry }
    ensures word { IsWord result.now }
{
    match wants {
        Wants::Rover(_) => b"rover",
        Wants::Source(_) => b"source",
        Wants::Table => b"table",
    }
}

/// The mountpoint that is wanted, or a dash.
#[tactic(auto, using(crate::proofs::WordLemmas::name_is_word))]
fn target_word<'a>(wants: Wants<'a>) -> &'a [u8]
    ensures value { result.now ≡ target_word wants.entry }
    ensures word { IsWord result.now }
{
    match wants {
        Wants::Rover(mount) | Wants::Source(mount) => mount.bytes(),
        Wants::Table => DASH,
    }
}

/// The user, or a dash where its bytes are no name.
#[tactic(auto, using(crate::proofs::WordLemmas::name_is_word))]
fn user_shown(user: &[u8]) -> &[u8]
    ensures value { result.now ≡ user_shown user.now }
    ensures word { IsWord result.now }
{
    if is_name(user) { user } else { DASH }
}

/// What the head of a link asks for: `asks VERSION rover|source|table TARGET USER`.
///
/// The target of `table` is a dash, and so is a user whose bytes are no name.
pub fn asks_line(link: LinkNumber, asks: Asks<'_>) -> Line
    ensures { text_of result ≡ asks_line link asks.entry }
{
    line_of(
        link,
        &[
            Word::Text(b"asks"),
            Word::Text(version_word(asks.version)),
            Word::Text(kind_word(asks.wants)),
            Word::Text(target_word(asks.wants)),
            Word::Text(user_shown(asks.user)),
        ],
    )
}

/// As what a link was let in: `rover USER`, `source MOUNT CLAIM` or `relay MOUNT CLAIM`.
///
/// A user or a mountpoint that the configuration does not have is a dash.
pub fn entered_line(config: &Config, link: LinkNumber, entered: Entered) -> Line
    ensures { text_of result ≡ entered_line config.now link entered }
{
    match entered {
        Entered::Rover { account } => {
            let user = user_word(config, account);
            line_of(link, &[Word::Text(b"rover"), Word::Text(user)])
        }
        Entered::Source { mount, claim } => {
            let name = mount_word(config, mount);
            line_of(
                link,
                &[Word::Text(b"source"), Word::Text(name), Word::Number(claim)],
            )
        }
        Entered::Relay { mount, claim } => {
            let name = mount_word(config, mount);
            line_of(
                link,
                &[Word::Text(b"relay"), Word::Text(name), Word::Number(claim)],
            )
        }
    }
}

/// What a rover read of a mountpoint: `segment MOUNT FROM TO SENT OVERRUN`.
pub fn segment_line(config: &Config, link: LinkNumber, segment: &Segment) -> Line
    ensures { text_of result ≡ segment_line config.now link segment.now }
{
    let name = mount_word(config, segment.mount);
    line_of(
        link,
        &[
            Word::Text(b"segment"),
            Word::Text(name),
            Word::Number(segment.from),
            Word::Number(segment.to),
            Word::Number(segment.sent),
            Word::Number(segment.overrun),
        ],
    )
}

/// A lap of a segment: `lap FROM TO PUBLISHED OVERRUN`.
pub fn lap_line(link: LinkNumber, lap: &Lap) -> Line
    ensures { text_of result ≡ lap_line link lap.now }
{
    line_of(
        link,
        &[
            Word::Text(b"lap"),
            Word::Number(lap.from),
            Word::Number(lap.to),
            Word::Number(lap.published),
            Word::Number(lap.overrun),
        ],
    )
}

/// The rover of an account.
fn rover_word(config: &Config, account: u32) -> Word<'_>
    ensures value { text_in result ≡ rover_word config.now account }
    ensures plain { IsPlain result }
    ensures short { most_of result ≤ 107 }
{
    if account == 0 {
        return Word::Text(b"anonymous");
    }
    Word::Named(b"rover:", user_word(config, account))
}

/// Whose receipt it is.
fn who_word(config: &Config, who: Who) -> Word<'_>
    ensures value { text_in result ≡ who_word config.now who }
    ensures plain { IsPlain result }
    ensures short { most_of result ≤ 107 }
{
    match who {
        Who::Rover { account } => rover_word(config, account),
        Who::Source { mount } => Word::Named(b"source:", mount_word(config, mount)),
        Who::Relay { mount } => Word::Named(b"relay:", mount_word(config, mount)),
        Who::Nobody => Word::Text(DASH),
    }
}

/// The last line of a receipt: `end WHO SENT OVERRUN JUNK ENDING`, where the words of the ending
/// are those of a report.
///
/// WHO is `rover:USER`, `anonymous`, `source:MOUNT`, `relay:MOUNT` or a dash. The word `unsettled`
/// follows where what the link held could not be given back.
pub fn end_line(config: &Config, link: LinkNumber, who: Who, receipt: &Receipt) -> Line
    ensures { text_of result ≡ end_line config.now link who receipt.now }
{
    let mut draft = begin(link);
    let words = [
        Word::Text(b"end"),
        who_word(config, who),
        Word::Number(receipt.sent),
        Word::Number(receipt.overrun),
        Word::Number(receipt.junk),
    ];
    put_words(&mut draft, &words);
    put_ending(&mut draft, receipt.ending);
    put_settled(&mut draft, receipt.settled);
    draft.finish()
}
