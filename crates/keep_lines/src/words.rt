//! Words that are put into a line, for which there is room.

ghost use Rattle.std.specs.Prelude.{◌≡◌, ◌<◌, ◌≤◌, ◌+◌, false, ◌∷◌, ◌++◌, length, map};
ghost use Rattle.std.specs.Fmt.{decimal};
ghost use Rattle.caster_press.specs.Lines.{text_of};
ghost use Rattle.caster_press.specs.Texts.{has_newline};
ghost use Rattle.session_model.specs.Text.{ending_words};
ghost use Rattle.keep_lines.specs.Words.{ArePlain, IsPlain, led, most_of, room_for, shown, shown_byte, text_in, texts_in};
ghost use Rattle.keep_lines.specs.Lines.{line_with, link_word, now_line, settled_words};

use crate::names::DASH;
use crate::told::LinkNumber;
use caster_press::{Draft, Line, LineFault};
use session_model::Ending;
use session_text::{EndingWords, words_of};

/// The most bytes of an address that are shown.
const MAX_SHOWN: usize = 100;

/// A word of a line.
#[derive(Clone, Copy)]
pub(crate) enum Word<'a> {
    /// This text.
    Text(&'a [u8]),
    /// This number in decimal.
    Number(u64),
    /// A kind, and a name right behind it.
    Named(&'static [u8], &'a [u8]),
    /// This address, as it is shown.
    Shown(&'a [u8]),
}

/// Appends a text that has no newline and for which there is room.
fn put_text(draft: &mut Draft, text: &[u8])
    requires room { length draft.old + length text.now < 512 }
    requires plain { has_newline text.now ≡ false }
    ensures text { draft.new ≡ draft.old ++ text.now }
    ensures short { length draft.new ≡ length draft.old + length text.now }
{
    match draft.push(text) {
        Ok(()) => (),
        Err(LineFault::Long) => unreachable!(),
        Err(LineFault::Newline) => unreachable!(),
    }
}

/// Appends a number in decimal, for which there is room: it has 20 digits at most.
#[tactic(auto, using(crate::proofs::WordLemmas::short_number))]
fn put_number(draft: &mut Draft, number: u64)
    requires { length draft.old + 20 < 512 }
    ensures text { draft.new ≡ draft.old ++ decimal number }
    ensures size { length draft.new ≡ length draft.old + length (decimal number) }
    ensures digits { length (decimal number) ≤ 20 }
{
    match draft.push_decimal(number) {
        Ok(()) => (),
        Err(LineFault::Long) => unreachable!(),
        Err(LineFault::Newline) => unreachable!(),
    }
}

/// The byte that is shown for this one.
fn shown_byte(byte: u8) -> u8
    ensures { result ≡ shown_byte byte }
{
    if byte > b' ' && byte != 0x7F {
        byte
    } else {
        b'_'
    }
}

/// Appends the bytes that are shown for these, of which there are 100 at most.
fn put_bytes_shown(draft: &mut Draft, text: &[u8])
    requires room { length draft.old + 100 < 512 }
    requires few { length text.now ≤ 100 }
    ensures text { draft.new ≡ draft.old ++ map shown_byte text.now }
    ensures short { length draft.new ≤ length draft.old + length text.now }
{
    for byte in text {
        put_text(draft, &[shown_byte(*byte)]);
    }
}

/// Appends what is shown of an address, for which there is room.
fn put_shown(draft: &mut Draft, address: &[u8])
    requires { length draft.old + 100 < 512 }
    ensures text { draft.new ≡ draft.old ++ shown address.now }
    ensures short { length draft.new ≤ length draft.old + 100 }
{
    if address.is_empty() || address.len() > MAX_SHOWN {
        put_text(draft, DASH);
    } else {
        put_bytes_shown(draft, address);
    }
}

/// Appends a space and a word, for which there is room.
fn put_word(draft: &mut Draft, word: Word<'_>)
    requires room { length draft.old + most_of word < 511 }
    requires plain { IsPlain word }
    ensures text { draft.new ≡ draft.old ++ 32 ∷ text_in word.entry }
    ensures short { length draft.new ≤ length draft.old + (1 + most_of word.entry) }
{
    put_text(draft, b" ");
    match word {
        Word::Text(text) => put_text(draft, text),
        Word::Number(number) => put_number(draft, number),
        Word::Named(kind, name) => {
            put_text(draft, kind);
            put_text(draft, name);
        }
        Word::Shown(address) => put_shown(draft, address),
    }
}

/// Appends words, each with a space before it, for which there is room.
pub(crate) fn put_words(draft: &mut Draft, words: &[Word<'_>])
    requires room { length draft.old + room_for words.now < 512 }
    requires plain { ArePlain words.now }
    ensures text { draft.new ≡ draft.old ++ led (texts_in words.now) }
    ensures short { length draft.new ≤ length draft.old + room_for words.now }
{
    for word in words {
        put_word(draft, *word);
    }
}

/// Begins a line with the number of its link.
pub(crate) fn begin(link: LinkNumber) -> Draft
    ensures text { result ≡ link_word link }
    ensures short { length result ≤ 41 }
{
    let mut draft = Draft::new();
    put_number(&mut draft, u64::from(link.caller));
    put_text(&mut draft, b".");
    put_number(&mut draft, link.count);
    draft
}

/// The line of a link that says these words.
pub(crate) fn line_of(link: LinkNumber, words: &[Word<'_>]) -> Line
    requires room { room_for words.now ≤ 470 }
    requires plain { ArePlain words.now }
    ensures { text_of result ≡ line_with link (texts_in words.now) }
{
    let mut draft = begin(link);
    put_words(&mut draft, words);
    draft.finish()
}

/// The line that says how things stand by these words.
pub(crate) fn now_line(words: &[Word<'_>]) -> Line
    requires room { room_for words.now ≤ 470 }
    requires plain { ArePlain words.now }
    ensures { text_of result ≡ now_line (texts_in words.now) }
{
    let mut draft = Draft::new();
    put_text(&mut draft, b"now");
    put_words(&mut draft, words);
    draft.finish()
}

/// Appends the words of an ending, each with a space before it: 58 bytes at most.
pub(crate) fn put_ending(draft: &mut Draft, ending: Ending)
    requires { length draft.old < 450 }
    ensures text { draft.new ≡ draft.old ++ led (ending_words ending) }
    ensures short { length draft.new ≤ length draft.old + 58 }
{
    match words_of(ending) {
        EndingWords::Bare(word) => put_words(draft, &[Word::Text(word)]),
        EndingWords::One(word, number) => {
            put_words(draft, &[Word::Text(word), Word::Number(number)]);
        }
        EndingWords::Two(word, first, second) => {
            put_words(
                draft,
                &[Word::Text(word), Word::Number(first), Word::Number(second)],
            );
        }
    }
}

/// Appends that what a link held could not be given back, where that is so.
pub(crate) fn put_settled(draft: &mut Draft, settled: bool)
    requires { length draft.old < 500 }
    ensures text { draft.new ≡ draft.old ++ led (settled_words settled) }
    ensures short { length draft.new ≤ length draft.old + 10 }
{
    if !settled {
        put_words(draft, &[Word::Text(b"unsettled")]);
    }
}
