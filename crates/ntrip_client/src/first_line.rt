//! The first line of an answer.

ghost use Rattle.std.specs.Prelude.{◌≡◌};
ghost use Rattle.std.specs.Str.Lines.{strip_carriage_return};
ghost use Rattle.ntrip_client.specs.FirstLine.{kind_by_words, kind_of};

/// What a first line begins.
#[derive(Clone, Copy, Debug, PartialEq, Eq)]
pub enum FirstLine {
    /// Frames follow, by NTRIP 1.0.
    Icy,
    /// A sourcetable follows, by NTRIP 1.0.
    Table,
    /// It is the first line of a response of HTTP.
    Http,
    /// It is none of these.
    Other,
}

/// The text without one CR at its end.
fn without_return(text: &[u8]) -> &[u8]
    ensures { result.now ≡ strip_carriage_return text.now }
{
    match text {
        [line @ .., b'\r'] => line,
        _ => text,
    }
}

/// What a line is by its words.
fn kind_by_words(words: &[u8]) -> FirstLine
    ensures { result ≡ kind_by_words words.now }
{
    if words == b"ICY 200 OK".as_slice() {
        FirstLine::Icy
    } else if words.starts_with(b"SOURCETABLE") {
        FirstLine::Table
    } else if words.starts_with(b"HTTP/") {
        FirstLine::Http
    } else {
        FirstLine::Other
    }
}

/// What a line is, without its LF.
pub fn kind_of(line: &[u8]) -> FirstLine
    ensures { result ≡ kind_of line.now }
{
    kind_by_words(without_return(line))
}
