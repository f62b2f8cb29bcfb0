//! Replies to requests.
use crate::printing::show;
use cast_text::split_first;
use ntrip_head::Version;
use ntrip_reply::{Reply, reply};
use std::alloc::AllocError;

/// The version by its name.
pub fn version_of(word: &str) -> Version {
    match word {
        "One" => Version::One,
        _ => Version::Two,
    }
}

/// A reply that says what is wrong, by its name.
fn refusal_of(word: &str) -> Reply {
    match word {
        "BadHead" => Reply::BadHead,
        "Method" => Reply::Method,
        "Coding" => Reply::Coding,
        "Unauthorized" => Reply::Unauthorized,
        "Denied" => Reply::Denied,
        "Full" => Reply::Full,
        "SourcePassword" => Reply::SourcePassword,
        _ => Reply::Taken,
    }
}

/// The reply by its name.
fn reply_of(word: &str) -> Reply {
    match word {
        "RoverOk" => Reply::RoverOk,
        "SourceOk" => Reply::SourceOk,
        "Table" => Reply::Table,
        "RoverNoMount" => Reply::RoverNoMount,
        "SourceNoMount" => Reply::SourceNoMount,
        _ => refusal_of(word),
    }
}

/// The reply of this version and name, where this is the table, behind a text that an ampersand
/// parts from the table.
pub fn write_reply(words: &str, text: &[u8], out: &mut Vec<u8>) -> Result<(), AllocError> {
    let (version, name) = words.split_once(',').unwrap_or((words, ""));
    let (table, front) = split_first(b'&', text).unwrap_or((text, b""));
    let mut written = Vec::from_slice(*out.allocator(), front)?;
    reply(version_of(version), &reply_of(name), table, &mut written)?;
    show(out, &written)
}
