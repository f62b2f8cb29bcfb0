//! Requests as they are sent to other casters, and their answers as they come.
ghost use Rattle.ntrip_client.specs.Answer.{IsAnswer};

use crate::printing::{put, say, show};
use crate::replies::version_of;
use crate::rows::count_at;
use cast_text::{MountName, Text, UserName};
use ntrip_client::{Answer, AnswerHead, push_request};
use ntrip_head::Version;
use std::alloc::AllocError;

/// Appends the request for the mountpoint UP of the caster at 127.0.0.1:2101.
fn push_for(
    version: Version,
    user: Option<&UserName>,
    password: &Text,
    out: &mut Vec<u8>,
) -> Result<(), AllocError> {
    let alloc = *out.allocator();
    match (
        MountName::new(alloc, b"UP"),
        Text::new(alloc, b"127.0.0.1:2101"),
    ) {
        (Ok(mount), Ok(address)) => { push_request(version, &mount, &address, user, password, out) }
        _ => Ok(()),
    }
}

/// The same with the user of this name, or of none, where the name is empty.
fn push_as(
    version: Version,
    user: &str,
    password: &Text,
    out: &mut Vec<u8>,
) -> Result<(), AllocError> {
    match UserName::new(*out.allocator(), user.as_bytes()) {
        Ok(user) => push_for(version, Some(&user), password, out),
        Err(_) => push_for(version, None, password, out),
    }
}

/// The request of this version with this user and this password, behind what stands there.
pub fn request(words: &str, password: &[u8], out: &mut Vec<u8>) -> Result<(), AllocError> {
    let (version, user) = words.split_once(',').unwrap_or((words, ""));
    let mut written = Vec::from_slice(*out.allocator(), b"> ")?;
    if let Ok(password) = Text::new(*out.allocator(), password) {
        push_as(version_of(version), user, &password, &mut written)?;
    }
    show(out, &written)
}

/// What an answer says that comes in two pieces, cut at this place.
pub fn said_in_two(head: &mut AnswerHead, bytes: &[u8], at: usize) -> Answer
    requires { IsAnswer head.old Answer.Open }
{
    let at = at.min(bytes.len());
    let first = head.feed(&bytes[..at]);
    match first.answer {
        Answer::Open => head.feed(&bytes[at..]).answer,
        answer => answer,
    }
}

/// What an answer says that is cut at this number.
pub fn answer_at(words: &str, bytes: &[u8], out: &mut Vec<u8>) -> Result<(), AllocError> {
    let mut head = AnswerHead::new(*out.allocator())?;
    let at = count_at(words, 0) as usize;
    say(out, &said_in_two(&mut head, bytes, at))
}

/// What an answer says, wherever it is cut; where it says another thing, that stands behind it.
pub fn answer(bytes: &[u8], out: &mut Vec<u8>) -> Result<(), AllocError> {
    let mut whole = Answer::Open;
    for at in 0..bytes.len() + 1 {
        let mut head = AnswerHead::new(*out.allocator())?;
        let said = said_in_two(&mut head, bytes, at);
        if at == 0 || said != whole {
            put(out, " ")?;
            say(out, &said)?;
            whole = said;
        }
    }
    Ok(())
}
