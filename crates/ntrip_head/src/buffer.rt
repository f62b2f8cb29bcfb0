//! The bytes of a head, as they come.

ghost use Rattle.std.specs.Prelude.{◌≡◌, ◌≤◌, List, [], ◌∷◌, ◌++◌, length, take, IfNone, IfOk, IfSome};
ghost use Rattle.ntrip_head.specs.Head.{ends_with_empty_line, IsOpen, IsHead, IsLong};
ghost use Rattle.ntrip_head.specs.Ends.{IsEndOf};

use crate::fault::HeadError;
use crate::reading::read_head;
use crate::request::Request;
use std::alloc::{AllocError, Global};
use std::marker::Model;

/// The most bytes of a head.
const MAX_HEAD_BYTES: usize = 8192;

/// What one more byte makes of a head.
#[derive(Clone, Copy, Debug, PartialEq, Eq)]
pub enum HeadStep {
    /// The head goes on.
    More,
    /// The byte ends the first empty line, and the head with it.
    Done,
    /// 8,192 bytes came, and no empty line is among them.
    Long,
}

/// How a head ended.
#[derive(Drop)]
pub enum HeadEnd {
    /// It is whole. This is what it asks for, or why it gives no request.
    Whole(Result<Request, HeadError>),
    /// 8,192 bytes came, and no empty line is among them.
    Long,
}

/// Whether the bytes end with an empty line.
fn ends_with_empty_line(bytes: &[u8]) -> bool
    ensures { result ≡ ends_with_empty_line bytes.now }
{
    bytes.ends_with(b"\n\n")
        || bytes.ends_with(b"\n\r\n")
        || bytes == b"\n".as_slice()
        || bytes == b"\r\n".as_slice()
}

/// The bytes of a head, taken one by one. LF ends a line, and a CR in front of it belongs to
/// the end; the first empty line ends the head. Contracts see all bytes that were taken.
#[derive(Debug, Drop)]
pub struct HeadBuf {
    bytes: Vec<u8>,
}

impl Model for HeadBuf {
    ghost use Rattle.std.specs.Prelude.{List, ℕ, ◌≤◌};
    ghost use Rattle.std.specs.Vec.{vec_capacity};

    ghost Value = { List ℕ };

    ghost view = { λ head. head.bytes.items };

    ghost invariant = { λ head. 8192 ≤ vec_capacity head.bytes };
}

impl HeadBuf {
    /// Before the first byte. All the memory that it will need is taken here.
    pub fn new(alloc: Global) -> Result<HeadBuf, AllocError>
        ensures empty { IfOk result (λ head. head ≡ []) }
        ensures open { IfOk result (λ head. IsOpen head) }
    {
        Ok(HeadBuf {
            bytes: Vec::with_capacity(alloc, MAX_HEAD_BYTES)?,
        })
    }

    /// Takes the next byte of a head that goes on: no empty line has come, and fewer than 8,192
    /// bytes.
    pub fn push(&mut self, byte: u8) -> HeadStep
        requires { IsOpen self.old }
        ensures bytes { self.new ≡ self.old ++ byte ∷ [] }
        ensures more { result ≡ HeadStep.More → IsOpen self.new }
        ensures done { result ≡ HeadStep.Done → IsHead self.new }
        ensures long { result ≡ HeadStep.Long → IsLong self.new }
    {
        self.bytes.push_reserved(byte);
        if ends_with_empty_line(&self.bytes) {
            HeadStep::Done
        } else if self.bytes.len() == MAX_HEAD_BYTES {
            HeadStep::Long
        } else {
            HeadStep::More
        }
    }

    /// Takes more bytes of a head that goes on, until it is whole or too long, and reads one that
    /// is whole. Gives how many bytes were taken, and how the head ended, if it did.
    pub fn read(&mut self, bytes: &[u8]) -> (usize, Option<HeadEnd>)
        requires open { IsOpen self.old }
        ensures within { result.0 ≤ length bytes.now }
        ensures bytes { self.new ≡ self.old ++ take result.0 bytes.now }
        ensures goes_on { IfNone result.1 (IsOpen self.new) }
        ensures all { IfNone result.1 (result.0 ≡ length bytes.now) }
        ensures ends { IfSome result.1 (IsEndOf self.new) }
    {
        for count in 0..bytes.len() {
            match self.push(bytes[count]) {
                HeadStep::More => {}
                HeadStep::Done => {
                    let answer = read_head(*self.bytes.allocator(), &self.bytes);
                    return (count + 1, Some(HeadEnd::Whole(answer)));
                }
                HeadStep::Long => return (count + 1, Some(HeadEnd::Long)),
            }
        }
        (bytes.len(), None)
    }

    /// The bytes that were taken.
    pub fn bytes(&self) -> &[u8]
        ensures { result.now ≡ self.now }
    {
        &self.bytes
    }
}
