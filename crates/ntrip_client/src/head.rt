//! The head of an answer, as its bytes come.

ghost use Rattle.std.specs.Prelude.{◌≡◌, ◌≤◌, ◌-◌, ℕ, true, false, List, [], ◌∷◌, ◌++◌, length, take, IfOk};
ghost use Rattle.ntrip_head.specs.Head.{IsHead};
ghost use Rattle.ntrip_head.specs.Steps.{IsStep};
ghost use Rattle.ntrip_client.specs.FirstLine.{has_line, SpeaksHttp};
ghost use Rattle.ntrip_client.specs.Answer.{HeadGoesOn, IsAnswer};
ghost use Rattle.ntrip_client.specs.Steps.{BeginsAt};

use crate::answer::{Answer, Refusal};
use crate::first_line::{FirstLine, kind_of};
use ntrip_head::{HeadBuf, HeadFault, HeadStep, read_upstream};
use std::alloc::{AllocError, Global};
use std::marker::Model;

/// The most bytes of a head.
const MAX_HEAD_BYTES: usize = 8192;

/// What the whole head of an HTTP response says.
fn by_response(head: &[u8]) -> Answer
    requires http { SpeaksHttp head.now }
    requires head { IsHead head.now }
    ensures says { IsAnswer head.now result }
    ensures begins { BeginsAt (length head.now) result }
{
    let at = head.len() as u64;
    match read_upstream(head) {
        Ok(upstream) => {
            if upstream.status == 200 {
                return Answer::Accepted {
                    at,
                    chunked: upstream.chunked,
                };
            }
            Answer::Refused(Refusal::Status(upstream.status))
        }
        Err(HeadFault::Bad) => Answer::Refused(Refusal::BadHead),
        Err(HeadFault::Method) => Answer::Refused(Refusal::BadHead),
        Err(HeadFault::Coding) => Answer::Refused(Refusal::Coding),
    }
}

/// What a head of HTTP says that goes on, or ends here.
fn by_step(step: HeadStep, head: &[u8]) -> Answer
    requires http { SpeaksHttp head.now }
    requires step { IsStep head.now step }
    ensures says { IsAnswer head.now result }
    ensures begins { BeginsAt (length head.now) result }
{
    match step {
        HeadStep::More => Answer::Open,
        HeadStep::Done => by_response(head),
        HeadStep::Long => Answer::Refused(Refusal::LongHead),
    }
}

/// What a head says whose first line goes on.
fn by_size(head: &[u8]) -> Answer
    requires line { has_line head.now ≡ false }
    requires within { length head.now ≤ 8192 }
    ensures says { IsAnswer head.now result }
    ensures begins { BeginsAt (length head.now) result }
{
    if head.len() < MAX_HEAD_BYTES {
        Answer::Open
    } else {
        Answer::Refused(Refusal::LongHead)
    }
}

/// What a head says whose first line ends here.
fn by_line(step: HeadStep, front: &[u8], head: &[u8]) -> Answer
    requires line { head.now ≡ front.now ++ 10 ∷ [] }
    requires free { has_line front.now ≡ false }
    requires within { length head.now ≤ 8192 }
    requires step { IsStep head.now step }
    ensures says { IsAnswer head.now result }
    ensures begins { BeginsAt (length head.now) result }
{
    let at = head.len() as u64;
    match kind_of(front) {
        FirstLine::Icy => Answer::Accepted { at, chunked: false },
        FirstLine::Table => Answer::Refused(Refusal::Table),
        FirstLine::Http => by_step(step, head),
        FirstLine::Other => Answer::Refused(Refusal::BadHead),
    }
}

/// Adds a byte to a head that goes on, and says what the head then says. `named` is whether the
/// first line has ended.
fn add(head: &mut HeadBuf, named: &mut bool, byte: u8) -> Answer
    requires open { HeadGoesOn head.old }
    requires named { named.old ≡ has_line head.old }
    ensures bytes { head.new ≡ head.old ++ byte ∷ [] }
    ensures named { named.new ≡ has_line head.new }
    ensures says { IsAnswer head.new result }
    ensures begins { BeginsAt (length head.new) result }
{
    let step = head.push(byte);
    if *named {
        return by_step(step, head.bytes());
    }
    if byte != b'\n' {
        return by_size(head.bytes());
    }
    *named = true;
    let bytes = head.bytes();
    by_line(step, &bytes[..bytes.len() - 1], bytes)
}

/// The bytes of a head up to the one that decides, and what they say.
#[derive(Clone, Copy, Debug, PartialEq, Eq)]
pub struct Taken {
    /// How many bytes were taken.
    pub count: usize,
    /// What all bytes say that were taken so far.
    pub answer: Answer,
}

/// The head of a caster's answer, as its bytes come in any pieces. No more than the 8,192 bytes
/// that a head may have are kept, and all memory for them is taken at first. Contracts see all
/// bytes that were taken.
#[derive(Debug, Drop)]
pub struct AnswerHead {
    head: HeadBuf,
    named: bool,
}

impl Model for AnswerHead {
    ghost use Rattle.std.specs.Prelude.{◌≡◌, List, ℕ};
    ghost use Rattle.ntrip_client.specs.FirstLine.{has_line};

    ghost Value = { List ℕ };

    ghost view = { λ answer. answer.head };

    ghost invariant = { λ answer. answer.named ≡ has_line answer.head };
}

impl AnswerHead {
    /// Before the first byte.
    pub fn new(alloc: Global) -> Result<AnswerHead, AllocError>
        ensures empty { IfOk result (λ answer. answer ≡ []) }
        ensures open { IfOk result (λ answer. IsAnswer answer Answer.Open) }
    {
        Ok(AnswerHead {
            head: HeadBuf::new(alloc)?,
            named: false,
        })
    }

    /// Takes the next byte of a head that says nothing yet, and answers what all bytes so far say.
    pub fn push(&mut self, byte: u8) -> Answer
        requires { IsAnswer self.old Answer.Open }
        ensures bytes { self.new ≡ self.old ++ byte ∷ [] }
        ensures says { IsAnswer self.new result }
        ensures begins { BeginsAt (length self.new) result }
    {
        add(&mut self.head, &mut self.named, byte)
    }

    /// Takes more bytes of a head that says nothing yet, all of them or up to the one that decides.
    pub fn feed(&mut self, bytes: &[u8]) -> Taken
        requires { IsAnswer self.old Answer.Open }
        ensures within { result.count ≤ length bytes.now }
        ensures bytes { self.new ≡ self.old ++ take result.count bytes.now }
        ensures says { IsAnswer self.new result.answer }
        ensures begins { BeginsAt (length self.new) result.answer }
        ensures all { result.answer ≡ Answer.Open → result.count ≡ length bytes.now }
    {
        for count in 0..bytes.len() {
            let answer = self.push(bytes[count]);
            if answer != Answer::Open {
                return Taken {
                    count: count + 1,
                    answer,
                };
            }
        }
        Taken {
            count: bytes.len(),
            answer: Answer::Open,
        }
    }
}
