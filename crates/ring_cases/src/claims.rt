//! Claims on a ring, and the largest ring.
use crate::printing::{put, say};
use crate::rings::Round;
use mount_ring::{Outbox, Ring, RingCall};
use std::alloc::AllocError;
use turn_log::{Desk, Turns};
use type_filter::{Filter, Filters};

/// Appends what is answered to a look, to a first claim and to a look behind it, and to two claims
/// more, of another caller and of the same.
fn claim_all(desk: &mut Desk<Ring>, out: &mut Vec<u8>) -> Result<(), AllocError> {
    let mut room = Outbox::new();
    say(out, &desk.turn(3, RingCall::Look, &mut room))?;
    say(out, &desk.turn(1, RingCall::Claim, &mut room))?;
    say(out, &desk.turn(3, RingCall::Look, &mut room))?;
    say(out, &desk.turn(2, RingCall::Claim, &mut room))?;
    say(out, &desk.turn(1, RingCall::Claim, &mut room))
}

/// The same at a new ring.
pub fn claims(out: &mut Vec<u8>) -> Result<(), AllocError> {
    let alloc = *out.allocator();
    let filters = Filters::new(Vec::from_array(alloc, [Filter::all()])?);
    let mut desk = Desk::new(Ring::new(alloc, 4, &filters)?);
    claim_all(&mut desk, out)
}

/// What is answered to a look and to a claim once a claim was given back, and how many were given.
pub fn release_claim(out: &mut Vec<u8>) -> Result<(), AllocError> {
    let round = Round::new(*out.allocator(), 4, Filter::all());
    let Some(mut desk) = round.and_then(|round| round.release()) else {
        return put(out, "no ring");
    };
    let mut room = Outbox::new();
    say(out, &desk.turn(3, RingCall::Look, &mut room))?;
    say(out, &desk.turn(2, RingCall::Claim, &mut room))?;
    say(out, &desk.value().claims())
}

/// What is answered to a join by the last filter of the largest ring.
pub fn largest(out: &mut Vec<u8>) -> Result<(), AllocError> {
    let mut list = Vec::new(*out.allocator());
    for _ in 0..64 {
        list.push(Filter::all())?;
    }
    if list.len() != 64 {
        return put(out, "another count");
    }
    let ring = Ring::new(*out.allocator(), 4096, &Filters::new(list))?;
    say(
        out,
        &Desk::new(ring).turn(1, RingCall::Join(63), &mut Outbox::new()),
    )
}
