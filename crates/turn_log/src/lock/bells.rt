//! Where callers sleep until their tickets are served. It is no part of the lock's rule: a wake too
//! many costs time, and no turn is given by it.
ghost use Rattle.std.specs.Prelude.{◌≡◌, ◌<◌, ◌%◌, IfOk, length, slice_index_or};

use std::alloc::{AllocError, Global};
use std::thread::Parker;

/// A parker for each pass. A ticket has that of its remainder by their number: as no more tickets
/// wait at once than there are passes, no two of them sleep at one parker.
#[derive(Drop)]
pub struct Bells {
    parkers: Vec<Parker>,
    ghost some: { 0 < length parkers.items },
}

impl Bells {
    /// So many bells, none of which was rung.
    pub fn with_count(alloc: Global, count: u32) -> Result<Bells, AllocError>
        requires { 0 < count }
        ensures { IfOk result (λ bells. length bells.parkers.items ≡ count) }
    {
        let mut parkers = Vec::with_capacity(alloc, count as usize)?;
        parkers.push_reserved(Parker::new());
        for _ in 1..count {
            parkers.push(Parker::new())?;
        }
        Ok(Bells { parkers })
    }

    /// Where the caller sleeps that has this ticket.
    pub fn of(&self, ticket: u64) -> &Parker
        ensures { (d : _) → result.now
            ≡ slice_index_or self.now.parkers.items (ticket % length self.now.parkers.items) d }
    {
        let count = self.parkers.len() as u64;
        &self.parkers[(ticket % count) as usize]
    }
}
