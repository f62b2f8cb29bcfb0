ghost use Rattle.std.specs.Prelude.{◌≡◌, [], length, IfOk};
ghost use Rattle.caster_places.specs.Rows.{ArePiles, HaveRoom};

use caster_accounts::Book;
use mount_ring::Ring;
use std::alloc::{AllocError, Global};
use turn_log::Pass;

/// The passes that callers gave back, a pile for each lock: those of the rings in the order of the
/// mountpoints, and that of the book.
#[derive(Drop)]
pub struct PassPiles {
    /// The piles of the rings, in the order of the mountpoints.
    pub rings: Vec<Vec<Pass<Ring>>>,
    /// The pile of the book.
    pub book: Vec<Pass<Book>>,
}

impl PassPiles {
    /// Empty piles for so many mountpoints and the book, each with room for the passes of so many
    /// callers.
    pub fn with_room(alloc: Global, mounts: usize, callers: u32) -> Result<PassPiles, AllocError>
        ensures count { IfOk result (λ piles. length piles.rings.items ≡ mounts) }
        ensures room { IfOk result (HaveRoom callers) }
        ensures empty { IfOk result (λ piles. (rings : _) (book : _)
            → length rings ≡ mounts → ArePiles [] piles rings book) }
        ensures none { IfOk result (λ piles. piles.book.items ≡ []) }
    {
        let mut rings = Vec::with_capacity(alloc, mounts)?;
        for _ in 0..mounts {
            rings.push_reserved(Vec::with_capacity(alloc, callers as usize)?);
        }
        Ok(PassPiles {
            rings,
            book: Vec::with_capacity(alloc, callers as usize)?,
        })
    }
}
