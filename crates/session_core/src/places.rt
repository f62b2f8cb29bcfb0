use caster_accounts::Book;
use mount_ring::Ring;
use turn_log::Turns;

/// The places of a connection: one at the ring of each mountpoint, in the order of their numbers,
/// and one at the book of accounts.
#[derive(Drop)]
pub struct Places<T: Turns<Ring>, B: Turns<Book>> {
    /// The places at the rings.
    pub rings: Vec<T>,
    /// The place at the book.
    pub book: B,
}
