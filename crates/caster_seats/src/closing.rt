//! The locks of a caster are closed.

ghost use Rattle.std.specs.Prelude.{◌≡◌, List, length, map};
ghost use Rattle.std.specs.List.{All};
ghost use Rattle.turn_log.specs.History.{IsLegal};
ghost use Rattle.caster_accounts.specs.History.{fits};
ghost use Rattle.caster_accounts.specs.Sums.{nothing};
ghost use Rattle.session_model.specs.Reports.{added, closed_of};
ghost use Rattle.session_model.specs.Run.{Histories};
ghost use Rattle.session_model.specs.Setting.{caps};
ghost use Rattle.caster_places.specs.Rows.{ArePiles, AreWhole, AreWornWithin, IsRoomFor, left_by};
ghost use Rattle.caster_seats.specs.Sharing.{AreOpenFor, IsReady};

use crate::shared::Shared;
use caster_places::{PassPiles, Totals, close};
use session_core::Closed;

impl<'c> Shared<'c> {
    /// Closes all locks with the passes of all callers, and gives the totals of the caster.
    ///
    /// What is shared is taken apart here by all its four parts, so a further one, such as one more
    /// lock, could not stand in it unseen.
    pub fn close(self, piles: PassPiles, totals: Totals) -> Closed
        requires ready { IsReady self }
        requires opened { AreOpenFor (length piles.book.items) self }
        requires rows { (rows : List Histories)
            × ArePiles rows piles self.rings.items self.book }
        requires room { IsRoomFor self.config.now totals }
        ensures { (rows : List Histories)
            → ArePiles rows piles self.entry.rings.items self.entry.book
            → All (λ row. IsLegal (fits (caps self.entry.config.now)) row.book) rows
            → (whole : Histories)
            × AreWhole rows whole (length self.entry.config.now.mount)
            × (result ≡ closed_of self.entry.config.now whole)
            × (result.total ≡ added nothing (left_by 0 rows))
            × AreWornWithin (map length whole.rings) (length whole.book) piles }
    {
        let Shared {
            config,
            table: _,
            rings,
            book,
        } = self;
        close(config, rings, book, piles, totals)
    }
}
