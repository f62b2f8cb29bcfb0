//! What is known of the places of a connection.

use caster_accounts::Book;
use mount_ring::Ring;
use session_core::Places;
use turn_log::Turns;

/// Places as clauses see them: the histories as they have seen them, what no turn changes, and how
/// worn they are.
pub trait AllPlaces {
    ghost use Rattle.std.specs.Prelude.{ℕ, List};
    ghost use Rattle.session_model.specs.Run.{Histories};
    ghost use Rattle.caster_places.specs.Known.{Known};

    /// What they have seen.
    ghost seen: { Self → Histories };

    /// What no turn changes of them.
    ghost known: { Self → Known };

    /// By how many turns, 2^62 or more, each is worn, that at the book the last; or 0.
    ghost worn: { Self → List ℕ };
}

impl<T: Turns<Ring>, B: Turns<Book>> AllPlaces for Places<T, B> {
    ghost use Rattle.session_core.specs.Beginnings.{worn_at};
    ghost use Rattle.session_model.specs.Called.{seen_at};
    ghost use Rattle.caster_places.specs.Known.{known_at};

    ghost seen = { λ places. seen_at T.seen B.seen places.rings.items places.book };

    ghost known = { λ places. known_at T.shape B.shape T.speaks B.speaks T.may_lack B.may_lack
        T.alone B.alone T.home B.home places.rings.items places.book };

    ghost worn = { λ places. worn_at T.worn B.worn places.rings.items places.book };
}
