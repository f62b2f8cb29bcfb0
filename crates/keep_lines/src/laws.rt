//! What follows from the definitions of this crate. These functions do nothing.

ghost use Rattle.std.specs.Prelude.{◌≡◌, ℕ, List, ◌∷◌, ◌++◌};
ghost use Rattle.std.specs.List.{All};
ghost use Rattle.cast_config.specs.declared.config.Config.{Config};
ghost use Rattle.session_model.specs.declared.report.Receipt.{Receipt};
ghost use Rattle.keep_lines.specs.declared.told.Asks.{Asks};
ghost use Rattle.keep_lines.specs.declared.told.Entered.{Entered};
ghost use Rattle.keep_lines.specs.declared.told.Peer.{Peer};
ghost use Rattle.keep_lines.specs.declared.told.Who.{Who};
ghost use Rattle.keep_lines.specs.Lines.{IsEndOf, IsLineOf, asks_line, end_line, entered_line, line_with, link_line, now_line, receipt_lines};

use crate::told::LinkNumber;

/// The lines of a link begin with its number and a space, and those of another link do not. So who
/// looks for the lines that begin with `3.17 ` finds all lines of this link, and no others.
pub fn links_are_told_apart(link: LinkNumber, other: LinkNumber)
    ensures own { (word : List ℕ) (words : List (List ℕ))
        → IsLineOf link (line_with link (word ∷ words)) }
    ensures others { (words : List (List ℕ)) → IsLineOf other (line_with link words)
        → link ≡ other }
{}

/// The lines of how things stand are of no link: none begins with a link's number and a space.
pub fn now_is_of_no_link(link: LinkNumber)
    ensures { (words : List (List ℕ)) → ¬ IsLineOf link (now_line words) }
{}

/// The last line of a receipt says `end`, and no other line of a link does. So where a line of a
/// link says `end`, the whole receipt was put.
pub fn end_stands_last(link: LinkNumber)
    ensures peer { (peer : Peer) → ¬ IsEndOf link (link_line link peer) }
    ensures asks { (asks : Asks) → ¬ IsEndOf link (asks_line link asks) }
    ensures entered { (c : Config) (entered : Entered)
        → ¬ IsEndOf link (entered_line c link entered) }
    ensures last { (c : Config) (who : Who) (receipt : Receipt)
        → IsEndOf link (end_line c link who receipt) }
    ensures others { (c : Config) (who : Who) (receipt : Receipt) (done rest : List (List ℕ))
        (next : List ℕ) → receipt_lines c link who receipt ≡ done ++ next ∷ rest
        → All (λ text. ¬ IsEndOf link text) done }
{}
