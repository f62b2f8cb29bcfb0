//! Where links arrive.
ghost use Rattle.std.specs.Prelude.{◌≡◌};
ghost use Rattle.cast_io.specs.Told.{DoorTold};

use crate::link::Link;

/// What came to a door.
#[derive(Debug, PartialEq, Eq, Drop)]
pub enum Arrived<L> {
    /// A link.
    Link(L),
    /// Nothing yet.
    Idle,
    /// The accept failed.
    Failed,
}

/// Where links arrive, and where they are given back.
pub trait Door {
    ghost use Rattle.cast_io.specs.Doors.{HasAccepted, HasHungUp};

    type Link: Link;

    /// What the door tells of itself.
    ghost told: { Self → DoorTold };

    /// Gives the next link that arrived, if there is one.
    fn accept(&mut self) -> Arrived<Self::Link>
        ensures accepted { HasAccepted Self.Link.told (told self.old) (told self.new) result };

    /// May wait a while, after an accept that found nothing. Changes nothing.
    fn rest(&mut self)
        ensures { told self.new ≡ told self.old };

    /// Takes back a link that `accept` gave.
    fn hang_up(&mut self, link: Self::Link)
        ensures left { HasHungUp (Self.Link.told link) (told self.old) (told self.new) };
}
