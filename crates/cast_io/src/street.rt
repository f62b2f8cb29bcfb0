//! Where doors are opened and peers are dialled.
ghost use Rattle.std.specs.Prelude.{◌≡◌, IfOk, IsErrOf, vec_len};
ghost use Rattle.std.specs.List.{All};
ghost use Rattle.cast_io.specs.Causes.{Rose};
ghost use Rattle.cast_io.specs.Told.{StreetTold};
ghost use Rattle.cast_io.specs.Links.{IsNewLink};
ghost use Rattle.cast_io.specs.Doors.{IsNewDoor};

use crate::door::Door;
use crate::link::Link;
use thiserror::Error;

/// Why a street gave no doors or no link.
#[derive(Clone, Copy, Debug, PartialEq, Eq, Error)]
pub enum StreetFault {
    /// The opening or the dialling failed.
    #[error("the network failed")]
    Failed,
    /// No memory was left for what was asked.
    #[error("out of memory")]
    Memory,
}

/// Where doors are opened and peers are dialled, and where both are given back.
pub trait Street {
    ghost use Rattle.cast_io.specs.Streets.{HasAsked, HasLeft, HasShut, IsUnharmed};
    ghost use Rattle.cast_io.specs.declared.steps.Asked.TheVariants as asked;

    type Link: Link;

    type Door: Door<Link = Self::Link>;

    /// What the street tells of itself.
    ghost told: { Self → StreetTold };

    /// Opens so many doors at one address. None of them has given or taken anything.
    fn open(&mut self, addr: &str, doors: u32) -> Result<Vec<Self::Door>, StreetFault>
        ensures wanted { HasAsked (asked.Open addr.now doors) (told self.old) (told self.new) }
        ensures count { IfOk result (λ given. vec_len given ≡ doors) }
        ensures each { IfOk result
            (λ given. All (λ door. IsNewDoor (Self.Door.told door)) given.items) }
        ensures cause { IsErrOf result StreetFault.Failed
            → Rose (told self.old).faults (told self.new).faults }
        ensures unharmed { IsUnharmed result (told self.old) (told self.new) };

    /// Connects to the peer at this address. The link has given and taken nothing.
    fn dial(&mut self, addr: &str) -> Result<Self::Link, StreetFault>
        ensures wanted { HasAsked (asked.Dial addr.now) (told self.old) (told self.new) }
        ensures each { IfOk result (λ link. IsNewLink (Self.Link.told link)) }
        ensures cause { IsErrOf result StreetFault.Failed
            → Rose (told self.old).faults (told self.new).faults }
        ensures unharmed { IsUnharmed result (told self.old) (told self.new) };

    /// Takes back a link that `dial` gave.
    fn hang_up(&mut self, link: Self::Link)
        ensures left { HasLeft (Self.Link.told link) (told self.old) (told self.new) };

    /// Takes back a door that `open` gave. A door that failed is a fault of the street.
    fn shut(&mut self, door: Self::Door)
        ensures shut { HasShut (Self.Door.told door) (told self.old) (told self.new) };
}
