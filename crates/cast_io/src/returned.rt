//! What a fake gave and took back.
ghost use Rattle.std.specs.Prelude.{◌≡◌, ◌≤◌, ◌+◌, ◌-◌, [], ◌∷◌, Some, IfOk, option_map};
ghost use Rattle.cast_io.specs.Told.{Grew};
ghost use Rattle.cast_io.specs.Returns.{with_return};

use std::alloc::{AllocError, Global};
use std::marker::Model;

/// The things that came back, in order. There is room for all that may be given.
#[derive(Drop)]
pub(crate) struct Returned<T> {
    items: Vec<T>,
    tells: bool,
    owed: usize,
    spare: usize,
}

impl<T> Model for Returned<T> {
    ghost use Rattle.std.specs.Prelude.{◌≤◌, ◌+◌, Some, None, if◌then◌else◌, length, vec_capacity};
    ghost use Rattle.cast_io.specs.Returns.{ReturnState};

    ghost Value = { ReturnState T };

    ghost view = { λ r. record {
      items = if r.tells then Some r.items.items else None;
      owed = r.owed;
      spare = r.spare;
    } };

    ghost invariant = { λ r. length r.items.items + r.owed + r.spare ≤ vec_capacity r.items };
}

impl<T: Drop> Returned<T> {
    /// None was given yet, and so many may be.
    pub(crate) fn with_room(alloc: Global, spare: usize) -> Result<Self, AllocError>
        ensures { IfOk result (λ r. r ≡ record { items = Some []; owed = 0; spare = spare }) }
    {
        Ok(Returned {
            items: Vec::with_capacity(alloc, spare)?,
            tells: true,
            owed: 0,
            spare,
        })
    }

    /// Counts so many as given.
    pub(crate) fn give(&mut self, count: usize)
        requires { count ≤ self.old.spare }
        ensures { self.new ≡ record self.old {
          owed = self.old.owed + count;
          spare = self.old.spare - count;
        } }
    {
        self.spare -= count;
        self.owed += count;
    }

    /// Keeps one that came back as the last. One that was not given is let go, and the list is
    /// told no longer.
    pub(crate) fn take_back(&mut self, item: T)
        ensures grew { Grew self.old.items self.new.items (item ∷ []) }
        ensures kept { self.new ≡ record self.old {
          items = with_return self.old.owed self.old.items item;
          owed = self.old.owed - 1;
        } }
    {
        if self.owed == 0 {
            self.tells = false;
            return;
        }
        self.owed -= 1;
        self.items.push_reserved(item);
    }

    /// Those that came back, where they are told.
    pub(crate) fn items(&self) -> Option<&[T]>
        ensures { option_map (λ items. items.now) result ≡ self.now.items }
    {
        if self.tells { Some(&self.items) } else { None }
    }
}
