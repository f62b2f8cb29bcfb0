//! A list that a fake tells, for as long as there is memory for it.
ghost use Rattle.std.specs.Prelude.{◌≡◌, ◌&&◌, not, ◌++◌, [], ◌∷◌, Some, None, is_some, option_map, IfOk, OnOk, OnErr};
ghost use Rattle.cast_io.specs.Told.{Grew};

use std::alloc::{AllocError, Global};
use std::marker::Model;

/// A list that grows. Contracts see `None` once it is no longer told.
#[derive(Drop)]
pub(crate) struct Notes<T> {
    items: Vec<T>,
    tells: bool,
}

impl<T> Model for Notes<T> {
    ghost use Rattle.std.specs.Prelude.{List, Option, Some, None, if◌then◌else◌};

    ghost Value = { Option (List T) };

    ghost view = { λ n. if n.tells then Some n.items.items else None };
}

impl<T: Drop> Notes<T> {
    /// An empty list. Takes no memory yet.
    pub(crate) fn new(alloc: Global) -> Self
        ensures { result ≡ Some [] }
    {
        Notes {
            items: Vec::new(alloc),
            tells: true,
        }
    }

    /// Adds an item at the end of a list that is told. Where there is no memory for it, the list
    /// is told no longer.
    pub(crate) fn add(&mut self, item: T) -> Result<(), AllocError>
        ensures grew { Grew self.old self.new (item ∷ []) }
        ensures added { OnOk result (self.new ≡ option_map (λ items. items ++ item ∷ []) self.old) }
        ensures lost { OnErr result (self.new ≡ None) }
    {
        if !self.tells {
            return Ok(());
        }
        let Ok(()) = self.items.push(item) else {
            self.tells = false;
            return Err(AllocError);
        };
        Ok(())
    }

    /// Adds this item, or tells the list no longer where there was no memory for the item or for
    /// its place. Answers whether a list that was told is told no longer since.
    pub(crate) fn note(&mut self, item: Result<T, AllocError>) -> bool
        ensures grew { (wanted : T) → IfOk item (λ i. i ≡ wanted)
            → Grew self.old self.new (wanted ∷ []) }
        ensures lost { result ≡ (is_some self.old && not (is_some self.new)) }
    {
        if !self.tells {
            return false;
        }
        let Ok(item) = item else {
            self.tells = false;
            return true;
        };
        self.add(item).is_err()
    }

    /// Tells the list no longer.
    pub(crate) fn lose(&mut self)
        ensures { self.new ≡ None }
    {
        self.tells = false;
    }

    /// The list, where it is told.
    pub(crate) fn items(&self) -> Option<&[T]>
        ensures { option_map (λ items. items.now) result ≡ self.now }
    {
        if self.tells { Some(&self.items) } else { None }
    }
}
