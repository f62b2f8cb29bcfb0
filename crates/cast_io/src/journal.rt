//! A list that exists for the proof alone.
ghost use Rattle.std.specs.Prelude.{◌≡◌, [], ◌∷◌, ◌++◌};

use std::marker::Model;
use std::mem;
use std::snapshot::Snapshot;

// What was noted before an entry: the entry before it, and none before the first.
type Earlier<T> = Snapshot<Option<Snapshot<JournalItem<T>>>>;

// An item and what was noted before it.
#[derive(Drop)]
struct JournalItem<T> {
    earlier: Earlier<T>,
    item: Snapshot<T>,
}

impl<T> Model for JournalItem<T> {
    ghost use Rattle.std.specs.Prelude.{List, [], ◌∷◌, ◌++◌, unwrap_or, option_map, length};
    ghost use Rattle.std.proofs.Common.{arith, length-append};

    ghost Value = { List T };

    ghost view = { λ e. unwrap_or (option_map (λ entry. entry.value) e.earlier.value) []
        ++ e.item.value ∷ [] };

    ghost size = { length };

    ghost size_decreases = { λ e h. Prim.grind (arith, length-append) };
}

/// A list of what a value was each time that it was noted. Contracts see the list; a program cannot
/// read it. It has no bytes and takes no memory, so it grows without end and costs nothing.
#[derive(Drop)]
pub struct Journal<T> {
    earlier: Earlier<T>,
}

impl<T> Model for Journal<T> {
    ghost use Rattle.std.specs.Prelude.{List, [], unwrap_or, option_map};

    ghost Value = { List T };

    ghost view = { λ j. unwrap_or (option_map (λ entry. entry.value) j.earlier.value) [] };
}

impl<T> Journal<T> {
    /// An empty list.
    pub fn new() -> Self
        ensures { result ≡ [] }
    {
        Journal {
            earlier: Snapshot::of(&None),
        }
    }

    /// Notes at the end what the item is now.
    pub fn add(&mut self, item: &T)
        ensures { self.new ≡ self.old ++ item.now ∷ [] }
    {
        let entry = JournalItem {
            earlier: mem::replace(&mut self.earlier, Snapshot::of(&None)),
            item: Snapshot::of(item),
        };
        self.earlier = Snapshot::of(&Some(Snapshot::of(&entry)));
    }

    /// Notes at the end what these items are now, in order.
    pub fn add_all(&mut self, items: &[T])
        ensures { self.new ≡ self.old ++ items.now }
    {
        let mut at = 0;
        while at < items.len() {
            self.add(&items[at]);
            at += 1;
        }
    }
}

impl Journal<u8> {
    /// A list of these bytes.
    pub fn of_bytes(bytes: &[u8]) -> Self
        ensures { result ≡ bytes.now }
    {
        let mut journal = Journal::new();
        journal.add_all(bytes);
        journal
    }
}
