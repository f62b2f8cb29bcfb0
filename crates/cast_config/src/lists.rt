//! Lists of a configuration, which contracts see as plain lists. Each is made from a `Vec` and
//! gives it back without taking memory.

ghost use Rattle.std.specs.Prelude.{◌≡◌};

use crate::config::{Account, Group, GroupFilter, Mount, Near, Relay};
use std::marker::Model;
use type_filter::Filters;

/// What a key lists, in the order of the file. Contracts see the list of it.
#[derive(Drop)]
pub struct Listed<T> {
    items: Vec<T>,
}

impl<T> Model for Listed<T> {
    ghost use Rattle.std.specs.Prelude.{List};

    ghost Value = { List T };

    ghost view = { λ list. list.items.items };
}

impl<T> Listed<T> {
    /// The list of these.
    pub fn new(items: Vec<T>) -> Listed<T>
        ensures { result ≡ items.items }
    {
        Listed { items }
    }

    /// What is listed, in order.
    pub fn as_slice(&self) -> &[T]
        ensures { result.now ≡ self.now }
    {
        &self.items
    }

    /// The `Vec` that it was made from.
    pub fn into_vec(self) -> Vec<T>
        ensures { result.items ≡ self }
    {
        self.items
    }
}

/// The mountpoints.
pub type Mounts = Listed<Mount>;

/// The near mountpoints.
pub type Nears = Listed<Near>;

/// The groups.
pub type Groups = Listed<Group>;

/// The filters of a group for single mountpoints.
pub type GroupFilters = Listed<GroupFilter>;

/// The accounts.
pub type Accounts = Listed<Account>;

/// The relays.
pub type Relays = Listed<Relay>;

/// Numbers of mountpoints.
pub type Numbers = Listed<u32>;

/// For each mountpoint the filters of all groups.
pub type FilterTable = Listed<Filters>;
