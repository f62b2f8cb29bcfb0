//! What the callers of a caster share, and the passes with which they sit down.

ghost use Rattle.std.specs.Prelude.{◌≡◌};

use cast_config::Config;
use caster_accounts::Book;
use mount_ring::Ring;
use turn_log::{Pass, Turn};

/// What all callers of a caster share: no lock stands beside those of the mountpoints and of the
/// book.
#[derive(Drop)]
pub struct Shared<'c> {
    /// The configuration.
    pub(crate) config: &'c Config,
    /// The text of its sourcetable.
    pub(crate) table: Vec<u8>,
    /// The locks of the rings, in the order of the mountpoints.
    pub(crate) rings: Vec<Turn<Ring>>,
    /// The lock of the book.
    pub(crate) book: Turn<Book>,
}

impl<'c> Shared<'c> {
    /// The configuration.
    pub fn config(&self) -> &'c Config
        ensures { result ≡ self.now.config }
    {
        self.config
    }

    /// The text of the configuration's sourcetable.
    pub fn table(&self) -> &[u8]
        ensures { result.now ≡ self.now.table.items }
    {
        &self.table
    }
}

/// What a worker sits down with: one pass of each lock, all of one number.
#[derive(Drop)]
pub struct Passes {
    /// The passes of the rings' locks, in the order of the mountpoints.
    pub rings: Vec<Pass<Ring>>,
    /// The pass of the book's lock.
    pub book: Pass<Book>,
}
