//! Where a key stands, and what the document has there.

ghost use Rattle.std.specs.Prelude.{◌≡◌};
ghost use Rattle.config_keys.specs.Rules.{seen};
ghost use Rattle.toml.specs.Data.{get_member};
ghost use Rattle.toml.specs.View.{table_view};

use toml::{Table, Value};

/// A key of a configuration, by numbers.
#[derive(Clone, Copy, Debug)]
pub struct Key {
    /// The top key, by its place in the file's description: 1 is `version`, 10 is `anonymous`.
    pub list: u32,
    /// The entry of the top key's list, from 1; 0 where there is none.
    pub entry: u32,
    /// The entry's key, by its place in the description, from 1; 0 for the top key itself.
    pub key: u32,
}

/// What a table has at this name.
pub fn value_at<'a>(table: &'a Table, name: &str) -> Option<&'a Value>
    ensures { seen result ≡ get_member name.now (table_view table.now) }
{
    table.get(name)
}
