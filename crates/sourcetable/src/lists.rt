//! Lists of a sourcetable, which contracts see as plain lists. Each is made from a `Vec` and gives
//! it back without taking memory.
ghost use Rattle.std.specs.Prelude.{◌≡◌};

use crate::record::Record;
use std::marker::Model;

/// A field of a record: bytes. Contracts see the list of them.
#[derive(Drop)]
pub struct Field {
    bytes: Vec<u8>,
}

impl Model for Field {
    ghost use Rattle.std.specs.Prelude.{List, ℕ};

    ghost Value = { List ℕ };

    ghost view = { λ field. field.bytes.items };
}

impl Field {
    /// A field of these bytes.
    pub fn new(bytes: Vec<u8>) -> Field
        ensures { result ≡ bytes.items }
    {
        Field { bytes }
    }

    /// The bytes in order.
    pub fn bytes(&self) -> &[u8]
        ensures { result.now ≡ self.now }
    {
        &self.bytes
    }

    /// The `Vec` that it was made from.
    pub fn into_vec(self) -> Vec<u8>
        ensures { result.items ≡ self }
    {
        self.bytes
    }
}

/// The fields of a record, in order. Contracts see the list of them, each as its bytes.
#[derive(Drop)]
pub struct Fields {
    items: Vec<Field>,
}

impl Model for Fields {
    ghost use Rattle.std.specs.Prelude.{List, ℕ};

    ghost Value = { List (List ℕ) };

    ghost view = { λ fields. fields.items.items };
}

impl Fields {
    /// These fields.
    pub fn new(items: Vec<Field>) -> Fields
        ensures { result ≡ items.items }
    {
        Fields { items }
    }

    /// The fields in order.
    pub fn as_slice(&self) -> &[Field]
        ensures { result.now ≡ self.now }
    {
        &self.items
    }

    /// The `Vec` that they were made from.
    pub fn into_vec(self) -> Vec<Field>
        ensures { result.items ≡ self }
    {
        self.items
    }
}

/// The records of a table, in order. Contracts see the list of them.
#[derive(Drop)]
pub struct Records {
    items: Vec<Record>,
}

impl Model for Records {
    ghost use Rattle.std.specs.Prelude.{List};
    ghost use Rattle.sourcetable.specs.declared.record.Record.{Record};

    ghost Value = { List Record };

    ghost view = { λ records. records.items.items };
}

impl Records {
    /// These records.
    pub fn new(items: Vec<Record>) -> Records
        ensures { result ≡ items.items }
    {
        Records { items }
    }

    /// The records in order.
    pub fn as_slice(&self) -> &[Record]
        ensures { result.now ≡ self.now }
    {
        &self.items
    }

    /// The `Vec` that they were made from.
    pub fn into_vec(self) -> Vec<Record>
        ensures { result.items ≡ self }
    {
        self.items
    }
}
