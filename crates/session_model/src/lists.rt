//! Lists of a receipt and of a report, which contracts see as plain lists. Each is made from a
//! `Vec` and gives it back without taking memory.

ghost use Rattle.std.specs.Prelude.{◌≡◌};

use crate::report::{Connection, MountTotal};
use caster_accounts::Sum;
use rover_cursor::Segment;
use std::marker::Model;

/// The segments of a rover, in the order of their joins. Contracts see the list of them.
#[derive(Debug, Drop)]
pub struct Segments {
    items: Vec<Segment>,
}

impl Model for Segments {
    ghost use Rattle.std.specs.Prelude.{List};
    ghost use Rattle.rover_cursor.specs.declared.segment.Segment.{Segment};

    ghost Value = { List Segment };

    ghost view = { λ segments. segments.items.items };
}

impl Segments {
    /// These segments.
    pub fn new(items: Vec<Segment>) -> Segments
        ensures { result ≡ items.items }
    {
        Segments { items }
    }

    /// The segments in order.
    pub fn as_slice(&self) -> &[Segment]
        ensures { result.now ≡ self.now }
    {
        &self.items
    }

    /// The `Vec` that they were made from.
    pub fn into_vec(self) -> Vec<Segment>
        ensures { result.items ≡ self }
    {
        self.items
    }
}

/// The totals of the mountpoints, in the order of their numbers. Contracts see the list of them.
#[derive(Debug, Drop)]
pub struct MountTotals {
    items: Vec<MountTotal>,
}

impl Model for MountTotals {
    ghost use Rattle.std.specs.Prelude.{List};
    ghost use Rattle.session_model.specs.declared.report.MountTotal.{MountTotal};

    ghost Value = { List MountTotal };

    ghost view = { λ totals. totals.items.items };
}

impl MountTotals {
    /// These totals.
    pub fn new(items: Vec<MountTotal>) -> MountTotals
        ensures { result ≡ items.items }
    {
        MountTotals { items }
    }

    /// The totals in order.
    pub fn as_slice(&self) -> &[MountTotal]
        ensures { result.now ≡ self.now }
    {
        &self.items
    }
}

/// The sums of the named accounts, in the order of their numbers. Contracts see the list of them.
#[derive(Debug, Drop)]
pub struct Sums {
    items: Vec<Sum>,
}

impl Model for Sums {
    ghost use Rattle.std.specs.Prelude.{List};
    ghost use Rattle.caster_accounts.specs.declared.account.Sum.{Sum};

    ghost Value = { List Sum };

    ghost view = { λ sums. sums.items.items };
}

impl Sums {
    /// These sums.
    pub fn new(items: Vec<Sum>) -> Sums
        ensures { result ≡ items.items }
    {
        Sums { items }
    }

    /// The sums in order.
    pub fn as_slice(&self) -> &[Sum]
        ensures { result.now ≡ self.now }
    {
        &self.items
    }
}

/// Bytes that were sent. Contracts see the list of them.
#[derive(Drop)]
pub struct Sent {
    bytes: Vec<u8>,
}

impl Model for Sent {
    ghost use Rattle.std.specs.Prelude.{List, ℕ};

    ghost Value = { List ℕ };

    ghost view = { λ sent. sent.bytes.items };
}

impl Sent {
    /// These bytes.
    pub fn new(bytes: Vec<u8>) -> Sent
        ensures { result ≡ bytes.items }
    {
        Sent { bytes }
    }

    /// The bytes in order.
    pub fn bytes(&self) -> &[u8]
        ensures { result.now ≡ self.now }
    {
        &self.bytes
    }

    /// The `Vec` that they were made from.
    pub fn into_vec(self) -> Vec<u8>
        ensures { result.items ≡ self }
    {
        self.bytes
    }
}

/// What is told of the connections of a run, in increasing order of number. Contracts see the list
/// of them.
#[derive(Drop)]
pub struct Connections {
    items: Vec<Connection>,
}

impl Model for Connections {
    ghost use Rattle.std.specs.Prelude.{List};
    ghost use Rattle.session_model.specs.declared.report.Connection.{Connection};

    ghost Value = { List Connection };

    ghost view = { λ connections. connections.items.items };
}

impl Connections {
    /// These connections.
    pub fn new(items: Vec<Connection>) -> Connections
        ensures { result ≡ items.items }
    {
        Connections { items }
    }

    /// The connections in order.
    pub fn as_slice(&self) -> &[Connection]
        ensures { result.now ≡ self.now }
    {
        &self.items
    }
}
