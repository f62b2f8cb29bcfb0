ghost use Rattle.std.specs.Prelude.{◌≡◌, IfOk};

use crate::lists::{Fields, Records};
use crate::split::push_field;
use std::alloc::{AllocError, Global};

/// What a record of a sourcetable describes.
#[derive(Clone, Copy, Debug, PartialEq, Eq)]
pub enum Kind {
    /// A mountpoint, in 18 fields: mountpoint, identifier, format, format-details, carrier,
    /// nav-system, network, country, latitude, longitude, nmea, solution, generator, compr-encryp,
    /// authentication, fee, bitrate, misc.
    Str,
    /// A caster, in 9 fields: host, port, identifier, operator, nmea, country, latitude, longitude,
    /// and all that follows: misc alone, or fallback host, fallback port and misc.
    Cas,
    /// A network of mountpoints, in 8 fields: identifier, operator, authentication, fee, web-net,
    /// web-str, web-reg, misc.
    Net,
}

/// A record of a sourcetable: its kind, and as many fields as the kind has. A `;` stands in the
/// last field at most.
#[derive(Drop)]
pub struct Record {
    pub kind: Kind,
    pub fields: Fields,
}

impl Record {
    /// A copy of the record.
    pub fn copy(&self, alloc: Global) -> Result<Record, AllocError>
        ensures { IfOk result (λ r. r ≡ self.now) }
    {
        let mut fields = Vec::new(alloc);
        for field in self.fields.as_slice() {
            push_field(alloc, &mut fields, field.bytes())?;
        }
        Ok(Record {
            kind: self.kind,
            fields: Fields::new(fields),
        })
    }
}

/// A sourcetable: its records, in order.
#[derive(Drop)]
pub struct Table {
    pub records: Records,
}
