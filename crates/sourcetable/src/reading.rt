//! Reading a record from its line, and a table from its text.
ghost use Rattle.std.specs.Prelude.{◌≡◌};
ghost use Rattle.sourcetable.specs.Record.{field_count};
ghost use Rattle.sourcetable.specs.Table.{kind_of};
ghost use Rattle.sourcetable.specs.Reading.{Gives, record_read, IsRecordRead, IsLineRead, IsTableRead};

use crate::fault::{LineFault, RecordFault, TableFault};
use crate::lists::Records;
use crate::record::{Kind, Record, Table};
use crate::split::{line_end_place, split_fields};
use cast_text::split_line;
use std::alloc::Global;

/// The most bytes of a text.
const MAX_TABLE_BYTES: usize = 1 << 20;

/// The kind of a line, by how it begins.
fn kind_in(line: &[u8]) -> Option<Kind>
    ensures { result ≡ kind_of line.now }
{
    if line.starts_with(b"STR;") {
        Some(Kind::Str)
    } else if line.starts_with(b"CAS;") {
        Some(Kind::Cas)
    } else if line.starts_with(b"NET;") {
        Some(Kind::Net)
    } else {
        None
    }
}

/// How many fields a record of this kind has.
fn fields_of(kind: Kind) -> usize
    ensures { result ≡ field_count kind }
{
    match kind {
        Kind::Str => 18,
        Kind::Cas => 9,
        Kind::Net => 8,
    }
}

/// The record that a line of a table is: CR may stand in a field.
fn read_line(alloc: Global, line: &[u8]) -> Result<Record, LineFault>
    ensures { IsLineRead line.now result }
{
    let Some(kind) = kind_in(line) else {
        return Err(LineFault::Kind);
    };
    match split_fields(alloc, fields_of(kind), &line[4..])? {
        Some(fields) => Ok(Record { kind, fields }),
        None => Err(LineFault::Fields),
    }
}

/// The record that a line is.
///
/// # Errors
/// Tested in this order: `Kind` exactly where the line begins with none of `STR;`, `CAS;` and
/// `NET;`; `Fields` exactly where fields of its kind are missing; `Byte` exactly where a CR or LF
/// stands in it, with the first such place. `Memory` at any time.
pub fn read_record(alloc: Global, line: &[u8]) -> Result<Record, RecordFault>
    ensures read { IsRecordRead line.now result }
    ensures gives { Gives result (record_read line.now) }
{
    let record = read_line(alloc, line)?;
    match line_end_place(line) {
        None => Ok(record),
        Some(place) => Err(RecordFault::Byte(place)),
    }
}

/// The table that a text is, up to its first line `ENDSOURCETABLE`: what follows is not looked at.
/// Lines end with LF or CR LF, the last one also with the text.
///
/// # Errors
/// `Long` exactly above 1 MiB, tested first. `Kind` and `Fields` with the number of the first
/// faulty line before the end. `NoEnd` exactly where no line is faulty and none ends the table.
/// `Memory` at any time.
pub fn read_table(alloc: Global, bytes: &[u8]) -> Result<Table, TableFault>
    ensures { IsTableRead bytes.now result }
{
    if bytes.len() > MAX_TABLE_BYTES {
        return Err(TableFault::Long);
    }
    let mut records = Vec::new(alloc);
    let mut rest = bytes;
    let mut number = 0;
    while let Some((line, more)) = split_line(rest) {
        if line == b"ENDSOURCETABLE".as_slice() {
            return Ok(Table {
                records: Records::new(records),
            });
        }
        number += 1;
        records.reserve(1)?;
        match read_line(alloc, line) {
            Ok(record) => records.push_reserved(record),
            Err(fault) => return Err(fault.at(number)),
        }
        rest = more;
    }
    Err(TableFault::NoEnd)
}
