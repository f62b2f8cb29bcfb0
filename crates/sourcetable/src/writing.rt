//! Writing a table as its text.
ghost use Rattle.std.specs.Prelude.{◌≡◌, ◌≤◌, ℕ, List, ◌++◌, IsOk, OnOk, OnErr};
ghost use Rattle.std.specs.Vec.{vec_capacity};
ghost use Rattle.sourcetable.specs.Table.{lines_text, table_text};
ghost use Rattle.sourcetable.specs.Record.{letters, line_of};
ghost use Rattle.sourcetable.specs.Room.{HasRoom};

use crate::record::{Kind, Record, Table};
use std::alloc::AllocError;

/// The letters with which a kind's lines begin.
fn letters_of(kind: Kind) -> &'static [u8]
    ensures { result.now ≡ letters kind }
{
    match kind {
        Kind::Str => b"STR",
        Kind::Cas => b"CAS",
        Kind::Net => b"NET",
    }
}

/// Appends the line of a record, without a line end. After a refusal a part of it stands there.
pub fn push_record(entry: &Record, out: &mut Vec<u8>) -> Result<(), AllocError>
    ensures ok { OnOk result (out.new.items ≡ out.old.items ++ line_of entry.now) }
    ensures begins { (more : List ℕ) × (out.new.items ≡ out.old.items ++ more) }
    ensures room { HasRoom out.old (line_of entry.now) → IsOk result }
    ensures capacity { vec_capacity out.old ≤ vec_capacity out.new }
{
    out.extend_from_slice(letters_of(entry.kind))?;
    for field in entry.fields.as_slice() {
        out.push(b';')?;
        out.extend_from_slice(field.bytes())?;
    }
    Ok(())
}

/// Appends the text of a table: each record's line and then `ENDSOURCETABLE`, each with CR LF. The
/// fields are written as they stand; `laws::written_is_read_back` says of which tables the text is
/// read back. A refusal leaves `out` as it was; none comes where room for the text was reserved.
pub fn write_table(table: &Table, out: &mut Vec<u8>) -> Result<(), AllocError>
    ensures ok { OnOk result (out.new.items ≡ out.old.items ++ table_text table.now.records) }
    ensures err { OnErr result (out.new.items ≡ out.old.items) }
    ensures room { HasRoom out.old (table_text table.now.records) → IsOk result }
    ensures capacity { vec_capacity out.old ≤ vec_capacity out.new }
{
    let before = out.len();
    let written = push_table(table, out);
    if written.is_err() {
        out.truncate(before);
    }
    written
}

/// Appends the lines of records, each with CR LF. After a refusal a part of them stands there.
fn push_records(records: &[Record], out: &mut Vec<u8>) -> Result<(), AllocError>
    ensures ok { OnOk result (out.new.items ≡ out.old.items ++ lines_text records.now) }
    ensures begins { (more : List ℕ) × (out.new.items ≡ out.old.items ++ more) }
    ensures room { HasRoom out.old (lines_text records.now) → IsOk result }
    ensures capacity { vec_capacity out.old ≤ vec_capacity out.new }
{
    for record in records {
        push_record(record, out)?;
        out.extend_from_slice(b"\r\n")?;
    }
    Ok(())
}

/// Appends the text of a table. After a refusal a part of it stands there.
fn push_table(table: &Table, out: &mut Vec<u8>) -> Result<(), AllocError>
    ensures ok { OnOk result (out.new.items ≡ out.old.items ++ table_text table.now.records) }
    ensures begins { (more : List ℕ) × (out.new.items ≡ out.old.items ++ more) }
    ensures room { HasRoom out.old (table_text table.now.records) → IsOk result }
    ensures capacity { vec_capacity out.old ≤ vec_capacity out.new }
{
    push_records(table.records.as_slice(), out)?;
    out.extend_from_slice(b"ENDSOURCETABLE\r\n")
}
