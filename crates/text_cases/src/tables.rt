//! Sourcetables.
use crate::printing::{put, say, show, show_in_brackets};
use sourcetable::{
    Field, Fields, Kind, Record, Records, Table, read_record, read_table, write_table,
};
use std::alloc::{AllocError, Global};

/// A record: its kind, and each of its fields in brackets.
fn say_record(out: &mut Vec<u8>, record: &Record) -> Result<(), AllocError> {
    say(out, &record.kind)?;
    for field in record.fields.as_slice() {
        show_in_brackets(out, field.bytes())?;
    }
    Ok(())
}

/// The record that a line is, or its fault.
pub fn record(line: &[u8], out: &mut Vec<u8>) -> Result<(), AllocError> {
    match read_record(*out.allocator(), line) {
        Ok(record) => say_record(out, &record),
        Err(fault) => say(out, &fault),
    }
}

/// Each of these records, with a space behind it.
fn say_records(out: &mut Vec<u8>, records: &[Record]) -> Result<(), AllocError> {
    for record in records {
        say_record(out, record)?;
        put(out, " ")?;
    }
    put(out, "end")
}

/// The table that a text is, or its fault.
pub fn table(text: &[u8], out: &mut Vec<u8>) -> Result<(), AllocError> {
    match read_table(*out.allocator(), text) {
        Ok(table) => say_records(out, table.records.as_slice()),
        Err(fault) => say(out, &fault),
    }
}

/// How many records a table has, and whether it is written as this text, behind what stands there.
fn say_written(out: &mut Vec<u8>, table: &Table, text: &[u8]) -> Result<(), AllocError> {
    let mut written = Vec::from_slice(*out.allocator(), b"before ")?;
    write_table(table, &mut written)?;
    say(out, &table.records.as_slice().len())?;
    put(out, " records, written the same: ")?;
    let front = written.get(..7) == Some(b"before ".as_slice());
    say(out, &(front && written.get(7..) == Some(text)))
}

/// How many records a table has, and whether it is written as it was read.
pub fn again(text: &[u8], out: &mut Vec<u8>) -> Result<(), AllocError> {
    match read_table(*out.allocator(), text) {
        Ok(table) => say_written(out, &table, text),
        Err(fault) => say(out, &fault),
    }
}

/// The fields that semicolons part.
fn fields_of(alloc: Global, text: &[u8]) -> Result<Vec<Field>, AllocError> {
    let mut fields = Vec::new(alloc);
    for bytes in text.split(|byte| *byte == b';') {
        fields.push(Field::new(Vec::from_slice(alloc, bytes)?))?;
    }
    Ok(fields)
}

/// The records of mountpoints whose fields these are. Ampersands part them.
fn records_of(alloc: Global, text: &[u8]) -> Result<Vec<Record>, AllocError> {
    let mut records = Vec::new(alloc);
    for bytes in text.split(|byte| *byte == b'&') {
        records.push(Record {
            kind: Kind::Str,
            fields: Fields::new(fields_of(alloc, bytes)?),
        })?;
    }
    Ok(records)
}

/// How a table of such records is written, and how long that is.
pub fn write(text: &[u8], out: &mut Vec<u8>) -> Result<(), AllocError> {
    let alloc = *out.allocator();
    let table = Table {
        records: Records::new(records_of(alloc, text)?),
    };
    let mut written = Vec::new(alloc);
    write_table(&table, &mut written)?;
    say(out, &written.len())?;
    put(out, " bytes ")?;
    show(out, &written)
}
