//! The sourcetable of a configuration.

ghost use Rattle.std.specs.Prelude.{◌≡◌, ◌≤◌, ◌+◌, ◌++◌, ◌∷◌, [], codes, length, slice_get, option_map, IfOk, OnOk};
ghost use Rattle.std.specs.Fmt.{decimal};
ghost use Rattle.sourcetable.specs.Table.{table_text};
ghost use Rattle.config_table.specs.Degrees.{degrees};
ghost use Rattle.config_table.specs.Table.{authentication, back_fields, flag, front_fields, is_open, mount_at, mount_record, mount_records, near_record, near_records, str_record, table_records};

use crate::degrees::degrees;
use cast_config::{Config, Mount, Near};
use cast_text::push_decimal;
use sourcetable::{Field, Fields, Kind, Record, Records, Table, push_field, write_table};
use std::alloc::{AllocError, Global};

/// Whether the mountpoint or near mountpoint of this number needs no credentials.
fn is_open(config: &Config, n: u32) -> bool
    ensures { result ≡ is_open config.now.group config.now.anonymous n }
{
    match config.anonymous {
        None => false,
        Some(anonymous) => match config.group.as_slice().get(anonymous.group as usize) {
            Some(group) => group.lists(n),
            None => false,
        },
    }
}

fn authentication(is_open: bool) -> &'static [u8]
    ensures { result.now ≡ authentication is_open }
{
    if is_open { b"N" } else { b"B" }
}

fn flag(near: bool) -> &'static [u8]
    ensures { result.now ≡ flag near }
{
    if near { b"1" } else { b"0" }
}

fn decimal(alloc: Global, number: u32) -> Result<Vec<u8>, AllocError>
    ensures { IfOk result (λ v. v.items ≡ decimal number) }
{
    let mut text = Vec::new(alloc);
    push_decimal(&mut text, u128::from(number))?;
    Ok(text)
}

/// Appends what a line says of the frames and of who sends them.
fn push_frames(alloc: Global, fields: &mut Vec<Field>, mount: &Mount) -> Result<(), AllocError>
    ensures { OnOk result (fields.new.items ≡ fields.old.items
        ++ mount.now.details ∷ mount.now.carrier ∷ mount.now.navigation ∷ mount.now.network
        ∷ mount.now.country ∷ []) }
{
    push_field(alloc, fields, mount.details.bytes())?;
    push_field(alloc, fields, mount.carrier.bytes())?;
    push_field(alloc, fields, mount.navigation.bytes())?;
    push_field(alloc, fields, mount.network.bytes())?;
    push_field(alloc, fields, mount.country.bytes())
}

/// What a line has in front of the position.
fn front_fields(
    alloc: Global,
    name: &[u8],
    identifier: &[u8],
    mount: &Mount,
) -> Result<Vec<Field>, AllocError>
    ensures { IfOk result (λ v. v.items ≡ front_fields name.now identifier.now mount.now) }
{
    let mut fields = Vec::with_capacity(alloc, 8)?;
    push_field(alloc, &mut fields, name)?;
    push_field(alloc, &mut fields, identifier)?;
    push_field(alloc, &mut fields, b"RTCM 3.3")?;
    push_frames(alloc, &mut fields, mount)?;
    Ok(fields)
}

/// Appends a number of units of 10^-7 degree.
fn push_degrees(alloc: Global, fields: &mut Vec<Field>, angle: i64) -> Result<(), AllocError>
    ensures { OnOk result (fields.new.items ≡ fields.old.items ++ degrees angle ∷ []) }
{
    let text = degrees(alloc, angle)?;
    push_field(alloc, fields, &text)
}

/// Appends what is known of how the frames of a mountpoint are made and sent.
fn push_making(
    alloc: Global,
    fields: &mut Vec<Field>,
    near: bool,
    mount: &Mount,
) -> Result<(), AllocError>
    ensures { OnOk result (fields.new.items ≡ fields.old.items
        ++ flag near ∷ flag near ∷ mount.now.generator ∷ codes "none" ∷ []) }
{
    push_field(alloc, fields, flag(near))?;
    push_field(alloc, fields, flag(near))?;
    push_field(alloc, fields, mount.generator.bytes())?;
    push_field(alloc, fields, b"none")
}

/// Appends what a line has behind that.
fn push_end(
    alloc: Global,
    fields: &mut Vec<Field>,
    is_open: bool,
    mount: &Mount,
) -> Result<(), AllocError>
    ensures { OnOk result (fields.new.items ≡ fields.old.items
        ++ authentication is_open ∷ codes "N" ∷ decimal mount.now.bitrate ∷ mount.now.misc ∷ []) }
{
    push_field(alloc, fields, authentication(is_open))?;
    push_field(alloc, fields, b"N")?;
    let bitrate = decimal(alloc, mount.bitrate)?;
    push_field(alloc, fields, &bitrate)?;
    push_field(alloc, fields, mount.misc.bytes())
}

/// What a line has from the position on.
fn back_fields(
    alloc: Global,
    near: bool,
    is_open: bool,
    mount: &Mount,
) -> Result<Vec<Field>, AllocError>
    ensures { IfOk result (λ v. v.items ≡ back_fields near is_open mount.now) }
{
    let mut fields = Vec::with_capacity(alloc, 10)?;
    push_degrees(alloc, &mut fields, mount.at.lat)?;
    push_degrees(alloc, &mut fields, mount.at.lon)?;
    push_making(alloc, &mut fields, near, mount)?;
    push_end(alloc, &mut fields, is_open, mount)?;
    Ok(fields)
}

/// The record of a mountpoint, or of a near one that has it as its first base.
fn str_record(
    alloc: Global,
    name: &[u8],
    identifier: &[u8],
    near: bool,
    is_open: bool,
    mount: &Mount,
) -> Result<Record, AllocError>
    ensures { IfOk result (λ r. r ≡ str_record (record {
      name = name.now;
      identifier = identifier.now;
      near = near;
      is_open = is_open;
    }) mount.now) }
{
    let mut fields = front_fields(alloc, name, identifier, mount)?;
    let mut back = back_fields(alloc, near, is_open, mount)?;
    fields.append(&mut back)?;
    Ok(Record {
        kind: Kind::Str,
        fields: Fields::new(fields),
    })
}

fn mount_record(alloc: Global, config: &Config, n: u32, mount: &Mount) -> Result<Record, AllocError>
    ensures { IfOk result (λ r. r ≡ mount_record config.now n mount.now) }
{
    let is_open = is_open(config, n);
    let identifier = mount.identifier.bytes();
    str_record(alloc, mount.name.bytes(), identifier, false, is_open, mount)
}

fn push_mounts(alloc: Global, config: &Config, records: &mut Vec<Record>) -> Result<(), AllocError>
    requires { length config.now.mount ≤ 64 }
    ensures { OnOk result (records.new.items
        ≡ records.old.items ++ mount_records config.now 0 config.now.mount) }
{
    let mounts = config.mount.as_slice();
    for i in 0..mounts.len() {
        let record = mount_record(alloc, config, i as u32, &mounts[i])?;
        records.push(record)?;
    }
    Ok(())
}

/// The mountpoint that a near mountpoint has as its first base.
fn first_base<'a>(config: &'a Config, near: &Near) -> Option<&'a Mount>
    ensures { option_map (λ m. m.now) result
        ≡ mount_at config.now.mount (slice_get near.now.bases 0) }
{
    let bases = near.bases.as_slice();
    if bases.is_empty() {
        return None;
    }
    config.mount.as_slice().get(bases[0] as usize)
}

fn push_near(
    alloc: Global,
    config: &Config,
    n: u32,
    near: &Near,
    records: &mut Vec<Record>,
) -> Result<(), AllocError>
    ensures { OnOk result (records.new.items
        ≡ records.old.items ++ near_record config.now n near.now
        (mount_at config.now.mount (slice_get near.now.bases 0))) }
{
    match first_base(config, near) {
        None => Ok(()),
        Some(mount) => {
            let name = near.name.bytes();
            let record = str_record(alloc, name, name, true, is_open(config, n), mount)?;
            records.push(record)?;
            Ok(())
        }
    }
}

fn push_nears(alloc: Global, config: &Config, records: &mut Vec<Record>) -> Result<(), AllocError>
    requires { length config.now.mount + length config.now.near ≤ 64 }
    ensures { OnOk result (records.new.items ≡ records.old.items
        ++ near_records config.now (length config.now.mount) config.now.near) }
{
    let nears = config.near.as_slice();
    let first = config.mount.as_slice().len();
    for i in 0..nears.len() {
        push_near(alloc, config, (first + i) as u32, &nears[i], records)?;
    }
    Ok(())
}

fn copies(alloc: Global, records: &[Record]) -> Result<Vec<Record>, AllocError>
    ensures { IfOk result (λ v. v.items ≡ records.now) }
{
    let mut copies = Vec::new(alloc);
    for record in records {
        let record = record.copy(alloc)?;
        copies.push(record)?;
    }
    Ok(copies)
}

/// The sourcetable of a configuration: its own records of casters and networks, then a record for
/// each mountpoint and one for each near mountpoint. A near mountpoint has the description and the
/// position of its first base.
#[tactic(auto, unfolding(crate::specs::Table::table_records))]
pub fn table_of(alloc: Global, config: &Config) -> Result<Table, AllocError>
    requires { length config.now.mount + length config.now.near ≤ 64 }
    ensures { IfOk result (λ table. table.records ≡ table_records config.now) }
{
    let mut records = copies(alloc, config.records.as_slice())?;
    push_mounts(alloc, config, &mut records)?;
    push_nears(alloc, config, &mut records)?;
    Ok(Table {
        records: Records::new(records),
    })
}

/// The text of the sourcetable that is offered.
pub fn table_text(alloc: Global, config: &Config) -> Result<Vec<u8>, AllocError>
    requires { length config.now.mount + length config.now.near ≤ 64 }
    ensures { IfOk result (λ text. text.items ≡ table_text (table_records config.now)) }
{
    let table = table_of(alloc, config)?;
    let mut text = Vec::new(alloc);
    write_table(&table, &mut text)?;
    Ok(text)
}
