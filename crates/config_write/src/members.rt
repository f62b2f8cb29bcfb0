//! Keys of a table, and what stands there.

ghost use Rattle.std.specs.Prelude.{◌≡◌, IfOk, IsTrue, OnOk};
ghost use Rattle.std.specs.Str.{is_utf8};
ghost use Rattle.cast_text.specs.Name.{is_name};
ghost use Rattle.config_write.specs.Members.{number, put};
ghost use Rattle.toml.specs.Data.{array, integer, string, table};
ghost use Rattle.toml.specs.View.{items_view, table_view, view};

use std::alloc::{AllocError, Global};
use toml::{Table, Value};

/// Sets a key of a table. Without memory the table stays as it is.
pub(crate) fn put(
    alloc: Global,
    table: &mut Table,
    key: &str,
    value: Value,
) -> Result<(), AllocError>
    ensures { OnOk result (table_view table.new ≡ put key.now (view value) (table_view table.old)) }
{
    let key = String::from_str(alloc, key)?;
    match table.insert(key, value) {
        Ok(_) => Ok(()),
        Err(_) => Err(AllocError),
    }
}

/// The value of this text.
pub(crate) fn text_value(alloc: Global, text: &[u8]) -> Result<Value, AllocError>
    requires { IsTrue (is_utf8 text.now) }
    ensures { IfOk result (λ v. view v ≡ string text.now) }
{
    match str::from_utf8(text) {
        Ok(text) => Value::string(alloc, text),
        Err(_) => unreachable!(),
    }
}

/// The value of this name.
pub(crate) fn name_value(alloc: Global, name: &[u8]) -> Result<Value, AllocError>
    requires { IsTrue (is_name name.now) }
    ensures { IfOk result (λ v. view v ≡ string name.now) }
{
    text_value(alloc, name)
}

pub(crate) fn put_text(
    alloc: Global,
    table: &mut Table,
    key: &str,
    text: &[u8],
) -> Result<(), AllocError>
    requires { IsTrue (is_utf8 text.now) }
    ensures { OnOk result (table_view table.new
        ≡ put key.now (string text.now) (table_view table.old)) }
{
    let value = text_value(alloc, text)?;
    put(alloc, table, key, value)
}

pub(crate) fn put_name(
    alloc: Global,
    table: &mut Table,
    key: &str,
    name: &[u8],
) -> Result<(), AllocError>
    requires { IsTrue (is_name name.now) }
    ensures { OnOk result (table_view table.new
        ≡ put key.now (string name.now) (table_view table.old)) }
{
    let value = name_value(alloc, name)?;
    put(alloc, table, key, value)
}

pub(crate) fn put_whole(
    alloc: Global,
    table: &mut Table,
    key: &str,
    whole: i64,
) -> Result<(), AllocError>
    ensures { OnOk result (table_view table.new
        ≡ put key.now (integer whole) (table_view table.old)) }
{
    put(alloc, table, key, Value::from(whole))
}

pub(crate) fn put_number(
    alloc: Global,
    table: &mut Table,
    key: &str,
    n: u32,
) -> Result<(), AllocError>
    ensures { OnOk result (table_view table.new
        ≡ put key.now (number n) (table_view table.old)) }
{
    put(alloc, table, key, Value::from(n))
}

pub(crate) fn put_list(
    alloc: Global,
    table: &mut Table,
    key: &str,
    values: Vec<Value>,
) -> Result<(), AllocError>
    ensures { OnOk result (table_view table.new
        ≡ put key.now (array (items_view values.items)) (table_view table.old)) }
{
    put(alloc, table, key, Value::from(values))
}

pub(crate) fn put_table(
    alloc: Global,
    into: &mut Table,
    key: &str,
    inner: Table,
) -> Result<(), AllocError>
    ensures { OnOk result (table_view into.new
        ≡ put key.now (table (table_view inner)) (table_view into.old)) }
{
    put(alloc, into, key, Value::from(inner))
}
