//! Of `sourcetable`: a table that is read and written.
ghost use Rattle.std.specs.Prelude.{◌≡◌, Err, IfErr, IfOk};
ghost use Rattle.sourcetable.specs.declared.record.Table.{Table};
ghost use Rattle.sourcetable.specs.Reading.{IsTableOf, IsTableRead};
ghost use Rattle.sourcetable.specs.Table.{table_text};

use sourcetable::{TableFault, read_table, write_table};
use std::alloc::Global;

/// The same table, with CR LF behind each line and nothing behind its end.
pub fn rewritten_table(alloc: Global, text: &[u8]) -> Result<Vec<u8>, TableFault>
    ensures same { IfOk result (λ out. (table : Table) × IsTableOf text.now table
        × (out.items ≡ table_text table.records)) }
    ensures fault { IfErr result (λ why. IsTableRead text.now (Err why)) }
{
    let table = read_table(alloc, text)?;
    let mut out = Vec::new(alloc);
    write_table(&table, &mut out)?;
    Ok(out)
}
