//! Laws of sourcetables, each the contract of a function that does nothing: what is written is read
//! back, and what reading may answer is one answer.
ghost use Rattle.std.specs.Prelude.{◌≡◌, ◌≢◌, ◌↔◌, ◌≤◌, ℕ, List, [], ◌∷◌, length, Result};
ghost use Rattle.std.specs.List.{All};
ghost use Rattle.sourcetable.specs.Record.{IsOneLine};
ghost use Rattle.sourcetable.specs.Table.{fault_of, most_bytes, table_text, text_with};
ghost use Rattle.sourcetable.specs.Reading.{IsRecordOf, IsRecordRead, IsTableRead};

use crate::fault::{RecordFault, TableFault};
use crate::record::{Record, Table};

/// The text of a table, of at most 1 MiB, is read as that table, unless memory runs out: as
/// `write_table` writes it, and also with LF in place of each CR LF.
pub fn written_is_read_back()
    ensures cr_lf { (table : Table) (answer : Result Table TableFault)
        → All IsOneLine table.records → length (table_text table.records) ≤ most_bytes
        → IsTableRead (table_text table.records) answer → answer ≢ Err TableFault.Memory
        → answer ≡ Ok table }
    ensures lf { (table : Table) (answer : Result Table TableFault)
        → All IsOneLine table.records → length (text_with (10 ∷ []) table.records) ≤ most_bytes
        → IsTableRead (text_with (10 ∷ []) table.records) answer → answer ≢ Err TableFault.Memory
        → answer ≡ Ok table }
{}

/// What may be answered to a text is one answer, unless memory runs out: one table, or one fault of
/// one line.
pub fn a_text_has_one_answer()
    ensures { (text : List ℕ) (first second : Result Table TableFault)
        → IsTableRead text first → IsTableRead text second
        → first ≢ Err TableFault.Memory → second ≢ Err TableFault.Memory → first ≡ second }
{}

/// A line is at most one record, and it is one exactly where nothing is wrong with it. What
/// `read_record` may answer is one answer, unless memory runs out.
pub fn a_line_is_one_record()
    ensures unique { (line : List ℕ) (first second : Record)
        → IsRecordOf line first → IsRecordOf line second → first ≡ second }
    ensures exists { (line : List ℕ)
        → (fault_of line ≡ None) ↔ ((found : Record) × IsRecordOf line found) }
    ensures answer { (line : List ℕ) (first second : Result Record RecordFault)
        → IsRecordRead line first → IsRecordRead line second
        → first ≢ Err RecordFault.Memory → second ≢ Err RecordFault.Memory → first ≡ second }
{}

/// A record that `read_record` gives is one line, as `written_is_read_back` asks.
pub fn a_record_read_may_be_written()
    ensures { (line : List ℕ) (found : Record) → IsRecordRead line (Ok found) → IsOneLine found }
{}
