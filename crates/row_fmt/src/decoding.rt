//! A row read from its bytes.

ghost use Rattle.std.specs.Prelude.{List, ◌<◌, length, IfOk, IfErr};
ghost use Rattle.page_base.specs.declared.value.Value.{Value};
ghost use Rattle.row_fmt.specs.Rows.{IsRow};
ghost use Rattle.row_fmt.specs.Answers.{GivesRow, Refuses};

use crate::RowRefusal;
use crate::reader::read_row;
use byte_fields::{Reader, Stop};
use page_base::{Columns, Row};
use std::alloc::Global;

/// The row of these columns that the bytes are, fewer than 4,294,967,295. `Form` exactly where they are none, at the
/// first byte of the first field that breaks a rule of the format, is cut short or is too much.
pub fn decode(alloc: Global, bytes: &[u8], cols: &Columns) -> Result<Row, RowRefusal>
    requires { length bytes.now < 4294967295 }
    // What is read is spelled so.
    ensures row { IfOk result (λ row. IsRow cols.now bytes.now row) }
    // What is spelled so is read, unless memory runs out.
    ensures only { (row : List Value) → IsRow cols.now bytes.now row → GivesRow row result }
    // Which place it is.
    ensures refused { IfErr result (Refuses cols.now bytes.now) }
{
    let mut reader = Reader::new(bytes);
    match read_row(&mut reader, alloc, cols.as_slice()) {
        Ok(row) => {
            if !reader.is_empty() {
                return Err(RowRefusal::Form {
                    at: reader.place(bytes) as u32,
                });
            }
            Ok(row)
        }
        Err(Stop::Form) => Err(RowRefusal::Form {
            at: reader.place(bytes) as u32,
        }),
        Err(Stop::Memory) => Err(RowRefusal::Memory),
    }
}
