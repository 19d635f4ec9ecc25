//! A log read from its bytes, entry by entry.

ghost use Rattle.std.specs.Prelude.{List, map, IfOk, IfErr};
ghost use Rattle.rec_log.specs.Entries.{Entry, entry_of, IsLog};
ghost use Rattle.rec_log.specs.Logs.{GivesLog, Refuses};

use crate::reader::read_entry;
use crate::{LogForm, LogList};
use byte_fields::{Reader, Stop};
use std::alloc::Global;

/// The entries that the bytes are. `Form` exactly where they are no log, at the first byte of the first field that
/// breaks a rule of the format or is cut short.
pub fn read_log(alloc: Global, bytes: &[u8]) -> Result<LogList, LogForm>
    // What is read is spelled so.
    ensures log { IfOk result (λ list. IsLog bytes.now (map entry_of list)) }
    // What is spelled so is read, unless memory runs out.
    ensures only { (entries : List Entry) → IsLog bytes.now entries → GivesLog entries result }
    // Which place it is.
    ensures refused { IfErr result (Refuses bytes.now) }
{
    let mut reader = Reader::new(bytes);
    let mut entries = Vec::new(alloc);
    while !reader.is_empty() {
        match read_entry(&mut reader, alloc) {
            Ok(entry) => entries.push(entry)?,
            Err(Stop::Memory) => return Err(LogForm::Memory),
            Err(Stop::Form) => {
                return Err(LogForm::Form {
                    at: reader.place(bytes) as u64,
                });
            }
        }
    }
    Ok(LogList::from(entries))
}
