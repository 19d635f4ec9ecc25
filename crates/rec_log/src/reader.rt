//! The fields of the log, read from the front of bytes: a kind, a slot's number, what a slot held, and what they make up.

ghost use Rattle.std.specs.Prelude.{◌≡◌, ◌<◌, ◌≤◌, length, IfOk};
ghost use Rattle.page_base.specs.declared.limits.TheConstants.{MAX_SLOTS, MAX_SLOT_BYTES};
ghost use Rattle.page_base.specs.Reading.{times_at};
ghost use Rattle.byte_fields.specs.Answers.{Gives};
ghost use Rattle.rec_log.specs.Reading.{kind_of, kind_at, slot_at, text_at, record_at, entry_at};
ghost use Rattle.rec_log.specs.Records.{WorkOf};
ghost use Rattle.rec_log.specs.Entries.{entry_of};

use crate::{LogEntry, Rec, Work};
use byte_fields::{Reader, Stop};
use page_base::{Bytes, MAX_SLOT_BYTES, MAX_SLOTS};
use std::alloc::Global;

// What kind of entry begins.
#[derive(Clone, Copy)]
pub(crate) enum Kind {
    Commit,
    Revert,
}

fn kind_of(byte: u8) -> Option<Kind>
    ensures { result ≡ kind_of byte }
{
    match byte {
        1 => Some(Kind::Commit),
        2 => Some(Kind::Revert),
        _ => None,
    }
}

// Which kind of entry begins here.
#[tactic(auto, unfolding(byte_fields::specs::Reading::through))]
fn read_kind<'a>(reader: &mut Reader<'a>) -> Result<Kind, Stop>
    ensures { Gives (λ kind. kind) result reader.new (kind_at reader.old) }
{
    let mut next = reader.again();
    let Some(kind) = kind_of(next.byte()?) else {
        return Err(Stop::Form);
    };
    *reader = next;
    Ok(kind)
}

#[tactic(auto, unfolding(byte_fields::specs::Reading::through))]
fn read_slot<'a>(reader: &mut Reader<'a>) -> Result<u16, Stop>
    ensures read { Gives (λ n. n) result reader.new (slot_at reader.old) }
    ensures limit { IfOk result (λ slot. slot < MAX_SLOTS) }
{
    let mut next = reader.again();
    let slot = next.u16()?;
    if slot >= MAX_SLOTS {
        return Err(Stop::Form);
    }
    *reader = next;
    Ok(slot)
}

#[tactic(auto, unfolding(byte_fields::specs::Reading::through))]
fn read_text<'a>(reader: &mut Reader<'a>, alloc: Global) -> Result<Bytes, Stop>
    ensures read { Gives (λ b. b) result reader.new (text_at reader.old) }
    ensures limit { IfOk result (λ text. length text ≤ MAX_SLOT_BYTES) }
{
    let mut next = reader.again();
    let text = next.text()?;
    if text.len() > MAX_SLOT_BYTES {
        return Err(Stop::Form);
    }
    let text = Vec::from_slice(alloc, text)?;
    *reader = next;
    Ok(Bytes::from(text))
}

#[tactic(auto, unfolding(crate::specs::Reading::record_at))]
pub(crate) fn read_record<'a>(reader: &mut Reader<'a>, alloc: Global) -> Result<Rec, Stop>
    ensures { Gives (λ r. r) result reader.new (record_at reader.old) }
{
    let page = reader.address()?;
    let slot = read_slot(reader)?;
    let before = read_text(reader, alloc)?;
    let after = read_text(reader, alloc)?;
    Ok(Rec {
        page,
        slot,
        before,
        after,
    })
}

// So many records.
fn read_records<'a>(reader: &mut Reader<'a>, alloc: Global, count: u64) -> Result<Work, Stop>
    ensures { Gives (λ (work : WorkOf). work.recs) result reader.new (times_at record_at count reader.old) }
{
    let mut work = Work::new(alloc)?;
    for _ in 0..count {
        work.reserve(1)?;
        let rec = read_record(reader, alloc)?;
        work.push(rec);
    }
    Ok(work)
}

#[tactic(auto, unfolding(crate::specs::Reading::entry_at, crate::specs::Reading::commit_at, crate::specs::Reading::revert_at))]
pub(crate) fn read_entry<'a>(reader: &mut Reader<'a>, alloc: Global) -> Result<LogEntry, Stop>
    ensures { Gives entry_of result reader.new (entry_at reader.old) }
{
    match read_kind(reader)? {
        Kind::Commit => {
            let count = reader.u64()?;
            let work = read_records(reader, alloc, count)?;
            Ok(LogEntry::Commit(work))
        }
        Kind::Revert => {
            let name = reader.name()?;
            Ok(LogEntry::Revert(name))
        }
    }
}
