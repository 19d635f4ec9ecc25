//! The bytes of an entry, field by field.

ghost use Rattle.std.specs.Prelude.{◌≡◌, ◌++◌, IfOk, OnOk};
ghost use Rattle.std.specs.List.{concat, flat_map, AllByRecursion};
ghost use Rattle.rec_log.specs.Entries.{Commit, Revert, IsLogged, IsEntry, record_fields, entry_bytes};

use crate::{Rec, Work};
use byte_fields::{put_address, put_name, put_text, put_u16, put_u64};
use page_base::{Bytes, Name, NoMemory};
use std::alloc::Global;

fn put_record(out: &mut Vec<u8>, rec: &Rec) -> Result<(), NoMemory>
    ensures ok { OnOk result (out.new.items ≡ out.old.items ++ concat (record_fields rec.now)) }
    ensures logged { OnOk result (IsLogged rec.now) }
{
    put_address(out, rec.page)?;
    put_u16(out, rec.slot)?;
    put_text(out, rec.before.as_slice())?;
    put_text(out, rec.after.as_slice())
}

fn put_records(out: &mut Vec<u8>, recs: &[Rec]) -> Result<(), NoMemory>
    ensures ok { OnOk result (out.new.items ≡ out.old.items ++ concat (flat_map record_fields recs.now)) }
    ensures logged { OnOk result (AllByRecursion IsLogged recs.now) }
{
    for rec in recs {
        put_record(out, rec)?;
    }
    Ok(())
}

/// The bytes of a transaction's entry in the log.
#[tactic(auto, unfolding(crate::specs::Entries::entry_bytes))]
pub fn commit_bytes(alloc: Global, work: &Work) -> Result<Bytes, NoMemory>
    ensures bytes { IfOk result (λ bytes. bytes ≡ entry_bytes (Commit work.now.recs)) }
    ensures entry { OnOk result (IsEntry (Commit work.now.recs)) }
{
    let mut out = Vec::new(alloc);
    out.push(1)?;
    put_u64(&mut out, work.len() as u64)?;
    put_records(&mut out, work.as_slice())?;
    Ok(Bytes::from(out))
}

/// The bytes of a revert's entry in the log.
#[tactic(auto, unfolding(crate::specs::Entries::entry_bytes))]
pub fn revert_bytes(alloc: Global, snap: &Name) -> Result<Bytes, NoMemory>
    ensures bytes { IfOk result (λ bytes. bytes ≡ entry_bytes (Revert snap.now)) }
    ensures entry { OnOk result (IsEntry (Revert snap.now)) }
{
    let mut out = Vec::new(alloc);
    out.push(2)?;
    put_name(&mut out, snap)?;
    Ok(Bytes::from(out))
}
