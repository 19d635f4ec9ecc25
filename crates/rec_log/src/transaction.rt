//! The records of one transaction, with room taken in advance for those that are still to come.

ghost use Rattle.std.specs.Prelude.{◌≡◌, ◌+◌, ◌<◌, ◌≤◌, ◌↔◌, ◌++◌, ◌∷◌, [], ℕ, length, slice_get, slice_index_or, IsTrue, IsOk, IfOk, OnOk, OnErr, IfSome, IfNone, List};
ghost use Rattle.rec_log.specs.Records.{Record, IsRecord};

use crate::Rec;
use page_base::NoMemory;
use std::alloc::Global;
use std::marker::Model;

/// The records of one transaction in the order of its changes, and how many more it has room for.
#[derive(Debug, Drop)]
pub struct Work {
    recs: Vec<Rec>,
}

impl Model for Work {
    ghost use Rattle.std.specs.Prelude.{◌-◌, vec_len, vec_capacity};
    ghost use Rattle.rec_log.specs.Records.{WorkOf};

    ghost Value = { WorkOf };

    ghost view = { λ w. record { recs = w.recs.items; spare = vec_capacity w.recs - vec_len w.recs } };
}

impl Work {
    /// No records.
    pub fn new(alloc: Global) -> Result<Work, NoMemory>
        ensures { IfOk result (λ work. work.recs ≡ []) }
    {
        Ok(Work {
            recs: Vec::new(alloc),
        })
    }

    /// No records, and no room for any. Takes no memory.
    pub fn none(alloc: Global) -> Work
        ensures { result ≡ record { recs = []; spare = 0 } }
    {
        Work {
            recs: Vec::new(alloc),
        }
    }

    /// Makes room for at least `more` records. It fails only where that room wasn't there, and the records stay.
    pub fn reserve(&mut self, more: usize) -> Result<(), NoMemory>
        ensures recs { self.new.recs ≡ self.old.recs }
        ensures room { OnOk result (more ≤ self.new.spare) }
        ensures never_less { self.old.spare ≤ self.new.spare }
        ensures enough { more ≤ self.old.spare → IsOk result }
    {
        self.recs.reserve(more)?;
        Ok(())
    }

    /// Adds a record at the end, where there is room.
    pub fn push(&mut self, rec: Rec)
        requires { 0 < self.old.spare }
        ensures recs { self.new.recs ≡ self.old.recs ++ rec ∷ [] }
        ensures spare { self.new.spare + 1 ≡ self.old.spare }
    {
        self.recs.push_reserved(rec);
    }

    /// Takes the last record, and keeps its room; None exactly where there is none.
    pub fn pop(&mut self) -> Option<Rec>
        ensures record { IfSome result IsRecord }
        ensures last { IfSome result (λ rec. self.old.recs ≡ self.new.recs ++ rec ∷ []) }
        ensures spare { IfSome result (λ rec. self.new.spare ≡ self.old.spare + 1) }
        ensures none { IfNone result (self.old.recs ≡ []) }
        ensures same { IfNone result (self.new ≡ self.old) }
    {
        self.recs.pop()
    }

    /// How many records there are.
    pub fn len(&self) -> usize
        ensures { result ≡ length self.now.recs }
    {
        self.recs.len()
    }

    /// Whether there is none.
    pub fn is_empty(&self) -> bool
        ensures { IsTrue result ↔ (self.now.recs ≡ []) }
    {
        self.recs.is_empty()
    }

    /// The record at a place, from 0.
    pub fn at(&self, place: usize) -> &Rec
        requires { place < length self.now.recs }
        ensures get { slice_get self.now.recs place ≡ Some result.now }
        ensures value { (d : Record) → slice_index_or self.now.recs place d ≡ result.now }
        ensures record { IsRecord result.now }
    {
        let rec = &self.recs[place];
        rec.keeps_limits();
        rec
    }

    /// The last record; None exactly where there is none.
    pub fn last(&self) -> Option<&Rec>
        ensures last { IfSome result (λ rec. (front : List Record) × (self.now.recs ≡ front ++ rec.now ∷ [])) }
        ensures none { IfNone result (self.now.recs ≡ []) }
        ensures record { IfSome result (λ rec. IsRecord rec.now) }
    {
        let rec = self.recs.last()?;
        rec.keeps_limits();
        Some(rec)
    }

    /// All records, in order.
    pub fn as_slice(&self) -> &[Rec]
        ensures { result.now ≡ self.now.recs }
    {
        self.recs.as_slice()
    }

    /// Adds the records of another transaction at the end, once more. After want of memory the records are as before.
    pub fn append_copy(&mut self, alloc: Global, from: &Work) -> Result<(), NoMemory>
        ensures ok { OnOk result (self.new.recs ≡ self.old.recs ++ from.now.recs) }
        ensures err { OnErr result (self.new.recs ≡ self.old.recs) }
    {
        let mut copies = copied(alloc, &from.recs)?;
        self.recs.append(&mut copies)?;
        Ok(())
    }

    /// The same records once more.
    pub fn copy(&self, alloc: Global) -> Result<Work, NoMemory>
        ensures { IfOk result (λ copy. copy.recs ≡ self.now.recs) }
    {
        let recs = copied(alloc, &self.recs)?;
        Ok(Work { recs })
    }
}

// The same records in another place.
fn copied(alloc: Global, recs: &[Rec]) -> Result<Vec<Rec>, NoMemory>
    ensures { IfOk result (λ copies. copies.items ≡ recs.now) }
{
    let mut copies = Vec::with_capacity(alloc, recs.len())?;
    for rec in recs {
        copies.push(rec.copy(alloc)?)?;
    }
    Ok(copies)
}
