//! All locks in one list, searched from the front.

ghost use Rattle.std.specs.Prelude.{◌≡◌, ◌≢◌, ℕ, ◌<◌, [], true, false, OnOk, OnErr, IfOk, IfErr, MatchOption, option_map, min, length, slice_index_or, find};
ghost use Rattle.std.specs.List.{reduce};
ghost use Rattle.page_base.specs.declared.numbers.SessNo.{SessNo};
ghost use Rattle.page_base.specs.declared.numbers.TableNo.{TableNo};
ghost use Rattle.page_base.specs.declared.numbers.Mode.{Mode};
ghost use Rattle.lock_book.specs.declared.lock.Lock.{Lock};
ghost use Rattle.lock_book.specs.Modes.{gains};
ghost use Rattle.lock_book.specs.Locks.{IsLockBook, Holds, is_lock, lock_of, without_locks, without_lock};
ghost use Rattle.lock_book.specs.Taking.{after_taking, stronger, IsFree, Refuses};
ghost use Rattle.lock_book.specs.Inside.{blocks, blockers, HasNone, IsFirst};

use crate::lock::{conflicts, gains};
use crate::{Lock, LockRefusal};
use page_base::{Mode, NoMemory, SessNo, TableNo};
use std::alloc::Global;
use std::marker::Model;

/// Who holds which table, to the end of its transaction.
#[derive(Debug, Drop)]
pub struct LockBook {
    locks: Vec<Lock>,
}

impl Model for LockBook {
    ghost use Rattle.lock_book.specs.Locks.{Locks, IsLockBook};

    ghost Value = { Locks };

    ghost view = { λ b. b.locks.items };

    ghost invariant = { λ b. IsLockBook b.locks.items };
}

// Whether a lock is another session's, on this table, and conflicts with the mode.
fn blocks(lock: Lock, who: SessNo, table: TableNo, mode: Mode) -> bool
    ensures { result ≡ blocks who table mode lock }
{
    lock.who != who && lock.table == table && conflicts(lock.mode, mode)
}

// The lowest number of a session with a lock that blocks.
fn lowest_blocker(locks: &[Lock], who: SessNo, table: TableNo, mode: Mode) -> Option<u8>
    ensures { result ≡ reduce min (blockers who table mode locks.now) }
{
    locks
        .iter()
        .filter(|lock| blocks(**lock, who, table, mode))
        .map(|lock| lock.who.0)
        .min()
}

// Whether a lock is this session's, on this table.
fn is_lock(lock: &Lock, who: SessNo, table: TableNo) -> bool
    ensures { result ≡ is_lock who table lock.now }
{
    lock.who == who && lock.table == table
}

// Where the session's lock on the table stands.
fn place_of(locks: &[Lock], who: SessNo, table: TableNo) -> Option<usize>
    ensures { MatchOption result (HasNone locks.now who table) (IsFirst locks.now who table) }
{
    locks.iter().position(|lock| is_lock(lock, who, table))
}

// The mode of the session's lock on the table.
fn mode_of(locks: &[Lock], who: SessNo, table: TableNo) -> Option<Mode>
    ensures { result ≡ option_map (λ (lock : Lock). lock.mode) (find (is_lock who table) locks.now) }
{
    locks
        .iter()
        .find(|lock| is_lock(lock, who, table))
        .map(|lock| lock.mode)
}

// Drops the session's locks from the list.
fn cut_session(locks: &mut Vec<Lock>, who: SessNo)
    ensures { locks.new.items ≡ without_locks locks.old.items who }
{
    locks.retain(|lock| lock.who != who);
}

// Drops the session's lock on the table from the list.
fn cut_lock(locks: &mut Vec<Lock>, who: SessNo, table: TableNo)
    ensures { locks.new.items ≡ without_lock locks.old.items who table }
{
    locks.retain(|lock| !is_lock(lock, who, table));
}

// Gives a session a lock that nobody is in the way of; true where the mode is newly gained.
fn give(locks: &mut Vec<Lock>, who: SessNo, table: TableNo, mode: Mode) -> Result<bool, LockRefusal>
    ensures gained { IfOk result (λ gained. gained ≡ gains (lock_of locks.old.items who table) mode) }
    ensures given { OnOk result (locks.new.items ≡ after_taking locks.old.items who table mode) }
    ensures memory { IfErr result (λ refusal. refusal ≡ LockRefusal.Memory) }
    ensures same { OnErr result (locks.new.items ≡ locks.old.items) }
{
    match place_of(locks, who, table) {
        None => {
            locks.push(Lock { who, table, mode })?;
            Ok(true)
        }
        Some(place) => {
            let lock = &mut locks[place];
            let gained = gains(lock.mode, mode);
            if gained {
                lock.mode = mode;
            }
            Ok(gained)
        }
    }
}

impl LockBook {
    /// A book in which nobody holds a table.
    pub fn new(alloc: Global) -> Result<LockBook, NoMemory>
        ensures { IfOk result (λ book. book ≡ []) }
    {
        let locks = Vec::with_capacity(alloc, 64)?;
        Ok(LockBook { locks })
    }

    /// Takes a lock; true where the mode is newly gained. S stands beside S, X alone, and a sole S becomes X.
    /// `Held` exactly where another session is in the way, the lowest one named.
    pub fn take(&mut self, who: SessNo, table: TableNo, mode: Mode) -> Result<bool, LockRefusal>
        ensures gained { IfOk result (λ gained. gained ≡ gains (lock_of self.old who table) mode) }
        ensures taken { OnOk result (self.new ≡ after_taking self.old who table mode) }
        ensures holds { OnOk result (Holds self.new who table (stronger (lock_of self.old who table) mode)) }
        ensures free { OnOk result (IsFree self.old who table mode) }
        ensures refused { IfErr result (Refuses self.old who table mode) }
        ensures same { OnErr result (self.new ≡ self.old) }
        ensures others { (k : SessNo) (at : TableNo) → k ≢ who → lock_of self.new k at ≡ lock_of self.old k at }
        ensures rest { (k : SessNo) (at : TableNo) → (k ≡ who → at ≡ table → ⊥) → lock_of self.new k at ≡ lock_of self.old k at }
        ensures book { IsLockBook self.new }
    {
        match lowest_blocker(&self.locks, who, table, mode) {
            Some(by) => Err(LockRefusal::Held { by: SessNo(by) }),
            None => give(&mut self.locks, who, table, mode),
        }
    }

    /// The mode in which a session holds a table, X also where it holds S.
    pub fn holds(&self, who: SessNo, table: TableNo) -> Option<Mode>
        ensures { result ≡ lock_of self.now who table }
    {
        mode_of(&self.locks, who, table)
    }

    /// Frees the lock that a session holds on a table.
    pub fn free(&mut self, who: SessNo, table: TableNo)
        requires { (mode : Mode) × Holds self.old who table mode }
        ensures freed { self.new ≡ without_lock self.old who table }
        ensures gone { lock_of self.new who table ≡ None }
        ensures rest { (k : SessNo) (at : TableNo) → (k ≡ who → at ≡ table → ⊥) → lock_of self.new k at ≡ lock_of self.old k at }
        ensures book { IsLockBook self.new }
    {
        cut_lock(&mut self.locks, who, table);
    }

    /// Frees all locks of a session.
    pub fn free_all(&mut self, who: SessNo)
        ensures freed { self.new ≡ without_locks self.old who }
        ensures gone { (at : TableNo) → lock_of self.new who at ≡ None }
        ensures others { (k : SessNo) (at : TableNo) → k ≢ who → lock_of self.new k at ≡ lock_of self.old k at }
        ensures book { IsLockBook self.new }
    {
        cut_session(&mut self.locks, who);
    }
}
