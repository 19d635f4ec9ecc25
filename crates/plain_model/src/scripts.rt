//! Lists of statements whose types keep what reading promises of each statement.

ghost use Rattle.std.specs.Prelude.{◌≡◌, ◌++◌, ◌∷◌, [], ◌<◌, ◌≤◌, ◌+◌, true, List, length, sum_by, slice_get, Some, OnOk, OnErr};
ghost use Rattle.plain_model.specs.Sound.{is_sound, are_sound, AreScripts};

use crate::Stmt;
use page_base::{ListOf, NoMemory};
use std::alloc::Global;
use std::marker::Model;

/// The statements of one session, or of one batch, in order; each is a sound one.
#[derive(Debug, Drop)]
pub struct StmtList {
    stmts: Vec<Stmt>,
}

impl Model for StmtList {
    ghost use Rattle.std.specs.Prelude.{◌≡◌, true, List};
    ghost use Rattle.plain_model.specs.declared.stmt.Stmt.{Stmt};
    ghost use Rattle.plain_model.specs.contracts.expr.Expr as e;
    ghost use Rattle.plain_model.specs.Sound.{are_sound};
    ghost use Rattle.std.specs.Coded.{codes};

    ghost Value = { List Stmt };

    ghost coded = { Prim.hlevel (codes, e.the_row.coded) };

    ghost view = { λ s. s.stmts.items };

    ghost invariant = { λ s. are_sound s.stmts.items ≡ true };
}

impl StmtList {
    /// No statements. Takes no memory.
    pub fn new(alloc: Global) -> Self
        ensures { result ≡ [] }
    {
        StmtList {
            stmts: Vec::new(alloc),
        }
    }

    /// These statements, each a sound one. Takes no memory.
    pub fn of(stmts: ListOf<Stmt>) -> Self
        requires { are_sound stmts ≡ true }
        ensures { result ≡ stmts }
    {
        StmtList {
            stmts: stmts.into_vec(),
        }
    }

    /// How many there are.
    pub fn len(&self) -> usize
        ensures { result ≡ length self.now }
    {
        self.stmts.len()
    }

    /// The statement at a place, from 0.
    pub fn at(&self, place: usize) -> &Stmt
        requires { place < length self.now }
        ensures { slice_get self.now place ≡ Some result.now }
    {
        &self.stmts[place]
    }

    /// All of them, each a sound one.
    pub fn as_slice(&self) -> &[Stmt]
        ensures value { result.now ≡ self.now }
        ensures sound { are_sound self.now ≡ true }
    {
        self.stmts.as_slice()
    }

    /// Adds a sound statement at the end. After want of memory the list is as before.
    pub fn push(&mut self, stmt: Stmt) -> Result<(), NoMemory>
        requires { is_sound stmt ≡ true }
        ensures ok { OnOk result (self.new ≡ self.old ++ stmt ∷ []) }
        ensures err { OnErr result (self.new ≡ self.old) }
    {
        self.stmts.push(stmt)?;
        Ok(())
    }
}

impl StmtList {
    /// Adds the statements of another list at the end. After want of memory the list is as before.
    pub fn append(&mut self, other: StmtList) -> Result<(), NoMemory>
        ensures ok { OnOk result (self.new ≡ self.old ++ other) }
        ensures err { OnErr result (self.new ≡ self.old) }
    {
        let mut more = other.stmts;
        self.stmts.append(&mut more)?;
        Ok(())
    }
}

/// The statements of each session, those of session 1 first: at most 64 sessions, and 20,000 statements in all.
#[derive(Debug, Drop)]
pub struct Scripts {
    sessions: Vec<StmtList>,
}

impl Model for Scripts {
    ghost use Rattle.std.specs.Prelude.{List};
    ghost use Rattle.plain_model.specs.declared.stmt.Stmt.{Stmt};
    ghost use Rattle.plain_model.specs.contracts.expr.Expr as e;
    ghost use Rattle.plain_model.specs.Sound.{AreScripts};
    ghost use Rattle.std.specs.Coded.{codes};

    ghost Value = { List (List Stmt) };

    ghost coded = { Prim.hlevel (codes, e.the_row.coded) };

    ghost view = { λ s. s.sessions.items };

    ghost invariant = { λ s. AreScripts s.sessions.items };
}

impl Scripts {
    /// No sessions. Takes no memory.
    pub fn new(alloc: Global) -> Self
        ensures { result ≡ [] }
    {
        Scripts {
            sessions: Vec::new(alloc),
        }
    }

    /// How many sessions there are.
    pub fn len(&self) -> usize
        ensures { result ≡ length self.now }
    {
        self.sessions.len()
    }

    /// The statements of the session at a place, from 0.
    pub fn at(&self, place: usize) -> &StmtList
        requires { place < length self.now }
        ensures { slice_get self.now place ≡ Some result.now }
    {
        &self.sessions[place]
    }

    /// All sessions, within the limits.
    pub fn as_slice(&self) -> &[StmtList]
        ensures value { result.now ≡ self.now }
        ensures kept { AreScripts self.now }
    {
        self.sessions.as_slice()
    }

    /// Adds a session at the end, where the limits leave room for it. After want of memory the sessions are as before.
    pub fn push(&mut self, session: StmtList) -> Result<(), NoMemory>
        requires fewer { length self.old < 64 }
        requires room { sum_by length self.old + length session ≤ 20000 }
        ensures ok { OnOk result (self.new ≡ self.old ++ session ∷ []) }
        ensures err { OnErr result (self.new ≡ self.old) }
    {
        let _sound = session.as_slice();
        self.sessions.push(session)?;
        Ok(())
    }
}
