//! What a program knows of its statement from the start: the statement itself is lent to it at each call.

ghost use Rattle.std.specs.Prelude.{◌≡◌, true, MatchOption, IfOk, false};
ghost use Rattle.plain_model.specs.Free.{is_of_tables};
ghost use Rattle.plain_model.specs.Sound.{is_sound};
ghost use Rattle.plain_model.specs.Statements.{table_named};
ghost use Rattle.plain_steps.specs.Phases.{first_mode, second_mode};
ghost use Rattle.stmt_prog.specs.Heads.{creates, drops, defines_well};

use page_base::{Mode, Name};
use plain_model::Stmt;
use std::marker::Model;
use std::snapshot::Snapshot;
use step_words::DbKind;

/// A statement by its locks' modes and its table's name.
#[derive(Drop)]
pub(crate) struct Head {
    stmt: Snapshot<Stmt>,
    at: DbKind,
    first: Mode,
    second: Option<Mode>,
    name: Name,
}

impl Model for Head {
    ghost use Rattle.std.specs.Coded.{codes};
    ghost use Rattle.plain_model.specs.contracts.stmt.Stmt as e;
    ghost use Rattle.stmt_prog.specs.Heads.{Headed, IsHead};

    ghost Value = { Headed };

    ghost coded = { Prim.hlevel (codes, e.the_row.coded) };

    ghost view = { λ h. record { stmt = h.stmt.value; at = h.at } };

    ghost invariant = { λ h. IsHead h.stmt.value h.first h.second h.name };
}

// The table of a statement on tables.
fn table_of(stmt: &Stmt) -> Option<Name>
    ensures { MatchOption result (is_of_tables stmt.now ≡ false) (λ name. name ≡ table_named stmt.now) }
{
    match stmt {
        Stmt::CreateTable(name, _) | Stmt::DropTable(name) => Some(*name),
        Stmt::Insert(insert) => Some(insert.table),
        Stmt::Select(select) => Some(select.table),
        Stmt::Update(update) => Some(update.table),
        Stmt::Delete(delete) => Some(delete.table),
        _ => None,
    }
}

// The mode of the lock on its table.
fn own_mode(stmt: &Stmt) -> Option<Mode>
    ensures { result ≡ second_mode stmt.now }
{
    match stmt {
        Stmt::Insert(_) | Stmt::Update(_) | Stmt::Delete(_) => Some(Mode::X),
        Stmt::Select(_) => Some(Mode::S),
        _ => None,
    }
}

// The mode of the lock on the table of tables.
fn all_mode(stmt: &Stmt) -> Mode
    ensures { result ≡ first_mode stmt.now }
{
    match stmt {
        Stmt::CreateTable(_, _) | Stmt::DropTable(_) => Mode::X,
        _ => Mode::S,
    }
}

/// Whether the statement makes a table.
pub(crate) fn creates(stmt: &Stmt) -> bool
    ensures { result ≡ creates stmt.now }
{
    matches!(stmt, Stmt::CreateTable(_, _))
}

/// Whether it drops one.
pub(crate) fn drops(stmt: &Stmt) -> bool
    ensures { result ≡ drops stmt.now }
{
    matches!(stmt, Stmt::DropTable(_))
}

impl Head {
    /// Of a statement on tables in a database of this kind.
    pub(crate) fn of(stmt: &Stmt, at: DbKind) -> Head
        requires tables { is_of_tables stmt.now ≡ true }
        requires sound { is_sound stmt.now ≡ true }
        requires well { defines_well stmt.now ≡ true }
        ensures { result ≡ record { stmt = stmt.now; at = at } }
    {
        let name = table_of(stmt).unwrap();
        Head {
            stmt: Snapshot::of(stmt),
            at,
            first: all_mode(stmt),
            second: own_mode(stmt),
            name,
        }
    }

    /// The kind of its database. The statement is sound, and about tables.
    pub(crate) fn at(&self) -> DbKind
        ensures is { result ≡ self.now.at }
        ensures tables { is_of_tables self.now.stmt ≡ true }
        ensures sound { is_sound self.now.stmt ≡ true }
        ensures well { defines_well self.now.stmt ≡ true }
    {
        self.at
    }

    pub(crate) fn first(&self) -> Mode
        ensures { result ≡ first_mode self.now.stmt }
    {
        self.first
    }

    pub(crate) fn second(&self) -> Option<Mode>
        ensures { result ≡ second_mode self.now.stmt }
    {
        self.second
    }

    pub(crate) fn name(&self) -> Name
        ensures { result ≡ table_named self.now.stmt }
    {
        self.name
    }
}
