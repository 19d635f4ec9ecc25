//! Statements of the Transact-SQL subset, as a batch says them.

use crate::Expr;
use page_base::{Columns, FileName, ListOf, Name};

/// Names, in order.
pub type Names = ListOf<Name>;

/// Expressions, in order.
pub type ExprList = ListOf<Expr>;

/// The rows of a VALUES list, each a list of expressions.
pub type ExprRows = ListOf<ExprList>;

/// An INSERT; no columns means all of them, in the table's order.
#[derive(Debug, Drop)]
pub struct InsertStmt {
    pub table: Name,
    pub cols: Names,
    pub rows: ExprRows,
}

/// An aggregate of a SELECT: COUNT(*), or SUM of a number.
#[derive(Debug, Drop)]
pub enum Sum {
    CountAll,
    SumOf(Expr),
}

/// Aggregates, in order.
pub type SumList = ListOf<Sum>;

/// What a SELECT shows: all columns, expressions of each row, or aggregates of all rows.
#[derive(Debug, Drop)]
pub enum Items {
    Star,
    Exprs(ExprList),
    Sums(SumList),
}

/// A column of ORDER BY; `down` is DESC.
#[derive(Clone, Copy, Debug, PartialEq, Eq)]
pub struct OrderItem {
    pub col: Name,
    pub down: bool,
}

/// The columns of ORDER BY, the first the weightiest.
pub type OrderList = ListOf<OrderItem>;

/// A SELECT of one table.
#[derive(Debug, Drop)]
pub struct SelectStmt {
    pub table: Name,
    pub items: Items,
    pub filter: Option<Expr>,
    pub order: OrderList,
}

/// One `column = expression` of an UPDATE.
#[derive(Debug, Drop)]
pub struct SetItem {
    pub col: Name,
    pub to: Expr,
}

/// The SET list of an UPDATE.
pub type SetList = ListOf<SetItem>;

/// An UPDATE of one table.
#[derive(Debug, Drop)]
pub struct UpdateStmt {
    pub table: Name,
    pub sets: SetList,
    pub filter: Option<Expr>,
}

/// A DELETE from one table.
#[derive(Debug, Drop)]
pub struct DeleteStmt {
    pub table: Name,
    pub filter: Option<Expr>,
}

/// A file of CREATE DATABASE .. AS SNAPSHOT OF: the data file's logical name, and the sparse file's name.
#[derive(Clone, Copy, Debug, PartialEq, Eq)]
pub struct SnapFile {
    pub logical: Name,
    pub path: FileName,
}

/// The files of a new snapshot.
pub type SnapFiles = ListOf<SnapFile>;

/// How long a session's transaction keeps the locks that its reads gained.
#[derive(Clone, Copy, Debug, PartialEq, Eq)]
pub enum Level {
    /// READ COMMITTED: to the statement's reply.
    Committed,
    /// SERIALIZABLE: to the transaction's end.
    Serial,
}

/// A statement. The columns of a CREATE TABLE are empty where the definition is a bad one.
/// `Broken` stands for a batch that isn't in the grammar, with the place where it breaks.
#[derive(Debug, Drop)]
pub enum Stmt {
    UseDb(Name),
    CreateTable(Name, Columns),
    DropTable(Name),
    Insert(InsertStmt),
    Select(SelectStmt),
    Update(UpdateStmt),
    Delete(DeleteStmt),
    BeginTran,
    Commit,
    Rollback,
    LockTimeoutZero,
    SetLevel(Level),
    CreateSnap {
        snap: Name,
        files: SnapFiles,
        of: Name,
    },
    DropDb(Name),
    Restore {
        db: Name,
        snap: Name,
    },
    Broken {
        at: u32,
    },
}
