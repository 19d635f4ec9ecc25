//! The plain machine of whole tables: statements, replies, events, and which history of them is legal.
#![tactic(auto)]

mod event;
mod expr;
mod expr_type;
mod kind;
mod law;
mod messages;
mod pick;
mod reply;
mod scripts;
mod stmt;

pub use event::{Book, Event, LockName};
pub use expr::{CompareOp, Expr, InRest, MathOp};
pub use expr_type::ExprType;
pub use kind::Kind;
pub use law::{
    a_commit_without_memory_keeps_nothing, a_level_is_the_one_that_was_set,
    a_rollback_forgets_its_changes, being_made_is_told_before_suspect,
    files_not_removed_are_in_doubt, locks_are_kept_by_level, no_reply_leaves_gains,
    the_asking_session_is_a_user,
};
pub use pick::{Pick, PickList, Until};
pub use reply::{Carried, Message, Reply};
pub use scripts::{Scripts, StmtList};
pub use stmt::{
    DeleteStmt, ExprList, ExprRows, InsertStmt, Items, Level, Names, OrderItem, OrderList,
    SelectStmt, SetItem, SetList, SnapFile, SnapFiles, Stmt, Sum, SumList, UpdateStmt,
};
