//! Pages as one database: whose each page is, and which tables stand on them.
#![tactic(auto)]

mod coming;
mod law;
mod leaving;
mod mine;

pub use coming::{a_root_is_told_later, a_table_is_created, claimable_pages_are_free};
pub use law::{
    a_plan_is_one_of_the_database, a_plan_of_table_0_leaves_the_tables, bases_are_one,
    claims_give_their_pages, sheets_are_pages, tables_depend_on_their_pages,
    writes_are_claims_and_edits,
};
pub use leaving::a_table_is_dropped;
pub use mine::{a_plan_is_written, claims_come_in_turn, writes_leave_the_rest};
