//! What a commit of one session makes of the tables that the others see, and of those to which their plans lead.
#![tactic(auto)]

mod law;

pub use law::{
    a_commit_joins_tables, plans_outlive_a_commit, records_of_others_leave_a_table,
    records_stand_beside_others, the_records_of_one_come_last,
};
