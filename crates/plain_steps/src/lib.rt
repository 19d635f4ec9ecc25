//! Laws of the plain machine: what every legal history promises.
#![tactic(auto)]

mod events;
mod law;
mod locks;
mod phases;
mod replies;
mod tables;

pub use events::{events_leave_the_copies, events_leave_the_others, events_make_the_source};
pub use law::{
    histories_keep_tables, orders_know_no_stranger, snapshots_are_read_without_locks,
    transactions_are_alone,
};
pub use locks::{
    legal_states_are_orderly, locks_are_told_by_modes, replies_free_by_modes,
    the_lowest_in_the_way_is_named,
};
pub use phases::{a_phase_is_passed_under_its_lock, statements_come_by_phases};
pub use replies::{
    a_begin_goes_deeper, a_commit_makes_its_changes_the_source, a_commit_without_log_keeps_nothing,
    a_dropped_snapshot_is_gone, a_revert_makes_the_copy_the_source, a_snapshot_that_failed_is_gone,
    read_committed_frees_what_was_gained,
};
pub use tables::{changes_are_of_one_table, statements_read_one_table};
