//! What a run's steps leave behind, and how much they leave to do: definitions and laws, no code.
#![tactic(auto)]

mod law;

pub use law::{
    a_page_with_a_free_slot_has_one, a_refusal_has_its_cause, a_reply_ends_a_statement,
    a_run_ends_in_rounds, a_schedule_goes_pick_by_pick, a_step_leaves_less_to_do, a_trail_goes_on,
    a_trail_keeps_up_with_its_engine, an_answer_ends_what_has_begun, an_example_is_a_trail,
    counts_of_pages_fall, kinds_are_told_apart, pages_apart_are_counted, the_next_step_may_come,
    what_a_session_did_moves_by_one, what_is_left_falls, what_rose_is_named,
    who_is_gone_has_no_step, who_needs_a_latch_holds_none,
};
