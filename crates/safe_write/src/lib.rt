//! That steps which write pages keep the engine safe: laws, no code.
#![tactic(auto)]

mod law;

pub use law::{
    a_change_keeps_the_engine_safe, a_claim_keeps_the_engine_safe, a_copy_keeps_the_engine_safe,
    a_lost_copy_keeps_the_engine_safe, a_mark_keeps_the_engine_safe,
    a_record_taken_back_keeps_the_engine_safe,
};
