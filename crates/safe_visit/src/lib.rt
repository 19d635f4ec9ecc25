//! That steps which visit pages keep the engine safe: laws, no code.
#![tactic(auto)]

mod law;

pub use law::{
    a_beginning_keeps_the_engine_safe, a_copy_read_keeps_the_engine_safe,
    a_fetch_keeps_the_engine_safe, a_latch_keeps_the_engine_safe, a_look_keeps_the_engine_safe,
    a_lost_read_keeps_the_engine_safe, a_pass_keeps_the_engine_safe,
};
