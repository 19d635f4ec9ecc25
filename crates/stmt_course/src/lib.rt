//! What the course of a statement on tables keeps, and what its plan brings.
#![tactic(auto)]

mod law;

pub use law::{
    a_plan_brings_its_rows, a_table_comes, a_table_goes, effects_are_cuts_and_puts, nothing_comes,
};
