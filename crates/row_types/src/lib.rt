//! What the columns of a table keep of the rows that statements put into it.
#![tactic(auto)]

mod law;

pub use law::{
    rows_that_are_put_are_in_range, rows_that_are_put_are_small, rows_that_are_put_fit,
    sizes_are_lengths,
};
