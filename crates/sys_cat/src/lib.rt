//! Table 0: what its rows say of the other tables.
#![tactic(auto)]

mod columns;
mod desc;
mod growing;
mod law;
mod line;
mod number;
mod reading;
mod spelling;
#[cfg(test)]
mod tests;

pub use columns::{root, zero_columns};
pub use desc::{DescList, DescRefusal, TableDesc};
pub use law::{
    gathered_rows_are_keyed, rows_and_tables_determine_each_other, rows_may_be_put,
    tables_are_put_and_cut,
};
pub use number::next_number;
pub use reading::descs;
pub use spelling::rows_of;
