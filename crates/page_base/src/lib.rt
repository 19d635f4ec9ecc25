//! What all layers speak of: names, values, rows, columns, images of pages, and the numbers of things.
#![tactic(auto)]

mod column;
mod compare;
mod failure;
mod file_name;
mod image;
mod limits;
mod list;
mod name;
mod numbers;
mod table;
#[cfg(test)]
mod tests;
mod value;

pub use column::{ColType, Column, Columns};
pub use failure::{Failed, NameRefusal, NoMemory};
pub use file_name::FileName;
pub use image::{Image, PAGE};
pub use limits::{
    MAX_FRAMES, MAX_KEY_BYTES, MAX_ROW_BYTES, MAX_SLOT_BYTES, MAX_SLOTS, MAX_SNAPSHOTS,
};
pub use list::ListOf;
pub use name::Name;
pub use numbers::{Mode, PageId, SessNo, SnapNo, TableNo};
pub use table::Table;
pub use value::{Bytes, Row, RowList, Truth, Value};
