//! The layout of the tables that statements read and change: the heap.

pub(crate) use table_heap::{Heap as Layout, new_root, plan, rows};
pub(crate) use table_scan::first;
