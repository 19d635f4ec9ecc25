//! The outside, as traits: what an object holds where it tells, and a count of faults that never falls.
#![tactic(auto)]

mod files;
mod log_file;
mod page_file;
mod sink;
mod source;
mod volume;

pub use files::{FileList, PoolRefused};
pub use log_file::{LogFile, LogRefusal};
pub use page_file::PageFile;
pub use sink::{Sink, SinkRefusal};
pub use source::Source;
pub use volume::{VolRefusal, Volume};
