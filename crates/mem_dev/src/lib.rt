//! Devices in memory: they tell what they hold, and chosen calls of them fail.
#![tactic(auto)]

#[cfg(test)]
mod device_tests;
mod fault_plan;
mod file_rule;
mod kept_file;
mod logs;
mod mem_volume;
mod name_map;
mod page_store;
mod pages;
mod shelf;
mod sink;
mod source;
mod sure_volume;
#[cfg(test)]
mod tests;

pub use logs::{MemLog, SureLog};
pub use mem_volume::MemVolume;
pub use pages::{MemPages, SurePages};
pub use sink::{MemSink, SureSink};
pub use source::{MemSource, SureSource};
pub use sure_volume::SureVolume;
