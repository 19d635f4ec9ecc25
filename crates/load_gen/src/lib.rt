//! A load that a number makes: its script, and what a history of it comes to.
#![tactic(auto)]

mod counts;
mod draws;
mod parts;
mod script;
mod table;
#[cfg(test)]
mod tests;
mod writing;

pub use counts::summary;
pub use script::gen_script;
