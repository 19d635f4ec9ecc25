//! The fields of a format: numbers, texts, names and addresses of pages, each in one spelling, with one reader.
#![tactic(auto)]

mod law;
mod reader;
mod stop;
#[cfg(test)]
mod tests;
mod writing;

pub use law::fields_are_read;
pub use reader::{Reader, page_in};
pub use stop::Stop;
pub use writing::{address, put_address, put_name, put_short, put_text, put_u16, put_u32, put_u64};
