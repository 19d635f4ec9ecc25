//! How far a session is.

use page_base::Name;

/// A session: its current database, how many of its statements were answered, and whether it has left.
#[derive(Clone, Copy, Debug, PartialEq, Eq)]
pub struct Seat {
    pub current: Name,
    pub said: u32,
    pub gone: bool,
}
