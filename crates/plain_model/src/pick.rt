//! A schedule: whose steps come next, and how many.

use crate::Kind;
use page_base::ListOf;

/// How many steps a pick takes.
#[derive(Clone, Copy, Debug, PartialEq, Eq)]
pub enum Until {
    /// One step.
    One,
    /// Steps until one answers a statement, leaves, or finds its page latched.
    Reply,
    /// Steps as long as the next one isn't of this kind; also no further than `Reply`.
    At(Kind),
}

/// One entry of a schedule: the session whose steps come, from 1, or 0 for the flusher, and how many.
#[derive(Clone, Copy, Debug, PartialEq, Eq)]
pub struct Pick {
    pub who: u8,
    pub until: Until,
}

/// The entries of a schedule, in order.
pub type PickList = ListOf<Pick>;
