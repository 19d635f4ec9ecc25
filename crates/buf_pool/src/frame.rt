//! What is kept of a page in memory.

use page_base::Image;

/// The image of a page in memory, whether it may differ from the file's, and how often it is pinned.
#[derive(Drop)]
pub struct Frame {
    pub image: Image,
    pub dirty: bool,
    pub pins: u128,
}
