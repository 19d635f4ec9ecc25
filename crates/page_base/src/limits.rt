//! The limits that several layers share, each in one place.

/// How many slots a page has at most: each of them costs two bytes of its directory.
pub const MAX_SLOTS: u16 = 4_048;
/// How many bytes a slot holds at most: those of a page without its header and one entry of its directory.
pub const MAX_SLOT_BYTES: usize = 8_094;
/// How many bytes a row has at most, as in SQL Server.
pub const MAX_ROW_BYTES: usize = 8_060;
/// How many bytes the key of a row has at most, as in SQL Server.
pub const MAX_KEY_BYTES: usize = 900;
/// How many snapshots are open at most.
pub const MAX_SNAPSHOTS: usize = 8;
/// How many pages are kept in memory at most.
pub const MAX_FRAMES: u32 = 32_768;
