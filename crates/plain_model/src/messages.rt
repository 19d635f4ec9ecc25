//! The numbers of messages: which cause each stands for and what it carries, chosen after message numbers of SQL Server
//! below 60001.

use crate::Message;

impl Message {
    /// The batch isn't in the grammar. Carries the place of the first byte that can't stand.
    pub const SYNTAX: u32 = 102;
    /// A column isn't in the table.
    pub const NO_COLUMN: u32 = 207;
    /// The table isn't there.
    pub const NO_TABLE: u32 = 208;
    /// A database is made, dropped or reverted within a transaction.
    pub const IN_TRANSACTION: u32 = 226;
    /// A NULL for a column that may not be NULL. Carries the row's place.
    pub const NULL_VALUE: u32 = 515;
    /// No memory was found.
    pub const NO_MEMORY: u32 = 701;
    /// The database isn't there.
    pub const NO_DATABASE: u32 = 911;
    /// The snapshot is suspect.
    pub const SUSPECT: u32 = 926;
    /// The database is restoring.
    pub const RESTORING: u32 = 927;
    /// No page has room for what the statement writes.
    pub const NO_ROOM: u32 = 1105;
    /// Another session holds the table in a conflicting mode. Carries the lowest such session.
    pub const LOCKED: u32 = 1222;
    /// A database of the name is there.
    pub const DATABASE_IS_THERE: u32 = 1801;
    /// The key is in the table, or in an earlier row of the list. Carries the row's place.
    pub const KEY_IS_THERE: u32 = 2627;
    /// A table of the name is there.
    pub const TABLE_IS_THERE: u32 = 2714;
    /// Another session is in the source or the snapshot, or holds a lock. Carries the lowest such session.
    pub const IN_USE: u32 = 3101;
    /// This session is in the source or the snapshot.
    pub const IN_USE_HERE: u32 = 3102;
    /// COMMIT outside a transaction.
    pub const NOTHING_TO_COMMIT: u32 = 3902;
    /// ROLLBACK outside a transaction.
    pub const NOTHING_TO_ROLL_BACK: u32 = 3903;
    /// A write in a snapshot or in `master`.
    pub const READ_ONLY: u32 = 3906;
    /// A number is out of its type's range. Carries the row's place, 0 for a SUM or a COUNT(*).
    pub const OVERFLOW: u32 = 8115;
    /// Another database where the source is needed.
    pub const NOT_THE_SOURCE: u32 = 60003;
    /// The file list isn't each data file once.
    pub const FILE_LIST: u32 = 60004;
    /// A sparse file's name is on the volume, or stands twice in the list.
    pub const FILE_IS_THERE: u32 = 60005;
    /// The source and `master` can't be dropped.
    pub const NOT_A_SNAPSHOT: u32 = 60006;
    /// Eight snapshots are there, or no cut number is left.
    pub const TOO_MANY_SNAPSHOTS: u32 = 60007;
    /// A session is in the database. Carries the lowest such session.
    pub const DATABASE_IN_USE: u32 = 60008;
    /// The snapshot is still being made.
    pub const BEING_MADE: u32 = 60009;
    /// Another snapshot is there. Carries its name, the first in order of cuts.
    pub const OTHER_SNAPSHOT: u32 = 60010;
    /// A table is made or dropped within a transaction.
    pub const TABLE_IN_TRANSACTION: u32 = 60011;
    /// UPDATE of a key column.
    pub const KEY_UPDATE: u32 = 60012;
    /// Types don't fit.
    pub const TYPE_CLASH: u32 = 60013;
    /// A text is longer than its column. Carries the row's place.
    pub const TEXT_TOO_LONG: u32 = 60014;
    /// A row has more than 8,060 bytes. Carries its place.
    pub const ROW_TOO_LONG: u32 = 60015;
    /// The definition of the table is a bad one.
    pub const BAD_DEFINITION: u32 = 60016;
    /// A row's key has more than 900 bytes. Carries the row's place.
    pub const KEY_TOO_LONG: u32 = 60017;
    /// The volume, or a file of the snapshot that is being made, failed.
    pub const FILE_FAILED: u32 = 60021;
    /// A file of the snapshot failed while the source was reverted to it.
    pub const REVERT_FAILED: u32 = 60022;
    /// A file of a dropped snapshot wasn't removed.
    pub const FILE_NOT_REMOVED: u32 = 60024;
    /// Bytes that were read are no page, or a slot on it is no row. Carries the place.
    pub const DAMAGED: u32 = 60026;
    /// The log failed. Carries its count of faults.
    pub const LOG_FAILED: u32 = 60027;
    /// All frames are pinned. Carries their number.
    pub const NO_FRAME: u32 = 60028;
    /// A data file failed. Carries the count of faults of all.
    pub const DATA_FAILED: u32 = 60029;
    /// The statement isn't carried out yet.
    pub const NOT_BUILT: u32 = 60098;
}
