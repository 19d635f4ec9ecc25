//! How far a program is: what it has read, and what it still writes.

use crate::queue::Queue;
use page_base::TableNo;
use plain_model::Reply;
use sys_cat::TableDesc;
use table_scan::Scan;

/// How far a program is.
#[derive(Drop)]
pub(crate) enum State {
    /// It asks for the lock on the table of tables.
    AskAll(Scan),
    /// It reads the table of tables.
    ScanZero(Scan),
    /// It asks for the lock on its table.
    AskTable {
        zero: Scan,
        desc: TableDesc,
        own: Scan,
    },
    /// It reads its table.
    ScanOwn {
        zero: Scan,
        desc: TableDesc,
        own: Scan,
    },
    /// It has read what it needs.
    Planning {
        zero: Scan,
        desc: TableDesc,
        own: Scan,
    },
    /// It has read that there is no table of the name, and makes one with this number.
    Defining {
        zero: Scan,
        number: TableNo,
    },
    /// It claims and edits, and then it has ended.
    Writing {
        desc: Option<TableDesc>,
        queue: Queue,
        reply: Reply,
    },
}
