//! Which database a name means.

ghost use Rattle.std.specs.Prelude.{◌≡◌};
ghost use Rattle.early_pages.specs.Shown.{catalog};
ghost use Rattle.early_engine.specs.Databases.{Means, IsPlaced, is_lost, is_there, is_home};

use early_pages::{SnapPages, SnapState};
use page_base::{Name, SnapNo};
use page_dev::PageFile;

/// A database: the source, `master`, a snapshot by its place, or none.
#[derive(Clone, Copy, Debug, PartialEq, Eq)]
pub(crate) enum Database {
    Source,
    Master,
    Snap(SnapNo),
    Absent,
}

/// The database of this name. Takes no memory.
pub(crate) fn find_database<P: PageFile>(
    pages: &SnapPages<P>,
    source: &Name,
    name: &Name,
) -> Database
    ensures means { Means source.now (catalog pages.now) name.now result }
    ensures placed { IsPlaced (catalog pages.now) result }
{
    if name.is_same(source) {
        return Database::Source;
    }
    if name.is_text(b"master") {
        return Database::Master;
    }
    match pages.cat().find(name) {
        Some(s) => Database::Snap(s),
        None => Database::Absent,
    }
}

/// Whether the database is a suspect snapshot. Takes no memory.
pub(crate) fn is_lost<P: PageFile>(pages: &SnapPages<P>, db: Database) -> bool
    requires { IsPlaced (catalog pages.now) db }
    ensures { result ≡ is_lost (catalog pages.now) db }
{
    match db {
        Database::Snap(s) => pages.cat().state(s) == SnapState::Suspect,
        _ => false,
    }
}

/// Whether there is such a database.
pub(crate) fn is_there(db: Database) -> bool
    ensures { result ≡ is_there db }
{
    !matches!(db, Database::Absent)
}

/// Whether the database is the source.
pub(crate) fn is_home(db: Database) -> bool
    ensures { result ≡ is_home db }
{
    matches!(db, Database::Source)
}
