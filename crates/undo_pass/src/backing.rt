//! A transaction's changes are taken back from the source's pages as they were made, the last one first.

ghost use Rattle.std.specs.Prelude.{◌≡◌, ◌≢◌, [], ◌∷◌, ◌++◌, List};
ghost use Rattle.rec_log.specs.Records.{Record, IsRecord};
ghost use Rattle.snap_pages.specs.Shown.{IsPinned};
ghost use Rattle.snap_pages.specs.Dues.{IsPushed};
ghost use Rattle.undo_pass.specs.Backs.{TakesBack, IsBack};

use page_dev::PageFile;
use rec_log::{Rec, Work};
use snap_pages::SnapPages;

// Sets the record's slot to what stood there before, where that fits, and takes back its page's pin.
fn take_back<P: PageFile>(pages: &mut SnapPages<P>, rec: Rec)
    requires pinned { IsPinned pages.old rec.page }
    requires pushed { IsPushed pages.old rec.page }
    requires record { IsRecord rec }
    ensures { TakesBack rec pages.old pages.new }
{
    let Rec {
        page,
        slot,
        before,
        after,
    } = rec;
    let undo = Rec {
        page,
        slot,
        before: after,
        after: before,
    };
    let _ = pages.change(page, &undo);
    pages.unpin(page);
}

/// Takes the last record back from the source: its slot has what stood there before, where that fits. The record goes
/// and its page has a pin less. There is one, its page is pinned, and no snapshot lacks it. Takes no memory.
pub fn back<P: PageFile>(pages: &mut SnapPages<P>, work: &mut Work)
    requires some { work.old.recs ≢ [] }
    requires ready { (front : List Record) (r : Record) → work.old.recs ≡ front ++ r ∷ [] → IsPinned pages.old r.page × IsPushed pages.old r.page }
    ensures { IsBack pages.old pages.new work.old work.new }
{
    if let Some(rec) = work.pop() {
        take_back(pages, rec);
    }
}
