//! Planned edits of source pages, each behind the pushes that are due.

ghost use Rattle.std.specs.Prelude.{◌≡◌, ◌≤◌, [], ◌∷◌};
ghost use Rattle.page_base.specs.declared.numbers.PageId.{PageId};
ghost use Rattle.page_base.specs.Pages.{set_at};
ghost use Rattle.page_base.specs.Slots.{with_slot};
ghost use Rattle.page_fmt.specs.Content.{content, IsPage};
ghost use Rattle.page_fmt.specs.Edits.{edited};
ghost use Rattle.plain_model.specs.Tables.{Tables};
ghost use Rattle.early_pages.specs.Shown.{img, counts, IsThere};
ghost use Rattle.early_pages.specs.Slots.{slots_of};
ghost use Rattle.table_pages.specs.Edits.{HasRoom};
ghost use Rattle.table_pages.specs.Carried.{Carries};
ghost use Rattle.early_engine.specs.Pushing.{sound};
ghost use Rattle.early_engine.specs.Doing.{Edits};

use crate::Ledger;
use crate::pushing::push_all;
use early_pages::SnapPages;
use page_dev::PageFile;
use table_pages::{Edit, EditList};

// One edit: the page is pushed to each snapshot that lacks it, and then its slot is changed.
fn do_edit<P: PageFile>(pages: &mut SnapPages<P>, ledger: &mut Ledger, edit: &Edit)
    requires there { IsThere pages.old edit.now.page }
    requires room { HasRoom (content (img pages.old edit.now.page)) edit.now }
    requires spelled { (p : PageId) → IsPage (img pages.old p) }
    requires turns { sound pages.old ≤ ledger.old.room }
    ensures edits { Edits pages.old pages.new ledger.old ledger.new }
    ensures slots { slots_of (img pages.new) ≡ with_slot (slots_of (img pages.old)) edit.now.page edit.now.slot edit.now.bytes }
    ensures content { content (img pages.new edit.now.page) ≡ edited (content (img pages.old edit.now.page)) edit.now.slot edit.now.bytes }
    ensures img { img pages.new ≡ set_at (img pages.old) edit.now.page (img pages.new edit.now.page) }
{
    push_all(pages, ledger, edit.page);
    let _changed = pages.change(edit.page, edit.slot, edit.bytes.as_slice());
}

/// Carries a plan out, edit by edit. Takes no memory.
pub(crate) fn do_edits<P: PageFile>(pages: &mut SnapPages<P>, ledger: &mut Ledger, edits: &EditList)
    ghost tables: { Tables }
    requires plan { Carries pages.old edits.now tables }
    requires spelled { (p : PageId) → IsPage (img pages.old p) }
    requires turns { sound pages.old ≤ ledger.old.room }
    ensures edits { Edits pages.old pages.new ledger.old ledger.new }
    ensures done { Carries pages.new [] tables }
    ensures still { edits.now ≡ [] → pages.new ≡ pages.old }
{
    for edit in edits.as_slice() {
        do_edit(pages, ledger, edit);
    }
}
