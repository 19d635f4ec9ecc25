//! The edits that cut keys from a table and put rows into it.

ghost use Rattle.std.specs.Prelude.{◌≡◌, ◌<◌, ℕ, List, All, IfOk, MatchOption};
ghost use Rattle.page_base.specs.declared.numbers.PageId.{PageId};
ghost use Rattle.page_fmt.specs.Content.{content, IsPage};
ghost use Rattle.row_fmt.specs.Rows.{FitsColumns};
ghost use Rattle.plain_model.specs.Tables.{Table};
ghost use Rattle.early_pages.specs.Shown.{img};
ghost use Rattle.early_pages.specs.Slots.{slots_of};
ghost use Rattle.table_pages.specs.Layout.{place, IsPacked};
ghost use Rattle.table_pages.specs.Drafts.{LacksRoom};
ghost use Rattle.table_pages.specs.Plans.{Plans};
ghost use Rattle.table_pages.specs.Carried.{data_pages, Holds};

use crate::EditList;
use crate::differing::differences;
use crate::draft::drafted;
use crate::finding::{image, place};
use early_pages::SnapPages;
use page_base::{Columns, NoMemory, RowList};
use page_dev::PageFile;
use std::alloc::Global;

/// The edits that cut keys from the table of page `i`, which has these columns, and then put rows into it, one at a time
/// in the order given: a row whose key is there takes that row's slot, another one the first empty slot. At most one
/// edit changes a slot, those that don't grow a slot come first, and each fits in its turn. None exactly where a row
/// finds no room in its turn. The columns may hold each of the rows; any answer where they may not, or where the page
/// holds no table of these columns.
pub fn plan_change<P: PageFile>(
    alloc: Global,
    pages: &SnapPages<P>,
    i: u32,
    cols: &Columns,
    put: &RowList,
    cut: &RowList,
) -> Result<Option<EditList>, NoMemory>
    requires few { data_pages pages.now < 4294967295 }
    requires there { i < data_pages pages.now }
    requires pages { (p : PageId) → IsPage (img pages.now p) }
    requires packed { IsPacked (data_pages pages.now) (slots_of (img pages.now)) }
    ensures { IfOk result (λ plan. (name : List ℕ) (t : Table) → Holds (img pages.now (place i)) name t → cols.now ≡ t.cols → All (FitsColumns t.cols) put.now →
        MatchOption plan (LacksRoom t.cols cut.now put.now (content (img pages.now (place i))))
        (λ edits. Plans pages.now i name t cut.now put.now edits × ¬ LacksRoom t.cols cut.now put.now (content (img pages.now (place i))))) }
{
    let image = image(pages, i);
    let Some(draft) = drafted(alloc, image, cols, put, cut)? else {
        return Ok(None);
    };
    let edits = differences(alloc, place(i), image, &draft)?;
    Ok(Some(edits))
}
