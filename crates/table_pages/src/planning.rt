//! The edit of a new table.

ghost use Rattle.std.specs.Prelude.{◌≡◌, ◌<◌, ◌∷◌, [], true, None, Some, IfOk, IfSome, MatchOption};
ghost use Rattle.std.specs.FinMap as finite;
ghost use Rattle.page_fmt.specs.Content.{IsPage};
ghost use Rattle.page_base.specs.declared.numbers.PageId.{PageId};
ghost use Rattle.plain_model.specs.Tables.{Tables, Add, applied};
ghost use Rattle.plain_model.specs.Sound.{is_definition};
ghost use Rattle.early_pages.specs.Shown.{img};
ghost use Rattle.early_pages.specs.Slots.{slots_of};
ghost use Rattle.table_pages.specs.Layout.{IsPacked};
ghost use Rattle.table_pages.specs.Carried.{data_pages, decoded, Carries, LacksPage, IsHeaderEdit};

use crate::Edit;
use crate::finding::{blank_page, place};
use crate::header::header;
use early_pages::SnapPages;
use page_base::{Columns, Name, NoMemory};
use page_dev::PageFile;
use std::alloc::Global;

/// The bytes that are left to a single slot behind a page's header and the slot's offset.
pub(crate) const LONGEST: usize = 8_094;

/// The edit that adds a table, on the first blank page. None exactly where no page is blank, or the name and the columns
/// are longer than a page.
pub fn plan_create<P: PageFile>(
    alloc: Global,
    pages: &SnapPages<P>,
    name: &Name,
    cols: &Columns,
) -> Result<Option<Edit>, NoMemory>
    requires few { data_pages pages.now < 4294967295 }
    requires pages { (p : PageId) → IsPage (img pages.now p) }
    requires packed { IsPacked (data_pages pages.now) (slots_of (img pages.now)) }
    requires definition { is_definition cols.now ≡ true }
    ensures none { IfOk result (λ edit. MatchOption edit (LacksPage pages.now name.now cols.now) (λ _. ¬ LacksPage pages.now name.now cols.now)) }
    ensures edit { IfOk result (λ edit. IfSome edit (IsHeaderEdit pages.now name.now cols.now)) }
    ensures some { IfOk result (λ edit. IfSome edit (λ e. (tables : Tables) → decoded pages.now ≡ Some tables →
        finite.get tables name.now ≡ None → Carries pages.now (e ∷ []) (applied (Add name.now cols.now) tables))) }
{
    let Some(i) = blank_page(pages) else {
        return Ok(None);
    };
    let bytes = header(alloc, name, cols.as_slice())?;
    if bytes.len() > LONGEST {
        return Ok(None);
    }
    Ok(Some(Edit {
        page: place(i),
        slot: 0,
        bytes,
    }))
}
