//! Which page holds which table: the pages behind page 0 of the first file, one after the other up to the first blank one.

ghost use Rattle.std.specs.Prelude.{◌≡◌, ◌<◌, None, Some, IfSome, IfNone, MatchOption};
ghost use Rattle.std.specs.FinMap as finite;
ghost use Rattle.plain_model.specs.Tables.{Table, Tables};
ghost use Rattle.early_pages.specs.Shown.{img};
ghost use Rattle.early_pages.specs.Slots.{slots_of};
ghost use Rattle.table_pages.specs.Layout.{place, IsPacked};
ghost use Rattle.table_pages.specs.Carried.{data_pages, decoded, Holds, IsFull, IsFirstBlank};

use crate::page::{is_blank, is_named};
use early_pages::SnapPages;
use page_base::{Image, Name, PageId};
use page_dev::PageFile;

/// The page of table `i`, from 0.
pub fn place(i: u32) -> PageId
    requires { i < 4294967295 }
    ensures { result ≡ place i }
{
    PageId {
        file: 0,
        page: i + 1,
    }
}

/// How many pages can hold a table: those of the first file behind page 0.
pub fn data_pages<P: PageFile>(pages: &SnapPages<P>) -> u32
    requires { data_pages pages.now < 4294967295 }
    ensures { result ≡ data_pages pages.now }
{
    pages.pages(0).saturating_sub(1) as u32
}

// The image of the page of table `i`.
pub(crate) fn image<P: PageFile>(pages: &SnapPages<P>, i: u32) -> &Image
    requires few { data_pages pages.now < 4294967295 }
    requires there { i < data_pages pages.now }
    ensures { result.now ≡ img pages.now (place i) }
{
    pages.image(place(i))
}

/// The page of the table of this name. Takes no memory.
pub fn find<P: PageFile>(pages: &SnapPages<P>, name: &Name) -> Option<u32>
    requires few { data_pages pages.now < 4294967295 }
    requires packed { IsPacked (data_pages pages.now) (slots_of (img pages.now)) }
    ensures within { IfSome result (λ i. i < data_pages pages.now) }
    ensures found { IfSome result (λ i. (tables : Tables) → decoded pages.now ≡ Some tables →
        (t : Table) × Holds (img pages.now (place i)) name.now t × (finite.get tables name.now ≡ Some t)) }
    ensures none { IfNone result ((tables : Tables) → decoded pages.now ≡ Some tables → finite.get tables name.now ≡ None) }
{
    for i in 0..data_pages(pages) {
        let image = image(pages, i);
        if is_blank(image) {
            return None;
        }
        if is_named(image, name) {
            return Some(i);
        }
    }
    None
}

// The first page that is blank.
pub(crate) fn blank_page<P: PageFile>(pages: &SnapPages<P>) -> Option<u32>
    requires { data_pages pages.now < 4294967295 }
    ensures { MatchOption result (IsFull pages.now) (IsFirstBlank pages.now) }
{
    for i in 0..data_pages(pages) {
        if is_blank(image(pages, i)) {
            return Some(i);
        }
    }
    None
}
