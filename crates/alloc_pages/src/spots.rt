//! Where the owner of a page stands.

ghost use Rattle.std.specs.Prelude.{◌≡◌, ◌+◌, ◌%◌, ◌^◌, ◌<◌};
ghost use Rattle.alloc_pages.specs.Spots.{IsSpotOf, spot_of};

use page_base::PageId;

/// How many pages one allocation page tells of, itself the first; their slots take 7,680 of its bytes.
const PAGES: u32 = 1_280;

/// A slot of an allocation page.
#[derive(Clone, Copy, Debug, PartialEq, Eq)]
pub struct AllocSpot {
    pub page: PageId,
    pub slot: u16,
}

/// The slot that holds the owner of a page, on one of the pages 0, 1280, 2560 and so on of its file.
pub fn alloc_of(p: PageId) -> AllocSpot
    ensures is { result ≡ spot_of p }
    ensures spot { IsSpotOf p result }
{
    let slot = p.page % PAGES;
    AllocSpot {
        page: PageId {
            file: p.file,
            page: p.page - slot,
        },
        slot: slot as u16,
    }
}

/// The page whose owner a slot holds, on one of the pages 0, 1280, 2560 and so on of its file.
#[tactic(auto, using(crate::proofs::OwnerLemmas::page_at_spot))]
pub fn page_of(page: PageId, slot: u16) -> PageId
    requires every { page.page % 1280 ≡ 0 }
    requires within { slot < 1280 }
    requires small { page.page + slot < 2 ^ 32 }
    ensures { spot_of result ≡ record { page = page; slot = slot } }
{
    PageId {
        file: page.file,
        page: page.page + u32::from(slot),
    }
}
