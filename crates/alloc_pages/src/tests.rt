//! Slots of pages at the ends, and the first free page of a full page and of fuller ones.

ghost use Rattle.page_fmt.specs.Content.{IsPage};

use crate::{alloc_of, first_free, owner, owner_bytes, page_of};
use page_base::{Image, PageId};
use page_fmt::put_slot;
use std::test::Fail;

#[test]
fn pages_have_their_slots(rt: HostRuntime) {
    for (number, page, slot) in [
        (0, 0, 0),
        (1_279, 0, 1_279),
        (1_280, 1_280, 0),
        (1_281, 1_280, 1),
        (32_767, 32_000, 767),
        (130_559, 129_280, 1_279),
        (130_560, 130_560, 0),
        (131_071, 130_560, 511),
    ] {
        let spot = alloc_of(PageId {
            file: 3,
            page: number,
        });
        assert_eq!(rt; spot.page, PageId { file: 3, page }, "{number}");
        assert_eq!(rt; spot.slot, slot, "{number}");
        assert_eq!(rt; page_of(spot.page, spot.slot).page, number);
    }
}

// Whether a slot of a page was given an owner.
fn is_set(image: &mut Image, slot: u16, owner: u32) -> bool
    requires { IsPage image.old }
    ensures { IsPage image.new }
{
    slot < 1_280 && put_slot(image, slot, &owner_bytes(owner)).is_ok()
}

#[test]
#[tactic(auto, using(page_fmt::proofs::CallerLemmas::blank_page))]
fn free_pages_are_found(rt: HostRuntime) -> Result<(), Fail> {
    assert_eq!(rt; owner_bytes(0x0102_0304), [4, 3, 2, 1]);
    let mut image = Image::blank(rt.alloc())?;
    assert_eq!(rt; first_free(&image), None);
    for slot in 0..1_280 {
        assert!(rt; is_set(&mut image, slot, 7));
    }
    assert_eq!(rt; first_free(&image), None);
    assert_eq!(rt; (owner(&image, 5), owner(&image, 1_280)), (7, u32::MAX));
    assert!(rt; is_set(&mut image, 1_279, 0));
    assert_eq!(rt; first_free(&image), Some(1_279));
    assert!(rt; is_set(&mut image, 0, 0));
    assert_eq!(rt; first_free(&image), Some(0));
    Ok(())
}
