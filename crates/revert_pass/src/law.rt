//! What is gathered stays held, page by page.

ghost use Rattle.std.specs.Prelude.{◌≡◌, [], ℕ, false};
ghost use Rattle.page_base.specs.declared.numbers.PageId.{PageId};
ghost use Rattle.page_base.specs.declared.numbers.SnapNo.{SnapNo};
ghost use Rattle.buf_pool.specs.Pool.{with_pin};
ghost use Rattle.snap_pages.specs.Shown.{Shown, pins};
ghost use Rattle.snap_pages.specs.Dues.{IsPushed};
ghost use Rattle.revert_pass.specs.Got.{Got, AreGotPushed, AreHeld, has, ungathered};
ghost use Rattle.revert_pass.specs.Gathers.{Adds};

/// Where nothing is gathered nothing need be held; and a page more that was gathered is held as the others are. No
/// snapshot lacks one of them where none lacks one of the others, nor the page that came.
pub fn gathered_pages_are_held()
    ensures none { (v : Shown) → AreHeld [] v × AreGotPushed [] v }
    ensures more { (s : SnapNo) (p : PageId) (old new : Shown) (got more : Got) → Adds s p old got more → pins new ≡ with_pin (pins old) p → AreHeld got old → AreHeld more new }
    ensures pins { (s : SnapNo) (p : PageId) (old : Shown) (got more : Got) (f : PageId → ℕ) → Adds s p old got more → has got p ≡ false → ungathered more (with_pin f p) ≡ ungathered got f }
    ensures pushed { (s : SnapNo) (p : PageId) (old new : Shown) (got more : Got) → Adds s p old got more → AreGotPushed got new → IsPushed new p → AreGotPushed more new }
{}
