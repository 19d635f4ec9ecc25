//! What the edits of drafted pages do, as functions whose contracts say it.

ghost use Rattle.std.specs.Prelude.{◌≡◌, ℕ, Bool, List, true};
ghost use Rattle.std.specs.List.{All, Any};
ghost use Rattle.page_base.specs.declared.numbers.PageId.{PageId};
ghost use Rattle.page_fmt.specs.Seen.{SlotsAt, Looked};
ghost use Rattle.table_walk.specs.Plans.{IsBelow};
ghost use Rattle.page_draft.specs.Drafts.{Drafted, edits_in};
ghost use Rattle.page_draft.specs.Made.{HaveRoom, Stand, Make, SpeaksBelow};

/// Where the pages stand as they were read, the edits go in turn and make the pages as they were drafted; whatever stands there, they speak of
/// claimed pages that the drafts speak of.
pub fn drafts_are_made()
    ensures made { (claimed : ℕ → PageId) (n : ℕ) (at : SlotsAt) (owns : PageId → Bool) (seen : List Looked) (ds : List Drafted) → HaveRoom seen ds → Stand claimed n at owns seen ds → Make claimed n at owns ds (edits_in seen ds) }
    ensures below { (n : ℕ) (seen : List Looked) (ds : List Drafted) → All (SpeaksBelow n) ds → All (IsBelow n) (edits_in seen ds) }
    ensures rows { (seen : List Looked) (ds : List Drafted) → All (λ e. e.of_row ≡ true → Any (λ d. (d.spot ≡ e.spot) × (d.rows ≡ true)) ds) (edits_in seen ds) }
{}
