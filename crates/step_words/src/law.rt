//! What a statement still writes, as functions whose contracts say it.

ghost use Rattle.std.specs.Prelude.{◌≡◌, ◌≤◌, ℕ, List, [], ◌∷◌, ◌++◌, length, drop};
ghost use Rattle.page_base.specs.declared.numbers.PageId.{PageId};
ghost use Rattle.page_tables.specs.Writes.{claim};
ghost use Rattle.step_words.specs.Courses.{Course, Draft};
ghost use Rattle.step_words.specs.Coming.{coming, draft_write};

/// With a page claimed, or an edit done, one write less is to come.
pub fn what_comes_moves_by_one()
    ensures claim { (c : Course) (number : ℕ) (numbers : List ℕ) (p : PageId) (claimed : ℕ → PageId) → drop (length c.taken) c.owners ≡ number ∷ numbers → claimed (length c.taken) ≡ p → coming c claimed ≡ claim number p ∷ coming (record c { taken = c.taken ++ p ∷ [] }) claimed }
    ensures edit { (c : Course) (draft : Draft) (drafts : List Draft) (claimed : ℕ → PageId) → length c.owners ≤ length c.taken → c.edits ≡ draft ∷ drafts → coming c claimed ≡ draft_write claimed draft ∷ coming (record c { edits = drafts }) claimed }
{}
