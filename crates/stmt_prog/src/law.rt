//! What a program's need tells of its stage, as a function whose contract says it.

ghost use Rattle.std.specs.Prelude.{◌≡◌, ℕ, Bool, true};
ghost use Rattle.page_base.specs.declared.numbers.Mode.{Mode};
ghost use Rattle.page_base.specs.declared.numbers.PageId.{PageId};
ghost use Rattle.page_base.specs.declared.numbers.TableNo.{TableNo};
ghost use Rattle.plain_model.specs.declared.event.LockName.{LockName};
ghost use Rattle.step_words.specs.declared.stage.Stage.TheVariants as stages;
ghost use Rattle.step_words.specs.Courses.{Course};
ghost use Rattle.stmt_course.specs.Keeping.{IsCourse};
ghost use Rattle.stmt_prog.specs.declared.need.Need.TheVariants as needs;
ghost use Rattle.stmt_prog.specs.Feeding.{asks, reads};
ghost use Rattle.stmt_prog.specs.Needs.{need_of};

/// What is needed tells which call may come.
pub fn needs_tell_the_stage()
    ensures lock { (c : Course) (table : LockName) (number : TableNo) (mode : Mode) → need_of c ≡ needs.Lock table number mode → asks c.stage ≡ true }
    ensures visit { (c : Course) (page : PageId) (rows : Bool) → need_of c ≡ needs.Visit page rows → reads c.stage ≡ true }
    ensures plan { (c : Course) → need_of c ≡ needs.Plan → c.stage ≡ stages.Plan }
    ensures claim { (c : Course) (owner : ℕ) → need_of c ≡ needs.Claim owner → c.stage ≡ stages.Claim }
    ensures edit { (c : Course) (page : PageId) → need_of c ≡ needs.Edit page → c.stage ≡ stages.Edit }
    ensures finish { (c : Course) → IsCourse c → need_of c ≡ needs.Finish → c.stage ≡ stages.End }
{}
