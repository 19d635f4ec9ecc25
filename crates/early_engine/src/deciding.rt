//! What a statement is answered, decided from the pages before anything changes.

ghost use Rattle.std.specs.Prelude.{◌≡◌, ◌<◌, ◌∷◌, [], ℕ, List, true, Some, All, IfOk};
ghost use Rattle.page_base.specs.declared.numbers.PageId.{PageId};
ghost use Rattle.page_fmt.specs.Content.{IsPage};
ghost use Rattle.plain_model.specs.declared.stmt.Stmt.{Stmt};
ghost use Rattle.plain_model.specs.declared.stmt.Stmt.TheVariants.{CreateTable};
ghost use Rattle.plain_model.specs.Journal.{Opening};
ghost use Rattle.plain_model.specs.Sound.{is_sound, is_definition};
ghost use Rattle.plain_model.specs.Statements.{table_named};
ghost use Rattle.plain_model.specs.Tables.{Table};
ghost use Rattle.row_fmt.specs.Rows.{FitsColumns};
ghost use Rattle.stmt_eval.specs.declared.effect.Verdict.TheVariants.{Does};
ghost use Rattle.stmt_eval.specs.Verdicts.{IsVerdict};
ghost use Rattle.std.specs.FinMap as finite;
ghost use Rattle.early_pages.specs.Shown.{img};
ghost use Rattle.early_pages.specs.Slots.{slots_of};
ghost use Rattle.table_pages.specs.Layout.{IsPacked, place};
ghost use Rattle.table_pages.specs.Carried.{data_pages, Holds};
ghost use Rattle.early_engine.specs.Ready.{Seen};
ghost use Rattle.early_engine.specs.Changing.{is_change};
ghost use Rattle.early_engine.specs.Deciding.{Setting, IsDecision};
ghost use Rattle.early_engine.specs.Seeing.{IsSelect};

use crate::answer::Answer;
use crate::decision::{Decision, only};
use crate::refusal::refused;
use crate::verdicts::verdict_on;
use early_pages::SnapPages;
use page_base::{Columns, Mode, Name, NoMemory};
use page_dev::PageFile;
use plain_model::{Message, Reply, Stmt};
use std::alloc::Global;
use stmt_eval::{Effect, Verdict};
use table_pages::{Edit, EditList, columns, find, place, plan_change, plan_create};

// A decision with one edit.
fn with_edit(alloc: Global, answer: Answer, edit: Edit) -> Result<Decision, NoMemory>
    ensures { IfOk result (λ d. d ≡ record { answer = answer; edits = edit ∷ [] }) }
{
    let mut edits = EditList::new(alloc);
    edits.push(edit)?;
    Ok(Decision { answer, edits })
}

// CREATE TABLE in the source, of columns that are a good definition
pub(crate) fn create_in_source<P: PageFile>(
    alloc: Global,
    pages: &SnapPages<P>,
    name: &Name,
    cols: &Columns,
) -> Result<Decision, NoMemory>
    requires few { data_pages pages.now < 4294967295 }
    requires pages { (p : PageId) → IsPage (img pages.now p) }
    requires packed { IsPacked (data_pages pages.now) (slots_of (img pages.now)) }
    requires definition { is_definition cols.now ≡ true }
    ensures { IfOk result (λ d. (opening : Opening) (seen : Seen) → Setting opening opening.source pages.now seen →
        IsDecision opening opening.source pages.now seen (CreateTable name.now cols.now) d) }
{
    if let Some(_page) = find(pages, name) {
        return Ok(only(
            alloc,
            Answer::UnderAll(Mode::X, refused(Message::TABLE_IS_THERE)),
        ));
    }
    match plan_create(alloc, pages, name, cols)? {
        Some(edit) => with_edit(alloc, Answer::UnderAll(Mode::X, Reply::Ok), edit),
        None => Ok(only(alloc, Answer::UnderAll(Mode::X, refused(Message::NO_ROOM)))),
    }
}

// SELECT in the source
pub(crate) fn select_in_source<P: PageFile>(
    alloc: Global,
    pages: &SnapPages<P>,
    stmt: &Stmt,
    name: &Name,
) -> Result<Decision, NoMemory>
    requires few { data_pages pages.now < 4294967295 }
    requires pages { (p : PageId) → IsPage (img pages.now p) }
    requires packed { IsPacked (data_pages pages.now) (slots_of (img pages.now)) }
    requires select { IsSelect stmt.now name.now }
    ensures { IfOk result (λ d. (opening : Opening) (seen : Seen) → Setting opening opening.source pages.now seen →
        IsDecision opening opening.source pages.now seen stmt.now d) }
{
    let Some(i) = find(pages, name) else {
        return Ok(only(alloc, Answer::UnderAll(Mode::S, refused(Message::NO_TABLE))));
    };
    let answer = match verdict_on(alloc, pages.image(place(i)), stmt)? {
        Verdict::Refused(message) => Answer::UnderAll(Mode::S, Reply::Msg(message)),
        Verdict::Does(effect) => Answer::UnderTable(*name, Mode::S, effect.reply),
    };
    Ok(only(alloc, answer))
}

// The rows of the table of page `i` are changed so
fn change_rows<P: PageFile>(
    alloc: Global,
    pages: &SnapPages<P>,
    i: u32,
    name: Name,
    effect: Effect,
) -> Result<Decision, NoMemory>
    requires few { data_pages pages.now < 4294967295 }
    requires there { i < data_pages pages.now }
    requires pages { (p : PageId) → IsPage (img pages.now p) }
    requires packed { IsPacked (data_pages pages.now) (slots_of (img pages.now)) }
    ensures { IfOk result (λ d. (opening : Opening) (seen : Seen) (stmt : Stmt) (t : Table) → Setting opening opening.source pages.now seen →
        is_change stmt ≡ true → table_named stmt ≡ name → Holds (img pages.now (place i)) name t → finite.get seen.source name ≡ Some t →
        IsVerdict stmt t (Does effect) → All (FitsColumns t.cols) effect.puts →
        IsDecision opening opening.source pages.now seen stmt d) }
{
    let cols = columns(alloc, pages.image(place(i)))?;
    match plan_change(alloc, pages, i, &cols, &effect.puts, &effect.cuts)? {
        Some(edits) => Ok(Decision {
            answer: Answer::UnderTable(name, Mode::X, effect.reply),
            edits,
        }),
        None => Ok(only(
            alloc,
            Answer::UnderTable(name, Mode::X, refused(Message::NO_ROOM)),
        )),
    }
}

// INSERT, UPDATE or DELETE in the source
pub(crate) fn change_in_source<P: PageFile>(
    alloc: Global,
    pages: &SnapPages<P>,
    stmt: &Stmt,
    name: &Name,
) -> Result<Decision, NoMemory>
    requires few { data_pages pages.now < 4294967295 }
    requires pages { (p : PageId) → IsPage (img pages.now p) }
    requires packed { IsPacked (data_pages pages.now) (slots_of (img pages.now)) }
    requires change { is_change stmt.now ≡ true }
    requires named { table_named stmt.now ≡ name.now }
    requires sound { is_sound stmt.now ≡ true }
    ensures { IfOk result (λ d. (opening : Opening) (seen : Seen) → Setting opening opening.source pages.now seen →
        IsDecision opening opening.source pages.now seen stmt.now d) }
{
    let Some(i) = find(pages, name) else {
        return Ok(only(alloc, Answer::UnderAll(Mode::S, refused(Message::NO_TABLE))));
    };
    match verdict_on(alloc, pages.image(place(i)), stmt)? {
        Verdict::Refused(message) => Ok(only(
            alloc,
            Answer::UnderAll(Mode::S, Reply::Msg(message)),
        )),
        Verdict::Does(effect) => change_rows(alloc, pages, i, *name, effect),
    }
}
