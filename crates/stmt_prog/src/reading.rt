//! What pages that were read tell: the statement's table, and what the statement comes to over its rows.

ghost use Rattle.std.specs.Prelude.{◌≡◌, ◌<◌, ◌≤◌, ◌^◌, true, false, ℕ, Some, None, IfOk, IfErr, Option};
ghost use Rattle.page_fmt.specs.Seen.{Shows};
ghost use Rattle.plain_model.specs.Meaning.{shape};
ghost use Rattle.plain_model.specs.Messages.{plain};
ghost use Rattle.plain_model.specs.Free.{is_of_tables};
ghost use Rattle.plain_model.specs.Statements.{shape_over, is_of_rows, table_named};
ghost use Rattle.plain_model.specs.Tables.{Table};
ghost use Rattle.sys_cat.specs.Lists.{AreDescs, has_number};
ghost use Rattle.sys_cat.specs.Rows.{zero_root};
ghost use Rattle.sys_cat.specs.declared.desc.TableDesc.{TableDesc};
ghost use Rattle.table_walk.specs.Walk.{IsDone};
ghost use Rattle.page_tables.specs.Layout as layout;
ghost use Rattle.stmt_course.specs.Keeping.{IsTableOf};
ghost use Rattle.stmt_course.specs.Knowing.{desc_named, IsFound};
ghost use Rattle.stmt_eval.specs.Verdicts.{IsEffect};
ghost use Rattle.stmt_prog.specs.Heads.{creates};
ghost use Rattle.stmt_prog.specs.Reading.{HasCols, OfBases, OfRows};
ghost use Rattle.stmt_prog.specs.Refusing.{IfSaid};

use crate::head::drops;
use crate::layout::rows;
use crate::refusal::Refusal;
use page_base::{Name, NoMemory, TableNo};
use page_fmt::Seen;
use plain_model::{Carried, Message, Stmt};
use std::alloc::Global;
use stmt_eval::{Effect, effect_of, shape_of};
use sys_cat::{DescList, TableDesc, descs, next_number, root, zero_columns};
use table_walk::Find;

/// The tables that table 0 tells of, which was read whole.
pub(crate) fn tables_read(alloc: Global, zero: &Seen) -> Result<DescList, Refusal>
    requires { IsDone layout.shape.kids zero.now (layout.first zero_root) }
    ensures sound { IfOk result AreDescs }
    ensures are { IfOk result (λ read. OfBases zero.now (λ ds tables. read ≡ ds)) }
    ensures damaged { IfErr result (IfSaid (λ m. OfBases zero.now (λ ds tables. ⊥))) }
{
    let cols = zero_columns(alloc)?;
    let list = rows(alloc, root(), &cols, &Find::All, zero)?;
    if list.len() >= 4_294_967_295 {
        return Err(Refusal::Memory);
    }
    Ok(descs(alloc, &list)?)
}

// A description once more.
fn copy_of(alloc: Global, desc: &TableDesc) -> Result<TableDesc, NoMemory>
    ensures { IfOk result (λ d. d ≡ desc.now) }
{
    Ok(TableDesc {
        name: desc.name,
        number: desc.number,
        root: desc.root,
        cols: desc.cols.copy(alloc)?,
    })
}

// The table of a name, if there is one.
fn named(alloc: Global, descs: &[TableDesc], name: &Name) -> Result<Option<TableDesc>, NoMemory>
    ensures { IfOk result (λ d. d ≡ desc_named descs.now name.now) }
{
    match descs {
        [] => Ok(None),
        [desc, descs @ ..] => {
            if desc.name.is_same(name) {
                return Ok(Some(copy_of(alloc, desc)?));
            }
            named(alloc, descs, name)
        }
    }
}

// A refusal by its number.
fn refused(number: u32) -> Refusal
    ensures { result ≡ Refusal.Refused (plain number) }
{
    Refusal::Refused(Message {
        number,
        carried: Carried::Nothing,
    })
}

// The table, where it is there and the statement suits its columns.
fn suited(alloc: Global, stmt: &Stmt, desc: Option<TableDesc>) -> Result<TableDesc, Refusal>
    requires tables { is_of_tables stmt.now ≡ true }
    requires there { creates stmt.now ≡ false }
    ensures is { IfOk result (λ d. desc ≡ Some d) }
    ensures shaped { IfOk result (λ d. (o : Option Table) → HasCols desc o → shape_over stmt.now o ≡ None) }
    ensures refused { IfErr result (IfSaid (λ m. (o : Option Table) → HasCols desc o → shape_over stmt.now o ≡ Some m)) }
{
    let Some(desc) = desc else {
        return Err(refused(Message::NO_TABLE));
    };
    if drops(stmt) {
        return Ok(desc);
    }
    match shape_of(alloc, stmt, &desc.cols)? {
        Some(message) => Err(Refusal::Refused(message)),
        None => Ok(desc),
    }
}

/// The statement's table by what was read of table 0, the whole of it; or the refusal by the statement's shape.
pub(crate) fn found(
    alloc: Global,
    stmt: &Stmt,
    name: &Name,
    zero: &Seen,
) -> Result<TableDesc, Refusal>
    requires done { IsDone layout.shape.kids zero.now (layout.first zero_root) }
    requires tables { is_of_tables stmt.now ≡ true }
    requires there { creates stmt.now ≡ false }
    requires name { name.now ≡ table_named stmt.now }
    ensures table { IfOk result (IsTableOf stmt.now) }
    ensures found { IfOk result (λ d. OfBases zero.now (λ ds tables. IsFound ds tables stmt.now (Some d))) }
    ensures refused { IfErr result (IfSaid (λ m. OfBases zero.now (λ ds tables. shape stmt.now tables ≡ Some m))) }
{
    let descs = tables_read(alloc, zero)?;
    let desc = named(alloc, descs.as_slice(), name)?;
    suited(alloc, stmt, desc)
}

// A number that no table has.
fn number_for(descs: &DescList) -> Result<TableNo, NoMemory>
    requires { AreDescs descs.now }
    ensures some { IfOk result (λ n. 1 ≤ n.0) }
    ensures small { IfOk result (λ n. n.0 < 2 ^ 31) }
    ensures new { IfOk result (λ n. has_number descs.now n.0 ≡ false) }
{
    let number = next_number(descs);
    if number.0 >= 2_147_483_648 {
        return Err(NoMemory);
    }
    Ok(number)
}

/// The number of the table that the statement makes, by what was read of table 0, the whole of it; or the refusal where there is
/// a table of its name.
pub(crate) fn lacking(
    alloc: Global,
    stmt: &Stmt,
    name: &Name,
    zero: &Seen,
) -> Result<TableNo, Refusal>
    requires done { IsDone layout.shape.kids zero.now (layout.first zero_root) }
    requires creates { creates stmt.now ≡ true }
    requires name { name.now ≡ table_named stmt.now }
    ensures some { IfOk result (λ n. 1 ≤ n.0) }
    ensures small { IfOk result (λ n. n.0 < 2 ^ 31) }
    ensures found { IfOk result (λ n. OfBases zero.now (λ ds tables. IsFound ds tables stmt.now None)) }
    ensures new { IfOk result (λ n. OfBases zero.now (λ ds tables. has_number ds n.0 ≡ false)) }
    ensures refused { IfErr result (IfSaid (λ m. OfBases zero.now (λ ds tables. shape stmt.now tables ≡ Some m))) }
{
    let descs = tables_read(alloc, zero)?;
    match named(alloc, descs.as_slice(), name)? {
        Some(_) => Err(refused(Message::TABLE_IS_THERE)),
        None => Ok(number_for(&descs)?),
    }
}

/// What a statement about rows does to its table, of which all pages were read.
pub(crate) fn effect(
    alloc: Global,
    stmt: &Stmt,
    desc: &TableDesc,
    own: &Seen,
) -> Result<Effect, Refusal>
    requires done { IsDone layout.shape.kids own.now (layout.first desc.now.root) }
    requires rows { is_of_rows stmt.now ≡ true }
    ensures is { IfOk result (λ e. OfRows desc.now.cols desc.now.root own.now (λ rows. IsEffect stmt.now (record { cols = desc.now.cols; rows = rows }) e)) }
    ensures damaged { IfErr result (IfSaid (λ m. OfRows desc.now.cols desc.now.root own.now (λ rows. ⊥))) }
{
    let list = rows(alloc, desc.root, &desc.cols, &Find::All, own)?;
    Ok(effect_of(alloc, stmt, &desc.cols, &list)?)
}
