//! The rows that are inserted, a hundred a line.

ghost use Rattle.std.specs.Prelude.{◌≡◌, ◌+◌, ◌*◌, ◌<◌, ◌≤◌, ◌++◌, OnOk};
ghost use Rattle.load_gen.specs.Rows.{item_text, sale_text, draws_before, row_text, front_text, more_rows, line_text, lines_text};

use crate::draws::Draws;
use crate::writing::push_number;
use std::alloc::{AllocError, Global};

// The tables that are filled.
#[derive(Clone, Copy, Debug)]
pub(crate) enum Table {
    Item,
    Sale,
}

const LINES: u32 = 20;

const LINE_ROWS: u32 = 100;

fn push_item(
    alloc: Global,
    text: &mut Vec<u8>,
    id: u32,
    draws: &mut Draws,
) -> Result<(), AllocError>
    requires next { draws.old.taken + 1 ≡ id }
    ensures row { OnOk result (text.new.items ≡ text.old.items ++ item_text draws.old.seed id) }
    ensures seed { draws.new.seed ≡ draws.old.seed }
    ensures taken { draws.new.taken ≡ draws.old.taken + 1 }
{
    let stock = 100 + draws.next() % 900;
    text.extend_from_slice(b"(")?;
    push_number(alloc, text, u64::from(id))?;
    text.extend_from_slice(b",'item")?;
    push_number(alloc, text, u64::from(id))?;
    text.extend_from_slice(b"',")?;
    push_number(alloc, text, u64::from(stock))?;
    text.extend_from_slice(b")")
}

fn push_sale(
    alloc: Global,
    text: &mut Vec<u8>,
    id: u32,
    draws: &mut Draws,
) -> Result<(), AllocError>
    requires next { draws.old.taken + 1 ≡ 2000 + id }
    requires few { id ≤ 2000 }
    ensures row { OnOk result (text.new.items ≡ text.old.items ++ sale_text draws.old.seed id) }
    ensures seed { draws.new.seed ≡ draws.old.seed }
    ensures taken { draws.new.taken ≡ draws.old.taken + 1 }
{
    let quantity = 1 + draws.next() % 9;
    text.extend_from_slice(b"(")?;
    push_number(alloc, text, u64::from(id))?;
    text.extend_from_slice(b",")?;
    push_number(alloc, text, u64::from(2001 - id))?;
    text.extend_from_slice(b",")?;
    push_number(alloc, text, u64::from(quantity))?;
    text.extend_from_slice(b")")
}

fn push_row(
    alloc: Global,
    text: &mut Vec<u8>,
    table: Table,
    id: u32,
    draws: &mut Draws,
) -> Result<(), AllocError>
    requires next { draws.old.taken + 1 ≡ draws_before table + id }
    requires few { id ≤ 2000 }
    ensures row { OnOk result (text.new.items ≡ text.old.items ++ row_text table draws.old.seed id) }
    ensures seed { draws.new.seed ≡ draws.old.seed }
    ensures taken { draws.new.taken ≡ draws.old.taken + 1 }
{
    match table {
        Table::Item => push_item(alloc, text, id, draws),
        Table::Sale => push_sale(alloc, text, id, draws),
    }
}

// The rows behind the first of a line, from this one on.
fn push_more_rows(
    alloc: Global,
    text: &mut Vec<u8>,
    table: Table,
    first: u32,
    draws: &mut Draws,
) -> Result<(), AllocError>
    requires next { draws.old.taken + 1 ≡ draws_before table + first }
    requires few { first + 98 ≤ 2000 }
    ensures rows { OnOk result (text.new.items ≡ text.old.items ++ more_rows table draws.old.seed first 99) }
    ensures seed { draws.new.seed ≡ draws.old.seed }
    ensures taken { OnOk result (draws.new.taken ≡ draws.old.taken + 99) }
{
    for id in first..first + 99 {
        text.extend_from_slice(b",")?;
        push_row(alloc, text, table, id, draws)?;
    }
    Ok(())
}

fn front_of(table: Table) -> &'static [u8]
    ensures { result.now ≡ front_text table }
{
    match table {
        Table::Item => b"INSERT item VALUES ",
        Table::Sale => b"INSERT sale VALUES ",
    }
}

// The line of this number, from 0.
#[tactic(auto, unfolding(crate::specs::Rows::line_text))]
fn push_line(
    alloc: Global,
    text: &mut Vec<u8>,
    table: Table,
    line: u32,
    draws: &mut Draws,
) -> Result<(), AllocError>
    requires next { draws.old.taken ≡ draws_before table + 100 * line }
    requires few { line < 20 }
    ensures line { OnOk result (text.new.items ≡ text.old.items ++ line_text table draws.old.seed line) }
    ensures seed { draws.new.seed ≡ draws.old.seed }
    ensures taken { OnOk result (draws.new.taken ≡ draws.old.taken + 100) }
{
    let first = LINE_ROWS * line + 1;
    text.extend_from_slice(front_of(table))?;
    push_row(alloc, text, table, first, draws)?;
    push_more_rows(alloc, text, table, first + 1, draws)?;
    text.extend_from_slice(b"\n")
}

// All lines of a table.
pub(crate) fn push_lines(
    alloc: Global,
    text: &mut Vec<u8>,
    table: Table,
    draws: &mut Draws,
) -> Result<(), AllocError>
    requires { draws.old.taken ≡ draws_before table }
    ensures lines { OnOk result (text.new.items ≡ text.old.items ++ lines_text table draws.old.seed 20) }
    ensures seed { draws.new.seed ≡ draws.old.seed }
    ensures taken { OnOk result (draws.new.taken ≡ draws.old.taken + 2000) }
{
    for line in 0..LINES {
        push_line(alloc, text, table, line, draws)?;
    }
    Ok(())
}
