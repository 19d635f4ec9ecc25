//! The script of a load, session by session.

ghost use Rattle.std.specs.Prelude.{◌≡◌, ◌+◌, ◌<◌, ◌++◌, OnOk, IfOk};
ghost use Rattle.load_gen.specs.Script.{fill_text, update_text, updates_text, sales_text, end_text, gen_text};

use crate::draws::Draws;
use crate::parts::{
    loss_text, reading_text, revert_text, sales_front, snapshot_text, tables_text, update_front,
};
use crate::table::{Table, push_lines};
use crate::writing::push_number;
use page_base::{Bytes, NoMemory};
use std::alloc::{AllocError, Global};

const UPDATES: u32 = 50;

fn push_fill(alloc: Global, text: &mut Vec<u8>, draws: &mut Draws) -> Result<(), AllocError>
    requires { draws.old.taken ≡ 0 }
    ensures text { OnOk result (text.new.items ≡ text.old.items ++ fill_text draws.old.seed) }
    ensures seed { draws.new.seed ≡ draws.old.seed }
    ensures taken { OnOk result (draws.new.taken ≡ 4000) }
{
    push_lines(alloc, text, Table::Item, draws)?;
    push_lines(alloc, text, Table::Sale, draws)
}

// The update of this number, from 1.
fn push_update(
    alloc: Global,
    text: &mut Vec<u8>,
    number: u32,
    draws: &mut Draws,
) -> Result<(), AllocError>
    requires next { draws.old.taken + 1 ≡ 4000 + number }
    requires few { number < 51 }
    ensures line { OnOk result (text.new.items ≡ text.old.items ++ update_text draws.old.seed number) }
    ensures seed { draws.new.seed ≡ draws.old.seed }
    ensures taken { draws.new.taken ≡ draws.old.taken + 1 }
{
    let id = 1 + draws.next() % 2000;
    text.extend_from_slice(update_front())?;
    push_number(alloc, text, u64::from(id))?;
    text.extend_from_slice(b"\n")
}

fn push_updates(alloc: Global, text: &mut Vec<u8>, draws: &mut Draws) -> Result<(), AllocError>
    requires { draws.old.taken ≡ 4000 }
    ensures { OnOk result (text.new.items ≡ text.old.items ++ updates_text draws.old.seed 50) }
{
    for number in 1..UPDATES + 1 {
        push_update(alloc, text, number, draws)?;
    }
    Ok(())
}

fn push_sales(alloc: Global, text: &mut Vec<u8>, draws: &mut Draws) -> Result<(), AllocError>
    requires { draws.old.taken ≡ 4000 }
    ensures { OnOk result (text.new.items ≡ text.old.items ++ sales_text draws.old.seed) }
{
    text.extend_from_slice(sales_front())?;
    push_updates(alloc, text, draws)
}

// Sessions 4 to 6.
fn push_end(text: &mut Vec<u8>) -> Result<(), AllocError>
    ensures { OnOk result (text.new.items ≡ text.old.items ++ end_text) }
{
    text.extend_from_slice(loss_text())?;
    text.extend_from_slice(reading_text())?;
    text.extend_from_slice(revert_text())
}

/// The script of a number, for a source `shop` with the one data file `shop_data` of at least 64 pages: two tables are
/// filled, a snapshot is made, rows are changed and lost, and the source goes back to the snapshot.
pub fn gen_script(alloc: Global, number: u32) -> Result<Bytes, NoMemory>
    requires { number < 2147483648 }
    ensures { IfOk result (λ text. text ≡ gen_text number) }
{
    let mut text = Vec::new(alloc);
    let mut draws = Draws::new(number);
    text.extend_from_slice(tables_text())?;
    push_fill(alloc, &mut text, &mut draws)?;
    text.extend_from_slice(snapshot_text())?;
    push_sales(alloc, &mut text, &mut draws)?;
    push_end(&mut text)?;
    Ok(Bytes::from(text))
}
