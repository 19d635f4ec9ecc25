//! In which order pages are edited: as they are first used, each once.

ghost use Rattle.std.specs.Prelude.{IfOk, OnOk};
ghost use Rattle.table_heap.specs.Growth.{IsNumbering};
ghost use Rattle.table_heap.specs.Turns.{Marks, MarksToo};

use page_base::NoMemory;
use std::alloc::Global;

// Puts a number into its turn, unless it has had one.
fn add_once(i: usize, marked: &mut [bool], order: &mut Vec<usize>) -> Result<(), NoMemory>
    requires { Marks marked.old order.old.items }
    ensures marks { OnOk result (Marks marked.new order.new.items) }
    ensures too { OnOk result (MarksToo i marked.old marked.new) }
{
    if i >= marked.len() {
        return Ok(());
    }
    if marked[i] {
        return Ok(());
    }
    order.push(i)?;
    marked[i] = true;
    Ok(())
}

/// The numbers below `count`, each once: first those that are wanted, in this order, and then the others.
pub(crate) fn in_turn(alloc: Global, wanted: &[usize], count: usize) -> Result<Vec<usize>, NoMemory>
    ensures { IfOk result (λ order. IsNumbering count order.items) }
{
    let mut marked = vec![in alloc; false; count]?;
    let mut order = Vec::new(alloc);
    for i in wanted {
        add_once(*i, &mut marked, &mut order)?;
    }
    for i in 0..count {
        add_once(i, &mut marked, &mut order)?;
    }
    Ok(order)
}

// The root page that names the new leaf of this number, counted from the one that was the last and had so much room.
fn root_of(new: usize, room: usize) -> usize {
    if new < room {
        return 0;
    }
    1 + (new - room) / 1000
}

/// The pages in the order in which they are used: leaves by their numbers, of which so many were there, and root pages
/// behind them. Behind a new leaf stands the root page that names it, and then the one before that.
pub(crate) fn uses(
    alloc: Global,
    changed: &[usize],
    old: usize,
    leaves: usize,
    room: usize,
) -> Result<Vec<usize>, NoMemory> {
    let mut uses = Vec::new(alloc);
    for leaf in changed {
        uses.push(*leaf)?;
        if *leaf < old {
            continue;
        }
        let root = root_of(*leaf - old, room);
        uses.push(leaves.saturating_add(root))?;
        uses.push(leaves.saturating_add(root.saturating_sub(1)))?;
    }
    Ok(uses)
}
