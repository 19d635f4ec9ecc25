//! A drafted page: what its slots are to hold, where the address of a page that isn't claimed yet may stand.

ghost use Rattle.std.specs.Prelude.{◌≡◌, true, false, IfSome, IfNone, ◌&&◌};
ghost use Rattle.page_draft.specs.Drafts.{extra, is_within, fits_in, is_full, ends_full};

use page_base::Bytes;
use std::marker::Model;
use table_walk::Spot;

// The most bytes that a page has for slots, of which each takes two beside its own.
const ROOM: usize = 8096;

/// What a slot is to hold: the address of the claimed page that `names` counts, where it counts one, and then `bytes`.
#[derive(Debug, Drop)]
pub struct Cell {
    pub names: Option<u32>,
    pub bytes: Bytes,
}

/// A page that is there or will be claimed, whether it holds rows, and what its slots are to hold: a page has room for them, and
/// the last one isn't empty.
#[derive(Drop)]
pub struct Page {
    pub(crate) spot: Spot,
    pub(crate) rows: bool,
    pub(crate) cells: Vec<Cell>,
}

impl Model for Page {
    ghost use Rattle.std.specs.Prelude.{◌≡◌, true};
    ghost use Rattle.page_draft.specs.Drafts.{Drafted, fits_in, ends_full};

    ghost Value = { Drafted };

    ghost view = { λ a. record { spot = a.spot; rows = a.rows; cells = a.cells.items } };

    ghost invariant = { λ a. (fits_in 8096 a.cells.items ≡ true) × (ends_full a.cells.items ≡ true) };
}

// How many bytes a slot takes beside those of its cell.
fn extra(names: Option<u32>) -> usize
    ensures { result ≡ extra names }
{
    match names {
        Some(_) => 7,
        None => 2,
    }
}

// Whether a cell fits into so much room.
fn is_within(cell: &Cell, left: usize) -> bool
    ensures { result ≡ is_within cell.now left }
{
    let extra = extra(cell.names);
    extra <= left && cell.bytes.len() <= left - extra
}

// Whether all cells do.
fn fit(cells: &[Cell]) -> bool
    ensures { result ≡ fits_in 8096 cells.now }
{
    let mut left = ROOM;
    for cell in cells {
        if !is_within(cell, left) {
            return false;
        }
        left = left - extra(cell.names) - cell.bytes.len();
    }
    true
}

// Whether a slot isn't empty.
fn is_full(cell: &Cell) -> bool
    ensures { result ≡ is_full cell.now }
{
    match cell.names {
        Some(_) => true,
        None => cell.bytes.len() != 0,
    }
}

// Whether the last slot isn't empty.
fn ends_full(cells: &[Cell]) -> bool
    ensures { result ≡ ends_full cells.now }
{
    if cells.is_empty() {
        return true;
    }
    is_full(&cells[cells.len() - 1])
}

impl Page {
    /// A page with these slots; None exactly where they don't fit or the last one is empty. Takes no memory.
    pub fn new(spot: Spot, rows: bool, cells: Vec<Cell>) -> Option<Self>
        ensures some { IfSome result (λ page. page ≡ record { spot = spot; rows = rows; cells = cells.items }) }
        ensures none { IfNone result ((fits_in 8096 cells.items && ends_full cells.items) ≡ false) }
    {
        if !fit(cells.as_slice()) {
            return None;
        }
        if !ends_full(cells.as_slice()) {
            return None;
        }
        Some(Page { spot, rows, cells })
    }
}
