//! The number of a new table.

ghost use Rattle.std.specs.Prelude.{ℕ, true, false, ◌≡◌, ◌-◌, ◌<◌, ◌≤◌, ◌^◌, All};
ghost use Rattle.sys_cat.specs.Lists.{has_number};

use crate::desc::{DescList, TableDesc};
use page_base::TableNo;

// Whether a table has this number.
fn has_number(descs: &[TableDesc], number: u32) -> bool
    ensures { result ≡ has_number descs.now number }
{
    match descs {
        [] => false,
        [desc, descs @ ..] => desc.number.0 == number || has_number(descs, number),
    }
}

/// The least number from 1 that no table of the list has. Takes no memory.
pub fn next_number(descs: &DescList) -> TableNo
    requires { All (λ d. d.number.0 < 2 ^ 32 - 1) descs.now }
    ensures least { (n : ℕ) → 1 ≤ n → n < result.0 → has_number descs.now n ≡ true }
    ensures from { 1 ≤ result.0 }
    ensures free { has_number descs.now result.0 ≡ false }
{
    let mut number = 1;
    while has_number(descs.as_slice(), number) {
        number += 1;
    }
    TableNo(number)
}
