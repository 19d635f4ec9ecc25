//! What stands in the cells of a table, and rows of such cells.

ghost use Rattle.std.specs.Prelude.{◌≡◌, IfOk, take};
ghost use Rattle.page_base.specs.declared.value.Value.{Value};
ghost use Rattle.page_base.specs.Order.{rank, value_cmp};

use crate::{ListOf, NoMemory};
use std::alloc::Global;
use std::cmp::Ordering;

/// Bytes of any length.
pub type Bytes = ListOf<u8>;

/// What stands in one column of a row: NULL, an INT, a BIGINT or the bytes of a VARCHAR.
#[derive(Debug, Drop)]
pub enum Value {
    Null,
    Int(i32),
    Big(i64),
    Text(Bytes),
}

/// What a condition comes to in three-valued logic.
#[derive(Clone, Copy, Debug, PartialEq, Eq)]
pub enum Truth {
    True,
    False,
    Unknown,
}

/// A row: its values in the order of the columns.
pub type Row = ListOf<Value>;

/// Rows, in order.
pub type RowList = ListOf<Row>;

impl Value {
    // NULL stands before all values.
    fn rank(&self) -> u8
        ensures { result ≡ rank self.now }
    {
        match self {
            Value::Null => 0,
            Value::Int(_) => 1,
            Value::Big(_) => 2,
            Value::Text(_) => 3,
        }
    }

    /// The order of values: NULL first, numbers by their size, texts by their bytes.
    pub fn compare(&self, other: &Value) -> Ordering
        ensures { result ≡ value_cmp self.now other.now }
    {
        match (self, other) {
            (Value::Int(a), Value::Int(b)) => a.cmp(b),
            (Value::Big(a), Value::Big(b)) => a.cmp(b),
            (Value::Text(a), Value::Text(b)) => a.as_slice().cmp(b.as_slice()),
            _ => self.rank().cmp(&other.rank()),
        }
    }

    /// The same value once more.
    pub fn copy(&self, alloc: Global) -> Result<Value, NoMemory>
        ensures { IfOk result (λ value. value ≡ self.now) }
    {
        match self {
            Value::Null => Ok(Value::Null),
            Value::Int(number) => Ok(Value::Int(*number)),
            Value::Big(number) => Ok(Value::Big(*number)),
            Value::Text(bytes) => Ok(Value::Text(bytes.copy(alloc)?)),
        }
    }
}
