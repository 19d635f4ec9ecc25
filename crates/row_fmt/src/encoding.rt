//! The bytes of a row, field by field.

ghost use Rattle.std.specs.Prelude.{◌≡◌, ◌++◌, ◌≤◌, ◌<◌, ◌^◌, length, map, take, IfOk, OnOk};
ghost use Rattle.std.specs.List.{concat, flat_map, AllByRecursion};
ghost use Rattle.byte_fields.specs.Fields.{sized};
ghost use Rattle.row_fmt.specs.Rows.{MayStand, FitsColumns, InRange, is_null, bits_number, bit_fields, null_bytes, value_field, IsRow};

use crate::sizes::{null_bytes, size};
use byte_fields::{put_text, put_u32, put_u64};
use page_base::{Bytes, ColType, Column, Columns, NoMemory, Row, Value};
use std::alloc::Global;

fn is_null(value: &Value) -> bool
    ensures { result ≡ is_null value.now }
{
    matches!(value, Value::Null)
}

// The first eight values, or all of fewer.
#[tactic(auto, using(crate::proofs::NullLemmas::first_eight))]
fn first_eight(values: &[Value]) -> &[Value]
    ensures { result.now ≡ take 8 values.now }
{
    &values[..values.len().min(8)]
}

// The byte of up to eight values: bit i is set where value i is NULL.
fn null_byte(values: &[Value]) -> u8
    requires { length values.now ≤ 8 }
    ensures { result ≡ bits_number (map is_null values.now) }
{
    match values {
        [] => 0,
        [value, values @ ..] => {
            let bit = if is_null(value) { 1 } else { 0 };
            bit + 2 * null_byte(values)
        }
    }
}

// Appends the bytes that tell which values are NULL.
fn put_nulls(out: &mut Vec<u8>, row: &[Value]) -> Result<(), NoMemory>
    ensures { OnOk result (out.new.items ≡ out.old.items ++ concat (bit_fields (null_bytes (length row.now)) (map is_null row.now))) }
{
    for i in 0..null_bytes(row.len()) {
        out.push(null_byte(first_eight(&row[8 * i..])))?;
    }
    Ok(())
}

fn put_int(out: &mut Vec<u8>, n: i32) -> Result<(), NoMemory>
    ensures { OnOk result (out.new.items ≡ out.old.items ++ concat (value_field (Value.Int n))) }
{
    put_u32(out, n.cast_unsigned())
}

fn put_big(out: &mut Vec<u8>, n: i64) -> Result<(), NoMemory>
    ensures { OnOk result (out.new.items ≡ out.old.items ++ concat (value_field (Value.Big n))) }
{
    put_u64(out, n.cast_unsigned())
}

// Appends a text of at most so many bytes behind its length.
fn put_varchar(out: &mut Vec<u8>, text: &[u8], max: u16) -> Result<(), NoMemory>
    requires { length text.now ≤ max }
    ensures bytes { OnOk result (out.new.items ≡ out.old.items ++ sized text.now) }
    ensures range { length text.now < 2 ^ 16 }
{
    prove!(text.len() <= max as usize);
    put_text(out, text)
}

// Appends the field of a value that may stand in a column, where it has one.
fn put_value(out: &mut Vec<u8>, value: &Value, column: &Column) -> Result<(), NoMemory>
    requires { MayStand column.now value.now }
    ensures bytes { OnOk result (out.new.items ≡ out.old.items ++ concat (value_field value.now)) }
    ensures range { OnOk result (InRange value.now) }
{
    match (value, column.kind) {
        (Value::Int(n), _) => put_int(out, *n),
        (Value::Big(n), _) => put_big(out, *n),
        (Value::Text(text), ColType::Text { max }) => put_varchar(out, text.as_slice(), max),
        _ => Ok(()),
    }
}

// Appends the fields of all values.
fn put_values(out: &mut Vec<u8>, row: &[Value], columns: &[Column]) -> Result<(), NoMemory>
    requires { FitsColumns columns.now row.now }
    ensures bytes { OnOk result (out.new.items ≡ out.old.items ++ concat (flat_map value_field row.now)) }
    ensures range { OnOk result (AllByRecursion InRange row.now) }
{
    for (i, column) in columns.iter().enumerate() {
        put_value(out, &row[i], column)?;
    }
    Ok(())
}

/// The bytes of a row that these columns may hold.
pub fn encode(alloc: Global, row: &Row, cols: &Columns) -> Result<Bytes, NoMemory>
    requires { FitsColumns cols.now row.now }
    ensures { IfOk result (λ bytes. IsRow cols.now bytes row.now) }
{
    let mut out = Vec::with_capacity(alloc, size(row, cols) as usize)?;
    put_nulls(&mut out, row.as_slice())?;
    put_values(&mut out, row.as_slice(), cols.as_slice())?;
    Ok(Bytes::from(out))
}
