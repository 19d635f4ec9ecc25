//! Numbers, values and rows as text.

ghost use Rattle.std.specs.Prelude.{◌≡◌, ◌++◌, ◌∷◌, [], OnOk, ℤ, codes};
ghost use Rattle.std.specs.Fmt.{decimal, signed_decimal};
ghost use Rattle.std.specs.List.{flat_map};
ghost use Rattle.plain_model.specs.Printed.{row_text, value_text, quoted, next_value_text, values_text};

use page_base::{Row, Value};
use std::alloc::{AllocError, Global};

pub(crate) fn push_number(alloc: Global, text: &mut Vec<u8>, number: u64) -> Result<(), AllocError>
    ensures { OnOk result (text.new.items ≡ text.old.items ++ decimal number) }
{
    let digits = number.to_string(alloc)?;
    text.extend_from_slice(digits.as_bytes())
}

fn push_signed(alloc: Global, text: &mut Vec<u8>, number: i64) -> Result<(), AllocError>
    ensures { OnOk result (text.new.items ≡ text.old.items ++ signed_decimal number) }
{
    let digits = number.to_string(alloc)?;
    text.extend_from_slice(digits.as_bytes())
}

// A text in single quotes, a quote doubled.
fn push_quoted(text: &mut Vec<u8>, bytes: &[u8]) -> Result<(), AllocError>
    ensures { OnOk result (text.new.items ≡ text.old.items ++ flat_map quoted bytes.now) }
{
    for byte in bytes {
        if *byte == b'\'' {
            text.push(b'\'')?;
        }
        text.push(*byte)?;
    }
    Ok(())
}

fn push_value(alloc: Global, text: &mut Vec<u8>, value: &Value) -> Result<(), AllocError>
    ensures { OnOk result (text.new.items ≡ text.old.items ++ value_text value.now) }
{
    match value {
        Value::Null => text.extend_from_slice(b"NULL"),
        Value::Int(number) => push_signed(alloc, text, i64::from(*number)),
        Value::Big(number) => push_signed(alloc, text, *number),
        Value::Text(bytes) => {
            text.extend_from_slice(b"'")?;
            push_quoted(text, bytes.as_slice())?;
            text.extend_from_slice(b"'")
        }
    }
}

// A comma in front of each value.
fn push_more_values(alloc: Global, text: &mut Vec<u8>, values: &[Value]) -> Result<(), AllocError>
    ensures { OnOk result (text.new.items ≡ text.old.items ++ flat_map next_value_text values.now) }
{
    for value in values {
        text.push(b',')?;
        push_value(alloc, text, value)?;
    }
    Ok(())
}

// The values, parted by commas.
fn push_values(alloc: Global, text: &mut Vec<u8>, values: &[Value]) -> Result<(), AllocError>
    ensures { OnOk result (text.new.items ≡ text.old.items ++ values_text values.now) }
{
    let Some((first, more)) = values.split_first() else {
        return Ok(());
    };
    push_value(alloc, text, first)?;
    push_more_values(alloc, text, more)
}

pub(crate) fn push_row(alloc: Global, text: &mut Vec<u8>, row: &Row) -> Result<(), AllocError>
    ensures { OnOk result (text.new.items ≡ text.old.items ++ row_text row.now) }
{
    text.extend_from_slice(b" (")?;
    push_values(alloc, text, row.as_slice())?;
    text.extend_from_slice(b")\n")
}

pub(crate) fn push_rows(alloc: Global, text: &mut Vec<u8>, rows: &[Row]) -> Result<(), AllocError>
    ensures { OnOk result (text.new.items ≡ text.old.items ++ flat_map row_text rows.now) }
{
    for row in rows {
        push_row(alloc, text, row)?;
    }
    Ok(())
}
