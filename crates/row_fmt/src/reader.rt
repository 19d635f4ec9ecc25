//! The fields of a row, read from the front of bytes: which columns are NULL, then a value for each of the others.

ghost use Rattle.std.specs.Prelude.{◌≡◌, ◌<◌, ◌/◌, length, take, IfOk};
ghost use Rattle.std.specs.List.{list_all};
ghost use Rattle.row_fmt.specs.Rows.{is_text_byte, null_bytes};
ghost use Rattle.byte_fields.specs.Answers.{Gives};
ghost use Rattle.row_fmt.specs.Reading.{may_be_null, bits_of, group_at, nulls_at, null_bits, null_bit, int_at, big_at, is_text, text_at, cell_at, values_at, row_at};

use crate::sizes::null_bytes;
use byte_fields::{Reader, Stop};
use page_base::{Bytes, ColType, Column, Row, Value};
use std::alloc::Global;

// Whether each bit that is set is that of a column that may be NULL.
fn may_be_null(columns: &[Column], byte: u8) -> bool
    ensures { result ≡ may_be_null columns.now byte }
{
    match columns {
        [] => byte == 0,
        [column, columns @ ..] => {
            (column.nullable || byte % 2 == 0) && may_be_null(columns, byte / 2)
        }
    }
}

// Whether column `i` is NULL.
fn is_null(nulls: &[u8], i: usize) -> bool
    requires { i / 8 < length nulls.now }
    ensures { result ≡ null_bit nulls.now i }
{
    (nulls[i / 8] >> (i % 8)) % 2 == 1
}

fn is_text_byte(byte: u8) -> bool
    ensures { result ≡ is_text_byte byte }
{
    byte >= 32 && byte <= 126
}

fn are_text_bytes(text: &[u8]) -> bool
    ensures { result ≡ list_all is_text_byte text.now }
{
    text.iter().all(|byte| is_text_byte(*byte))
}

// Whether these bytes are a text that a column of at most so many bytes may hold.
pub(crate) fn is_text(max: u16, text: &[u8]) -> bool
    ensures { result ≡ is_text max text.now }
{
    text.len() <= max as usize && are_text_bytes(text)
}

// Which of the first eight columns are NULL.
#[tactic(auto, unfolding(crate::specs::Reading::group_at, byte_fields::specs::Reading::byte_at), using(crate::proofs::NullLemmas::first_eight))]
fn read_group<'a>(reader: &mut Reader<'a>, columns: &[Column]) -> Result<u8, Stop>
    ensures { Gives (λ byte. bits_of (length (take 8 columns.now)) byte) result reader.new (group_at (take 8 columns.now) reader.old) }
{
    let mut next = reader.again();
    let byte = next.byte()?;
    if !may_be_null(&columns[..columns.len().min(8)], byte) {
        return Err(Stop::Form);
    }
    *reader = next;
    Ok(byte)
}

// The bytes that tell which columns are NULL.
fn read_nulls<'a>(reader: &mut Reader<'a>, columns: &[Column]) -> Result<&'a [u8], Stop>
    ensures read { Gives (λ nulls. null_bits (null_bytes (length columns.now)) columns.now nulls.now) result reader.new (nulls_at (null_bytes (length columns.now)) columns.now reader.old) }
    ensures count { IfOk result (λ nulls. length nulls.now ≡ null_bytes (length columns.now)) }
{
    let all = reader.rest();
    let count = null_bytes(columns.len());
    for i in 0..count {
        read_group(reader, &columns[8 * i..])?;
    }
    Ok(&all[..count])
}

#[tactic(auto, unfolding(byte_fields::specs::Reading::through))]
fn read_int<'a>(reader: &mut Reader<'a>) -> Result<Value, Stop>
    ensures { Gives (λ value. value) result reader.new (int_at reader.old) }
{
    Ok(Value::Int(reader.u32()?.cast_signed()))
}

#[tactic(auto, unfolding(byte_fields::specs::Reading::through))]
fn read_big<'a>(reader: &mut Reader<'a>) -> Result<Value, Stop>
    ensures { Gives (λ value. value) result reader.new (big_at reader.old) }
{
    Ok(Value::Big(reader.u64()?.cast_signed()))
}

#[tactic(auto, unfolding(byte_fields::specs::Reading::through))]
fn read_text<'a>(reader: &mut Reader<'a>, alloc: Global, max: u16) -> Result<Value, Stop>
    ensures { Gives (λ value. value) result reader.new (text_at max reader.old) }
{
    let mut next = reader.again();
    let text = next.text()?;
    if !is_text(max, text) {
        return Err(Stop::Form);
    }
    let text = Vec::from_slice(alloc, text)?;
    *reader = next;
    Ok(Value::Text(Bytes::from(text)))
}

// What stands in a column.
fn read_cell<'a>(
    reader: &mut Reader<'a>,
    alloc: Global,
    null: bool,
    kind: ColType,
) -> Result<Value, Stop>
    ensures { Gives (λ value. value) result reader.new (cell_at null kind reader.old) }
{
    if null {
        return Ok(Value::Null);
    }
    match kind {
        ColType::Int => read_int(reader),
        ColType::Big => read_big(reader),
        ColType::Text { max } => read_text(reader, alloc, max),
    }
}

// What stands in each column, behind the bytes that tell which are NULL.
fn read_values<'a>(
    reader: &mut Reader<'a>,
    alloc: Global,
    columns: &[Column],
    nulls: &[u8],
) -> Result<Row, Stop>
    requires { length nulls.now ≡ null_bytes (length columns.now) }
    ensures { Gives (λ row. row) result reader.new (values_at columns.now (null_bits (null_bytes (length columns.now)) columns.now nulls.now) reader.old) }
{
    let mut values = Vec::with_capacity(alloc, columns.len())?;
    for (i, column) in columns.iter().enumerate() {
        let value = read_cell(reader, alloc, is_null(nulls, i), column.kind)?;
        values.push(value)?;
    }
    Ok(Row::from(values))
}

// A row of these columns.
#[tactic(auto, unfolding(crate::specs::Reading::row_at))]
pub(crate) fn read_row<'a>(
    reader: &mut Reader<'a>,
    alloc: Global,
    columns: &[Column],
) -> Result<Row, Stop>
    ensures { Gives (λ row. row) result reader.new (row_at columns.now reader.old) }
{
    let nulls = read_nulls(reader, columns)?;
    read_values(reader, alloc, columns, nulls)
}
