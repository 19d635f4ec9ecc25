//! The bytes of slot 0: a table's name and its columns.

ghost use Rattle.std.specs.Prelude.{◌≡◌, ◌++◌, ◌∷◌, [], ◌<◌, ◌≤◌, ◌^◌, length, IfOk, OnOk, take};
ghost use Rattle.std.specs.List.{flat_map};
ghost use Rattle.page_base.specs.Name.{IsLowName};
ghost use Rattle.table_pages.specs.Numbers.{number};
ghost use Rattle.table_pages.specs.Headers.{sized, type_number, type_length, key_number, column_bytes, header};
ghost use Rattle.table_pages.specs.Names.{IsKeptColumn, AreKept};

use byteorder::{ByteOrder, LittleEndian};
use page_base::{Bytes, ColType, Column, Name, NoMemory};
use std::alloc::Global;

fn type_number(kind: &ColType) -> u32
    ensures { result ≡ type_number kind.now }
{
    match kind {
        ColType::Int => 1,
        ColType::Big => 2,
        ColType::Text { .. } => 3,
    }
}

fn type_length(kind: &ColType) -> u32
    ensures { result ≡ type_length kind.now }
{
    match kind {
        ColType::Text { max } => u32::from(*max),
        _ => 0,
    }
}

fn key_number(key: u8, nullable: bool) -> u32
    ensures { result ≡ key_number key nullable }
{
    2 * u32::from(key) + if nullable { 1 } else { 0 }
}

#[tactic(auto, unfolding(crate::specs::Numbers::number))]
fn put_number(out: &mut Vec<u8>, n: u32) -> Result<(), NoMemory>
    ensures { OnOk result (out.new.items ≡ out.old.items ++ number n) }
{
    let mut bytes = [0u8; 4];
    LittleEndian::write_u32(&mut bytes, n);
    out.extend_from_slice(&bytes)?;
    Ok(())
}

fn put_name(out: &mut Vec<u8>, name: &Name) -> Result<(), NoMemory>
    ensures ok { OnOk result (out.new.items ≡ out.old.items ++ sized name.now) }
    ensures low { IsLowName name.now }
{
    let bytes = name.bytes();
    out.push(bytes.len() as u8)?;
    out.extend_from_slice(bytes)?;
    Ok(())
}

fn put_column(out: &mut Vec<u8>, column: &Column) -> Result<(), NoMemory>
    ensures ok { OnOk result (out.new.items ≡ out.old.items ++ column_bytes column.now) }
    ensures kept { IsKeptColumn column.now }
{
    let key = column.key;
    put_name(out, &column.name)?;
    put_number(out, type_number(&column.kind))?;
    put_number(out, type_length(&column.kind))?;
    put_number(out, key_number(key, column.nullable))
}

fn put_columns(out: &mut Vec<u8>, cols: &[Column]) -> Result<(), NoMemory>
    ensures ok { OnOk result (out.new.items ≡ out.old.items ++ flat_map column_bytes cols.now) }
    ensures kept { OnOk result (AreKept cols.now) }
{
    for column in cols {
        put_column(out, column)?;
    }
    Ok(())
}

/// The bytes of a table's name and its columns.
#[tactic(auto, unfolding(crate::specs::Headers::header))]
pub(crate) fn header(alloc: Global, name: &Name, cols: &[Column]) -> Result<Bytes, NoMemory>
    requires { length cols.now ≤ 255 }
    ensures bytes { IfOk result (λ bytes. bytes ≡ header name.now cols.now) }
    ensures name { OnOk result (IsLowName name.now) }
    ensures kept { OnOk result (AreKept cols.now) }
{
    let mut out = Vec::new(alloc);
    put_name(&mut out, name)?;
    out.push(cols.len() as u8)?;
    put_columns(&mut out, cols)?;
    Ok(Bytes::from(out))
}
