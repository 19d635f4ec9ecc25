//! A row of table 0, read as one line of a description.

ghost use Rattle.std.specs.Prelude.{pos, ℕ, List, ◌≡◌, ◌≢◌, ◌<◌, true, ◌^◌, ◌↔◌, [], Option, length, slice_index_or, MatchOption, IsTrue};
ghost use Rattle.page_base.specs.declared.column.Column.{Column};
ghost use Rattle.page_base.specs.declared.column.ColType.{ColType};
ghost use Rattle.page_base.specs.declared.value.Value.{Value};
ghost use Rattle.page_base.specs.Name.{IsLowName};
ghost use Rattle.plain_model.specs.Sound.{is_type};
ghost use Rattle.sys_cat.specs.declared.line.Line.{Line};
ghost use Rattle.sys_cat.specs.Rows.{type_number, type_length};
ghost use Rattle.sys_cat.specs.Lines.{IsLine, IsText, line_row, text_bytes, column_line};

use page_base::{ColType, Column, Name, Row, Value};

// The name, the ordinal, the text and the three numbers of a row.
#[derive(Clone, Copy, Debug)]
pub(crate) struct Line {
    pub(crate) name: Name,
    pub(crate) ord: u32,
    pub(crate) text: Option<Name>,
    pub(crate) a: u32,
    pub(crate) b: u32,
    pub(crate) c: u32,
}

// The number that a value is, if it is one from 0 on.
fn int_of(value: &Value) -> Option<u32>
    ensures { MatchOption result ((n : ℕ) → value.now ≢ Value.Int (pos n)) (λ n. (value.now ≡ Value.Int (pos n)) × (n < 2 ^ 31)) }
{
    match value {
        Value::Int(n) if *n >= 0 => Some(*n as u32),
        _ => None,
    }
}

// The name that a value is, if it is one.
fn name_of(value: &Value) -> Option<Name>
    ensures { MatchOption result ((s : List ℕ) → IsLowName s → value.now ≢ Value.Text s) (λ name. (value.now ≡ Value.Text name) × IsLowName name) }
{
    match value {
        Value::Text(bytes) => Name::kept(bytes.as_slice()),
        _ => None,
    }
}

// The name that a value is, or none where it is an empty text.
fn text_of(value: &Value) -> Option<Option<Name>>
    ensures { MatchOption result ((s : Option (List ℕ)) → IsText s → value.now ≢ Value.Text (text_bytes s)) (λ s. (value.now ≡ Value.Text (text_bytes s)) × IsText s) }
{
    match value {
        Value::Text(bytes) if bytes.is_empty() => Some(None),
        value => Some(Some(name_of(value)?)),
    }
}

// The line that a row is, if it is one.
pub(crate) fn line_of(row: &Row) -> Option<Line>
    ensures { MatchOption result ((l : Line) → IsLine l → row.now ≢ line_row l) (λ l. IsLine l × (row.now ≡ line_row l)) }
{
    if row.len() != 6 {
        return None;
    }
    let name = name_of(row.at(0))?;
    let ord = int_of(row.at(1))?;
    let text = text_of(row.at(2))?;
    let a = int_of(row.at(3))?;
    let b = int_of(row.at(4))?;
    let c = int_of(row.at(5))?;
    Some(Line {
        name,
        ord,
        text,
        a,
        b,
        c,
    })
}

// The type with this number and this length.
fn type_of(number: u32, length: u32) -> Option<ColType>
    ensures { MatchOption result ((kind : ColType) → is_type kind ≡ true → ¬ ((number ≡ type_number kind) × (length ≡ type_length kind))) (λ kind. (number ≡ type_number kind) × (length ≡ type_length kind)) }
{
    match (number, length) {
        (1, 0) => Some(ColType::Int),
        (2, 0) => Some(ColType::Big),
        (3, 1..=8000) => Some(ColType::Text { max: length as u16 }),
        _ => None,
    }
}

impl Line {
    // The column that the line is of, if it is one.
    pub(crate) fn column(&self) -> Option<Column>
        ensures { MatchOption result ((c : Column) → is_type c.kind ≡ true → c.key < 256 → self.now ≢ column_line self.now.name self.now.ord c) (λ c. self.now ≡ column_line self.now.name self.now.ord c) }
    {
        let name = self.text?;
        let kind = type_of(self.a, self.b)?;
        if self.c >= 512 {
            return None;
        }
        Some(Column {
            name,
            kind,
            nullable: self.c % 2 == 1,
            key: (self.c / 2) as u8,
        })
    }
}
