//! The rules for types, each of the types of the parts.

ghost use Rattle.std.specs.Prelude.{◌≡◌};
ghost use Rattle.plain_model.specs.Types.{literal_type, from_column, column_type, math_type, comparison_type, null_test_type, logic_type, is_number_type, is_text_type, is_big_type, is_truth_type};

use crate::ExprType;
use page_base::{ColType, Columns, Name};

fn is_number(kind: ExprType) -> bool
    ensures { result ≡ is_number_type kind }
{
    matches!(kind, ExprType::Int | ExprType::Big | ExprType::Any)
}

fn is_text(kind: ExprType) -> bool
    ensures { result ≡ is_text_type kind }
{
    matches!(kind, ExprType::Text | ExprType::Any)
}

fn is_big(kind: ExprType) -> bool
    ensures { result ≡ is_big_type kind }
{
    matches!(kind, ExprType::Big)
}

fn is_truth(kind: ExprType) -> bool
    ensures { result ≡ is_truth_type kind }
{
    matches!(kind, ExprType::Truth)
}

/// The type of a number literal: INT where it fits 32 bits, else BIGINT.
pub(crate) fn literal_type(number: i64) -> ExprType
    ensures { result ≡ literal_type number }
{
    match i32::try_from(number) {
        Ok(_) => ExprType::Int,
        Err(_) => ExprType::Big,
    }
}

fn from_column(kind: ColType) -> ExprType
    ensures { result ≡ from_column kind }
{
    match kind {
        ColType::Int => ExprType::Int,
        ColType::Big => ExprType::Big,
        ColType::Text { .. } => ExprType::Text,
    }
}

/// The type of the first column of a name; None where there is none.
pub fn column_type(cols: &Columns, name: &Name) -> Option<ExprType>
    ensures { result ≡ column_type cols.now name.now }
{
    let found = cols
        .as_slice()
        .iter()
        .find(|column| column.name.is_same(name));
    match found {
        Some(column) => Some(from_column(column.kind)),
        None => None,
    }
}

/// Of two numbers: BIGINT where one is, else INT.
pub(crate) fn math_type(a: ExprType, b: ExprType) -> Option<ExprType>
    ensures { result ≡ math_type a b }
{
    if !(is_number(a) && is_number(b)) {
        return None;
    }
    if is_big(a) || is_big(b) {
        Some(ExprType::Big)
    } else {
        Some(ExprType::Int)
    }
}

/// Of two numbers or of two texts: a truth.
pub fn comparison_type(a: ExprType, b: ExprType) -> Option<ExprType>
    ensures { result ≡ comparison_type a b }
{
    if (is_number(a) && is_number(b)) || (is_text(a) && is_text(b)) {
        Some(ExprType::Truth)
    } else {
        None
    }
}

/// Of a value of any type: a truth.
pub(crate) fn null_test_type(a: ExprType) -> Option<ExprType>
    ensures { result ≡ null_test_type a }
{
    if is_truth(a) {
        None
    } else {
        Some(ExprType::Truth)
    }
}

/// Of two truths: a truth.
pub(crate) fn logic_type(a: ExprType, b: ExprType) -> Option<ExprType>
    ensures { result ≡ logic_type a b }
{
    if is_truth(a) && is_truth(b) {
        Some(ExprType::Truth)
    } else {
        None
    }
}
