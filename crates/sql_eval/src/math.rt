//! The operators on numbers, each with its result's type and its overflow.

ghost use Rattle.std.specs.Prelude.{◌≡◌, SomeIff, FitsSigned};
ghost use Rattle.std.specs.Int.{w64};
ghost use Rattle.plain_model.specs.Numbers.{literal, stored, number_in, is_big, exact, math, opposite};

use page_base::Value;
use plain_model::MathOp;

/// The value of a number literal: INT where it fits 32 bits, else BIGINT.
pub(crate) fn literal(number: i64) -> Value
    ensures { result ≡ literal number }
{
    match i32::try_from(number) {
        Ok(small) => Value::Int(small),
        Err(_) => Value::Big(number),
    }
}

/// The number as a BIGINT or as an INT; None is an overflow.
pub fn stored(big: bool, number: i64) -> Option<Value>
    ensures { result ≡ stored big number }
{
    if big {
        return Some(Value::Big(number));
    }
    match i32::try_from(number) {
        Ok(small) => Some(Value::Int(small)),
        Err(_) => None,
    }
}

/// The number, where the value is one.
pub fn number_in(value: &Value) -> Option<i64>
    ensures { result ≡ number_in value.now }
{
    match value {
        Value::Int(number) => Some(i64::from(*number)),
        Value::Big(number) => Some(*number),
        _ => None,
    }
}

fn is_big(value: &Value) -> bool
    ensures { result ≡ is_big value.now }
{
    matches!(value, Value::Big(_))
}

// Sum, difference or product, where 64 bits hold it.
fn exact(op: MathOp, a: i64, b: i64) -> Option<i64>
    ensures { SomeIff result (FitsSigned w64 (exact op a b)) (exact op a b) }
{
    match op {
        MathOp::Add => a.checked_add(b),
        MathOp::Sub => a.checked_sub(b),
        MathOp::Mul => a.checked_mul(b),
    }
}

// The result of an operator on two numbers; None is an overflow.
fn result_of(op: MathOp, big: bool, a: i64, b: i64) -> Option<Value>
    ensures { result ≡ stored big (exact op a b) }
{
    match exact(op, a, b) {
        Some(number) => stored(big, number),
        None => None,
    }
}

/// The result of an operator on two values, NULL where one is NULL; None is an overflow.
pub(crate) fn math(op: MathOp, a: &Value, b: &Value) -> Option<Value>
    ensures { result ≡ math op a.now b.now }
{
    let big = is_big(a) || is_big(b);
    match (number_in(a), number_in(b)) {
        (Some(x), Some(y)) => result_of(op, big, x, y),
        _ => Some(Value::Null),
    }
}

/// The unary minus of a value, NULL where it is NULL; None is an overflow.
pub(crate) fn opposite(value: &Value) -> Option<Value>
    ensures { result ≡ opposite value.now }
{
    match value {
        Value::Int(number) => stored(false, -i64::from(*number)),
        Value::Big(number) => match number.checked_neg() {
            Some(opposite) => stored(true, opposite),
            None => None,
        },
        _ => Some(Value::Null),
    }
}
