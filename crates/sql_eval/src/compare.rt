//! The comparison of two values.

ghost use Rattle.std.specs.Prelude.{◌≡◌};
ghost use Rattle.plain_model.specs.Comparing.{order_of, holds, compared, null_test};

use page_base::{Truth, Value};
use plain_model::CompareOp;
use std::cmp::Ordering;

// Numbers by their size, texts by their bytes; None with NULL, or of a number and a text.
fn order_of(a: &Value, b: &Value) -> Option<Ordering>
    ensures { result ≡ order_of a.now b.now }
{
    match (a, b) {
        (Value::Int(x), Value::Int(y)) => Some(x.cmp(y)),
        (Value::Int(x), Value::Big(y)) => Some(i64::from(*x).cmp(y)),
        (Value::Big(x), Value::Int(y)) => Some(x.cmp(&i64::from(*y))),
        (Value::Big(x), Value::Big(y)) => Some(x.cmp(y)),
        (Value::Text(x), Value::Text(y)) => Some(x.as_slice().cmp(y.as_slice())),
        _ => None,
    }
}

// Whether the operator holds of two values in this order.
fn holds(op: CompareOp, order: Ordering) -> bool
    ensures { result ≡ holds op order }
{
    match op {
        CompareOp::Eq => matches!(order, Ordering::Equal),
        CompareOp::Ne => !matches!(order, Ordering::Equal),
        CompareOp::Lt => matches!(order, Ordering::Less),
        CompareOp::Le => !matches!(order, Ordering::Greater),
        CompareOp::Gt => matches!(order, Ordering::Greater),
        CompareOp::Ge => !matches!(order, Ordering::Less),
    }
}

/// What a comparison comes to: UNKNOWN with NULL.
pub(crate) fn compared(op: CompareOp, a: &Value, b: &Value) -> Truth
    ensures { result ≡ compared op a.now b.now }
{
    match order_of(a, b) {
        None => Truth::Unknown,
        Some(order) if holds(op, order) => Truth::True,
        Some(_) => Truth::False,
    }
}

/// Whether a value is NULL.
pub(crate) fn null_test(value: &Value) -> Truth
    ensures { result ≡ null_test value.now }
{
    match value {
        Value::Null => Truth::True,
        _ => Truth::False,
    }
}
