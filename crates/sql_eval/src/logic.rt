//! AND, OR and NOT of three-valued logic.

ghost use Rattle.std.specs.Prelude.{◌≡◌};
ghost use Rattle.plain_model.specs.Logic.{and3, or3, not3};

use page_base::Truth;

/// FALSE where one is FALSE, TRUE where both are TRUE, else UNKNOWN.
pub(crate) fn and3(a: Truth, b: Truth) -> Truth
    ensures { result ≡ and3 a b }
{
    match (a, b) {
        (Truth::False, _) | (_, Truth::False) => Truth::False,
        (Truth::True, Truth::True) => Truth::True,
        _ => Truth::Unknown,
    }
}

/// TRUE where one is TRUE, FALSE where both are FALSE, else UNKNOWN.
pub(crate) fn or3(a: Truth, b: Truth) -> Truth
    ensures { result ≡ or3 a b }
{
    match (a, b) {
        (Truth::True, _) | (_, Truth::True) => Truth::True,
        (Truth::False, Truth::False) => Truth::False,
        _ => Truth::Unknown,
    }
}

/// TRUE and FALSE swapped; UNKNOWN stays.
pub(crate) fn not3(a: Truth) -> Truth
    ensures { result ≡ not3 a }
{
    match a {
        Truth::True => Truth::False,
        Truth::False => Truth::True,
        Truth::Unknown => Truth::Unknown,
    }
}
