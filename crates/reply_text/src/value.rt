//! Rows read from lines.

ghost use Rattle.std.specs.Prelude.{◌≡◌, ◌∷◌, ◌<◌, length, IfOk, MatchOption, option_and_then, codes};
ghost use Rattle.std.specs.Option.{option_copied};
ghost use Rattle.reply_text.specs.Pieces.{before, behind};
ghost use Rattle.reply_text.specs.Told.{is_printable};
ghost use Rattle.reply_text.specs.Values.{in_front, text_end, text_on, shown_on, value_on, values_on, row_on};

use crate::number::signed_number;
use crate::pieces::{Pieces, before, behind};
use page_base::{Bytes, NoMemory, Row, Value};
use std::alloc::Global;

const NULL: &[u8] = b"NULL";

const QUOTE: &[u8] = b"'";

const FRONT: &[u8] = b" (";

const END: &[u8] = b")\n";

fn is_printable(byte: u8) -> bool
    ensures { result ≡ is_printable byte }
{
    32 <= byte && byte <= 126
}

// The first byte of a text of which this stands behind the opening quote, and what stands behind that byte: nothing
// where the text is over, or is none.
fn text_byte(bytes: &[u8]) -> Option<(u8, &[u8])>
    ensures { MatchOption result (text_on bytes.now ≡ text_end bytes.now) (λ p. (text_on bytes.now ≡ in_front p.0 (text_on p.1.now)) × (length p.1.now < length bytes.now)) }
{
    match bytes {
        [b'\'', b'\'', more @ ..] => Some((b'\'', more)),
        [byte, more @ ..] if *byte != b'\'' && is_printable(*byte) => Some((*byte, more)),
        _ => None,
    }
}

// The text of which these bytes stand behind the opening quote.
fn read_text(alloc: Global, bytes: &[u8]) -> Result<Option<Bytes>, NoMemory>
    ensures { IfOk result (λ text. text ≡ text_on bytes.now) }
{
    let mut text = Bytes::new(alloc);
    let mut rest = bytes;
    while let Some((byte, more)) = text_byte(rest) {
        text.push(byte)?;
        rest = more;
    }
    if rest == QUOTE {
        return Ok(Some(text));
    }
    Ok(None)
}

fn read_value(alloc: Global, piece: &[u8]) -> Result<Option<Value>, NoMemory>
    ensures { IfOk result (λ value. value ≡ value_on piece.now) }
{
    if piece == NULL {
        return Ok(Some(Value::Null));
    }
    match piece {
        [b'\'', text @ ..] => Ok(read_text(alloc, text)?.map(Value::Text)),
        _ => Ok(signed_number(piece).map(Value::Big)),
    }
}

// The row that the pieces tell.
fn read_values(alloc: Global, pieces: &mut Pieces) -> Result<Option<Row>, NoMemory>
    ensures { IfOk result (λ row. row ≡ values_on pieces.old) }
{
    let mut row = Row::new(alloc);
    while let Some(piece) = pieces.next() {
        match read_value(alloc, piece)? {
            Some(value) => row.push(value)?,
            None => return Ok(None),
        }
    }
    Ok(Some(row))
}

// What stands in the brackets of a row's line.
fn in_brackets(line: &[u8]) -> Option<&[u8]>
    ensures { option_copied result ≡ option_and_then (before (codes ")\n")) (behind (codes " (") line.now) }
{
    before(behind(line, FRONT)?, END)
}

/// The row that a line with its end tells.
pub(crate) fn read_row(alloc: Global, line: &[u8]) -> Result<Option<Row>, NoMemory>
    ensures { IfOk result (λ row. row ≡ row_on line.now) }
{
    match in_brackets(line) {
        Some(values) => read_values(alloc, &mut Pieces::values(values)),
        None => Ok(None),
    }
}
