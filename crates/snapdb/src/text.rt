//! The line of a refused script, as text.

ghost use Rattle.std.specs.Prelude.{◌≡◌, ◌++◌, OnOk, IfOk};
ghost use Rattle.std.specs.Fmt.{decimal};
ghost use Rattle.snapdb.specs.Headline.{script_line};

use script_read::Why;
use std::alloc::{AllocError, Global};

fn push_number(alloc: Global, text: &mut Vec<u8>, number: u64) -> Result<(), AllocError>
    ensures { OnOk result (text.new.items ≡ text.old.items ++ decimal number) }
{
    let digits = number.to_string(alloc)?;
    text.extend_from_slice(digits.as_bytes())
}

/// The line that names the first line of a script that is refused, and why.
pub(crate) fn script_line(alloc: Global, line: u32, why: Why) -> Result<Vec<u8>, AllocError>
    ensures { IfOk result (λ text. text.items ≡ script_line line why) }
{
    let mut text = Vec::new(alloc);
    text.extend_from_slice(b"refused: script line ")?;
    push_number(alloc, &mut text, u64::from(line))?;
    text.extend_from_slice(b" ")?;
    text.extend_from_slice(why.word().as_bytes())?;
    text.extend_from_slice(b"\n")?;
    Ok(text)
}
