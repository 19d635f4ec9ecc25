//! Where a comment ends.

ghost use Rattle.std.specs.Prelude.{◌≡◌, ◌≤◌, length, IfSome};
ghost use Rattle.std.specs.List.{prefix_len};
ghost use Rattle.sql_lex.specs.Comments.{is_in_line, comment_end};

fn is_in_line(byte: u8) -> bool
    ensures { result ≡ is_in_line byte }
{
    byte != b'\n'
}

// How many bytes in front stand on the same line.
pub(crate) fn line_len(bytes: &[u8]) -> usize
    ensures value { result ≡ prefix_len is_in_line bytes.now }
    ensures within { result ≤ length bytes.now }
{
    bytes.iter().take_while(|byte| is_in_line(**byte)).count()
}

// Where a comment ends, counted from behind its `/*`; None where it isn't closed.
pub(crate) fn comment_end(bytes: &[u8]) -> Option<usize>
    ensures value { result ≡ comment_end 0 0 0 bytes.now }
    ensures within { IfSome result (λ n. n ≤ length bytes.now) }
{
    let mut before = 0u8;
    // comments that are open around the innermost
    let mut around = 0usize;
    for (i, byte) in bytes.iter().enumerate() {
        if before == b'/' && *byte == b'*' {
            around += 1;
            before = 0;
        } else if before == b'*' && *byte == b'/' {
            if around == 0 {
                return Some(i + 1);
            }
            around -= 1;
            before = 0;
        } else {
            before = *byte;
        }
    }
    None
}
