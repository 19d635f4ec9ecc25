//! A text copied with memory enough. How batches are cut is a table of the repository's tests.

use crate::{TokenKind, Tokens};
use std::test::Fail;

#[test]
fn a_text_is_copied_with_single_quotes(rt: HostRuntime) -> Result<(), Fail> {
    let tokens = Tokens::new(b"'it''s'".as_slice());
    let TokenKind::Text(text) = &tokens.next().kind else {
        panic!(&rt; "no text");
    };
    assert_eq!(rt; text.copy(rt.alloc())?.as_slice(), b"it's".as_slice());
    Ok(())
}
