//! A value and a truth, read with memory enough. How expressions are read or refused is a table of the repository's tests.

use crate::{truth, value};
use sql_lex::Tokens;
use std::test::Fail;

#[test]
fn expressions_are_read_to_the_token_behind(rt: HostRuntime) -> Result<(), Fail> {
    let mut tokens = Tokens::new(b"1 + 2 , 3".as_slice());
    let _sum = value(rt.alloc(), &mut tokens, true)?;
    assert_eq!(rt; tokens.next().at, 6);
    let mut tokens = Tokens::new(b"1 = 2 )".as_slice());
    let _comparison = truth(rt.alloc(), &mut tokens)?;
    assert_eq!(rt; tokens.next().at, 6);
    Ok(())
}
