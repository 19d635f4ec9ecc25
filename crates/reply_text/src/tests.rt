//! A history as text, read back, and the lines at which others are refused.

use crate::{BookRefusal, print_book, read_book};
use std::test::Fail;

/// A line of each kind, and a value of each kind in the rows.
const BOOK: &[u8] =
    b"1 lock * S\n1 lock big X\n1 cut s1\nturned left\n1 said 1 0 ok\n64 said 2 4294967295 count 18446744073709551615\n1 said 3 4 rows 2\n (1,-2,NULL)\n ('it''s (a, b)')\n1 said 4 7 msg 926\n1 said 5 9 msg 60010 s2\n1 said 6 10 msg 1222 2\n1 said 7 12 rows 0\n1 restore s1\n1 left\n";

/// Texts with the line at which each is refused.
const WRONG: [(&[u8], u32); 24] = [
    (b"1 said", 1),
    (b"1 left", 1),
    (b"1 left\n2 left", 2),
    (b"1 left\n\n2 left\n", 2),
    (b"1 left\r\n", 1),
    (b"01 left\n", 1),
    (b"0 left\n", 1),
    (b"65 left\n", 1),
    (b"1  left\n", 1),
    (b"1 left \n", 1),
    (b"1 lock T S\n", 1),
    (b"1 lock t Y\n", 1),
    (b"1 said 1 0 count 18446744073709551616\n", 1),
    (b"1 said 4294967296 0 ok\n", 1),
    (b"1 said 1 0 rows 2\n (1)\n (2)\n (3)\n", 4),
    (b"1 said 1 0 rows 2\n (1)\n", 3),
    (b"1 said 1 0 rows 2\n (1)\n1 left\n", 3),
    (b"1 said 1 0 rows 1\n ()\n", 2),
    (b"1 said 1 0 rows 1\n (-0)\n", 2),
    (b"1 said 1 0 rows 1\n (+1)\n", 2),
    (b"1 said 1 0 rows 1\n (9223372036854775808)\n", 2),
    (b"1 said 1 0 rows 1\n ('a'b')\n", 2),
    (b"1 said 1 0 rows 1\n (1, 2)\n", 2),
    (b"turned 1a\n", 1),
];

#[test]
fn a_history_is_read_back(rt: HostRuntime) -> Result<(), Fail> {
    let book = read_book(rt.alloc(), BOOK)?;
    assert_eq!(rt; book.len(), 13);
    let text = print_book(rt.alloc(), &book)?;
    assert_eq!(rt; text.as_slice(), BOOK);
    Ok(())
}

#[test]
fn wrong_lines_have_numbers(rt: HostRuntime) {
    for (text, line) in WRONG {
        match read_book(rt.alloc(), text) {
            Ok(_) => assert!(rt; false),
            Err(why) => assert_eq!(rt; why, BookRefusal::Line(line)),
        }
    }
}
