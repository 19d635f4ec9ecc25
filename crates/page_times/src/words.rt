//! The words of the command line, and the numbers that they spell.

use std::alloc::{AllocError, Global};
use std::rt::Env;

/// The words after the program's own name. Words that can't be had are none.
pub fn words_of(rt: &(impl Env + Alloc), alloc: Global) -> Result<Vec<Vec<u8>>, AllocError> {
    let mut words = Vec::new(alloc);
    if let Ok(args) = std::env::args(rt) {
        for word in args.skip(1) {
            words.push(word.as_bytes().to_vec(alloc)?)?;
        }
    }
    Ok(words)
}

/// The number that digits spell, the greatest one where they spell more. What other bytes count for isn't said.
pub fn number(word: &[u8]) -> u32 {
    let mut n: u32 = 0;
    for byte in word {
        n = n
            .saturating_mul(10)
            .saturating_add(u32::from(byte.saturating_sub(b'0')));
    }
    n
}
