//! How marks of pages stand in words of 64 bits, and how a byte of a word tells of eight of them.

ghost use Rattle.std.specs.Prelude.{ℕ, true, ◌≡◌, ◌≤◌, ◌<◌, ◌*◌, ◌==◌, ◌||◌, ◌^◌, length, slice_index};
ghost use Rattle.sparse_set.specs.Words.{has};
ghost use Rattle.sparse_set.specs.Groups.{has_group, groups_in, bits_in};

// Whether a page's bit is set.
#[tactic(auto, unfolding(crate::specs::Words::has))]
pub(crate) fn has(words: &[u64], page: u32) -> bool
    requires { page < 64 * length words.now }
    ensures { result ≡ has words.now page }
{
    let word = words[page as usize / 64];
    (word >> (page % 64)) & 1 == 1
}

// Sets a page's bit, and no other.
pub(crate) fn put(words: &mut Vec<u64>, page: u32)
    requires { page < 64 * length words.old.items }
    ensures put { (q : ℕ) → has words.new.items q ≡ (q == page || has words.old.items q) }
    ensures long { length words.new.items ≡ length words.old.items }
{
    let place = page as usize / 64;
    words[place] |= 1u64 << (page % 64);
}

// For proofs alone: each word is below 2^64. Does nothing when it runs.
pub(crate) fn are_words(words: &[u64])
    requires { (k : ℕ) → slice_index words.now k < 2 ^ 64 }
    ensures { (k : ℕ) → slice_index words.now k < 2 ^ 64 }
{}

// Whether a byte of a word isn't 0: whether one of its eight bits is set.
fn is_full(word: u64, place: u32) -> bool
    requires { place < 8 }
    ensures { result ≡ has_group (bits_in word) place }
{
    let byte = (word >> (8 * place)) % 256;
    byte > 0
}

// How many bytes of a word aren't 0.
pub(crate) fn full_bytes(word: u64) -> u32
    ensures count { result ≡ groups_in (bits_in word) 8 }
    ensures few { result ≤ 8 }
{
    let mut count = 0u32;
    for place in 0..8u32 {
        if is_full(word, place) {
            count += 1;
        }
    }
    count
}
