//! The words of the command line.

ghost use Rattle.std.specs.Prelude.{◌≡◌, ◌↔◌, map, IsTrue};
ghost use Rattle.snapdb.specs.Headline.{IsPlay};

fn is_text(bytes: &[u8], text: &[u8]) -> bool
    ensures { IsTrue result ↔ (bytes.now ≡ text.now) }
{
    bytes == text
}

/// Whether the words are the one command, `play`.
pub fn is_play(words: &[Vec<u8>]) -> bool
    ensures { IsTrue result ↔ IsPlay (map (λ w. w.items) words.now) }
{
    match words {
        [word] => is_text(word.as_slice(), b"play"),
        _ => false,
    }
}
