//! How a number is kept that takes no bytes: as the length of a history.

ghost use Rattle.std.specs.Prelude.{◌≡◌, ◌+◌};

use crate::Log;
use std::marker::Model;

/// A number that counts up.
#[derive(Drop)]
pub struct Tally {
    marks: Log<(), ()>,
}

impl Model for Tally {
    ghost use Rattle.std.specs.Prelude.{ℕ, length};

    ghost Value = { ℕ };

    ghost view = { λ a. length a.marks.items };
}

impl Tally {
    /// The number 0.
    pub fn zero() -> Tally
        ensures { result ≡ 0 }
    {
        Tally { marks: Log::new() }
    }

    /// One more.
    pub fn count(&mut self)
        ensures { self.new ≡ self.old + 1 }
    {
        self.marks = self.marks.and(&(), &());
    }
}
