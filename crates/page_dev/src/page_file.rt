//! A file of pages.

ghost use Rattle.std.specs.Prelude.{◌≡◌, ◌+◌, ◌<◌, ℕ, Bool, IsTrue, length, OnOk};
ghost use Rattle.page_dev.specs.Faults.{HasCause};
ghost use Rattle.page_dev.specs.PageFile.{FilePages, AreImages, file_page, WritesPage};

use page_base::{Failed, Image};

/// A file of pages of 8,192 bytes. A page that was never written reads as zeros.
pub trait PageFile: Drop {
    /// Whether it tells its content. Clauses on pages hold where it does.
    ghost tells: { Self → Bool };

    /// The pages, where it tells.
    ghost content: { Self → FilePages };

    /// How many pages it has.
    ghost count: { Self → ℕ };

    /// How many faults it met. The count never falls.
    ghost failures: { Self → ℕ };

    /// How many reads and writes it was asked for, failed or not.
    ghost calls: { Self → ℕ };

    /// How many faults it met.
    fn faults(&self) -> u64
        ensures { result ≡ failures self.now };

    /// How many pages it has. No call changes the number.
    fn pages(&self) -> u32
        ensures { result ≡ count self.now };

    /// Reads page `n`, by one call. `Failed` only where the count of faults rose; no read, failed or not, changes the
    /// file.
    fn read_page(&mut self, n: u32, into: &mut Image) -> Result<(), Failed>
        requires { n < count self.old }
        ensures read { IsTrue (tells self.old) → OnOk result (into.new ≡ file_page (content self.old) n) }
        ensures content { IsTrue (tells self.old) → content self.new ≡ content self.old }
        ensures tells { tells self.new ≡ tells self.old }
        ensures count { count self.new ≡ count self.old }
        ensures calls { calls self.new ≡ calls self.old + 1 }
        ensures cause { HasCause (failures self.old) (failures self.new) result };

    /// Writes page `n`, by one call. `Failed` only where the count of faults rose, and then that page alone is open.
    fn write_page(&mut self, n: u32, from: &Image) -> Result<(), Failed>
        requires { n < count self.old }
        ensures written { IsTrue (tells self.old) → WritesPage n from.now (content self.old) (content self.new) result }
        ensures tells { tells self.new ≡ tells self.old }
        ensures count { count self.new ≡ count self.old }
        ensures calls { calls self.new ≡ calls self.old + 1 }
        ensures cause { HasCause (failures self.old) (failures self.new) result };

    /// Where it tells, it has as many pages as it counts.
    ghost counted: { (f : Self) → IsTrue (tells f) → length (content f) ≡ count f };

    /// Where it tells, each page has 8,192 bytes.
    ghost sized: { (f : Self) → IsTrue (tells f) → AreImages (content f) };
}
