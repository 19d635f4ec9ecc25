//! Files by their names.

ghost use Rattle.std.specs.Prelude.{◌≡◌, ◌*◌, ℕ, Bool, IsTrue, List, [], true, false, OnOk, IfOk, IfErr};
ghost use Rattle.std.specs.List.{concat};
ghost use Rattle.std.specs.FinMap as map;
ghost use Rattle.std.specs.FinSet as set;
ghost use Rattle.page_dev.specs.Faults.{HasCause, HasCauseOf, added};
ghost use Rattle.page_dev.specs.PageFile.{new_pages};
ghost use Rattle.page_dev.specs.Volume.{Names, Folder, is_out, out_after, Creates, TakesPages, TakesLog, Puts, Removes, IsOfCreate, IsOfTakePages, IsOfTakeLog};

use crate::{LogFile, PageFile};
use page_base::{Failed, FileName, NoMemory};
use thiserror::Error;

/// Why a file wasn't given.
#[derive(Clone, Copy, Debug, PartialEq, Eq, Error)]
pub enum VolRefusal {
    /// When a file of that name is there already.
    #[error("there is a file of that name")]
    Exists,
    /// When there is no file of that name.
    #[error("there is no file of that name")]
    Absent,
    /// When the file has another length than the pages asked for; `found` is its length in bytes.
    #[error("the file has {found} bytes")]
    Length { found: u64 },
    /// When the volume failed: its count of faults rose.
    #[error("the volume failed")]
    Failed,
    /// When no memory was found.
    #[error("no memory was found")]
    Memory,
}

impl From<NoMemory> for VolRefusal {
    ghost use Rattle.std.specs.Prelude.{◌≡◌};
    ghost use Rattle.page_dev.specs.declared.volume.VolRefusal.TheVariants.{Memory};

    ghost from_gives = { λ _ refusal. refusal ≡ Memory };

    fn from(_: NoMemory) -> Self {
        VolRefusal::Memory
    }
}

/// A map from file name to file. A file that was created or taken is out until it is put back, and keeps its name's
/// place until the name is removed.
pub trait Volume: Drop {
    type Pages: PageFile;

    type Log: LogFile;

    /// Whether it tells its content. Clauses on the folder hold where it does; then its files tell, too.
    ghost tells: { Self → Bool };

    /// What has each name's place, where the volume tells.
    ghost folder: { Self → Folder };

    /// The names that are out, told or not.
    ghost out: { Self → Names };

    /// How many faults the volume met. The count never falls.
    ghost failures: { Self → ℕ };

    /// The sum of the counts of the files that were put back.
    ghost file_failures: { Self → ℕ };

    /// How many faults the volume met.
    fn faults(&self) -> u64
        ensures { result ≡ failures self.now };

    /// The sum of the counts of the files that were put back. It ends at the last value of u64.
    fn file_faults(&self) -> u64
        ensures { result ≡ file_failures self.now };

    /// Whether there is a file of this name; one that is out counts.
    fn has(&mut self, name: &FileName) -> Result<bool, Failed>
        ensures answer { IsTrue (tells self.old) → IfOk result (λ there. there ≡ map.contains_key (folder self.old) name.now) }
        ensures folder { IsTrue (tells self.old) → folder self.new ≡ folder self.old }
        ensures out { out self.new ≡ out self.old }
        ensures tells { tells self.new ≡ tells self.old }
        ensures cause { HasCause (failures self.old) (failures self.new) result }
        ensures file_failures { file_failures self.new ≡ file_failures self.old };

    /// A new file of so many pages, all zeros. `Exists` where the name is there. After `Failed` it is open whether
    /// the name is there; any other refusal changes nothing.
    fn create_pages(&mut self, name: &FileName, pages: u32) -> Result<Self::Pages, VolRefusal>
        ensures folder { IsTrue (tells self.old) → Creates name.now (folder self.old) (folder self.new) result }
        ensures told { IsTrue (tells self.old) → IfOk result (λ file. IsTrue (Self.Pages.tells file)) }
        ensures content { IsTrue (tells self.old) → IfOk result (λ file. Self.Pages.content file ≡ new_pages pages) }
        ensures count { IfOk result (λ file. Self.Pages.count file ≡ pages) }
        ensures fresh { IfOk result (λ file. Self.Pages.failures file ≡ 0) }
        ensures refusal { IfErr result IsOfCreate }
        ensures out { out self.new ≡ out_after (out self.old) name.now result }
        ensures tells { tells self.new ≡ tells self.old }
        ensures cause { HasCauseOf VolRefusal.Failed (failures self.old) (failures self.new) result }
        ensures file_failures { file_failures self.new ≡ file_failures self.old };

    /// A new, empty log. `Exists` where the name is there. After `Failed` it is open whether the name is there; any
    /// other refusal changes nothing.
    fn create_log(&mut self, name: &FileName) -> Result<Self::Log, VolRefusal>
        ensures folder { IsTrue (tells self.old) → Creates name.now (folder self.old) (folder self.new) result }
        ensures told { IsTrue (tells self.old) → IfOk result (λ file. IsTrue (Self.Log.tells file)) }
        ensures content { IsTrue (tells self.old) → IfOk result (λ file. Self.Log.content file ≡ []) }
        ensures fresh { IfOk result (λ file. Self.Log.failures file ≡ 0) }
        ensures refusal { IfErr result IsOfCreate }
        ensures out { out self.new ≡ out_after (out self.old) name.now result }
        ensures tells { tells self.new ≡ tells self.old }
        ensures cause { HasCauseOf VolRefusal.Failed (failures self.old) (failures self.new) result }
        ensures file_failures { file_failures self.new ≡ file_failures self.old };

    /// The file of this name as a file of so many pages. `Absent` where there is none, `Length` where it has another
    /// length. A refusal changes nothing.
    fn take_pages(&mut self, name: &FileName, pages: u32) -> Result<Self::Pages, VolRefusal>
        requires { set.contains (out self.old) name.now ≡ false }
        ensures taken { IsTrue (tells self.old) → TakesPages Self.Pages.tells Self.Pages.content name.now pages (folder self.old) (folder self.new) result }
        ensures count { IfOk result (λ file. Self.Pages.count file ≡ pages) }
        ensures fresh { IfOk result (λ file. Self.Pages.failures file ≡ 0) }
        ensures refusal { IfErr result (IsOfTakePages pages) }
        ensures out { out self.new ≡ out_after (out self.old) name.now result }
        ensures tells { tells self.new ≡ tells self.old }
        ensures cause { HasCauseOf VolRefusal.Failed (failures self.old) (failures self.new) result }
        ensures file_failures { file_failures self.new ≡ file_failures self.old };

    /// The file of this name as a log. `Absent` where there is none. A refusal changes nothing.
    fn take_log(&mut self, name: &FileName) -> Result<Self::Log, VolRefusal>
        requires { set.contains (out self.old) name.now ≡ false }
        ensures taken { IsTrue (tells self.old) → TakesLog Self.Log.tells Self.Log.content name.now (folder self.old) (folder self.new) result }
        ensures fresh { IfOk result (λ file. Self.Log.failures file ≡ 0) }
        ensures refusal { IfErr result IsOfTakeLog }
        ensures out { out self.new ≡ out_after (out self.old) name.now result }
        ensures tells { tells self.new ≡ tells self.old }
        ensures cause { HasCauseOf VolRefusal.Failed (failures self.old) (failures self.new) result }
        ensures file_failures { file_failures self.new ≡ file_failures self.old };

    /// Puts a file back to its name's place, and adds its count of faults to the sum, also where it fails. After
    /// `Failed` the file's content is open. Takes no memory.
    fn put_pages(&mut self, name: &FileName, file: Self::Pages) -> Result<(), Failed>
        requires { set.contains (out self.old) name.now ≡ true }
        ensures put { IsTrue (tells self.old) → Puts (Self.Pages.tells file) (concat (Self.Pages.content file)) name.now (folder self.old) (folder self.new) result }
        ensures out { out self.new ≡ set.remove (out self.old) name.now }
        ensures tells { tells self.new ≡ tells self.old }
        ensures cause { HasCause (failures self.old) (failures self.new) result }
        ensures file_failures { file_failures self.new ≡ added (file_failures self.old) (Self.Pages.failures file) };

    /// Puts a log back to its name's place, and adds its count of faults to the sum, also where it fails. After
    /// `Failed` the log's content is open. Takes no memory.
    fn put_log(&mut self, name: &FileName, file: Self::Log) -> Result<(), Failed>
        requires { set.contains (out self.old) name.now ≡ true }
        ensures put { IsTrue (tells self.old) → Puts (Self.Log.tells file) (Self.Log.content file) name.now (folder self.old) (folder self.new) result }
        ensures out { out self.new ≡ set.remove (out self.old) name.now }
        ensures tells { tells self.new ≡ tells self.old }
        ensures cause { HasCause (failures self.old) (failures self.new) result }
        ensures file_failures { file_failures self.new ≡ added (file_failures self.old) (Self.Log.failures file) };

    /// Frees a name; one that isn't there changes nothing. After `Failed` the name may still be there, as it was.
    fn remove(&mut self, name: &FileName) -> Result<(), Failed>
        requires { set.contains (out self.old) name.now ≡ false }
        ensures removed { IsTrue (tells self.old) → Removes name.now (folder self.old) (folder self.new) result }
        ensures out { out self.new ≡ out self.old }
        ensures tells { tells self.new ≡ tells self.old }
        ensures cause { HasCause (failures self.old) (failures self.new) result }
        ensures file_failures { file_failures self.new ≡ file_failures self.old };

    /// Where the volume tells, the names that are out are those whose place has the mark.
    ghost marked: { (v : Self) → IsTrue (tells v) → (name : List ℕ) → set.contains (out v) name ≡ is_out (map.get (folder v) name) };
}
