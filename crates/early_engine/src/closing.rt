//! How the sparse files come back to the volume at the end of a run: one by one, whatever became of the earlier ones.

ghost use Rattle.std.specs.Prelude.{◌≡◌, ◌∷◌, ◌≤◌, [], ℕ, List, true, false, length, slice_index, IsTrue};
ghost use Rattle.std.specs.List.{list_any, concat};
ghost use Rattle.std.specs.Str.{bytes_eq};
ghost use Rattle.std.specs.FinMap as finite;
ghost use Rattle.std.specs.FinSet as finset;
ghost use Rattle.page_base.specs.declared.numbers.SnapNo.{SnapNo};
ghost use Rattle.page_dev.specs.Faults.{Rose};
ghost use Rattle.plain_model.specs.Sound.{are_distinct};
ghost use Rattle.early_pages.specs.Catalog.{snap_at, without};
ghost use Rattle.early_pages.specs.Shown.{IsOpen, catalog, count, counts, set_of};
ghost use Rattle.early_engine.specs.Closing.{Ends, IsFault, PutsBack, StillLies, bytes_of, file_of, first, first_fault};
ghost use Rattle.early_engine.specs.Disks.{disk_of};
ghost use Rattle.early_engine.specs.Pushing.{faults_of};
ghost use Rattle.early_engine.specs.Safe.{sparse_names};

use early_pages::SnapPages;
use page_base::{FileName, SnapNo};
use page_dev::Volume;

/// How putting the files back ended.
#[derive(Clone, Copy, Debug, PartialEq, Eq)]
pub enum CloseEnd {
    /// All files are back.
    Done,
    /// All files were handed back; this is the first that the volume failed to put back.
    Fault(FileName),
}

impl CloseEnd {
    // This end, or the later one where nothing failed so far.
    fn or(self, later: CloseEnd) -> CloseEnd
        ensures { result ≡ first_fault self later }
    {
        match self {
            CloseEnd::Done => later,
            CloseEnd::Fault(name) => CloseEnd::Fault(name),
        }
    }
}

// Puts one file back to its name's place.
fn put_file<V: Volume>(volume: &mut V, name: FileName, file: V::Pages) -> CloseEnd
    requires { finset.contains (V.out volume.old) name ≡ true }
    ensures { PutsBack name (V.Pages.tells file) (concat (V.Pages.content file)) (V.Pages.failures file) (disk_of V.tells V.folder V.out V.failures V.file_failures volume.old) (disk_of V.tells V.folder V.out V.failures V.file_failures volume.new) result }
{
    match volume.put_pages(&name, file) {
        Ok(()) => CloseEnd::Done,
        Err(_) => CloseEnd::Fault(name),
    }
}

// Takes the first snapshot out, and puts its one file back.
fn put_first<V: Volume>(volume: &mut V, pages: &mut SnapPages<V::Pages>) -> CloseEnd
    requires some { IsOpen pages.old first }
    requires file { counts pages.old ≡ slice_index (counts pages.old) 0 ∷ [] }
    requires single { length (snap_at (catalog pages.old) first).files ≡ 1 }
    requires out { finset.contains (V.out volume.old) (file_of pages.old first) ≡ true }
    ensures left { catalog pages.new ≡ without (catalog pages.old) first }
    ensures counts { counts pages.new ≡ counts pages.old }
    ensures puts { PutsBack (file_of pages.old first) (set_of pages.old first).files.tells (bytes_of pages.old first) (faults_of pages.old first) (disk_of V.tells V.folder V.out V.failures V.file_failures volume.old) (disk_of V.tells V.folder V.out V.failures V.file_failures volume.new) result }
{
    let name = *pages.cat().files(SnapNo(0)).at(0);
    let mut files = pages.remove(SnapNo(0)).into_files().into_vec();
    put_file(volume, name, files.remove(0))
}

/// Hands all sparse files back to the volume, snapshot by snapshot in the catalog's order. A file that fails doesn't
/// keep the others from being put back. Takes no memory.
pub(crate) fn put_back<V: Volume>(volume: &mut V, mut pages: SnapPages<V::Pages>) -> CloseEnd
    requires file { counts pages ≡ slice_index (counts pages) 0 ∷ [] }
    requires single { (s : SnapNo) → IsOpen pages s → length (snap_at (catalog pages) s).files ≡ 1 }
    requires out { (name : List ℕ) → finset.contains (V.out volume.old) name ≡ list_any (bytes_eq name) (sparse_names pages) }
    requires distinct { are_distinct (sparse_names pages) ≡ true }
    ensures out { (name : List ℕ) → finset.contains (V.out volume.new) name ≡ false }
    ensures tells { V.tells volume.new ≡ V.tells volume.old }
    ensures later { V.failures volume.old ≤ V.failures volume.new }
    ensures file_later { V.file_failures volume.old ≤ V.file_failures volume.new }
    ensures fault { IsFault result → Rose (V.failures volume.old) (V.failures volume.new) }
    ensures blame { (s : SnapNo) → IsOpen pages s → 1 ≤ faults_of pages s → Rose (V.file_failures volume.old) (V.file_failures volume.new) }
    ensures folder { (name : List ℕ) → IsTrue (V.tells volume.old) → finite.contains_key (V.folder volume.new) name ≡ finite.contains_key (V.folder volume.old) name }
    ensures lies { StillLies (V.tells volume.old) (V.folder volume.old) (V.folder volume.new) }
    ensures ends { Ends pages (count pages) (disk_of V.tells V.folder V.out V.failures V.file_failures volume.new) result }
{
    let mut end = CloseEnd::Done;
    while pages.cat().count() > 0 {
        end = end.or(put_first(volume, &mut pages));
    }
    end
}
