//! CREATE DATABASE: a snapshot's sparse file is made, and then the cut, or the first refusal that applies.

ghost use Rattle.std.specs.Prelude.{◌≡◌, ◌+◌, ◌-◌, ◌<◌, ◌≤◌, ◌++◌, ◌∷◌, ◌||◌, [], ℕ, List, Some, true, false, drop, length, slice_get, slice_index, slice_set, vec_capacity, IfOk, IfErr, OnOk, IsTrue};
ghost use Rattle.std.specs.List.{list_any};
ghost use Rattle.std.specs.Str.{bytes_eq};
ghost use Rattle.std.specs.FinMap as finite;
ghost use Rattle.std.specs.FinSet as finset;
ghost use Rattle.page_dev.specs.Faults.{Rose};
ghost use Rattle.plain_model.specs.declared.stmt.Stmt.TheVariants.{CreateSnap};
ghost use Rattle.plain_model.specs.declared.event.Event.TheVariants.{Said};
ghost use Rattle.plain_model.specs.Free.{IsMaking};
ghost use Rattle.plain_model.specs.Next.{Cuts, is_each_once, logical_names, next_of, sparse_names as paths_of};
ghost use Rattle.early_pages.specs.Sparse.{IsEmptyMap};
ghost use Rattle.early_pages.specs.Catalog.{LacksName};
ghost use Rattle.early_pages.specs.Shown.{Shown, catalog, counts, count, with_catalog};
ghost use Rattle.early_pages.specs.Views.{CutsView};
ghost use Rattle.early_engine.specs.Databases.{Means};
ghost use Rattle.early_engine.specs.declared.database.Database.TheVariants.{Absent};
ghost use Rattle.early_engine.specs.Disks.{disk_of};
ghost use Rattle.early_engine.specs.Entering.{entered};
ghost use Rattle.early_engine.specs.Pushing.{sound};
ghost use Rattle.early_engine.specs.Ready.{Allowed};
ghost use Rattle.early_engine.specs.Safe.{Run, Disk, Safe, state, seat_at, script_at, sparse_names};
ghost use Rattle.early_engine.specs.Creating.{IsAsked, MayAnswer, has_no_place, Reason, Refuses, GivesBack, Makes, IsNew, with_snap, cut_events, Adds};

use crate::Ledger;
use crate::answering::enter_reply;
use crate::database::{find_database, is_home, is_there};
use crate::refusal::refused;
use early_pages::{FileNames, SnapPages, SnapState, SparseSet};
use page_base::{FileName, Name, NoMemory, SessNo, SnapNo};
use page_dev::{FileList, PageFile, VolRefusal, Volume};
use plain_model::{Event, Message, Reply, SnapFiles};
use std::alloc::Global;

// A new snapshot's sparse file under its name, before the cut.
#[derive(Drop)]
struct NewFile<P: PageFile> {
    names: FileNames,
    set: SparseSet<P>,
}

// Whether the list is the one data file, once.
fn is_the_file(files: &SnapFiles, file: &Name) -> bool
    ensures { result ≡ is_each_once (logical_names files.now) (file.now ∷ []) }
{
    files.len() == 1 && file.is_same(&files.at(0).logical)
}

// The refusals that come before the files are looked for.
fn check_names<P: PageFile>(
    pages: &SnapPages<P>,
    source: &Name,
    file: &Name,
    snap: &Name,
    files: &SnapFiles,
    of: &Name,
) -> Result<(), Reply>
    ensures passes { OnOk result ((disk : Disk) (e : Run) (i : ℕ) → IsAsked source.now file.now disk pages.now (CreateSnap snap.now files.now of.now) e i → IsMaking (state e) (i + 1) snap.now files.now of.now) }
    ensures new { OnOk result (Means source.now (catalog pages.now) snap.now Absent) }
    ensures one { OnOk result (length files.now ≡ 1) }
    ensures refused { IfErr result (λ reply. MayAnswer source.now file.now pages.now (CreateSnap snap.now files.now of.now) reply) }
    ensures plain { IfErr result (λ reply. (disk : Disk) → Refuses [] disk disk reply) }
{
    let _ = pages.cat();
    if is_there(find_database(pages, source, snap)) {
        return Err(refused(Message::DATABASE_IS_THERE));
    }
    let from = find_database(pages, source, of);
    if !is_there(from) {
        return Err(refused(Message::NO_DATABASE));
    }
    if !is_home(from) {
        return Err(refused(Message::NOT_THE_SOURCE));
    }
    if !is_the_file(files, file) {
        return Err(refused(Message::FILE_LIST));
    }
    Ok(())
}

// Whether one of the names is this one.
fn has_name(names: &FileNames, path: &FileName) -> bool
    ensures { result ≡ list_any (bytes_eq path.now) names.now }
{
    for name in names.as_slice() {
        if path.is_same(name) {
            return true;
        }
    }
    false
}

// Whether an open snapshot has a sparse file of this name.
fn has_sparse_file<P: PageFile>(pages: &SnapPages<P>, path: &FileName) -> bool
    ensures { result ≡ list_any (bytes_eq path.now) (sparse_names pages.now) }
{
    for s in 0..pages.cat().count() {
        if has_name(pages.cat().files(SnapNo(s)), path) {
            return true;
        }
    }
    false
}

// Whether there is no place for a snapshot more.
fn is_full<P: PageFile>(pages: &SnapPages<P>) -> bool
    ensures { result ≡ has_no_place pages.now }
{
    pages.cat().count() >= 8 || pages.cat().next_cut() == u64::MAX
}

// The refusals by what is on the volume and in the catalog.
fn check_room<V: Volume>(
    volume: &mut V,
    pages: &SnapPages<V::Pages>,
    path: &FileName,
) -> Result<(), Reply>
    requires out { (n : List ℕ) → finset.contains (V.out volume.old) n ≡ list_any (bytes_eq n) (sparse_names pages.now) }
    ensures reason { IfErr result (λ reply. Reason (disk_of V.tells V.folder V.out V.failures V.file_failures volume.old) (disk_of V.tells V.folder V.out V.failures V.file_failures volume.new) pages.now path.now reply) }
    ensures refuses { IfErr result (λ reply. Refuses (path.now ∷ []) (disk_of V.tells V.folder V.out V.failures V.file_failures volume.old) (disk_of V.tells V.folder V.out V.failures V.file_failures volume.new) reply) }
    ensures fresh { OnOk result (IsTrue (V.tells volume.old) → finite.contains_key (V.folder volume.old) path.now ≡ false) }
    ensures unused { OnOk result (list_any (bytes_eq path.now) (sparse_names pages.now) ≡ false) }
    ensures place { OnOk result (has_no_place pages.now ≡ false) }
    ensures folder { IsTrue (V.tells volume.old) → V.folder volume.new ≡ V.folder volume.old }
    ensures out { V.out volume.new ≡ V.out volume.old }
    ensures tells { V.tells volume.new ≡ V.tells volume.old }
    ensures failures { V.failures volume.old ≤ V.failures volume.new }
    ensures file_failures { V.file_failures volume.new ≡ V.file_failures volume.old }
{
    let Ok(there) = volume.has(path) else {
        return Err(refused(Message::FILE_FAILED));
    };
    if there {
        return Err(refused(Message::FILE_IS_THERE));
    }
    if has_sparse_file(pages, path) {
        return Err(refused(Message::FILE_IS_THERE));
    }
    if is_full(pages) {
        return Err(refused(Message::TOO_MANY_SNAPSHOTS));
    }
    Ok(())
}

// A list of one name.
fn one_name(alloc: Global, path: &FileName) -> Result<FileNames, NoMemory>
    ensures { IfOk result (λ names. names ≡ path.now ∷ []) }
{
    let mut names = FileNames::new(alloc);
    names.push(*path)?;
    Ok(names)
}

// One file as a snapshot's sparse files, in a list that has room for it. Where no memory is found a file is handed back.
fn only_file<P: PageFile>(alloc: Global, mut list: Vec<P>, file: P) -> Result<SparseSet<P>, P>
    requires empty { list.items ≡ [] }
    requires room { 1 ≤ vec_capacity list }
    ensures counts { IfOk result (λ set. set.files.counts ≡ P.count file ∷ []) }
    ensures tells { IfOk result (λ set. IsTrue (P.tells file) → IsTrue set.files.tells) }
    ensures empty { IfOk result (λ set. IsEmptyMap set) }
{
    list.push_reserved(file);
    match SparseSet::new(alloc, FileList::from(list)) {
        Ok(set) => Ok(set),
        Err(refused) => {
            let mut files = refused.files.into_vec();
            Err(files.remove(0))
        }
    }
}

// Puts a new file back and removes it: NO_MEMORY, or FILE_FAILED where one of the two fails.
fn give_back<V: Volume>(volume: &mut V, path: &FileName, file: V::Pages) -> Reply
    requires out { finset.contains (V.out volume.old) path.now ≡ true }
    ensures { GivesBack path.now (disk_of V.tells V.folder V.out V.failures V.file_failures volume.old) (disk_of V.tells V.folder V.out V.failures V.file_failures volume.new) result }
{
    let put = volume.put_pages(path, file).is_ok();
    let removed = volume.remove(path).is_ok();
    if put && removed {
        refused(Message::NO_MEMORY)
    } else {
        refused(Message::FILE_FAILED)
    }
}

// Makes a new sparse file of so many pages. Its name is no other file's.
fn make_file<V: Volume>(
    alloc: Global,
    volume: &mut V,
    path: &FileName,
    pages: u32,
) -> Result<NewFile<V::Pages>, Reply>
    requires fresh { IsTrue (V.tells volume.old) → finite.contains_key (V.folder volume.old) path.now ≡ false }
    requires unused { finset.contains (V.out volume.old) path.now ≡ false }
    ensures reason { (v : Shown) → IfErr result (λ reply. Reason (disk_of V.tells V.folder V.out V.failures V.file_failures volume.old) (disk_of V.tells V.folder V.out V.failures V.file_failures volume.new) v path.now reply) }
    ensures refuses { IfErr result (λ reply. Refuses (path.now ∷ []) (disk_of V.tells V.folder V.out V.failures V.file_failures volume.old) (disk_of V.tells V.folder V.out V.failures V.file_failures volume.new) reply) }
    ensures makes { OnOk result (Makes path.now (disk_of V.tells V.folder V.out V.failures V.file_failures volume.old) (disk_of V.tells V.folder V.out V.failures V.file_failures volume.new)) }
    ensures names { IfOk result (λ new. new.names ≡ path.now ∷ []) }
    ensures counts { IfOk result (λ new. new.set.files.counts ≡ pages ∷ []) }
    ensures told { IfOk result (λ new. IsTrue (V.tells volume.old) → IsTrue new.set.files.tells) }
    ensures empty { IfOk result (λ new. IsEmptyMap new.set) }
{
    let Ok(names) = one_name(alloc, path) else {
        return Err(refused(Message::NO_MEMORY));
    };
    let Ok(list) = Vec::with_capacity(alloc, 1) else {
        return Err(refused(Message::NO_MEMORY));
    };
    match volume.create_pages(path, pages) {
        Ok(file) => match only_file(alloc, list, file) {
            Ok(set) => Ok(NewFile { names, set }),
            Err(file) => Err(give_back(volume, path, file)),
        },
        Err(VolRefusal::Exists) => Err(refused(Message::FILE_IS_THERE)),
        Err(VolRefusal::Memory) => Err(refused(Message::NO_MEMORY)),
        Err(VolRefusal::Failed) => {
            let _ = volume.remove(path);
            Err(refused(Message::FILE_FAILED))
        }
        // a call that makes a file never answers so
        Err(VolRefusal::Absent) => Err(refused(Message::FILE_FAILED)),
        Err(VolRefusal::Length { .. }) => Err(refused(Message::FILE_FAILED)),
    }
}

// The new sparse file where nothing stands in the way of a cut, else the refusal.
fn prepare<V: Volume>(
    alloc: Global,
    volume: &mut V,
    pages: &SnapPages<V::Pages>,
    source: &Name,
    file: &Name,
    snap: &Name,
    files: &SnapFiles,
    of: &Name,
) -> Result<NewFile<V::Pages>, Reply>
    requires out { (n : List ℕ) → finset.contains (V.out volume.old) n ≡ list_any (bytes_eq n) (sparse_names pages.now) }
    requires few { slice_index (counts pages.now) 0 ≤ 32768 }
    ensures refused { IfErr result (λ reply. (e : Run) (i : ℕ) → IsAsked source.now file.now (disk_of V.tells V.folder V.out V.failures V.file_failures volume.old) pages.now (CreateSnap snap.now files.now of.now) e i → IsTrue (V.tells volume.old) → Allowed (state e) (i + 1) (CreateSnap snap.now files.now of.now) reply) }
    ensures refuses { IfErr result (λ reply. Refuses (paths_of files.now) (disk_of V.tells V.folder V.out V.failures V.file_failures volume.old) (disk_of V.tells V.folder V.out V.failures V.file_failures volume.new) reply) }
    ensures cuts { OnOk result ((e : Run) (i : ℕ) → IsAsked source.now file.now (disk_of V.tells V.folder V.out V.failures V.file_failures volume.old) pages.now (CreateSnap snap.now files.now of.now) e i → IsTrue (V.tells volume.old) → next_of (state e) (i + 1) (Some (CreateSnap snap.now files.now of.now)) ≡ Cuts snap.now) }
    ensures new { OnOk result (Means source.now (catalog pages.now) snap.now Absent) }
    ensures place { OnOk result (has_no_place pages.now ≡ false) }
    ensures made { IfOk result (λ new. IsNew (paths_of files.now) (sparse_names pages.now) (disk_of V.tells V.folder V.out V.failures V.file_failures volume.old) (disk_of V.tells V.folder V.out V.failures V.file_failures volume.new) new.names new.set) }
    ensures counts { IfOk result (λ new. new.set.files.counts ≡ slice_index (counts pages.now) 0 ∷ []) }
    ensures empty { IfOk result (λ new. IsEmptyMap new.set) }
{
    check_names(pages, source, file, snap, files, of)?;
    let path = &files.at(0).path;
    check_room(volume, pages, path)?;
    make_file(alloc, volume, path, pages.pages(0) as u32)
}

// One snapshot more, in use.
fn add_snapshot<P: PageFile>(pages: &mut SnapPages<P>, snap: &Name, new: NewFile<P>)
    requires new { LacksName (catalog pages.old) snap.now }
    requires place { has_no_place pages.old ≡ false }
    requires counts { new.set.files.counts ≡ counts pages.old }
    requires empty { IsEmptyMap new.set }
    ensures only { pages.new ≡ with_catalog pages.old (with_snap pages.old snap.now new.names new.set) }
    ensures views { CutsView pages.old pages.new }
{
    let NewFile { names, set } = new;
    let s = pages.add(*snap, names, set);
    pages.set_state(s, SnapState::Online);
}

// The cut, and its reply.
fn cut<P: PageFile>(
    pages: &mut SnapPages<P>,
    ledger: &mut Ledger,
    who: SessNo,
    number: u32,
    snap: &Name,
    new: NewFile<P>,
)
    requires new { LacksName (catalog pages.old) snap.now }
    requires place { has_no_place pages.old ≡ false }
    requires counts { new.set.files.counts ≡ counts pages.old }
    requires empty { IsEmptyMap new.set }
    requires room { 2 ≤ ledger.old.room }
    requires few { length ledger.old.events < 4294967296 }
    ensures only { pages.new ≡ with_catalog pages.old (with_snap pages.old snap.now new.names new.set) }
    ensures views { CutsView pages.old pages.new }
    ensures events { ledger.new.events ≡ ledger.old.events ++ cut_events who.0 number (length ledger.old.events) snap.now }
    ensures left { ledger.new.room + 2 ≡ ledger.old.room }
{
    let began = ledger.len() as u32;
    add_snapshot(pages, snap, new);
    ledger.enter(Event::CutAt { who, snap: *snap });
    enter_reply(ledger, who, number, began, Reply::Ok);
}

// A refusal.
fn refuse(ledger: &mut Ledger, who: SessNo, number: u32, reply: Reply)
    requires room { 0 < ledger.old.room }
    requires few { length ledger.old.events < 4294967296 }
    ensures { ledger.new ≡ entered ledger.old (Said who number (length ledger.old.events) reply) }
{
    let began = ledger.len() as u32;
    enter_reply(ledger, who, number, began, reply);
}

/// CREATE DATABASE `snap` with these files AS SNAPSHOT OF `of`, for a source of one data file. The new snapshot sees the
/// source as it is now; a refusal is the first that applies. A cut reads and writes no page.
pub(crate) fn create_snapshot<V: Volume>(
    alloc: Global,
    volume: &mut V,
    pages: &mut SnapPages<V::Pages>,
    ledger: &mut Ledger,
    source: &Name,
    file: &Name,
    who: SessNo,
    number: u32,
    snap: &Name,
    files: &SnapFiles,
    of: &Name,
)
    requires room { 3 + sound pages.old ≤ ledger.old.room }
    requires few { length ledger.old.events < 4294967296 }
    requires out { (n : List ℕ) → finset.contains (V.out volume.old) n ≡ list_any (bytes_eq n) (sparse_names pages.old) }
    requires single { counts pages.old ≡ slice_index (counts pages.old) 0 ∷ [] }
    requires short { slice_index (counts pages.old) 0 ≤ 32768 }
    ensures safe { (e : Run) (i : ℕ) → Safe e → i < length e.scripts → (seat_at e i).gone ≡ false → slice_get (script_at e i) (seat_at e i).said ≡ Some (CreateSnap snap.now files.now of.now) →
        e.disk ≡ (disk_of V.tells V.folder V.out V.failures V.file_failures volume.old) → e.shown ≡ pages.old → e.kept ≡ ledger.old → who.0 ≡ i + 1 → number ≡ (seat_at e i).said + 1 → e.opening.source ≡ source.now → e.opening.files ≡ file.now ∷ [] →
        Safe (record e { disk = (disk_of V.tells V.folder V.out V.failures V.file_failures volume.new); shown = pages.new; seats = slice_set e.seats i (record { current = (seat_at e i).current; said = (seat_at e i).said + 1; gone = false }); kept = ledger.new }) }
    ensures later { V.failures volume.old ≤ V.failures volume.new }
    ensures file_later { V.file_failures volume.old ≤ V.file_failures volume.new }
    ensures tells { V.tells volume.new ≡ V.tells volume.old }
    ensures adds { Adds who.0 number (disk_of V.tells V.folder V.out V.failures V.file_failures volume.old) (disk_of V.tells V.folder V.out V.failures V.file_failures volume.new) ledger.old ledger.new }
{
    match prepare(alloc, volume, pages, source, file, snap, files, of) {
        Ok(new) => cut(pages, ledger, who, number, snap, new),
        Err(reply) => refuse(ledger, who, number, reply),
    }
}
