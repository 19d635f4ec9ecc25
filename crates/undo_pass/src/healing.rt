//! A snapshot that was cut amid transactions is healed on its own pages: each record that it owes is taken back there.

ghost use Rattle.std.specs.Prelude.{◌≡◌, ◌≢◌, [], ◌∷◌, ◌++◌, List, true, IsTrue, OnOk, OnErr, IfErr};
ghost use Rattle.page_fmt.specs.Content.{IsPage};
ghost use Rattle.rec_log.specs.Records.{Record};
ghost use Rattle.sparse_set.specs.Sparse.{is_copied, sparse_page};
ghost use Rattle.snap_cat.specs.declared.snapshot.SnapState.TheVariants.{Suspect};
ghost use Rattle.snap_pages.specs.Shown.{IsOpen, IsThere, state_of, set_of, owes_of};
ghost use Rattle.snap_pages.specs.Views.{view};
ghost use Rattle.snap_pages.specs.Owed.{AreOwed};
ghost use Rattle.undo_pass.specs.Heals.{IsHealed, IsUnhealed, HealRefused, Mends};
ghost use Rattle.undo_pass.specs.Mending.{ReadsOnce, ReadRefused, MendRefused};

use crate::HealRefusal;
use page_base::{Image, PageId, SnapNo};
use page_dev::PageFile;
use page_fmt::{BadPage, check, edit};
use snap_pages::SnapPages;

// The page of the last record that the snapshot owes. It is pinned, and so one of the source's.
#[tactic(auto, using(crate::proofs::LastLemmas::last_there))]
fn last_page<P: PageFile>(pages: &SnapPages<P>, s: SnapNo) -> PageId
    requires snap { IsOpen pages.now s }
    requires some { owes_of pages.now s ≢ [] }
    requires copied { (front : List Record) (r : Record) → owes_of pages.now s ≡ front ++ r ∷ [] → is_copied (set_of pages.now s) r.page ≡ true }
    requires owed { AreOwed pages.now s }
    ensures page { (front : List Record) (r : Record) → owes_of pages.now s ≡ front ++ r ∷ [] → result ≡ r.page }
    ensures there { IsThere pages.now result }
    ensures copied { is_copied (set_of pages.now s) result ≡ true }
{
    let _pool = pages.pool();
    pages.last_owed(s).unwrap().page
}

// Reads a page of the snapshot's sparse file.
fn read_page<P: PageFile>(
    pages: &mut SnapPages<P>,
    s: SnapNo,
    p: PageId,
    scratch: &mut Image,
) -> Result<(), HealRefusal>
    requires snap { IsOpen pages.old s }
    requires there { IsThere pages.old p }
    requires copied { is_copied (set_of pages.old s) p ≡ true }
    ensures reads { ReadsOnce s p pages.old pages.new }
    ensures page { OnOk result (IsPage scratch.new) }
    ensures bytes { OnOk result (IsTrue (set_of pages.old s).files.tells → scratch.new ≡ sparse_page (set_of pages.old s) p) }
    ensures seen { OnOk result (IsTrue (set_of pages.old s).files.tells → scratch.new ≡ view pages.old s p) }
    ensures refused { IfErr result (ReadRefused s p pages.old pages.new) }
{
    pages.fetch_sparse(s, p, scratch)?;
    match check(scratch) {
        Ok(()) => Ok(()),
        Err(BadPage { at }) => Err(HealRefusal::Damaged { at }),
    }
}

// Puts what stood in the slot of the last record that the snapshot owes back into the image.
fn mend<P: PageFile>(
    pages: &SnapPages<P>,
    s: SnapNo,
    scratch: &mut Image,
) -> Result<(), HealRefusal>
    requires snap { IsOpen pages.now s }
    requires some { owes_of pages.now s ≢ [] }
    requires page { IsPage scratch.old }
    ensures ok { OnOk result ((front : List Record) (r : Record) → owes_of pages.now s ≡ front ++ r ∷ [] → Mends r scratch.old scratch.new) }
    ensures err { IfErr result (λ refusal. (front : List Record) (r : Record) → owes_of pages.now s ≡ front ++ r ∷ [] → MendRefused r scratch.old refusal) }
{
    let rec = pages.last_owed(s).unwrap();
    match edit(scratch, rec.slot, rec.before.as_slice()) {
        Ok(()) => Ok(()),
        Err(_) => Err(HealRefusal::Damaged {
            at: 8190 - 2 * rec.slot as u32,
        }),
    }
}

/// Takes the last record that the snapshot owes back from its sparse page: the page is read and written once, and then
/// the record goes with its pin. There is one, the snapshot isn't suspect, and its map has the page. After a refusal the
/// record stays: `Failed` only where the sparse file's count of faults rose, after one call where the read failed, or
/// after two where the write did, and then that page may hold anything; `Damaged` exactly where the bytes that were read
/// are no page, or what stood in the slot has no room there. Takes no memory.
pub fn heal<P: PageFile>(
    pages: &mut SnapPages<P>,
    s: SnapNo,
    scratch: &mut Image,
) -> Result<(), HealRefusal>
    requires snap { IsOpen pages.old s }
    requires sound { state_of pages.old s ≢ Suspect }
    requires some { owes_of pages.old s ≢ [] }
    requires copied { (front : List Record) (r : Record) → owes_of pages.old s ≡ front ++ r ∷ [] → is_copied (set_of pages.old s) r.page ≡ true }
    requires owed { AreOwed pages.old s }
    ensures ok { OnOk result (IsHealed s pages.old pages.new) }
    ensures err { OnErr result (IsUnhealed s pages.old pages.new) }
    ensures refused { IfErr result (HealRefused s scratch.new pages.old pages.new) }
{
    let page = last_page(pages, s);
    read_page(pages, s, page, scratch)?;
    mend(pages, s, scratch)?;
    pages.write_sparse(s, page, scratch)?;
    pages.drop_owed(s);
    Ok(())
}
