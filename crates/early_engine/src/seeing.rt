//! A SELECT in a snapshot: its pages are read one by one, each from the sparse file or through it, up to the table's.

ghost use Rattle.std.specs.Prelude.{◌≡◌, ◌≢◌, ◌⊎◌, ◌<◌, ◌≤◌, true, OnOk, OnErr, IfOk, List, ℕ, Some};
ghost use Rattle.page_fmt.specs.Content.{IsPage};
ghost use Rattle.plain_model.specs.declared.reply.Reply.TheVariants.{Msg};
ghost use Rattle.plain_model.specs.Messages.{plain};
ghost use Rattle.plain_model.specs.Tables.{Table, Tables};
ghost use Rattle.early_pages.specs.declared.state.SnapState.TheVariants.{Suspect};
ghost use Rattle.early_pages.specs.Sparse.{is_copied};
ghost use Rattle.early_pages.specs.Shown.{IsThere, IsOpen, set_of, state_of};
ghost use Rattle.early_pages.specs.Views.{view, IsKept};
ghost use Rattle.table_pages.specs.Layout.{place};
ghost use Rattle.table_pages.specs.Carried.{data_pages, Holds};
ghost use Rattle.early_engine.specs.Pushing.{Pushes, Turns, sound};
ghost use Rattle.early_engine.specs.Safe.{AreTables};
ghost use Rattle.early_engine.specs.Seeing.{Shows, IsSelect, replied, selected};
ghost use Rattle.early_engine.specs.Causes.{IsNoShortage, IsNoFailure};
ghost use Rattle.early_engine.specs.declared.seeing.Glance.TheVariants.{Lost};

use crate::Ledger;
use crate::pushing::turn;
use crate::refusal::{refused, refused_at};
use crate::verdicts::{reply_by, verdict_on};
use early_pages::{Place, SnapPages};
use page_base::{Failed, Image, Name, NoMemory, PageId, SnapNo};
use page_dev::PageFile;
use page_fmt::check;
use plain_model::{Message, Reply, Stmt};
use std::alloc::Global;
use table_pages::{data_pages, is_blank, is_named, place};

/// What a page of a snapshot is to somebody who looks for a table.
#[derive(Clone, Copy, Debug, PartialEq, Eq)]
pub(crate) enum Glance {
    /// No table, and none behind it.
    Blank,
    /// The table.
    Named,
    /// Another table.
    Other,
    /// No page; the first wrong byte.
    Damaged(u32),
    /// It couldn't be read, and the snapshot is suspect now.
    Lost,
}

// Reads the snapshot's own copy of a page. Where that fails the snapshot turns suspect.
fn read_sparse<P: PageFile>(
    pages: &mut SnapPages<P>,
    ledger: &mut Ledger,
    s: SnapNo,
    p: PageId,
    into: &mut Image,
) -> Result<(), Failed>
    requires snap { IsOpen pages.old s }
    requires page { IsThere pages.old p }
    requires copied { is_copied (set_of pages.old s) p ≡ true }
    requires sound { state_of pages.old s ≢ Suspect }
    requires room { sound pages.old ≤ ledger.old.room }
    ensures pushes { Pushes pages.old pages.new }
    ensures turns { Turns ledger.old ledger.new pages.old pages.new }
    ensures read { OnOk result (IsKept pages.new s → into.new ≡ view pages.new s p) }
    ensures kept { OnOk result (state_of pages.new s ≢ Suspect) }
    ensures lost { OnErr result (state_of pages.new s ≡ Suspect) }
{
    let _ = pages.cat();
    match pages.fetch_sparse(s, p, into) {
        Ok(()) => Ok(()),
        Err(failed) => {
            turn(pages, ledger, s);
            Err(failed)
        }
    }
}

// Reads a page as the snapshot shows it.
fn read_page<P: PageFile>(
    pages: &mut SnapPages<P>,
    ledger: &mut Ledger,
    s: SnapNo,
    p: PageId,
    into: &mut Image,
) -> Result<(), Failed>
    requires snap { IsOpen pages.old s }
    requires page { IsThere pages.old p }
    requires sound { state_of pages.old s ≢ Suspect }
    requires room { sound pages.old ≤ ledger.old.room }
    ensures pushes { Pushes pages.old pages.new }
    ensures turns { Turns ledger.old ledger.new pages.old pages.new }
    ensures read { OnOk result (IsKept pages.new s → into.new ≡ view pages.new s p) }
    ensures kept { OnOk result (state_of pages.new s ≢ Suspect) }
    ensures lost { OnErr result (state_of pages.new s ≡ Suspect) }
{
    match pages.look(s, p) {
        Place::Sparse => read_sparse(pages, ledger, s, p, into),
        Place::Through => {
            into.set(pages.image(p));
            Ok(())
        }
    }
}

// What the bytes that were read are.
fn what_is(image: &Image, name: &Name) -> Glance
    ensures shows { Shows image.now name.now result }
    ensures read { result ≢ Lost }
{
    match check(image) {
        Err(bad) => Glance::Damaged(bad.at),
        Ok(()) if is_blank(image) => Glance::Blank,
        Ok(()) if is_named(image, name) => Glance::Named,
        Ok(()) => Glance::Other,
    }
}

// Reads the page of table `i`, and says what it is.
fn look_for<P: PageFile>(
    pages: &mut SnapPages<P>,
    ledger: &mut Ledger,
    s: SnapNo,
    i: u32,
    name: &Name,
    image: &mut Image,
) -> Glance
    requires snap { IsOpen pages.old s }
    requires page { i < data_pages pages.old }
    requires few { data_pages pages.old < 4294967295 }
    requires sound { state_of pages.old s ≢ Suspect }
    requires room { sound pages.old ≤ ledger.old.room }
    ensures pushes { Pushes pages.old pages.new }
    ensures turns { Turns ledger.old ledger.new pages.old pages.new }
    ensures shows { Shows image.new name.now result }
    ensures read { result ≢ Lost → IsKept pages.new s → image.new ≡ view pages.new s (place i) }
    ensures kept { result ≢ Lost → state_of pages.new s ≢ Suspect }
    ensures lost { result ≡ Lost → state_of pages.new s ≡ Suspect }
{
    match read_page(pages, ledger, s, place(i), image) {
        Ok(()) => what_is(image, name),
        Err(_) => Glance::Lost,
    }
}

// What a SELECT answers over the table that was found.
fn shown(alloc: Global, image: &Image, stmt: &Stmt, name: &Name) -> Result<Reply, NoMemory>
    requires page { IsPage image.now }
    requires select { IsSelect stmt.now name.now }
    ensures reply { IfOk result (λ reply. (held : List ℕ) (t : Table) → Holds image.now held t → reply ≡ replied stmt.now (Some t)) }
    ensures room { IfOk result IsNoShortage }
    ensures volume { IfOk result IsNoFailure }
{
    Ok(reply_by(verdict_on(alloc, image, stmt)?))
}

// The reply of a SELECT that found the table, or NO_MEMORY.
fn shown_or_none(alloc: Global, image: &Image, stmt: &Stmt, name: &Name) -> Reply
    requires page { IsPage image.now }
    requires select { IsSelect stmt.now name.now }
    ensures reply { (result ≡ Msg (plain Message.NO_MEMORY)) ⊎ ((held : List ℕ) (t : Table) → Holds image.now held t → result ≡ replied stmt.now (Some t)) }
    ensures room { IsNoShortage result }
    ensures volume { IsNoFailure result }
{
    match shown(alloc, image, stmt, name) {
        Ok(reply) => reply,
        Err(_) => refused(Message::NO_MEMORY),
    }
}

// Goes over the pages up to the table's.
fn search<P: PageFile>(
    alloc: Global,
    pages: &mut SnapPages<P>,
    ledger: &mut Ledger,
    s: SnapNo,
    stmt: &Stmt,
    name: &Name,
    image: &mut Image,
) -> Reply
    requires select { IsSelect stmt.now name.now }
    requires snap { IsOpen pages.old s }
    requires few { data_pages pages.old < 4294967295 }
    requires sound { state_of pages.old s ≢ Suspect }
    requires room { sound pages.old ≤ ledger.old.room }
    ensures pushes { Pushes pages.old pages.new }
    ensures turns { Turns ledger.old ledger.new pages.old pages.new }
    ensures lost { state_of pages.new s ≡ Suspect → result ≡ Msg (plain Message.SUSPECT) }
    ensures reply { IsKept pages.new s → (tables : Tables) → AreTables (data_pages pages.new) (view pages.new s) tables →
        (result ≡ Msg (plain Message.NO_MEMORY)) ⊎ (result ≡ selected stmt.now name.now tables) }
    ensures room { IsNoShortage result }
    ensures volume { IsNoFailure result }
{
    for i in 0..data_pages(pages) {
        match look_for(pages, ledger, s, i, name, image) {
            Glance::Lost => return refused(Message::SUSPECT),
            Glance::Damaged(at) => return refused_at(Message::DAMAGED, u64::from(at)),
            Glance::Blank => return refused(Message::NO_TABLE),
            Glance::Named => return shown_or_none(alloc, image, stmt, name),
            Glance::Other => {}
        }
    }
    refused(Message::NO_TABLE)
}

/// The reply of a SELECT from a table of a snapshot that isn't suspect: `NO_TABLE` where the snapshot has no such
/// table, `SUSPECT` where its files failed meanwhile, `NO_MEMORY` for want of memory. Where the files
/// don't tell what they hold, it may also be `DAMAGED`, with the first wrong byte of a page.
pub(crate) fn select_in<P: PageFile>(
    alloc: Global,
    pages: &mut SnapPages<P>,
    ledger: &mut Ledger,
    s: SnapNo,
    stmt: &Stmt,
    name: &Name,
) -> Reply
    requires select { IsSelect stmt.now name.now }
    requires snap { IsOpen pages.old s }
    requires few { data_pages pages.old < 4294967295 }
    requires sound { state_of pages.old s ≢ Suspect }
    requires room { sound pages.old ≤ ledger.old.room }
    ensures pushes { Pushes pages.old pages.new }
    ensures turns { Turns ledger.old ledger.new pages.old pages.new }
    ensures lost { state_of pages.new s ≡ Suspect → result ≡ Msg (plain Message.SUSPECT) }
    ensures reply { IsKept pages.new s → (tables : Tables) → AreTables (data_pages pages.new) (view pages.new s) tables →
        (result ≡ Msg (plain Message.NO_MEMORY)) ⊎ (result ≡ selected stmt.now name.now tables) }
    ensures room { IsNoShortage result }
    ensures volume { IsNoFailure result }
{
    match Image::blank(alloc) {
        Ok(mut image) => search(alloc, pages, ledger, s, stmt, name, &mut image),
        Err(_) => refused(Message::NO_MEMORY),
    }
}
