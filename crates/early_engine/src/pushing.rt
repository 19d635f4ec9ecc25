//! A page is copied to each snapshot that lacks it before it changes; a snapshot whose copy fails turns suspect.

ghost use Rattle.std.specs.Prelude.{◌≡◌, ◌↔◌, ◌<◌, ◌≤◌, IsTrue};
ghost use Rattle.page_base.specs.declared.numbers.PageId.{PageId};
ghost use Rattle.plain_model.specs.declared.event.Event.TheVariants.{Turned};
ghost use Rattle.early_pages.specs.Catalog.{with_state};
ghost use Rattle.early_pages.specs.Shown.{IsThere, IsOpen, catalog, with_catalog};
ghost use Rattle.early_pages.specs.Views.{IsDue, IsPushed, KeepsViews, NoneNewDue};
ghost use Rattle.early_pages.specs.declared.state.SnapState.TheVariants.{Suspect};
ghost use Rattle.early_engine.specs.Pushing.{Pushes, Turns, sound, name_of};
ghost use Rattle.early_engine.specs.Entering.{entered};

use crate::Ledger;
use early_pages::{Place, SnapPages, SnapState};
use page_base::{PageId, SnapNo};
use page_dev::PageFile;
use plain_model::Event;

// A snapshot whose files failed turns suspect, and the history says so.
pub(crate) fn turn<P: PageFile>(pages: &mut SnapPages<P>, ledger: &mut Ledger, s: SnapNo)
    requires snap { IsOpen pages.old s }
    requires room { 0 < ledger.old.room }
    ensures only { pages.new ≡ with_catalog pages.old (with_state (catalog pages.old) s Suspect) }
    ensures entered { ledger.new ≡ entered ledger.old (Turned (name_of pages.old s)) }
    ensures views { KeepsViews pages.old pages.new }
    ensures dues { (p : PageId) → NoneNewDue pages.old pages.new p }
    ensures done { (p : PageId) → ¬ IsDue pages.new p s }
{
    let snap = *pages.cat().name(s);
    pages.set_state(s, SnapState::Suspect);
    ledger.enter(Event::Turned { snap });
}

// Copies the page to a snapshot that lacks it; where that fails the snapshot turns suspect.
fn push<P: PageFile>(pages: &mut SnapPages<P>, ledger: &mut Ledger, s: SnapNo, p: PageId)
    requires page { IsThere pages.old p }
    requires snap { IsOpen pages.old s }
    requires due { IsDue pages.old p s }
    requires room { sound pages.old ≤ ledger.old.room }
    ensures pushes { Pushes pages.old pages.new }
    ensures turns { Turns ledger.old ledger.new pages.old pages.new }
    ensures dues { NoneNewDue pages.old pages.new p }
    ensures done { ¬ IsDue pages.new p s }
{
    let _ = pages.cat();
    match pages.push_copy(s, p) {
        Ok(()) => pages.push_mark(s, p),
        Err(_) => turn(pages, ledger, s),
    }
}

fn is_due<P: PageFile>(pages: &SnapPages<P>, s: SnapNo, p: PageId) -> bool
    requires { IsOpen pages.now s }
    ensures { IsTrue result ↔ IsDue pages.now p s }
{
    pages.cat().state(s) != SnapState::Suspect && pages.look(s, p) == Place::Through
}

fn push_if_due<P: PageFile>(pages: &mut SnapPages<P>, ledger: &mut Ledger, s: SnapNo, p: PageId)
    requires page { IsThere pages.old p }
    requires snap { IsOpen pages.old s }
    requires room { sound pages.old ≤ ledger.old.room }
    ensures pushes { Pushes pages.old pages.new }
    ensures turns { Turns ledger.old ledger.new pages.old pages.new }
    ensures dues { NoneNewDue pages.old pages.new p }
    ensures done { ¬ IsDue pages.new p s }
{
    if is_due(pages, s, p) {
        push(pages, ledger, s, p);
    }
}

/// Copies the page to every snapshot that lacks it and isn't suspect, the lowest first. A snapshot whose copy fails
/// turns suspect, and the history says so. Takes no memory.
pub(crate) fn push_all<P: PageFile>(pages: &mut SnapPages<P>, ledger: &mut Ledger, p: PageId)
    requires page { IsThere pages.old p }
    requires room { sound pages.old ≤ ledger.old.room }
    ensures pushed { IsPushed pages.new p }
    ensures pushes { Pushes pages.old pages.new }
    ensures turns { Turns ledger.old ledger.new pages.old pages.new }
{
    for s in 0..pages.cat().count() {
        push_if_due(pages, ledger, SnapNo(s), p);
    }
}
