//! The latch of each session, in an array with a place for each of them, so that no call takes memory.

ghost use Rattle.std.specs.Prelude.{◌≡◌, ◌≢◌, ◌∷◌, None, OnOk, OnErr, IfErr, MatchOption, length};
ghost use Rattle.latch_book.specs.Latches.{IsSession, IsLatchBook, Holds, IsFree, IsLowestInTheWay, latch_of, with_latch, without_latch, no_latches};
ghost use Rattle.latch_book.specs.Inside.{blocks};
ghost use Rattle.page_base.specs.declared.numbers.SessNo.{SessNo};
ghost use Rattle.latch_book.specs.declared.latch.LatchMode.TheVariants.{Sh, Ex};

use crate::{Held, Latch, LatchMode};
use page_base::{PageId, SessNo};
use std::marker::Model;

/// Who holds which page: for each session, 1 to 64, the one latch that it holds, if any.
#[derive(Debug, Drop)]
pub struct LatchBook {
    // the latch of session k stands at k - 1
    latches: [Option<Latch>; 64],
}

impl Model for LatchBook {
    ghost use Rattle.std.specs.Prelude.{None, ◌∷◌};
    ghost use Rattle.latch_book.specs.Latches.{Latches, IsLatchBook};

    ghost Value = { Latches };

    ghost view = { λ b. None ∷ b.latches };

    ghost invariant = { λ b. IsLatchBook (None ∷ b.latches) };
}

// Whether a latch is on this page and conflicts with the mode.
fn blocks(latch: Option<Latch>, page: PageId, mode: LatchMode) -> bool
    ensures { result ≡ blocks latch page mode }
{
    match latch {
        Some(held) => held.page == page && held.mode.conflicts(mode),
        None => false,
    }
}

// The lowest session that is in the way of one that holds nothing.
fn lowest_in_way(
    latches: &[Option<Latch>],
    who: SessNo,
    page: PageId,
    mode: LatchMode,
) -> Option<SessNo>
    requires places { length latches.now ≡ 64 }
    requires none { latch_of (None ∷ latches.now) who ≡ None }
    ensures { MatchOption result
        (IsFree (None ∷ latches.now) who page mode)
        (IsLowestInTheWay (None ∷ latches.now) who page mode) }
{
    for (i, latch) in latches.iter().enumerate() {
        if blocks(*latch, page, mode) {
            return Some(SessNo(i as u8 + 1));
        }
    }
    None
}

impl LatchBook {
    /// A book in which nobody holds a page.
    pub fn new() -> LatchBook
        ensures is { result ≡ no_latches }
        ensures none { (k : SessNo) → latch_of result k ≡ None }
        ensures book { IsLatchBook result }
    {
        LatchBook {
            latches: [None; 64],
        }
    }

    // A latch in this mode, or the lowest session that is in its way.
    fn try_in(&mut self, who: SessNo, page: PageId, mode: LatchMode) -> Result<(), Held>
        requires session { IsSession who }
        requires none { latch_of self.old who ≡ None }
        ensures taken { OnOk result (self.new ≡ with_latch self.old who page mode) }
        ensures holds { OnOk result (Holds self.new who page mode) }
        ensures free { OnOk result (IsFree self.old who page mode) }
        ensures held { IfErr result (λ held. IsLowestInTheWay self.old who page mode held.by) }
        ensures same { OnErr result (self.new ≡ self.old) }
        ensures others { (k : SessNo) → k ≢ who → latch_of self.new k ≡ latch_of self.old k }
        ensures book { IsLatchBook self.new }
    {
        match lowest_in_way(&self.latches, who, page, mode) {
            Some(by) => Err(Held { by }),
            None => {
                self.latches[who.0 as usize - 1] = Some(Latch { page, mode });
                Ok(())
            }
        }
    }

    /// Takes a shared latch for a session that holds nothing.
    /// `Held` exactly where another session holds the page in EX.
    pub fn try_sh(&mut self, who: SessNo, page: PageId) -> Result<(), Held>
        requires session { IsSession who }
        requires none { latch_of self.old who ≡ None }
        ensures taken { OnOk result (self.new ≡ with_latch self.old who page Sh) }
        ensures holds { OnOk result (Holds self.new who page Sh) }
        ensures free { OnOk result (IsFree self.old who page Sh) }
        ensures held { IfErr result (λ held. IsLowestInTheWay self.old who page Sh held.by) }
        ensures same { OnErr result (self.new ≡ self.old) }
        ensures others { (k : SessNo) → k ≢ who → latch_of self.new k ≡ latch_of self.old k }
        ensures book { IsLatchBook self.new }
    {
        self.try_in(who, page, LatchMode::Sh)
    }

    /// Takes an exclusive latch for a session that holds nothing.
    /// `Held` exactly where another session holds the page.
    pub fn try_ex(&mut self, who: SessNo, page: PageId) -> Result<(), Held>
        requires session { IsSession who }
        requires none { latch_of self.old who ≡ None }
        ensures taken { OnOk result (self.new ≡ with_latch self.old who page Ex) }
        ensures holds { OnOk result (Holds self.new who page Ex) }
        ensures free { OnOk result (IsFree self.old who page Ex) }
        ensures held { IfErr result (λ held. IsLowestInTheWay self.old who page Ex held.by) }
        ensures same { OnErr result (self.new ≡ self.old) }
        ensures others { (k : SessNo) → k ≢ who → latch_of self.new k ≡ latch_of self.old k }
        ensures book { IsLatchBook self.new }
    {
        self.try_in(who, page, LatchMode::Ex)
    }

    /// Lets go of the latch of a session; without one nothing changes.
    pub fn release(&mut self, who: SessNo)
        requires { IsSession who }
        ensures released { self.new ≡ without_latch self.old who }
        ensures others { (k : SessNo) → k ≢ who → latch_of self.new k ≡ latch_of self.old k }
        ensures book { IsLatchBook self.new }
    {
        self.latches[who.0 as usize - 1] = None;
    }
}
