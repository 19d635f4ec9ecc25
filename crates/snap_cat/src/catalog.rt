//! How the catalog is kept: as a list in order of cuts, with room for eight from the start.

ghost use Rattle.std.specs.Prelude.{◌≡◌, ◌≢◌, ◌+◌, ◌-◌, ◌^◌, ◌<◌, ◌≤◌, true, false, IfOk, IsTrue, MatchOption, length};
ghost use Rattle.std.specs.Borrow.{Lends, sem};
ghost use Rattle.rec_log.specs.contracts.transaction.Work.{the_row as work_row};
ghost use Rattle.snap_cat.specs.Catalog.{HasSnap, IsCatalog, LacksName, IsNamed, empty, snap_at, with_new, with_opened, IsBehind, without, with_state, with_owed};
ghost use Rattle.snap_cat.specs.contracts.catalog.SnapCat.{the_row};

use crate::SnapState;
use crate::snapshot::Snapshot;
use page_base::{FileName, ListOf, Name, NoMemory, SnapNo};
use rec_log::Work;
use std::alloc::Global;
use std::marker::Model;

/// Names of files, in order.
pub type FileNames = ListOf<FileName>;

/// The snapshots in order of their cuts, at most eight.
#[derive(Drop)]
pub struct SnapCat {
    snaps: Vec<Snapshot>,
    next_cut: u64,
}

impl Model for SnapCat {
    ghost use Rattle.std.specs.Prelude.{◌≤◌, vec_capacity};
    ghost use Rattle.snap_cat.specs.Catalog.{Catalog, IsCatalog};

    ghost Value = { Catalog };

    ghost view = { λ a. record { snaps = a.snaps.items; next_cut = a.next_cut } };

    ghost invariant = { λ a. IsCatalog (record { snaps = a.snaps.items; next_cut = a.next_cut }) × (8 ≤ vec_capacity a.snaps) };
}

impl SnapCat {
    /// No snapshot, and room for eight.
    pub fn new(alloc: Global, next_cut: u64) -> Result<SnapCat, NoMemory>
        ensures { IfOk result (λ cat. cat ≡ empty next_cut) }
    {
        let snaps = Vec::with_capacity(alloc, 8)?;
        Ok(SnapCat { snaps, next_cut })
    }

    /// How many snapshots there are, 0 to 8.
    pub fn count(&self) -> u8
        ensures count { result ≡ length self.now.snaps }
        ensures catalog { IsCatalog self.now }
    {
        self.snaps.len() as u8
    }

    /// The number of the next cut.
    pub fn next_cut(&self) -> u64
        ensures { result ≡ self.now.next_cut }
    {
        self.next_cut
    }

    /// A snapshot's name.
    pub fn name(&self, s: SnapNo) -> &Name
        requires { HasSnap self.now s }
        ensures { result.now ≡ (snap_at self.now s).name }
    {
        &self.snaps[s.0 as usize].name
    }

    /// The names of a snapshot's sparse files, one for each data file.
    pub fn files(&self, s: SnapNo) -> &FileNames
        requires { HasSnap self.now s }
        ensures { result.now ≡ (snap_at self.now s).files }
    {
        &self.snaps[s.0 as usize].files
    }

    /// The number of a snapshot's cut.
    pub fn cut(&self, s: SnapNo) -> u64
        requires { HasSnap self.now s }
        ensures { result ≡ (snap_at self.now s).cut }
    {
        self.snaps[s.0 as usize].cut
    }

    /// A snapshot's state.
    pub fn state(&self, s: SnapNo) -> SnapState
        requires { HasSnap self.now s }
        ensures { result ≡ (snap_at self.now s).state }
    {
        self.snaps[s.0 as usize].state
    }

    /// The place of the snapshot of this name. None exactly where there is none.
    pub fn find(&self, name: &Name) -> Option<SnapNo>
        ensures { MatchOption result (LacksName self.now name.now) (IsNamed self.now name.now) }
    {
        for s in 0..self.snaps.len() {
            if self.snaps[s].name.is_same(name) {
                return Some(SnapNo(s as u8));
            }
        }
        None
    }

    /// Makes this a snapshot's state.
    pub fn set_state(&mut self, s: SnapNo, to: SnapState)
        requires { HasSnap self.old s }
        ensures { self.new ≡ with_state self.old s to }
    {
        let snap = &mut self.snaps[s.0 as usize];
        snap.state = to;
    }

    /// The records that a snapshot owes: those that are still to be taken back from its pages.
    pub fn owes(&self, s: SnapNo) -> &Work
        requires { HasSnap self.now s }
        ensures { result.now ≡ (snap_at self.now s).owed }
    {
        &self.snaps[s.0 as usize].owed
    }

    /// The same records, to be changed in place.
    pub fn owed(&mut self, s: SnapNo) -> &mut Work
        requires { HasSnap self.old s }
        ensures* lends { sem 𝓛 (Lends the_row work_row self.entry result (with_owed self.entry.now s)) }
        ensures value { result.now ≡ (snap_at self.entry.now s).owed }
    {
        self.snaps[s.0 as usize].owed_mut()
    }

    /// A new snapshot, in the making, behind all others. It has the next cut, whose number rises.
    pub fn add(&mut self, name: Name, files: FileNames, owed: Work) -> SnapNo
        requires few { length self.old.snaps < 8 }
        requires name { LacksName self.old name }
        requires cut { self.old.next_cut < 2 ^ 64 - 1 }
        ensures place { result.0 ≡ length self.old.snaps }
        ensures added { self.new ≡ with_new self.old name files owed }
    {
        let place = self.snaps.len() as u8;
        self.snaps.push_reserved(Snapshot {
            name,
            files,
            cut: self.next_cut,
            state: SnapState::Making,
            owed,
        });
        self.next_cut += 1;
        SnapNo(place)
    }

    /// Takes in a snapshot of an opened catalog, behind all others; it owes nothing. The next cut stays.
    pub fn opened(
        &mut self,
        alloc: Global,
        name: Name,
        files: FileNames,
        cut: u64,
        state: SnapState,
    ) -> SnapNo
        requires few { length self.old.snaps < 8 }
        requires name { LacksName self.old name }
        requires above { IsBehind self.old cut }
        requires below { cut < self.old.next_cut }
        ensures place { result.0 ≡ length self.old.snaps }
        ensures added { self.new ≡ with_opened self.old name files cut state }
    {
        let place = self.snaps.len() as u8;
        self.snaps.push_reserved(Snapshot {
            name,
            files,
            cut,
            state,
            owed: Work::none(alloc),
        });
        SnapNo(place)
    }

    /// Takes a snapshot out. The later ones close up.
    pub fn remove(&mut self, s: SnapNo)
        requires { HasSnap self.old s }
        ensures { self.new ≡ without self.old s }
    {
        let _gone = self.snaps.remove(s.0 as usize);
    }
}
