//! The catalog of snapshots: a list in order of cuts, with room for eight.

ghost use Rattle.std.specs.Prelude.{◌≡◌, ◌≢◌, ◌+◌, ◌-◌, ◌^◌, ◌<◌, ◌≤◌, true, false, IfOk, IsTrue, MatchOption, length};
ghost use Rattle.early_pages.specs.Sparse.{HasSparse, is_copied, Copies, Reads, marked};
ghost use Rattle.early_pages.specs.Catalog.{HasSnap, IsCatalog, LacksName, IsNamed, empty, snap_at, with_new, without, with_state, with_set};

use crate::snapshot::Snapshot;
use crate::{SnapState, SparseSet};
use page_base::{Failed, FileName, Image, ListOf, Name, NoMemory, PageId, SnapNo};
use page_dev::PageFile;
use std::alloc::Global;
use std::marker::Model;

/// Names of files, in order.
pub type FileNames = ListOf<FileName>;

/// The snapshots in order of their cuts, at most eight.
#[derive(Drop)]
pub struct SnapCat<P: PageFile> {
    snaps: Vec<Snapshot<P>>,
    next_cut: u64,
}

impl<P: PageFile> Model for SnapCat<P> {
    ghost use Rattle.std.specs.Prelude.{◌≤◌, vec_capacity};
    ghost use Rattle.early_pages.specs.Catalog.{Catalog, IsCatalog};

    ghost Value = { Catalog };

    ghost view = { λ a. record { snaps = a.snaps.items; next_cut = a.next_cut } };

    ghost invariant = { λ a. IsCatalog (record { snaps = a.snaps.items; next_cut = a.next_cut }) × (8 ≤ vec_capacity a.snaps) };
}

impl<P: PageFile> SnapCat<P> {
    /// No snapshot, and room for eight.
    pub fn new(alloc: Global, next_cut: u64) -> Result<SnapCat<P>, NoMemory>
        ensures { IfOk result (λ cat. cat ≡ empty next_cut) }
    {
        let snaps = Vec::with_capacity(alloc, 8)?;
        Ok(SnapCat { snaps, next_cut })
    }

    /// How many snapshots there are, 0 to 8.
    pub fn count(&self) -> u8
        ensures count { result ≡ length self.now.snaps }
        ensures catalog { IsCatalog self.now }
    {
        self.snaps.len() as u8
    }

    /// The number of the next cut.
    pub fn next_cut(&self) -> u64
        ensures { result ≡ self.now.next_cut }
    {
        self.next_cut
    }

    /// A snapshot's name.
    pub fn name(&self, s: SnapNo) -> &Name
        requires { HasSnap self.now s }
        ensures { result.now ≡ (snap_at self.now s).name }
    {
        &self.snaps[s.0 as usize].name
    }

    /// The names of a snapshot's sparse files, one for each data file.
    pub fn files(&self, s: SnapNo) -> &FileNames
        requires { HasSnap self.now s }
        ensures { result.now ≡ (snap_at self.now s).files }
    {
        &self.snaps[s.0 as usize].files
    }

    /// The number of a snapshot's cut.
    pub fn cut(&self, s: SnapNo) -> u64
        requires { HasSnap self.now s }
        ensures { result ≡ (snap_at self.now s).cut }
    {
        self.snaps[s.0 as usize].cut
    }

    /// A snapshot's state.
    pub fn state(&self, s: SnapNo) -> SnapState
        requires { HasSnap self.now s }
        ensures { result ≡ (snap_at self.now s).state }
    {
        self.snaps[s.0 as usize].state
    }

    /// The place of the snapshot of this name. None exactly where there is none.
    pub fn find(&self, name: &Name) -> Option<SnapNo>
        ensures { MatchOption result (LacksName self.now name.now) (IsNamed self.now name.now) }
    {
        for s in 0..self.snaps.len() {
            if self.snaps[s].name.is_same(name) {
                return Some(SnapNo(s as u8));
            }
        }
        None
    }

    // A snapshot's sparse files.
    pub(crate) fn set(&self, s: SnapNo) -> &SparseSet<P>
        requires { HasSnap self.now s }
        ensures { result.now ≡ (snap_at self.now s).set }
    {
        &self.snaps[s.0 as usize].set
    }

    // Makes this a snapshot's state.
    pub(crate) fn set_state(&mut self, s: SnapNo, to: SnapState)
        requires { HasSnap self.old s }
        ensures { self.new ≡ with_state self.old s to }
    {
        let snap = &mut self.snaps[s.0 as usize];
        snap.state = to;
    }

    // A new snapshot, in the making.
    pub(crate) fn add(&mut self, name: Name, files: FileNames, set: SparseSet<P>) -> SnapNo
        requires few { length self.old.snaps < 8 }
        requires name { LacksName self.old name }
        requires cut { self.old.next_cut < 2 ^ 64 - 1 }
        ensures place { result.0 ≡ length self.old.snaps }
        ensures added { self.new ≡ with_new self.old name files set }
    {
        let place = self.snaps.len() as u8;
        self.snaps.push_reserved(Snapshot {
            name,
            files,
            cut: self.next_cut,
            state: SnapState::Making,
            set,
        });
        self.next_cut += 1;
        SnapNo(place)
    }

    // Takes a snapshot out. The later ones close up.
    pub(crate) fn remove(&mut self, s: SnapNo) -> SparseSet<P>
        requires { HasSnap self.old s }
        ensures set { result ≡ (snap_at self.old s).set }
        ensures removed { self.new ≡ without self.old s }
    {
        let Snapshot { set, .. } = self.snaps.remove(s.0 as usize);
        set
    }

    // Reads a page of a snapshot's sparse files.
    pub(crate) fn read(&mut self, s: SnapNo, p: PageId, into: &mut Image) -> Result<(), Failed>
        requires snap { HasSnap self.old s }
        requires page { HasSparse (snap_at self.old s).set p }
        requires copied { is_copied (snap_at self.old s).set p ≡ true }
        ensures reads { Reads p into.new (snap_at self.old s).set (snap_at self.new s).set result }
        ensures only { self.new ≡ with_set self.old s (snap_at self.new s).set }
    {
        let snap = &mut self.snaps[s.0 as usize];
        snap.set.read(p, into)
    }

    // Writes a page of a snapshot's sparse files.
    pub(crate) fn copy(&mut self, s: SnapNo, p: PageId, image: &Image) -> Result<(), Failed>
        requires snap { HasSnap self.old s }
        requires page { HasSparse (snap_at self.old s).set p }
        ensures copies { Copies p image.now (snap_at self.old s).set (snap_at self.new s).set result }
        ensures only { self.new ≡ with_set self.old s (snap_at self.new s).set }
    {
        let snap = &mut self.snaps[s.0 as usize];
        snap.set.copy(p, image)
    }

    // Puts a page into a snapshot's map.
    pub(crate) fn mark(&mut self, s: SnapNo, p: PageId)
        requires snap { HasSnap self.old s }
        requires page { HasSparse (snap_at self.old s).set p }
        ensures marked { self.new ≡ with_set self.old s (marked (snap_at self.old s).set p) }
        ensures now { is_copied (marked (snap_at self.old s).set p) p ≡ true }
    {
        let snap = &mut self.snaps[s.0 as usize];
        snap.set.mark(p);
    }
}
