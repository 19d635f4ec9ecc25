//! The files of a volume in memory, by their names.

ghost use Rattle.std.specs.Prelude.{◌≡◌, ◌≢◌, ◌*◌, IsTrue, true, false, Some, Err, IfOk, OnOk, OnErr, length};
ghost use Rattle.std.specs.FinMap as map;
ghost use Rattle.std.specs.FinSet as set;
ghost use Rattle.page_dev.specs.Volume.{Kept, Lies, Out, out_after, Creates, TakesPages, TakesLog};
ghost use Rattle.mem_dev.specs.Store.{content_of, are_images};
ghost use Rattle.mem_dev.specs.Out.{out_of};
ghost use Rattle.mem_dev.specs.Shelf.{lies, kept_at, resized};

use crate::kept_file::KeptFile;
use crate::name_map::NameMap;
use crate::page_store::PageStore;
use page_base::{FileName, NoMemory};
use page_dev::VolRefusal;
use std::alloc::Global;
use std::marker::Model;

/// Files by their names, of which those that are out have a mark.
#[derive(Drop)]
pub(crate) struct Shelf {
    files: NameMap<KeptFile>,
}

impl Model for Shelf {
    ghost use Rattle.page_dev.specs.Volume.{Folder};
    ghost use Rattle.std.specs.FinMap as map;
    ghost use Rattle.std.specs.Coded.{codes};

    ghost Value = { Folder };

    ghost coded = { Prim.hlevel (codes, map.code) };

    ghost view = { λ a. a.files };
}

impl Shelf {
    /// No files.
    #[tactic(auto, using(crate::proofs::OutLemmas::none_out))]
    pub(crate) fn new(alloc: Global) -> Shelf
        ensures folder { result ≡ map.empty }
        ensures out { out_of result ≡ set.empty }
    {
        Shelf {
            files: NameMap::new(alloc),
        }
    }

    /// Whether there is a file of this name; one that is out counts.
    pub(crate) fn has(&self, name: &FileName) -> bool
        ensures { result ≡ map.contains_key self.now name.now }
    {
        self.files.has(name)
    }

    /// Gives a name that is free to a file that is out from the start.
    #[tactic(auto, using(crate::proofs::OutLemmas::created_out))]
    pub(crate) fn create(&mut self, name: &FileName) -> Result<(), VolRefusal>
        ensures created { Creates name.now self.old self.new result }
        ensures same { OnErr result (self.new ≡ self.old) }
        ensures out { out_of self.new ≡ out_after (out_of self.old) name.now result }
        ensures sure { result ≢ Err VolRefusal.Failed }
    {
        if self.files.has(name) {
            return Err(VolRefusal::Exists);
        }
        match self.files.insert(name, KeptFile::gone()) {
            Ok(()) => Ok(()),
            Err(_) => Err(VolRefusal::Memory),
        }
    }

    /// Takes a file as so many pages.
    #[tactic(auto, using(crate::proofs::OutLemmas::pages_taken_out))]
    pub(crate) fn take_store(
        &mut self,
        alloc: Global,
        name: &FileName,
        pages: u32,
    ) -> Result<PageStore, VolRefusal>
        requires { set.contains (out_of self.old) name.now ≡ false }
        ensures taken { TakesPages are_images content_of name.now pages self.old self.new result }
        ensures out { out_of self.new ≡ out_after (out_of self.old) name.now result }
        ensures count { IfOk result (λ store. length store ≡ pages) }
        ensures sure { result ≢ Err VolRefusal.Failed }
    {
        if !self.files.has(name) {
            return Err(VolRefusal::Absent);
        }
        let file = self.files.replace(name, KeptFile::gone());
        match file.into_store(alloc, pages) {
            Ok(store) => Ok(store),
            Err(refused) => {
                let _ = self.files.replace(name, refused.file);
                Err(refused.why)
            }
        }
    }

    /// Takes a file as bytes.
    #[tactic(auto, using(crate::proofs::OutLemmas::log_taken_out))]
    pub(crate) fn take_bytes(
        &mut self,
        alloc: Global,
        name: &FileName,
    ) -> Result<Vec<u8>, VolRefusal>
        requires { set.contains (out_of self.old) name.now ≡ false }
        ensures taken { TakesLog (λ _. true) (λ bytes. bytes.items) name.now self.old self.new result }
        ensures out { out_of self.new ≡ out_after (out_of self.old) name.now result }
        ensures sure { result ≢ Err VolRefusal.Failed }
    {
        if !self.files.has(name) {
            return Err(VolRefusal::Absent);
        }
        let file = self.files.replace(name, KeptFile::gone());
        match file.into_bytes(alloc) {
            Ok(bytes) => Ok(bytes),
            Err(file) => {
                let _ = self.files.replace(name, file);
                Err(VolRefusal::Memory)
            }
        }
    }

    /// Puts a file back to its name's place.
    #[tactic(auto, using(crate::proofs::OutLemmas::put_out, crate::proofs::OutLemmas::place_of_out))]
    pub(crate) fn put(&mut self, name: &FileName, file: KeptFile)
        requires name { set.contains (out_of self.old) name.now ≡ true }
        requires file { file ≢ Out }
        ensures folder { self.new ≡ map.insert self.old name.now file }
        ensures out { out_of self.new ≡ set.remove (out_of self.old) name.now }
    {
        let _ = self.files.replace(name, file);
    }

    /// Frees a name.
    #[tactic(auto, using(crate::proofs::OutLemmas::removed_out))]
    pub(crate) fn remove(&mut self, name: &FileName)
        requires { set.contains (out_of self.old) name.now ≡ false }
        ensures folder { self.new ≡ map.remove self.old name.now }
        ensures out { out_of self.new ≡ out_of self.old }
    {
        self.files.remove(name);
    }

    /// Cuts a file to so many bytes, or adds zeros to it. After want of memory it is as before.
    #[tactic(auto, using(crate::proofs::OutLemmas::resized_out))]
    pub(crate) fn set_length(
        &mut self,
        alloc: Global,
        name: &FileName,
        bytes: u64,
    ) -> Result<(), NoMemory>
        requires { lies (map.get self.old name.now) ≡ true }
        ensures ok { OnOk result (self.new ≡ map.insert self.old name.now (Lies (resized bytes (kept_at self.old name.now)))) }
        ensures err { OnErr result (self.new ≡ self.old) }
        ensures out { out_of self.new ≡ out_of self.old }
    {
        let Some(file) = self.files.get(name) else {
            return Ok(());
        };
        let mut content = file.copy(alloc)?;
        content.resize(bytes as usize, 0)?;
        let _ = self.files.replace(name, KeptFile::bytes(content));
        Ok(())
    }
}
