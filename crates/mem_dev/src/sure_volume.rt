//! A volume in memory that never fails.

ghost use Rattle.std.specs.Prelude.{◌≡◌, ◌≢◌, IsTrue, true, false, Some, [], Err, IsOk, IfOk, IfErr, OnErr, length};
ghost use Rattle.std.specs.List.{concat};
ghost use Rattle.std.specs.FinMap as map;
ghost use Rattle.std.specs.FinSet as set;
ghost use Rattle.page_dev.specs.PageFile.{new_pages};
ghost use Rattle.page_dev.specs.Volume.{Kept, Lies, Folder, out_after, Creates, TakesPages, TakesLog, Puts, Removes, IsOfCreate, IsOfTakePages, IsOfTakeLog};
ghost use Rattle.mem_dev.specs.Store.{are_sized};
ghost use Rattle.mem_dev.specs.Out.{out_of, contains-out_of};

use crate::kept_file::KeptFile;
use crate::logs::SureLog;
use crate::page_store::PageStore;
use crate::pages::SurePages;
use crate::shelf::Shelf;
use page_base::{Failed, FileName, NoMemory};
use page_dev::{VolRefusal, Volume};
use std::alloc::Global;
use std::marker::Model;

/// A volume in memory that never fails, nor do its files: its counts of faults are the constant 0. It tells its content.
#[derive(Drop)]
pub struct SureVolume {
    shelf: Shelf,
    alloc: Global,
}

impl Model for SureVolume {
    ghost use Rattle.page_dev.specs.Volume.{Folder};
    ghost use Rattle.std.specs.FinMap as map;
    ghost use Rattle.std.specs.Coded.{codes};

    ghost Value = { Folder };

    ghost coded = { Prim.hlevel (codes, map.code) };

    ghost view = { λ a. a.shelf };
}

impl SureVolume {
    /// A volume without files.
    pub fn new(alloc: Global) -> Result<SureVolume, NoMemory>
        ensures folder { IfOk result (λ volume. volume ≡ map.empty) }
        ensures out { IfOk result (λ volume. out_of volume ≡ set.empty) }
    {
        Ok(SureVolume {
            shelf: Shelf::new(alloc),
            alloc,
        })
    }
}

impl Volume for SureVolume {
    type Pages = SurePages;

    type Log = SureLog;

    ghost tells = { λ _. true };

    ghost folder = { λ volume. volume };

    ghost out = { λ volume. out_of volume };

    ghost failures = { λ _. 0 };

    ghost file_failures = { λ _. 0 };

    ghost marked = { λ volume t name. contains-out_of volume name };

    fn faults(&self) -> u64 {
        0
    }

    fn file_faults(&self) -> u64 {
        0
    }

    fn has(&mut self, name: &FileName) -> Result<bool, Failed>
        ensures ok { IsOk result }
        ensures answer { IfOk result (λ there. there ≡ map.contains_key self.old name.now) }
        ensures folder { self.new ≡ self.old }
    {
        Ok(self.shelf.has(name))
    }

    fn create_pages(&mut self, name: &FileName, pages: u32) -> Result<SurePages, VolRefusal>
        ensures folder { Creates name.now self.old self.new result }
        ensures told { IfOk result (λ file. IsTrue (are_sized file.pages)) }
        ensures content { IfOk result (λ file. file.pages ≡ new_pages pages) }
        ensures count { IfOk result (λ file. length file.pages ≡ pages) }
        ensures refusal { IfErr result IsOfCreate }
        ensures out { out_of self.new ≡ out_after (out_of self.old) name.now result }
        ensures sure { result ≢ Err VolRefusal.Failed }
    {
        let mut store = PageStore::new(self.alloc, pages)?;
        store.fill(self.alloc)?;
        self.shelf.create(name)?;
        Ok(SurePages::new(store))
    }

    fn create_log(&mut self, name: &FileName) -> Result<SureLog, VolRefusal>
        ensures folder { Creates name.now self.old self.new result }
        ensures content { IfOk result (λ file. file ≡ []) }
        ensures refusal { IfErr result IsOfCreate }
        ensures out { out_of self.new ≡ out_after (out_of self.old) name.now result }
        ensures sure { result ≢ Err VolRefusal.Failed }
    {
        self.shelf.create(name)?;
        Ok(SureLog::new(Vec::new(self.alloc)))
    }

    fn take_pages(&mut self, name: &FileName, pages: u32) -> Result<SurePages, VolRefusal>
        requires { set.contains (out_of self.old) name.now ≡ false }
        ensures taken { TakesPages (λ file. are_sized file.pages) (λ file. file.pages) name.now pages self.old self.new result }
        ensures count { IfOk result (λ file. length file.pages ≡ pages) }
        ensures refusal { IfErr result (IsOfTakePages pages) }
        ensures out { out_of self.new ≡ out_after (out_of self.old) name.now result }
        ensures sure { result ≢ Err VolRefusal.Failed }
    {
        let mut store = self.shelf.take_store(self.alloc, name, pages)?;
        match store.fill(self.alloc) {
            Ok(()) => Ok(SurePages::new(store)),
            Err(_) => {
                self.shelf.put(name, KeptFile::pages(store));
                Err(VolRefusal::Memory)
            }
        }
    }

    fn take_log(&mut self, name: &FileName) -> Result<SureLog, VolRefusal>
        requires { set.contains (out_of self.old) name.now ≡ false }
        ensures taken { TakesLog (λ _. true) (λ file. file) name.now self.old self.new result }
        ensures refusal { IfErr result IsOfTakeLog }
        ensures out { out_of self.new ≡ out_after (out_of self.old) name.now result }
        ensures sure { result ≢ Err VolRefusal.Failed }
    {
        let bytes = self.shelf.take_bytes(self.alloc, name)?;
        Ok(SureLog::new(bytes))
    }

    fn put_pages(&mut self, name: &FileName, file: SurePages) -> Result<(), Failed>
        requires { set.contains (out_of self.old) name.now ≡ true }
        ensures ok { IsOk result }
        ensures folder { self.new ≡ map.insert self.old name.now (Lies (concat file.pages)) }
        ensures out { out_of self.new ≡ set.remove (out_of self.old) name.now }
    {
        self.shelf.put(name, KeptFile::pages(file.into_store()));
        Ok(())
    }

    fn put_log(&mut self, name: &FileName, file: SureLog) -> Result<(), Failed>
        requires { set.contains (out_of self.old) name.now ≡ true }
        ensures ok { IsOk result }
        ensures folder { self.new ≡ map.insert self.old name.now (Lies file) }
        ensures out { out_of self.new ≡ set.remove (out_of self.old) name.now }
    {
        self.shelf.put(name, KeptFile::bytes(file.into_bytes()));
        Ok(())
    }

    fn remove(&mut self, name: &FileName) -> Result<(), Failed>
        requires { set.contains (out_of self.old) name.now ≡ false }
        ensures ok { IsOk result }
        ensures folder { self.new ≡ map.remove self.old name.now }
        ensures out { out_of self.new ≡ out_of self.old }
    {
        self.shelf.remove(name);
        Ok(())
    }
}
