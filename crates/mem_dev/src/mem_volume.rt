//! A volume in memory, of which chosen calls fail, its own and those of its files.

ghost use Rattle.std.specs.Prelude.{◌≡◌, ◌≢◌, ◌↔◌, ◌++◌, ◌∷◌, ◌*◌, ⊤, IsTrue, true, false, None, Some, [], Err, IfOk, IfErr, OnOk, OnErr, is_err, length};
ghost use Rattle.std.specs.List.{concat};
ghost use Rattle.std.specs.FinMap as map;
ghost use Rattle.std.specs.FinSet as set;
ghost use Rattle.page_dev.specs.Faults.{HasCause, HasCauseOf, added};
ghost use Rattle.page_dev.specs.PageFile.{new_pages};
ghost use Rattle.page_dev.specs.Volume.{Kept, Lies, Out, Folder, out_after, Creates, TakesPages, TakesLog, Puts, Removes, IsOfCreate, IsOfTakePages, IsOfTakeLog};
ghost use Rattle.mem_dev.specs.Plan.{planned, fails_next, after_call};
ghost use Rattle.mem_dev.specs.Store.{content_of, are_images};
ghost use Rattle.mem_dev.specs.Shelf.{lies, kept_at, resized};
ghost use Rattle.mem_dev.specs.Out.{out_of, contains-out_of};
ghost use Rattle.mem_dev.specs.VolumeState.{rule_of, rules_after};

use crate::fault_plan::FaultPlan;
use crate::file_rule::FileRule;
use crate::kept_file::KeptFile;
use crate::logs::MemLog;
use crate::name_map::NameMap;
use crate::page_store::PageStore;
use crate::pages::MemPages;
use crate::shelf::Shelf;
use page_base::{Failed, FileName, NoMemory};
use page_dev::{LogFile, PageFile, VolRefusal, Volume};
use std::alloc::Global;
use std::marker::Model;

/// A volume in memory. It tells its content. Chosen calls fail: its own, and those of the files of chosen names.
#[derive(Drop)]
pub struct MemVolume {
    shelf: Shelf,
    rules: NameMap<FileRule>,
    plan: FaultPlan,
    file_faults: u64,
    alloc: Global,
}

impl Model for MemVolume {
    ghost use Rattle.std.specs.FinMap as map;
    ghost use Rattle.std.specs.Coded.{codes};
    ghost use Rattle.mem_dev.specs.VolumeState.{VolumeState};

    ghost Value = { VolumeState };

    ghost coded = { Prim.hlevel (codes, map.code) };

    ghost view = { λ a. record { folder = a.shelf; rules = a.rules; plan = a.plan; file_failures = a.file_faults } };
}

impl MemVolume {
    /// A volume without files, of which no call fails.
    pub fn new(alloc: Global) -> Result<MemVolume, NoMemory>
        ensures folder { IfOk result (λ volume. volume.folder ≡ map.empty) }
        ensures out { IfOk result (λ volume. out_of volume.folder ≡ set.empty) }
        ensures rules { IfOk result (λ volume. volume.rules ≡ map.empty) }
        ensures plan { IfOk result (λ volume. volume.plan ≡ planned []) }
        ensures sum { IfOk result (λ volume. volume.file_failures ≡ 0) }
    {
        let plan = FaultPlan::new(alloc, &[])?;
        Ok(MemVolume {
            shelf: Shelf::new(alloc),
            rules: NameMap::new(alloc),
            plan,
            file_faults: 0,
            alloc,
        })
    }

    /// Makes the read or write of this number fail, counted from 1 over those that files of this name meet from now
    /// on. After want of memory nothing changed.
    pub fn fail(&mut self, name: &FileName, call: u64) -> Result<(), NoMemory>
        requires { set.contains (out_of self.old.folder) name.now ≡ false }
        ensures ok { OnOk result (self.new ≡ record self.old { rules = map.insert self.old.rules name.now (record (rule_of self.old.rules name.now) { due = (rule_of self.old.rules name.now).due ++ call ∷ [] }) }) }
        ensures err { OnErr result (self.new ≡ self.old) }
    {
        let mut rule = self.rule(name)?;
        rule.add(call)?;
        self.rules.insert(name, rule)
    }

    /// Makes the call of this number of the volume itself fail, counted from 1 over those from now on. After want of
    /// memory nothing changed.
    pub fn fail_volume(&mut self, call: u64) -> Result<(), NoMemory>
        ensures ok { OnOk result (self.new ≡ record self.old { plan = record self.old.plan { due = self.old.plan.due ++ call ∷ [] } }) }
        ensures err { OnErr result (self.new ≡ self.old) }
    {
        self.plan.add(call)
    }

    /// Makes each write fail that would give a file of this name more written pages than so many. A later call
    /// replaces an earlier one. After want of memory nothing changed.
    pub fn page_limit(&mut self, name: &FileName, pages: u32) -> Result<(), NoMemory>
        requires { set.contains (out_of self.old.folder) name.now ≡ false }
        ensures ok { OnOk result (self.new ≡ record self.old { rules = map.insert self.old.rules name.now (record (rule_of self.old.rules name.now) { limit = Some pages }) }) }
        ensures err { OnErr result (self.new ≡ self.old) }
    {
        let mut rule = self.rule(name)?;
        rule.set_limit(pages);
        self.rules.insert(name, rule)
    }

    /// Cuts the file of this name, which is there and isn't out, to so many bytes, or adds zeros to it. After want of
    /// memory nothing changed.
    pub fn set_length(&mut self, name: &FileName, bytes: u64) -> Result<(), NoMemory>
        requires { lies (map.get self.old.folder name.now) ≡ true }
        ensures ok { OnOk result (self.new ≡ record self.old { folder = map.insert self.old.folder name.now (Lies (resized bytes (kept_at self.old.folder name.now))) }) }
        ensures err { OnErr result (self.new ≡ self.old) }
        ensures out { out_of self.new.folder ≡ out_of self.old.folder }
    {
        self.shelf.set_length(self.alloc, name, bytes)
    }

    // What the next file of a name meets.
    fn rule(&self, name: &FileName) -> Result<FileRule, NoMemory>
        ensures { IfOk result (λ rule. rule ≡ rule_of self.now.rules name.now) }
    {
        match self.rules.get(name) {
            Some(rule) => rule.copy(self.alloc),
            None => Ok(FileRule::none(self.alloc)),
        }
    }

    // Takes a file back that met so many faults.
    fn take_back(&mut self, name: &FileName, file: KeptFile, rule: FileRule, faults: u64)
        requires name { set.contains (out_of self.old.folder) name.now ≡ true }
        requires file { file ≢ Out }
        ensures new { self.new ≡ record self.old { folder = map.insert self.old.folder name.now file; rules = rules_after self.old.rules name.now rule; file_failures = added self.old.file_failures faults } }
        ensures out { out_of self.new.folder ≡ set.remove (out_of self.old.folder) name.now }
    {
        self.file_faults = self.file_faults.saturating_add(faults);
        if self.rules.has(name) {
            let _ = self.rules.replace(name, rule);
        }
        self.shelf.put(name, file);
    }
}

impl Volume for MemVolume {
    type Pages = MemPages;

    type Log = MemLog;

    ghost tells = { λ _. true };

    ghost folder = { λ volume. volume.folder };

    ghost out = { λ volume. out_of volume.folder };

    ghost failures = { λ volume. volume.plan.failures };

    ghost file_failures = { λ volume. volume.file_failures };

    ghost marked = { λ volume t name. contains-out_of volume.folder name };

    fn faults(&self) -> u64 {
        self.plan.failures()
    }

    fn file_faults(&self) -> u64 {
        self.file_faults
    }

    fn has(&mut self, name: &FileName) -> Result<bool, Failed>
        ensures answer { IfOk result (λ there. there ≡ map.contains_key self.old.folder name.now) }
        ensures cause { HasCause self.old.plan.failures self.new.plan.failures result }

        // the call fails exactly where it was to, and nothing else changes
        ensures fails { is_err result ≡ fails_next self.old.plan.due }
        ensures new { self.new ≡ record self.old { plan = after_call self.old.plan } }
    {
        if self.plan.meets_fault() {
            return Err(Failed);
        }
        Ok(self.shelf.has(name))
    }

    fn create_pages(&mut self, name: &FileName, pages: u32) -> Result<MemPages, VolRefusal>
        ensures folder { Creates name.now self.old.folder self.new.folder result }
        ensures file { IfOk result (λ file. content_of file.pages ≡ new_pages pages) }
        ensures told { IfOk result (λ file. IsTrue (are_images file.pages)) }
        ensures rule { IfOk result (λ file. (file.plan ≡ planned (rule_of self.old.rules name.now).due) × (file.limit ≡ (rule_of self.old.rules name.now).limit)) }
        ensures refusal { IfErr result IsOfCreate }
        ensures out { out_of self.new.folder ≡ out_after (out_of self.old.folder) name.now result }
        ensures cause { HasCauseOf VolRefusal.Failed self.old.plan.failures self.new.plan.failures result }

        // the call fails exactly where it was to, and a refusal changes no file
        ensures fails { (result ≡ Err VolRefusal.Failed) ↔ IsTrue (fails_next self.old.plan.due) }
        ensures refused { OnErr result (self.new.folder ≡ self.old.folder) }
        ensures new { self.new ≡ record self.old { folder = self.new.folder; plan = after_call self.old.plan } }
    {
        if self.plan.meets_fault() {
            return Err(VolRefusal::Failed);
        }
        let rule = self.rule(name)?;
        let store = PageStore::new(self.alloc, pages)?;
        self.shelf.create(name)?;
        Ok(MemPages::new(self.alloc, store, rule))
    }

    fn create_log(&mut self, name: &FileName) -> Result<MemLog, VolRefusal>
        ensures folder { Creates name.now self.old.folder self.new.folder result }
        ensures file { IfOk result (λ file. file.bytes ≡ []) }
        ensures rule { IfOk result (λ file. (file.plan ≡ planned (rule_of self.old.rules name.now).due) × (file.limit ≡ (rule_of self.old.rules name.now).limit)) }
        ensures refusal { IfErr result IsOfCreate }
        ensures out { out_of self.new.folder ≡ out_after (out_of self.old.folder) name.now result }
        ensures cause { HasCauseOf VolRefusal.Failed self.old.plan.failures self.new.plan.failures result }

        // the call fails exactly where it was to, and a refusal changes no file
        ensures fails { (result ≡ Err VolRefusal.Failed) ↔ IsTrue (fails_next self.old.plan.due) }
        ensures refused { OnErr result (self.new.folder ≡ self.old.folder) }
        ensures new { self.new ≡ record self.old { folder = self.new.folder; plan = after_call self.old.plan } }
    {
        if self.plan.meets_fault() {
            return Err(VolRefusal::Failed);
        }
        let rule = self.rule(name)?;
        self.shelf.create(name)?;
        Ok(MemLog::new(Vec::new(self.alloc), rule))
    }

    fn take_pages(&mut self, name: &FileName, pages: u32) -> Result<MemPages, VolRefusal>
        requires { set.contains (out_of self.old.folder) name.now ≡ false }
        ensures taken { TakesPages (λ file. are_images file.pages) (λ file. content_of file.pages) name.now pages self.old.folder self.new.folder result }
        ensures count { IfOk result (λ file. length file.pages ≡ pages) }
        ensures rule { IfOk result (λ file. (file.plan ≡ planned (rule_of self.old.rules name.now).due) × (file.limit ≡ (rule_of self.old.rules name.now).limit)) }
        ensures refusal { IfErr result (IsOfTakePages pages) }
        ensures out { out_of self.new.folder ≡ out_after (out_of self.old.folder) name.now result }
        ensures cause { HasCauseOf VolRefusal.Failed self.old.plan.failures self.new.plan.failures result }

        // the call fails exactly where it was to
        ensures fails { (result ≡ Err VolRefusal.Failed) ↔ IsTrue (fails_next self.old.plan.due) }
        ensures new { self.new ≡ record self.old { folder = self.new.folder; plan = after_call self.old.plan } }
    {
        if self.plan.meets_fault() {
            return Err(VolRefusal::Failed);
        }
        let rule = self.rule(name)?;
        let store = self.shelf.take_store(self.alloc, name, pages)?;
        Ok(MemPages::new(self.alloc, store, rule))
    }

    fn take_log(&mut self, name: &FileName) -> Result<MemLog, VolRefusal>
        requires { set.contains (out_of self.old.folder) name.now ≡ false }
        ensures taken { TakesLog (λ _. true) (λ file. file.bytes) name.now self.old.folder self.new.folder result }
        ensures rule { IfOk result (λ file. (file.plan ≡ planned (rule_of self.old.rules name.now).due) × (file.limit ≡ (rule_of self.old.rules name.now).limit)) }
        ensures refusal { IfErr result IsOfTakeLog }
        ensures out { out_of self.new.folder ≡ out_after (out_of self.old.folder) name.now result }
        ensures cause { HasCauseOf VolRefusal.Failed self.old.plan.failures self.new.plan.failures result }

        // the call fails exactly where it was to
        ensures fails { (result ≡ Err VolRefusal.Failed) ↔ IsTrue (fails_next self.old.plan.due) }
        ensures new { self.new ≡ record self.old { folder = self.new.folder; plan = after_call self.old.plan } }
    {
        if self.plan.meets_fault() {
            return Err(VolRefusal::Failed);
        }
        let rule = self.rule(name)?;
        let bytes = self.shelf.take_bytes(self.alloc, name)?;
        Ok(MemLog::new(bytes, rule))
    }

    fn put_pages(&mut self, name: &FileName, file: MemPages) -> Result<(), Failed>
        requires { set.contains (out_of self.old.folder) name.now ≡ true }
        ensures out { out_of self.new.folder ≡ set.remove (out_of self.old.folder) name.now }
        ensures cause { HasCause self.old.plan.failures self.new.plan.failures result }

        // the call fails exactly where it was to, and the file is back with its content also then
        ensures fails { is_err result ≡ fails_next self.old.plan.due }
        ensures folder { self.new.folder ≡ map.insert self.old.folder name.now (Lies (concat (content_of file.pages))) }
        ensures rules { self.new.rules ≡ rules_after self.old.rules name.now (record { due = file.plan.due; limit = file.limit }) }
        ensures plan { self.new.plan ≡ after_call self.old.plan }
        ensures sum { self.new.file_failures ≡ added self.old.file_failures file.plan.failures }
    {
        let fails = self.plan.meets_fault();
        let faults = file.faults();
        let (store, rule) = file.into_parts();
        self.take_back(name, KeptFile::pages(store), rule, faults);
        if fails { Err(Failed) } else { Ok(()) }
    }

    fn put_log(&mut self, name: &FileName, file: MemLog) -> Result<(), Failed>
        requires { set.contains (out_of self.old.folder) name.now ≡ true }
        ensures out { out_of self.new.folder ≡ set.remove (out_of self.old.folder) name.now }
        ensures cause { HasCause self.old.plan.failures self.new.plan.failures result }

        // the call fails exactly where it was to, and the log is back with its content also then
        ensures fails { is_err result ≡ fails_next self.old.plan.due }
        ensures folder { self.new.folder ≡ map.insert self.old.folder name.now (Lies file.bytes) }
        ensures rules { self.new.rules ≡ rules_after self.old.rules name.now (record { due = file.plan.due; limit = file.limit }) }
        ensures plan { self.new.plan ≡ after_call self.old.plan }
        ensures sum { self.new.file_failures ≡ added self.old.file_failures file.plan.failures }
    {
        let fails = self.plan.meets_fault();
        let faults = file.faults();
        let (bytes, rule) = file.into_parts();
        self.take_back(name, KeptFile::bytes(bytes), rule, faults);
        if fails { Err(Failed) } else { Ok(()) }
    }

    fn remove(&mut self, name: &FileName) -> Result<(), Failed>
        requires { set.contains (out_of self.old.folder) name.now ≡ false }
        ensures out { out_of self.new.folder ≡ out_of self.old.folder }
        ensures cause { HasCause self.old.plan.failures self.new.plan.failures result }

        // the call fails exactly where it was to, and then changes no file
        ensures fails { is_err result ≡ fails_next self.old.plan.due }
        ensures removed { OnOk result (self.new.folder ≡ map.remove self.old.folder name.now) }
        ensures refused { OnErr result (self.new.folder ≡ self.old.folder) }
        ensures new { self.new ≡ record self.old { folder = self.new.folder; plan = after_call self.old.plan } }
    {
        if self.plan.meets_fault() {
            return Err(Failed);
        }
        self.shelf.remove(name);
        Ok(())
    }
}
