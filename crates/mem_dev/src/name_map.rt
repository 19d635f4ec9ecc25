//! Values by the names of files.

ghost use Rattle.std.specs.Prelude.{◌≡◌, IsTrue, Some, OnOk, OnErr};
ghost use Rattle.std.specs.Option.{option_copied};
ghost use Rattle.std.specs.FinMap as map;

use page_base::{FileName, NoMemory};
use std::alloc::Global;
use std::collections::BTreeMap;
use std::marker::Model;

/// Values by the names of files.
#[derive(Drop)]
pub(crate) struct NameMap<T> {
    entries: BTreeMap<FileName, T>,
}

impl<T> Model for NameMap<T> {
    ghost use Rattle.std.specs.Prelude.{ℕ};
    ghost use Rattle.std.specs.Ordering.{nat_cmp};
    ghost use Rattle.std.specs.Cmp.Lexicographic.{slice_cmp};
    ghost use Rattle.std.specs.Coded.{coded_list, coded_ℕ};
    ghost use Rattle.std.specs.FinMap as map;

    ghost Value = { map.FinMap (slice_cmp nat_cmp) T };

    ghost coded = { map.code (coded_list coded_ℕ) T.code };

    ghost view = { λ a. map.from_entries a.entries.entries };
}

impl<T> NameMap<T> {
    /// No names.
    pub(crate) fn new(alloc: Global) -> Self
        ensures { result ≡ map.empty }
    {
        NameMap {
            entries: BTreeMap::new(alloc),
        }
    }

    /// The value at a name.
    pub(crate) fn get(&self, name: &FileName) -> Option<&T>
        ensures { option_copied result ≡ map.get self.now name.now }
    {
        self.entries.get(name)
    }

    /// Whether there is a value at a name.
    pub(crate) fn has(&self, name: &FileName) -> bool
        ensures { result ≡ map.contains_key self.now name.now }
    {
        self.entries.contains_key(name)
    }

    /// Puts another value at a name that is there, and hands out the one before.
    pub(crate) fn replace(&mut self, name: &FileName, value: T) -> T
        requires { IsTrue (map.contains_key self.old name.now) }
        ensures old { map.get self.old name.now ≡ Some result }
        ensures new { self.new ≡ map.insert self.old name.now value }
    {
        self.entries.insert(*name, value).unwrap().unwrap()
    }
}

impl<T: Drop> NameMap<T> {
    /// Puts a value at a name. After want of memory the names are as before.
    pub(crate) fn insert(&mut self, name: &FileName, value: T) -> Result<(), NoMemory>
        ensures ok { OnOk result (self.new ≡ map.insert self.old name.now value) }
        ensures err { OnErr result (self.new ≡ self.old) }
    {
        self.entries.insert(*name, value)?;
        Ok(())
    }

    /// Frees a name.
    pub(crate) fn remove(&mut self, name: &FileName)
        ensures { self.new ≡ map.remove self.old name.now }
    {
        let _ = self.entries.remove(name);
    }
}
