//! Several page files, as one store of pages.

ghost use Rattle.std.specs.Prelude.{◌≡◌, ◌<◌, IsTrue, OnOk, [], length, slice_index};
ghost use Rattle.page_base.specs.Pages.{image_at, shape};
ghost use Rattle.page_dev.specs.Faults.{HasCause, HasCauseAt, total};
ghost use Rattle.page_dev.specs.Files.{Writes, called, files_of};

use crate::PageFile;
use page_base::{Failed, Image, PageId};
use std::marker::Model;

/// Page files, in order.
#[derive(Drop)]
pub struct FileList<P: PageFile> {
    files: Vec<P>,
}

impl<P: PageFile> Model for FileList<P> {
    ghost use Rattle.page_dev.specs.Files.{Files, files_of};

    ghost Value = { Files };

    ghost view = { λ a. files_of P.tells P.content P.count P.failures P.calls a.files.items };
}

/// The files of a call that found no memory, handed back.
#[derive(Drop)]
pub struct PoolRefused<P: PageFile> {
    pub files: FileList<P>,
}

impl<P: PageFile> From<Vec<P>> for FileList<P> {
    ghost from_gives = { λ files list. list ≡ files_of P.tells P.content P.count P.failures P.calls files.items };

    fn from(files: Vec<P>) -> Self {
        FileList { files }
    }
}

impl<P: PageFile> FileList<P> {
    /// Hands the files out again.
    pub fn into_vec(self) -> Vec<P>
        ensures { files_of P.tells P.content P.count P.failures P.calls result.items ≡ self }
    {
        let FileList { files } = self;
        files
    }

    /// How many files there are. Where all tell, each has as many pages as it counts.
    pub fn len(&self) -> usize
        ensures len { result ≡ length self.now.counts }
        ensures shape { IsTrue self.now.tells → shape self.now.content ≡ self.now.counts }
        ensures failures { length self.now.failures ≡ length self.now.counts }
        ensures calls { length self.now.calls ≡ length self.now.counts }
    {
        self.files.len()
    }

    /// How many pages a file has, 0 where there is no such file.
    pub fn pages(&self, file: u8) -> u32
        ensures { result ≡ slice_index self.now.counts file }
    {
        match self.files.get(file as usize) {
            Some(file) => file.pages(),
            None => 0,
        }
    }

    /// How many faults a file met, 0 where there is no such file.
    pub fn faults(&self, file: u8) -> u64
        ensures { result ≡ slice_index self.now.failures file }
    {
        match self.files.get(file as usize) {
            Some(file) => file.faults(),
            None => 0,
        }
    }

    /// How many faults all files met. The sum ends at the last value of u64.
    pub fn all_faults(&self) -> u64
        ensures { result ≡ total self.now.failures }
    {
        let mut sum = 0u64;
        for file in &self.files {
            sum = sum.saturating_add(file.faults());
        }
        sum
    }

    /// Reads page `p`, by one call on its file. `Failed` only where that file's count of faults rose; the files are as before.
    pub fn read_page(&mut self, p: PageId, into: &mut Image) -> Result<(), Failed>
        requires { p.page < slice_index self.old.counts p.file }
        ensures read { IsTrue self.old.tells → OnOk result (into.new ≡ image_at self.old.content p) }
        ensures content { IsTrue self.old.tells → self.new.content ≡ self.old.content }
        ensures tells { self.new.tells ≡ self.old.tells }
        ensures counts { self.new.counts ≡ self.old.counts }
        ensures calls { self.new.calls ≡ called self.old.calls p.file }
        ensures cause { HasCauseAt p.file self.old.failures self.new.failures result }
        ensures cause_of_sum { HasCause (total self.old.failures) (total self.new.failures) result }
    {
        self.files[p.file as usize].read_page(p.page, into)
    }

    /// Writes page `p`, by one call on its file. `Failed` only where that file's count of faults rose, and then that page alone is open.
    pub fn write_page(&mut self, p: PageId, from: &Image) -> Result<(), Failed>
        requires { p.page < slice_index self.old.counts p.file }
        ensures written { IsTrue self.old.tells → Writes p from.now self.old.content self.new.content result }
        ensures tells { self.new.tells ≡ self.old.tells }
        ensures counts { self.new.counts ≡ self.old.counts }
        ensures calls { self.new.calls ≡ called self.old.calls p.file }
        ensures cause { HasCauseAt p.file self.old.failures self.new.failures result }
        ensures cause_of_sum { HasCause (total self.old.failures) (total self.new.failures) result }
    {
        self.files[p.file as usize].write_page(p.page, from)
    }
}
