//! The pages in memory stand in one list in the order of their last use.

ghost use Rattle.std.specs.Prelude.{◌≡◌, ◌<◌, ◌≤◌, ◌↔◌, IsTrue, IfOk, IfErr, length, slice_index};
ghost use Rattle.page_dev.specs.Faults.{total};
ghost use Rattle.page_fmt.specs.Content.{IsPage};
ghost use Rattle.buf_pool.specs.Pool.{unused, img, IsPooled, IsPinned, IsSound};

use crate::Frame;
use lru::LruCache;
use page_base::{Image, PageId};
use page_dev::{FileList, PageFile, PoolRefused};
use std::alloc::Global;
use std::marker::Model;
use std::num::NonZeroUsize;

/// The pages of the data files, some of them in memory.
#[derive(Drop)]
pub struct Pool<P: PageFile> {
    pub(crate) files: FileList<P>,
    pub(crate) frames: LruCache<PageId, Frame>,
}

impl<P: PageFile> Model for Pool<P> {
    ghost use Rattle.buf_pool.specs.Pool.{Pooled, IsSound};

    ghost Value = { Pooled };

    ghost view = { λ a. record { files = a.files; entries = a.frames.entries; frames = a.frames.cap } };

    ghost invariant = { λ a. IsSound (record { files = a.files; entries = a.frames.entries; frames = a.frames.cap }) };
}

impl<P: PageFile> Pool<P> {
    /// A pool of so many frames over these files, with no page in memory. Refused only for memory.
    pub fn new(alloc: Global, files: FileList<P>, frames: u32) -> Result<Pool<P>, PoolRefused<P>>
        requires { 0 < frames }
        ensures ok { IfOk result (λ pool. pool ≡ unused files frames) }
        ensures err { IfErr result (λ refused. refused.files ≡ files) }
    {
        let frames = NonZeroUsize::new(frames as usize).unwrap();
        match LruCache::new(alloc, frames) {
            Ok(frames) => Ok(Pool { files, frames }),
            Err(_) => Err(PoolRefused { files }),
        }
    }

    /// For proofs alone: what the type keeps of each page in memory. Does nothing when it runs.
    pub fn keeps_pages(&self)
        ensures { IsSound self.now }
    {
        let _files = &self.files;
    }

    // Whether a page is in memory.
    pub(crate) fn is_pooled(&self, p: PageId) -> bool
        ensures { IsTrue result ↔ IsPooled self.now p }
    {
        self.frames.contains(&p)
    }

    /// How many pages are in memory: never more than the pool has frames.
    pub fn pages_in_memory(&self) -> usize
        ensures is { result ≡ length self.now.entries }
        ensures few { result ≤ self.now.frames }
    {
        self.frames.len()
    }

    /// The image of a pinned page.
    pub fn image(&self, p: PageId) -> &Image
        requires { IsPinned self.now p }
        ensures image { result.now ≡ img self.now p }
        ensures page { IsPage result.now }
    {
        &self.frames.peek(&p).unwrap().image
    }

    /// How many faults a data file met, 0 where there is no such file.
    pub fn faults(&self, file: u8) -> u64
        ensures { result ≡ slice_index self.now.files.failures file }
    {
        self.files.faults(file)
    }

    /// How many faults all data files met. The sum ends at the last value of u64.
    pub fn all_faults(&self) -> u64
        ensures { result ≡ total self.now.files.failures }
    {
        self.files.all_faults()
    }

    /// Hands the files out, and drops all images, dirty ones too.
    pub fn into_files(self) -> FileList<P>
        ensures { result ≡ self.files }
    {
        let Pool { files, frames: _ } = self;
        files
    }
}

fn needs_send<T: Send>(_value: &T) {}

/// A pool over files that may move to another thread may move there too.
pub fn may_move<P: PageFile + Send>(pool: &Pool<P>) {
    needs_send(pool);
}
