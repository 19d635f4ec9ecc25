//! A map from page to image in sparse files, with a mark for each page that was copied.

ghost use Rattle.std.specs.Prelude.{◌≡◌, ◌+◌, ◌*◌, ◌<◌, ◌≤◌, ◌/◌, true, false, IfOk, IfErr, length, slice_index};
ghost use Rattle.early_pages.specs.Sparse.{HasSparse, is_copied, Copies, Reads, marked, unmarked, IsEmptyMap, faults, some_copied, size_on_disk};
ghost use Rattle.page_base.specs.Pages.{filled};

use page_base::{Failed, Image, NoMemory, PageId, Table};
use page_dev::{FileList, PageFile, PoolRefused};
use std::alloc::Global;
use std::marker::Model;

/// One snapshot's sparse files with its page map.
#[derive(Drop)]
pub struct SparseSet<P: PageFile> {
    files: FileList<P>,
    map: Table<bool>,
}

impl<P: PageFile> Model for SparseSet<P> {
    ghost use Rattle.std.specs.Prelude.{◌≡◌};
    ghost use Rattle.page_base.specs.Pages.{shape};
    ghost use Rattle.early_pages.specs.Sparse.{Sparse};

    ghost Value = { Sparse };

    ghost view = { λ a. record { files = a.files; map = a.map } };

    ghost invariant = { λ a. a.files.counts ≡ shape a.map };
}

// A page map of these files, with no page in it.
fn empty_map<P: PageFile>(alloc: Global, files: &FileList<P>) -> Result<Table<bool>, NoMemory>
    requires { length files.now.counts ≤ 256 }
    ensures { IfOk result (λ map. map ≡ filled files.now.counts false) }
{
    let mut counts = Vec::new(alloc);
    for file in 0..files.len() {
        counts.push(files.pages(file as u8))?;
    }
    Table::filled(alloc, counts.as_slice(), false)
}

impl<P: PageFile> SparseSet<P> {
    /// The files with an empty map, which has room for all pages. Refused only for memory.
    pub fn new(alloc: Global, files: FileList<P>) -> Result<SparseSet<P>, PoolRefused<P>>
        requires { length files.counts ≤ 256 }
        ensures ok { IfOk result (λ set. set ≡ unmarked files) }
        ensures empty { IfOk result (λ set. IsEmptyMap set) }
        ensures err { IfErr result (λ refused. refused.files ≡ files) }
    {
        match empty_map(alloc, &files) {
            Ok(map) => Ok(SparseSet { files, map }),
            Err(_) => Err(PoolRefused { files }),
        }
    }

    /// Whether the map has the page.
    pub fn copied(&self, p: PageId) -> bool
        ensures { result ≡ is_copied self.now p }
    {
        self.map.has(p) && *self.map.get(p)
    }

    /// Puts the page into the map. Takes no memory.
    pub fn mark(&mut self, p: PageId)
        requires { HasSparse self.old p }
        ensures marked { self.new ≡ marked self.old p }
        ensures here { is_copied (marked self.old p) p ≡ true }
    {
        self.map.set(p, true);
    }

    /// Writes the page. `Failed` only where its file's count of faults rose, and then that page alone is open.
    pub fn copy(&mut self, p: PageId, image: &Image) -> Result<(), Failed>
        requires { HasSparse self.old p }
        ensures { Copies p image.now self.old self.new result }
    {
        self.files.write_page(p, image)
    }

    /// Reads a page that the map has. `Failed` only where its file's count of faults rose.
    pub fn read(&mut self, p: PageId, into: &mut Image) -> Result<(), Failed>
        requires page { HasSparse self.old p }
        requires copied { is_copied self.old p ≡ true }
        ensures { Reads p into.new self.old self.new result }
    {
        self.files.read_page(p, into)
    }

    /// How many faults the files met, all in all.
    pub fn faults(&self) -> u64
        ensures { result ≡ faults self.now }
    {
        self.files.all_faults()
    }

    // Whether the aligned group of eight pages holds one that was copied.
    fn has_group(&self, file: u8, group: u32) -> bool
        requires { group < 536870912 }
        ensures { result ≡ some_copied self.now file (8 * group) 8 }
    {
        for place in 0..8u32 {
            let page = PageId {
                file,
                page: 8 * group + place,
            };
            if self.copied(page) {
                return true;
            }
        }
        false
    }

    /// How many bytes a file takes on disk: 65,536 for each aligned group of eight pages that holds a copied page.
    pub fn size_on_disk(&self, file: u8) -> u64
        ensures { result ≡ size_on_disk self.now file }
    {
        let mut groups = 0u64;
        for group in 0..self.files.pages(file).div_ceil(8) {
            if self.has_group(file, group) {
                groups += 1;
            }
        }
        groups * 65536
    }

    /// Hands the files out.
    pub fn into_files(self) -> FileList<P>
        ensures { result ≡ self.files }
    {
        let SparseSet { files, .. } = self;
        files
    }
}
