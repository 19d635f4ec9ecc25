//! How a snapshot's pages are kept: in sparse files, with a mark for each page that was copied.

ghost use Rattle.std.specs.Prelude.{◌≡◌, ◌+◌, ◌*◌, ◌<◌, ◌≤◌, ◌/◌, [], true, false, IfOk, IfErr, length, slice_index, slice_index_or};
ghost use Rattle.sparse_set.specs.Sparse.{HasSparse, is_copied, Copies, Reads, marked, unmarked, IsEmptyMap, faults, size_on_disk};
ghost use Rattle.sparse_set.specs.Words.{words_of};
ghost use Rattle.page_base.specs.Pages.{filled};

use crate::file_map::FileMap;
use page_base::{Failed, Image, NoMemory, PageId};
use page_dev::{FileList, PageFile, PoolRefused};
use std::alloc::Global;
use std::marker::Model;

/// One snapshot's sparse files with its page map.
#[derive(Drop)]
pub struct SparseSet<P: PageFile> {
    files: FileList<P>,
    maps: Vec<FileMap>,
}

impl<P: PageFile> Model for SparseSet<P> {
    ghost use Rattle.std.specs.Prelude.{◌≡◌};
    ghost use Rattle.page_base.specs.Pages.{shape};
    ghost use Rattle.sparse_set.specs.Sparse.{Sparse};

    ghost Value = { Sparse };

    ghost view = { λ a. record { files = a.files; map = a.maps.items } };

    ghost invariant = { λ a. a.files.counts ≡ shape a.maps.items };
}

// A map for each of these files, with no page in it.
fn empty_maps<P: PageFile>(alloc: Global, files: &FileList<P>) -> Result<Vec<FileMap>, NoMemory>
    requires { length files.now.counts ≤ 256 }
    ensures { IfOk result (λ maps. maps.items ≡ filled files.now.counts false) }
{
    let mut maps = Vec::new(alloc);
    for file in 0..files.len() {
        let map = FileMap::new(alloc, files.pages(file as u8))?;
        maps.push(map)?;
    }
    Ok(maps)
}

impl<P: PageFile> SparseSet<P> {
    /// The files with an empty map, which has room for all pages. Refused only for memory.
    pub fn new(alloc: Global, files: FileList<P>) -> Result<SparseSet<P>, PoolRefused<P>>
        requires { length files.counts ≤ 256 }
        ensures ok { IfOk result (λ set. set ≡ unmarked files) }
        ensures empty { IfOk result (λ set. IsEmptyMap set) }
        ensures err { IfErr result (λ refused. refused.files ≡ files) }
    {
        match empty_maps(alloc, &files) {
            Ok(maps) => Ok(SparseSet { files, maps }),
            Err(_) => Err(PoolRefused { files }),
        }
    }

    /// Whether the map has the page. It has none past a file's end.
    pub fn copied(&self, p: PageId) -> bool
        ensures { result ≡ is_copied self.now p }
    {
        match self.maps.get(p.file as usize) {
            Some(map) => map.has(p.page),
            None => false,
        }
    }

    /// Puts the page into the map. Takes no memory.
    pub fn mark(&mut self, p: PageId)
        requires { HasSparse self.old p }
        ensures marked { self.new ≡ marked self.old p }
        ensures here { is_copied (marked self.old p) p ≡ true }
    {
        let map = &mut self.maps[p.file as usize];
        map.set(p.page);
    }

    /// Writes the page, by one call on its file. `Failed` only where that file's count of faults rose, and then that page alone is open.
    pub fn copy(&mut self, p: PageId, image: &Image) -> Result<(), Failed>
        requires { HasSparse self.old p }
        ensures { Copies p image.now self.old self.new result }
    {
        self.files.write_page(p, image)
    }

    /// Reads a page that the map has, by one call on its file. `Failed` only where that file's count of faults rose.
    pub fn read(&mut self, p: PageId, into: &mut Image) -> Result<(), Failed>
        requires page { HasSparse self.old p }
        requires copied { is_copied self.old p ≡ true }
        ensures { Reads p into.new self.old self.new result }
    {
        self.files.read_page(p, into)
    }

    /// How many faults the files met, all in all.
    pub fn faults(&self) -> u64
        ensures { result ≡ faults self.now }
    {
        self.files.all_faults()
    }

    /// A file's map as words of 64 bits: bit i of word w is page 64 w + i, and bits past the file's end are 0.
    pub fn words(&self, file: u8) -> &[u64]
        requires { file < length self.now.files.counts }
        ensures { result.now ≡ words_of (slice_index_or self.now.map file []) }
    {
        self.maps[file as usize].words()
    }

    /// How many bytes a file takes on disk: 65,536 for each aligned group of eight pages that holds a copied page.
    pub fn size_on_disk(&self, file: u8) -> u64
        ensures { result ≡ size_on_disk self.now file }
    {
        match self.maps.get(file as usize) {
            Some(map) => u64::from(map.groups()) * 65536,
            None => 0,
        }
    }

    /// Hands the files out.
    pub fn into_files(self) -> FileList<P>
        ensures { result ≡ self.files }
    {
        let SparseSet { files, .. } = self;
        files
    }
}
