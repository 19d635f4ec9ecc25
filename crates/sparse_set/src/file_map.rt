//! How the marks of one file's pages are kept: as bits of words, of which those past the file's end are 0.

ghost use Rattle.std.specs.Prelude.{◌≡◌, ◌+◌, ◌/◌, ◌<◌, ◌≤◌, true, false, IfOk, length, replicate, slice_set};
ghost use Rattle.sparse_set.specs.Words.{words_of};
ghost use Rattle.sparse_set.specs.Groups.{groups_in, marked_in};

use crate::words::{are_words, full_bytes, has, put};
use page_base::NoMemory;
use std::alloc::Global;
use std::marker::Model;

// A mark for each page of one file.
#[derive(Drop)]
pub(crate) struct FileMap {
    pages: u32,
    words: Vec<u64>,
}

impl Model for FileMap {
    ghost use Rattle.std.specs.Prelude.{List, Bool};
    ghost use Rattle.sparse_set.specs.Words.{bits_of, IsFileMap};

    ghost Value = { List Bool };

    ghost view = { λ a. bits_of a.pages a.words.items };

    ghost invariant = { λ a. IsFileMap a.pages a.words.items };
}

impl FileMap {
    // No page is marked, and there is room for all.
    pub(crate) fn new(alloc: Global, pages: u32) -> Result<FileMap, NoMemory>
        ensures { IfOk result (λ map. map ≡ replicate pages false) }
    {
        let mut words = Vec::new(alloc);
        words.resize(pages.div_ceil(64) as usize, 0)?;
        Ok(FileMap { pages, words })
    }

    // Whether a page is marked. None is past the file's end.
    pub(crate) fn has(&self, page: u32) -> bool
        ensures { result ≡ marked_in self.now page }
    {
        if page >= self.pages {
            return false;
        }
        has(self.words.as_slice(), page)
    }

    // Marks a page.
    pub(crate) fn set(&mut self, page: u32)
        requires { page < length self.old }
        ensures { self.new ≡ slice_set self.old page true }
    {
        put(&mut self.words, page);
    }

    // The words.
    pub(crate) fn words(&self) -> &[u64]
        ensures { result.now ≡ words_of self.now }
    {
        let words = self.words.as_slice();
        are_words(words);
        words
    }

    // How many aligned groups of eight pages hold a marked one: the bytes of the words that aren't 0.
    pub(crate) fn groups(&self) -> u32
        ensures { result ≡ groups_in (marked_in self.now) ((length self.now + 7) / 8) }
    {
        // a file has fewer than 2^32 pages
        let _pages = self.pages;
        let mut groups = 0u32;
        for word in self.words.as_slice() {
            groups += full_bytes(*word);
        }
        groups
    }
}
