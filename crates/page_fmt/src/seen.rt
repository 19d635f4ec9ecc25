//! Pages that were read, kept as they were when they were read.

ghost use Rattle.std.specs.Prelude.{◌≡◌, ◌<◌, ◌++◌, ◌∷◌, [], IfOk, OnOk, OnErr, length, slice_index_or};
ghost use Rattle.page_fmt.specs.Content.{content, IsPage};
ghost use Rattle.page_fmt.specs.Spelling.{FitsPage};
ghost use Rattle.page_fmt.specs.Seen.{Looked};

use crate::reading::{slot, slots};
use page_base::{Image, NoMemory, PageId};
use std::alloc::Global;
use std::marker::Model;

// A page and its bytes.
#[derive(Drop)]
struct SeenPage {
    page: PageId,
    image: Image,
}

impl Model for SeenPage {
    ghost use Rattle.page_fmt.specs.Content.{content, IsPage};
    ghost use Rattle.page_fmt.specs.Seen.{Looked};

    ghost Value = { Looked };

    ghost view = { λ a. record { page = a.page; slots = content a.image } };

    ghost invariant = { λ a. IsPage a.image };
}

impl SeenPage {
    fn page(&self) -> PageId
        ensures { result ≡ self.now.page }
    {
        self.page
    }

    fn slots(&self) -> u16
        ensures count { result ≡ length self.now.slots }
        ensures fits { FitsPage self.now.slots }
    {
        slots(&self.image)
    }

    fn slot(&self, j: u16) -> &[u8]
        ensures { result.now ≡ slice_index_or self.now.slots j [] }
    {
        slot(&self.image, j)
    }
}

/// Pages with their slots, in the order in which they were added.
#[derive(Drop)]
pub struct Seen {
    pages: Vec<SeenPage>,
}

impl Model for Seen {
    ghost use Rattle.std.specs.Prelude.{List};
    ghost use Rattle.page_fmt.specs.Seen.{Looked};

    ghost Value = { List Looked };

    ghost view = { λ a. a.pages.items };
}

impl Seen {
    /// No pages.
    pub fn new(alloc: Global) -> Result<Seen, NoMemory>
        ensures { IfOk result (λ seen. seen ≡ []) }
    {
        Ok(Seen {
            pages: Vec::new(alloc),
        })
    }

    /// Adds a page as its image is now. After want of memory the pages are as before.
    pub fn add(&mut self, alloc: Global, page: PageId, image: &Image) -> Result<(), NoMemory>
        requires { IsPage image.now }
        ensures ok { OnOk result (self.new ≡ self.old ++ record { page = page; slots = content image.now } ∷ []) }
        ensures err { OnErr result (self.new ≡ self.old) }
    {
        let mut copy = Image::blank(alloc)?;
        copy.set(image);
        self.pages.push(SeenPage { page, image: copy })?;
        Ok(())
    }

    /// How many pages there are. Takes no memory.
    pub fn len(&self) -> usize
        ensures { result ≡ length self.now }
    {
        self.pages.len()
    }

    /// The page at a place, from 0. Takes no memory.
    pub fn page(&self, i: usize) -> PageId
        requires { i < length self.now }
        ensures { (d : Looked) → result ≡ (slice_index_or self.now i d).page }
    {
        self.pages[i].page()
    }

    /// How many slots the page at a place has. Takes no memory.
    pub fn slots(&self, i: usize) -> u16
        requires { i < length self.now }
        ensures count { (d : Looked) → result ≡ length (slice_index_or self.now i d).slots }
        ensures fits { (d : Looked) → FitsPage (slice_index_or self.now i d).slots }
    {
        self.pages[i].slots()
    }

    /// The bytes of a slot of the page at a place, empty where it is empty or past the count. Takes no memory.
    pub fn slot(&self, i: usize, j: u16) -> &[u8]
        requires { i < length self.now }
        ensures { (d : Looked) → result.now ≡ slice_index_or (slice_index_or self.now i d).slots j [] }
    {
        self.pages[i].slot(j)
    }
}
