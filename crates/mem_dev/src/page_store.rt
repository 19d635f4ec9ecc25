//! The pages of a file in memory, of which those that were never written take none.

ghost use Rattle.std.specs.Prelude.{◌≡◌, ◌*◌, ◌<◌, IsTrue, None, Some, IfOk, OnOk, OnErr, IsOk, ◌++◌, length, take, replicate, is_some, slice_set, slice_index_or};
ghost use Rattle.std.specs.List.{concat};
ghost use Rattle.page_dev.specs.PageFile.{file_page, new_pages, pages_of};
ghost use Rattle.mem_dev.specs.Store.{bytes_of, content_of, written, are_images, is_full};
ghost use Rattle.page_base.specs.Pages.{blank};

use page_base::{Image, NoMemory, PAGE};
use std::alloc::Global;
use std::marker::Model;

/// Pages, each with its image where it was written.
#[derive(Debug, Drop)]
pub(crate) struct PageStore {
    pages: Vec<Option<Image>>,
}

impl Model for PageStore {
    ghost use Rattle.std.specs.Prelude.{List, ℕ, Option};
    ghost use Rattle.mem_dev.specs.Store.{Stored, IsStore};

    ghost Value = { List (Option (List ℕ)) };

    ghost view = { λ a. a.pages.items };

    ghost invariant = { λ a. IsStore a.pages.items };
}

// Appends the bytes of a page.
#[tactic(auto, unfolding(page_base::specs::Pages::blank))]
fn append_page(bytes: &mut Vec<u8>, page: &Option<Image>) -> Result<(), NoMemory>
    ensures { OnOk result (bytes.new.items ≡ bytes.old.items ++ bytes_of page.now) }
{
    match page {
        Some(image) => bytes.extend_from_slice(image.bytes())?,
        None => bytes.extend_from_slice(&[0u8; PAGE])?,
    }
    Ok(())
}

impl PageStore {
    /// So many pages, none of them written.
    pub(crate) fn new(alloc: Global, count: u32) -> Result<PageStore, NoMemory>
        ensures none { IfOk result (λ store. store ≡ replicate count None) }
        ensures zeros { IfOk result (λ store. content_of store ≡ new_pages count) }
        ensures images { IfOk result (λ store. IsTrue (are_images store)) }
    {
        let mut pages = Vec::new(alloc);
        for _ in 0..count {
            pages.push(None)?;
        }
        Ok(PageStore { pages })
    }

    /// How many pages there are.
    pub(crate) fn count(&self) -> u32
        ensures count { result ≡ length self.now }
        ensures images { IsTrue (are_images self.now) }
    {
        self.pages.len() as u32
    }

    /// How many pages were written.
    pub(crate) fn written(&self) -> usize
        ensures { result ≡ written self.now }
    {
        self.pages.iter().filter(|page| page.is_some()).count()
    }

    /// Whether a page was written.
    pub(crate) fn has(&self, n: u32) -> bool
        requires { n < length self.now }
        ensures { result ≡ is_some (slice_index_or self.now n None) }
    {
        self.pages[n as usize].is_some()
    }

    /// Reads a page.
    pub(crate) fn read(&self, n: u32, into: &mut Image)
        requires { n < length self.now }
        ensures { into.new ≡ file_page (content_of self.now) n }
    {
        match &self.pages[n as usize] {
            Some(image) => into.set(image),
            None => into.clear(),
        }
    }

    /// Writes a page. Memory is wanted only where the page was never written; after want of it all is as before.
    pub(crate) fn write(&mut self, alloc: Global, n: u32, from: &Image) -> Result<(), NoMemory>
        requires { n < length self.old }
        ensures ok { OnOk result (self.new ≡ slice_set self.old n (Some from.now)) }
        ensures err { OnErr result (self.new ≡ self.old) }
        ensures there { IsTrue (is_some (slice_index_or self.old n None)) → IsOk result }
        ensures before { IsTrue (are_images self.old) }
        ensures after { IsTrue (are_images self.new) }
    {
        let mut image = match self.pages[n as usize].take() {
            Some(image) => image,
            None => Image::blank(alloc)?,
        };
        image.set_bytes(from.bytes());
        self.pages[n as usize] = Some(image);
        Ok(())
    }
}

impl PageStore {
    /// Writes a page that was written before. Takes no memory.
    pub(crate) fn overwrite(&mut self, n: u32, from: &Image)
        requires page { n < length self.old }
        requires written { IsTrue (is_some (slice_index_or self.old n None)) }
        ensures new { self.new ≡ slice_set self.old n (Some from.now) }
        ensures before { IsTrue (are_images self.old) }
        ensures after { IsTrue (are_images self.new) }
    {
        let mut image = self.pages[n as usize].take().unwrap();
        image.set_bytes(from.bytes());
        self.pages[n as usize] = Some(image);
    }

    /// Writes zeros into each page that was never written, so that none wants memory any more. The pages read as before.
    pub(crate) fn fill(&mut self, alloc: Global) -> Result<(), NoMemory>
        ensures content { content_of self.new ≡ content_of self.old }
        ensures full { OnOk result (IsTrue (is_full self.new)) }
    {
        let zeros = Image::blank(alloc)?;
        for n in 0..self.count() {
            self.make(alloc, n, &zeros)?;
        }
        Ok(())
    }

    // Writes zeros into a page that was never written.
    fn make(&mut self, alloc: Global, n: u32, zeros: &Image) -> Result<(), NoMemory>
        requires page { n < length self.old }
        requires zeros { zeros.now ≡ blank }
        ensures content { content_of self.new ≡ content_of self.old }
        ensures count { length self.new ≡ length self.old }
        ensures others { take n self.new ≡ take n self.old }
        ensures made { OnOk result (IsTrue (is_some (slice_index_or self.new n None))) }
    {
        if self.has(n) {
            return Ok(());
        }
        self.write(alloc, n, zeros)
    }

    /// So many pages with these bytes, one after the other.
    pub(crate) fn from_bytes(alloc: Global, count: u32, bytes: &[u8]) -> Result<PageStore, NoMemory>
        requires { length bytes.now ≡ 8192 * count }
        ensures content { IfOk result (λ store. content_of store ≡ pages_of count bytes.now) }
        ensures full { IfOk result (λ store. IsTrue (is_full store)) }
        ensures images { IfOk result (λ store. IsTrue (are_images store)) }
    {
        let mut pages = Vec::new(alloc);
        let mut rest = bytes;
        for _ in 0..count {
            let (page, others) = rest.split_at(PAGE);
            let mut image = Image::blank(alloc)?;
            image.set_bytes(page);
            pages.push(Some(image))?;
            rest = others;
        }
        Ok(PageStore { pages })
    }

    /// The bytes of all pages, one after the other.
    pub(crate) fn to_bytes(&self, alloc: Global) -> Result<Vec<u8>, NoMemory>
        ensures { IfOk result (λ bytes. bytes.items ≡ concat (content_of self.now)) }
    {
        let mut bytes = Vec::new(alloc);
        for page in &self.pages {
            append_page(&mut bytes, page)?;
        }
        Ok(bytes)
    }
}
