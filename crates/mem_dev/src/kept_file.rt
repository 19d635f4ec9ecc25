//! A file as a volume in memory keeps it: as pages, as bytes, or as the mark that it is out.

ghost use Rattle.std.specs.Prelude.{◌≡◌, ◌≢◌, IsTrue, IfOk, IfErr, length};
ghost use Rattle.std.specs.List.{concat};
ghost use Rattle.page_dev.specs.Volume.{Kept, Lies, Out};
ghost use Rattle.mem_dev.specs.Store.{content_of, are_images};
ghost use Rattle.mem_dev.specs.Shelf.{IsWhy, kept_bytes};

use crate::page_store::PageStore;
use page_base::NoMemory;
use page_dev::VolRefusal;
use std::alloc::Global;
use std::marker::Model;

#[derive(Drop)]
enum Content {
    Pages(PageStore),
    Bytes(Vec<u8>),
    Gone,
}

/// What a volume keeps at a name.
#[derive(Drop)]
pub(crate) struct KeptFile {
    content: Content,
}

impl Model for KeptFile {
    ghost use Rattle.page_dev.specs.Volume.{Kept};

    ghost Value = { Kept };

    ghost use Rattle.mem_dev.specs.KeptFile.{kept_of};

    ghost view = { λ a. kept_of a.content };
}

impl KeptFile {
    /// A file kept as pages.
    pub(crate) fn pages(store: PageStore) -> KeptFile
        ensures { result ≡ Lies (concat (content_of store)) }
    {
        KeptFile {
            content: Content::Pages(store),
        }
    }

    /// A file kept as bytes.
    pub(crate) fn bytes(bytes: Vec<u8>) -> KeptFile
        ensures { result ≡ Lies bytes.items }
    {
        KeptFile {
            content: Content::Bytes(bytes),
        }
    }

    /// The mark of a file that is out.
    pub(crate) fn gone() -> KeptFile
        ensures { result ≡ Out }
    {
        KeptFile {
            content: Content::Gone,
        }
    }

    /// A copy of the file's bytes; none where it is out.
    pub(crate) fn copy(&self, alloc: Global) -> Result<Vec<u8>, NoMemory>
        ensures { IfOk result (λ bytes. bytes.items ≡ kept_bytes self.now) }
    {
        match &self.content {
            Content::Pages(store) => store.to_bytes(alloc),
            Content::Bytes(bytes) => Ok(Vec::from_slice(alloc, bytes)?),
            Content::Gone => Ok(Vec::new(alloc)),
        }
    }

    /// The file as so many pages. Where it has another length, or no memory is found, it is handed back.
    pub(crate) fn into_store(self, alloc: Global, pages: u32) -> Result<PageStore, Refused>
        requires { self ≢ Out }
        ensures ok { IfOk result (λ store. self ≡ Lies (concat (content_of store))) }
        ensures count { IfOk result (λ store. length store ≡ pages) }
        ensures images { IfOk result (λ store. IsTrue (are_images store)) }
        ensures err { IfErr result (λ refused. refused.file ≡ self) }
        ensures why { IfErr result (λ refused. IsWhy pages self refused.why) }
    {
        let KeptFile { content } = self;
        match content {
            Content::Pages(store) => store_of(store, pages),
            Content::Bytes(bytes) => pages_of(alloc, bytes, pages),
            Content::Gone => Err(Refused {
                file: KeptFile::gone(),
                why: VolRefusal::Memory,
            }),
        }
    }

    /// The file as bytes. Where no memory is found it is handed back.
    pub(crate) fn into_bytes(self, alloc: Global) -> Result<Vec<u8>, KeptFile>
        requires { self ≢ Out }
        ensures ok { IfOk result (λ bytes. self ≡ Lies bytes.items) }
        ensures err { IfErr result (λ file. file ≡ self) }
    {
        let KeptFile { content } = self;
        match content {
            Content::Pages(store) => match store.to_bytes(alloc) {
                Ok(bytes) => Ok(bytes),
                Err(_) => Err(KeptFile::pages(store)),
            },
            Content::Bytes(bytes) => Ok(bytes),
            Content::Gone => Err(KeptFile::gone()),
        }
    }
}

/// A file that wasn't given, and why.
#[derive(Drop)]
pub(crate) struct Refused {
    pub(crate) file: KeptFile,
    pub(crate) why: VolRefusal,
}

// The pages, where they are so many.
fn store_of(store: PageStore, pages: u32) -> Result<PageStore, Refused>
    ensures ok { IfOk result (λ given. given ≡ store) }
    ensures count { IfOk result (λ given. length given ≡ pages) }
    ensures images { IfOk result (λ given. IsTrue (are_images given)) }
    ensures err { IfErr result (λ refused. refused.file ≡ Lies (concat (content_of store))) }
    ensures why { IfErr result (λ refused. IsWhy pages (Lies (concat (content_of store))) refused.why) }
{
    let count = store.count();
    if count == pages {
        return Ok(store);
    }
    Err(Refused {
        file: KeptFile::pages(store),
        why: VolRefusal::Length {
            found: 8192 * count as u64,
        },
    })
}

// The bytes as pages, where they are so many.
fn pages_of(alloc: Global, bytes: Vec<u8>, pages: u32) -> Result<PageStore, Refused>
    ensures ok { IfOk result (λ store. concat (content_of store) ≡ bytes.items) }
    ensures count { IfOk result (λ store. length store ≡ pages) }
    ensures images { IfOk result (λ store. IsTrue (are_images store)) }
    ensures err { IfErr result (λ refused. refused.file ≡ Lies bytes.items) }
    ensures why { IfErr result (λ refused. IsWhy pages (Lies bytes.items) refused.why) }
{
    let found = bytes.len() as u64;
    if found != 8192 * pages as u64 {
        return Err(Refused {
            file: KeptFile::bytes(bytes),
            why: VolRefusal::Length { found },
        });
    }
    match PageStore::from_bytes(alloc, pages, &bytes) {
        Ok(store) => Ok(store),
        Err(_) => Err(Refused {
            file: KeptFile::bytes(bytes),
            why: VolRefusal::Memory,
        }),
    }
}
