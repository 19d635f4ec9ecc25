//! The worked example of a map's words and the file's size, and a file that fails.

ghost use Rattle.std.proofs.Common.{rules};
ghost use Rattle.std.specs.Prelude.{◌≡◌, [], ◌∷◌, IfOk};
ghost use Rattle.sparse_set.specs.Sparse.{IsEmptyMap};

use crate::SparseSet;
use ghost_log::Tally;
use page_base::{Failed, Image, NoMemory, PageId};
use page_dev::{FileList, PageFile};
use std::alloc::Global;
use std::test::Fail;

// A file of 72 pages that keeps the number of the last one written, with its first row byte, and may always fail.
#[derive(Drop)]
struct Fake {
    last: (u32, u8),
    fails: bool,
    faults: u64,
    calls: Tally,
}

impl PageFile for Fake {
    ghost use Rattle.std.specs.Prelude.{false, []};

    ghost tells = { λ _. false };

    ghost content = { λ _. [] };

    ghost count = { λ _. 72 };

    ghost failures = { λ file. file.faults };

    ghost calls = { λ file. file.calls };

    ghost counted = { λ file t. Prim.search rules };

    ghost sized = { λ file t. Prim.search rules };

    fn faults(&self) -> u64 {
        self.faults
    }

    fn pages(&self) -> u32 {
        72
    }

    fn read_page(&mut self, _n: u32, into: &mut Image) -> Result<(), Failed> {
        self.calls.count();
        if self.fails {
            self.faults = self.faults.saturating_add(1);
            return Err(Failed);
        }
        into.bytes_mut()[96] = self.last.1;
        Ok(())
    }

    fn write_page(&mut self, n: u32, from: &Image) -> Result<(), Failed> {
        self.calls.count();
        if self.fails {
            self.faults = self.faults.saturating_add(1);
            return Err(Failed);
        }
        self.last = (n, from.bytes()[96]);
        Ok(())
    }
}

fn sparse_files(alloc: Global, fails: bool) -> Result<FileList<Fake>, NoMemory>
    ensures { IfOk result (λ list. list.counts ≡ 72 ∷ []) }
{
    let mut files = Vec::new(alloc);
    files.push(Fake {
        last: (0, 0),
        fails,
        faults: 0,
        calls: Tally::zero(),
    })?;
    Ok(FileList::from(files))
}

fn sparse_set(alloc: Global, fails: bool) -> Result<SparseSet<Fake>, NoMemory>
    ensures counts { IfOk result (λ set. set.files.counts ≡ 72 ∷ []) }
    ensures empty { IfOk result (λ set. IsEmptyMap set) }
{
    match SparseSet::new(alloc, sparse_files(alloc, fails)?) {
        Ok(set) => Ok(set),
        Err(_) => Err(NoMemory),
    }
}

#[test]
fn pages_are_bits_of_words(rt: HostRuntime) -> Result<(), Fail> {
    let mut set = sparse_set(rt.alloc(), false)?;
    let image = Image::blank(rt.alloc())?;
    assert_eq!(rt; set.size_on_disk(0), 0);
    for (page, size) in [(0u32, 65536u64), (8, 131072), (63, 196608), (71, 262144)] {
        let p = PageId { file: 0, page };
        assert!(rt; page < 72);
        assert_eq!(rt; set.copied(p), false);
        assert_eq!(rt; set.copy(p, &image), Ok(()));
        set.mark(p);
        assert_eq!(rt; set.copied(p), true);
        assert_eq!(rt; set.size_on_disk(0), size, "after page {page}");
    }
    assert_eq!(rt; set.words(0), [9223372036854776065u64, 128].as_slice());
    assert_eq!(rt; set.size_on_disk(1), 0);
    Ok(())
}

#[test]
fn a_file_that_fails_keeps_its_map(rt: HostRuntime) -> Result<(), Fail> {
    let mut set = sparse_set(rt.alloc(), true)?;
    let image = Image::blank(rt.alloc())?;
    let p = PageId { file: 0, page: 71 };
    assert_eq!(rt; set.copy(p, &image), Err(Failed));
    assert_eq!(rt; set.copied(p), false);
    assert_eq!(rt; set.faults(), 1);
    Ok(())
}
