//! A data file that fails: the read is told of, and not tried again.

ghost use Rattle.std.proofs.Common.{rules};
ghost use Rattle.std.specs.Prelude.{◌≡◌, [], ◌∷◌, IfOk};

use crate::{FetchRefusal, Pool};
use ghost_log::Tally;
use page_base::{Failed, Image, NoMemory, PageId};
use page_dev::{FileList, PageFile};
use std::alloc::Global;
use std::test::Fail;

// A file of 2 blank pages that may always fail.
#[derive(Drop)]
struct Fake {
    fails: bool,
    faults: u64,
    calls: Tally,
}

impl PageFile for Fake {
    ghost use Rattle.std.specs.Prelude.{false, []};

    ghost tells = { λ _. false };

    ghost content = { λ _. [] };

    ghost count = { λ _. 2 };

    ghost failures = { λ file. file.faults };

    ghost calls = { λ file. file.calls };

    ghost counted = { λ file t. Prim.search rules };

    ghost sized = { λ file t. Prim.search rules };

    fn faults(&self) -> u64 {
        self.faults
    }

    fn pages(&self) -> u32 {
        2
    }

    fn read_page(&mut self, _n: u32, into: &mut Image) -> Result<(), Failed> {
        self.calls.count();
        if self.fails {
            self.faults = self.faults.saturating_add(1);
            return Err(Failed);
        }
        into.clear();
        Ok(())
    }

    fn write_page(&mut self, _n: u32, _from: &Image) -> Result<(), Failed> {
        self.calls.count();
        if self.fails {
            self.faults = self.faults.saturating_add(1);
            return Err(Failed);
        }
        Ok(())
    }
}

fn data_files(alloc: Global, fails: bool) -> Result<FileList<Fake>, NoMemory>
    ensures { IfOk result (λ list. list.counts ≡ 2 ∷ []) }
{
    let mut files = Vec::new(alloc);
    files.push(Fake {
        fails,
        faults: 0,
        calls: Tally::zero(),
    })?;
    Ok(FileList::from(files))
}

fn one_frame(alloc: Global, fails: bool) -> Result<Pool<Fake>, NoMemory>
    ensures counts { IfOk result (λ pool. pool.files.counts ≡ 2 ∷ []) }
    ensures empty { IfOk result (λ pool. pool.entries ≡ []) }
{
    match Pool::new(alloc, data_files(alloc, fails)?, 1) {
        Ok(pool) => Ok(pool),
        Err(_) => Err(NoMemory),
    }
}

#[test]
fn a_failed_read_is_not_tried_again(rt: HostRuntime) -> Result<(), Fail> {
    let mut pool = one_frame(rt.alloc(), true)?;
    let refused = pool.fetch(rt.alloc(), PageId { file: 0, page: 1 });
    assert_eq!(rt; refused, Err(FetchRefusal::DataFault { count: 1 }));
    assert_eq!(rt; pool.faults(0), 1);
    Ok(())
}
