//! A file whose pages are blank whatever is written, so that calls on it take no time of a device.

use ghost_log::Tally;
use page_base::{Failed, Image, MAX_FRAMES};
use page_dev::PageFile;

/// A file of as many blank pages as there may be frames.
#[derive(Drop)]
pub struct Blank {
    pub calls: Tally,
}

impl PageFile for Blank {
    ghost use Rattle.std.proofs.Common.{rules};
    ghost use Rattle.std.specs.Prelude.{false, []};
    ghost use Rattle.page_base.specs.declared.limits.TheConstants.{MAX_FRAMES};

    ghost tells = { λ _. false };

    ghost content = { λ _. [] };

    ghost count = { λ _. MAX_FRAMES };

    ghost failures = { λ _. 0 };

    ghost calls = { λ file. file.calls };

    ghost counted = { λ file t. Prim.search rules };

    ghost sized = { λ file t. Prim.search rules };

    fn faults(&self) -> u64 {
        0
    }

    fn pages(&self) -> u32 {
        MAX_FRAMES
    }

    fn read_page(&mut self, _n: u32, into: &mut Image) -> Result<(), Failed> {
        self.calls.count();
        into.clear();
        Ok(())
    }

    fn write_page(&mut self, _n: u32, _from: &Image) -> Result<(), Failed> {
        self.calls.count();
        Ok(())
    }
}
