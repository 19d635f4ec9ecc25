//! Readers and writers of std as a source and a sink: each failure of theirs is counted, and they tell what those tell.

ghost use Rattle.std.specs.Prelude.{◌≡◌};

use page_base::Failed;
use page_dev::{Sink, SinkRefusal, Source};
use std::io::{Read, Write};

/// A reader as a source, which tells what the reader tells. Its count rises at each error.
#[derive(Drop)]
pub struct InSource<R: Read> {
    inner: R,
    faults: u64,
}

impl<R: Read> InSource<R> {
    /// A source that has met no fault.
    pub fn new(inner: R) -> Self
        ensures { result ≡ record { inner = inner; faults = 0 } }
    {
        InSource { inner, faults: 0 }
    }
}

impl<R: Read> Source for InSource<R> {
    ghost left = { λ s. R.remaining s.inner };

    ghost failures = { λ s. s.faults };

    fn faults(&self) -> u64 {
        self.faults
    }

    fn read(&mut self, into: &mut [u8]) -> Result<usize, Failed> {
        match self.inner.read(into) {
            Ok(count) => Ok(count),
            Err(_) => {
                self.faults = self.faults.saturating_add(1);
                Err(Failed)
            }
        }
    }
}

/// A writer as a sink, which tells what the writer tells. Its count rises at each error, and at a write that takes
/// nothing.
#[derive(Drop)]
pub struct OutSink<W: Write> {
    inner: W,
    faults: u64,
}

impl<W: Write> OutSink<W> {
    /// A sink that has met no fault.
    pub fn new(inner: W) -> Self
        ensures { result ≡ record { inner = inner; faults = 0 } }
    {
        OutSink { inner, faults: 0 }
    }
}

impl<W: Write> Sink for OutSink<W> {
    ghost taken = { λ s. W.contents s.inner };

    ghost failures = { λ s. s.faults };

    fn faults(&self) -> u64 {
        self.faults
    }

    fn write(&mut self, from: &[u8]) -> Result<usize, SinkRefusal> {
        match self.inner.write(from) {
            Ok(0) | Err(_) => {
                self.faults = self.faults.saturating_add(1);
                Err(SinkRefusal::Failed)
            }
            Ok(count) => Ok(count),
        }
    }
}
