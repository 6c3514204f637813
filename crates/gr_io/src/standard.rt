// The edge to std's readers and writers, each with a count of its errors. They tell no bytes.
ghost use Rattle.std.specs.Prelude.{◌≡◌, None};

use crate::failed::Failed;
use crate::sink::Sink;
use crate::source::Source;
use std::io::{Read, Write};

/// A reader of std as a source that tells no bytes. Each error of the reader counts as one fault.
#[derive(Drop)]
pub struct StdSource<R> {
    inner: R,
    faults: u64,
}

impl<R: Read> StdSource<R> {
    /// The reader, with no faults so far.
    pub fn new(inner: R) -> Self
        ensures reader { result.inner ≡ inner }
        ensures faults { result.faults ≡ 0 }
    {
        StdSource { inner, faults: 0 }
    }
}

impl<R: Read> Source for StdSource<R> {
    ghost left = { λ s. None };

    ghost faults = { λ s. s.faults };

    fn pull(&mut self, buf: &mut [u8]) -> Result<usize, Failed> {
        match self.inner.read(buf) {
            Ok(count) => Ok(count),
            Err(_) => {
                self.faults = self.faults.saturating_add(1);
                Err(Failed)
            }
        }
    }
}

/// A writer of std as a sink that tells no bytes. Each error of the writer counts as one fault.
#[derive(Drop)]
pub struct StdSink<W> {
    inner: W,
    faults: u64,
    idle: u64,
}

impl<W: Write> StdSink<W> {
    /// The writer, with no faults and no idle pushes so far.
    pub fn new(inner: W) -> Self
        ensures writer { result.inner ≡ inner }
        ensures counts { (result.faults ≡ 0) × (result.idle ≡ 0) }
    {
        StdSink {
            inner,
            faults: 0,
            idle: 0,
        }
    }
}

impl<W: Write> Sink for StdSink<W> {
    ghost written = { λ s. None };

    ghost faults = { λ s. s.faults };

    ghost idle = { λ s. s.idle };

    fn push(&mut self, piece: &[u8]) -> Result<usize, Failed> {
        match self.inner.write(piece) {
            Ok(count) => {
                if count == 0 && !piece.is_empty() {
                    self.idle = self.idle.saturating_add(1);
                }
                Ok(count)
            }
            Err(_) => {
                self.faults = self.faults.saturating_add(1);
                Err(Failed)
            }
        }
    }
}
