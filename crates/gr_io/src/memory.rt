// A source and a sink in memory, which fail at the calls that they are told to fail at.
ghost use Rattle.std.specs.Prelude.{◌≡◌, ◌≤◌, ℕ, List, [], Some};

use crate::failed::Failed;
use crate::sink::Sink;
use crate::source::Source;
use crate::sure::SureSource;
use std::alloc::Global;

/// Bytes in memory, of which a pull gives at most `most`. It tells its bytes.
/// It fails at the calls whose numbers it was given, counted from 1.
#[derive(Drop)]
pub struct MemSource {
    inner: SureSource,
    calls: u64,
    failing: Vec<u64>,
    faults: u64,
}

impl MemSource {
    ghost use Rattle.gr_io.specs.Memory.{mem_source_left};

    /// A source of these bytes, `most` at a time, which fails at the calls `failing`; takes no memory.
    pub fn new(bytes: Vec<u8>, most: usize, failing: Vec<u64>) -> Self
        requires { 1 ≤ most }
        ensures { mem_source_left result ≡ bytes.items }
    {
        MemSource {
            inner: SureSource::new(bytes, most),
            calls: 0,
            failing,
            faults: 0,
        }
    }
}

impl Source for MemSource {
    ghost use Rattle.gr_io.specs.Memory.{mem_source_left};

    ghost left = { λ s. Some (mem_source_left s) };

    ghost faults = { λ s. s.faults };

    fn pull(&mut self, buf: &mut [u8]) -> Result<usize, Failed> {
        self.calls = self.calls.saturating_add(1);
        if self.failing.contains(&self.calls) {
            self.faults = self.faults.saturating_add(1);
            return Err(Failed);
        }
        self.inner.pull(buf)
    }
}

/// Bytes in memory, of which a push takes at most `most`. It tells its bytes.
/// By the numbers that it was given, counted from 1, it fails at some calls and takes nothing at others.
/// It also fails where memory is refused.
#[derive(Drop)]
pub struct MemSink {
    bytes: Vec<u8>,
    most: usize,
    calls: u64,
    failing: Vec<u64>,
    idling: Vec<u64>,
    faults: u64,
    idle: u64,
}

impl MemSink {
    ghost use Rattle.gr_io.specs.Memory.{mem_sink_bytes};

    /// An empty sink, which takes `most` at a time, fails at the calls `failing` and takes nothing at the calls `idling`;
    /// takes no memory.
    pub fn new(alloc: Global, most: usize, failing: Vec<u64>, idling: Vec<u64>) -> Self
        ensures { mem_sink_bytes result ≡ [] }
    {
        MemSink {
            bytes: Vec::new(alloc),
            most,
            calls: 0,
            failing,
            idling,
            faults: 0,
            idle: 0,
        }
    }

    // How much of a piece of this length this call takes.
    fn share(&self, len: usize) -> usize
        ensures { result ≤ len }
    {
        if self.idling.contains(&self.calls) {
            return 0;
        }
        len.min(self.most)
    }

    /// The bytes that were written.
    pub fn bytes(&self) -> &[u8]
        ensures { result.now ≡ mem_sink_bytes self.now }
    {
        &self.bytes
    }
}

impl Sink for MemSink {
    ghost written = { λ s. Some s.bytes.items };

    ghost faults = { λ s. s.faults };

    ghost idle = { λ s. s.idle };

    fn push(&mut self, piece: &[u8]) -> Result<usize, Failed> {
        self.calls = self.calls.saturating_add(1);
        let count = self.share(piece.len());
        if self.failing.contains(&self.calls)
            || self.bytes.extend_from_slice(&piece[..count]).is_err()
        {
            self.faults = self.faults.saturating_add(1);
            return Err(Failed);
        }
        if count == 0 && !piece.is_empty() {
            self.idle = self.idle.saturating_add(1);
        }
        Ok(count)
    }
}
