// A source and a sink in memory that never fail.
ghost use Rattle.std.specs.Prelude.{◌≡◌, ◌≤◌, ◌<◌, ◌+◌, ℕ, List, [], drop, Some, vec_len};

use crate::failed::Failed;
use crate::sink::Sink;
use crate::source::Source;
use std::alloc::Global;

/// Bytes in memory, of which a pull gives at most `most`. It tells its bytes, and its count of faults is always 0.
#[derive(Drop)]
pub struct SureSource {
    bytes: Vec<u8>,
    at: usize,
    most: usize,
    ghost within: { at ≤ vec_len bytes },
    ghost gives: { 1 ≤ most },
}

impl SureSource {
    ghost use Rattle.gr_io.specs.Memory.{source_left};

    /// A source of these bytes, `most` at a time; takes no memory.
    pub fn new(bytes: Vec<u8>, most: usize) -> Self
        requires { 1 ≤ most }
        ensures { source_left result ≡ bytes.items }
    {
        SureSource { bytes, at: 0, most }
    }
}

impl Source for SureSource {
    ghost left = { λ s. Some (drop s.at s.bytes.items) };

    ghost faults = { λ s. 0 };

    fn pull(&mut self, buf: &mut [u8]) -> Result<usize, Failed> {
        let count = (self.bytes.len() - self.at).min(buf.len()).min(self.most);
        buf[..count].copy_from_slice(&self.bytes[self.at..self.at + count]);
        self.at += count;
        Ok(count)
    }
}

/// Bytes in memory, taken whole. It tells its bytes, and its count of faults is always 0.
/// Where memory is refused it takes nothing, and that push is idle.
#[derive(Drop)]
pub struct SureSink {
    bytes: Vec<u8>,
    idle: u64,
}

impl SureSink {
    ghost use Rattle.gr_io.specs.Memory.{sink_bytes};

    /// An empty sink; takes no memory.
    pub fn new(alloc: Global) -> Self
        ensures { sink_bytes result ≡ [] }
    {
        SureSink {
            bytes: Vec::new(alloc),
            idle: 0,
        }
    }

    /// The bytes that were written.
    pub fn bytes(&self) -> &[u8]
        ensures { result.now ≡ sink_bytes self.now }
    {
        &self.bytes
    }
}

impl Sink for SureSink {
    ghost written = { λ s. Some s.bytes.items };

    ghost faults = { λ s. 0 };

    ghost idle = { λ s. s.idle };

    fn push(&mut self, piece: &[u8]) -> Result<usize, Failed> {
        match self.bytes.extend_from_slice(piece) {
            Ok(()) => Ok(piece.len()),
            Err(_) => {
                if !piece.is_empty() {
                    self.idle = self.idle.saturating_add(1);
                }
                Ok(0)
            }
        }
    }
}
