// A whole list of bytes to a sink.
ghost use Rattle.std.specs.Prelude.{◌≡◌, ◌<◌, length, IfErr};
ghost use Rattle.std.specs.Io.KnownBytes.{append_known};
ghost use Rattle.gr_io.specs.Put.{put_bytes, taken_of, FailsBy, IdlesBy};

use crate::sink::Sink;
use thiserror::Error;

/// Why a put stopped, and how many of its bytes were appended before.
#[derive(Clone, Copy, Debug, PartialEq, Eq, Error)]
pub enum PutFault {
    /// The sink failed.
    #[error("the sink failed after {taken} bytes")]
    Failed { taken: usize },
    /// The sink took nothing of a piece that wasn't empty.
    #[error("the sink took nothing after {taken} bytes")]
    TookNothing { taken: usize },
}

/// Pushes until all bytes are taken. It returns whatever the sink does, after at most one push for each byte.
/// `Failed` comes only where the sink's count of faults rose, `TookNothing` exactly where a push took nothing.
pub fn put_all<K: Sink>(sink: &mut K, bytes: &[u8]) -> Result<(), PutFault>
    ensures content { K.written sink.new ≡ append_known (K.written sink.old) (put_bytes result bytes.now) }
    ensures bound { IfErr result (λ fault. taken_of fault < length bytes.now) }
    ensures cause { FailsBy result (K.faults sink.old) (K.faults sink.new) }
    ensures idle { IdlesBy result (K.idle sink.old) (K.idle sink.new) }
{
    let mut taken = 0;
    while taken < bytes.len() {
        match sink.push(&bytes[taken..]) {
            Err(_) => return Err(PutFault::Failed { taken }),
            Ok(0) => return Err(PutFault::TookNothing { taken }),
            Ok(count) => taken += count,
        }
    }
    Ok(())
}
