// What a sink of bytes took, and how often it failed.
ghost use Rattle.std.specs.Prelude.{◌≡◌, ◌≤◌, ℕ, List, Option, length, IfOk};
ghost use Rattle.std.specs.Io.KnownBytes.{append_known};
ghost use Rattle.gr_io.specs.Causes.{HasCause, CountsIdle};
ghost use Rattle.gr_io.specs.Bytes.{moved};

use crate::failed::Failed;

/// A sink of bytes. It may tell the bytes that were written; whether it does never changes.
pub trait Sink {
    /// The bytes that were written, where the sink tells them.
    ghost written: { Self → Option (List ℕ) };

    /// How often it has failed. The count never falls.
    ghost faults: { Self → ℕ };

    /// How often it took nothing of a piece that wasn't empty. The count never falls.
    ghost idle: { Self → ℕ };

    /// Appends the first bytes of the piece, and answers their number.
    /// It answers `Failed` only where the count of faults rose in this call, and then nothing was appended.
    fn push(&mut self, piece: &[u8]) -> Result<usize, Failed>
        ensures bound { IfOk result (λ n. n ≤ length piece.now) }
        ensures content { written self.new ≡ append_known (written self.old) (moved result piece.now) }
        ensures cause { HasCause (faults self.old) (faults self.new) result }
        ensures idle { CountsIdle (idle self.old) (idle self.new) result (length piece.now) };
}
