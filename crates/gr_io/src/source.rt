// What a source of bytes gives, and how often it failed.
ghost use Rattle.std.specs.Prelude.{◌≡◌, ◌<◌, ◌≤◌, ℕ, List, Option, length, Ok, IfOk};
ghost use Rattle.std.specs.Io.KnownBytes.{prepend_known, IsAtEnd};
ghost use Rattle.gr_io.specs.Causes.{HasCause};
ghost use Rattle.gr_io.specs.Bytes.{moved};

use crate::failed::Failed;

/// A source of bytes. It may tell the bytes that are left; whether it does never changes.
pub trait Source {
    /// The bytes that are left, where the source tells them.
    ghost left: { Self → Option (List ℕ) };

    /// How often it has failed. The count never falls.
    ghost faults: { Self → ℕ };

    /// Moves the first bytes that are left into the front of the buffer, and answers their number.
    /// A 0 for a buffer that isn't empty means the end: then nothing is left.
    /// It answers `Failed` only where the count of faults rose in this call, and then nothing was moved.
    fn pull(&mut self, buf: &mut [u8]) -> Result<usize, Failed>
        ensures bound { IfOk result (λ n. n ≤ length buf.new) }
        ensures content { left self.old ≡ prepend_known (moved result buf.new) (left self.new) }
        ensures end { result ≡ Ok 0 → 0 < length buf.new → IsAtEnd (left self.new) }
        ensures cause { HasCause (faults self.old) (faults self.new) result };
}
