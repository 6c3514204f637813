// Bytes that are put one after another.
ghost use Rattle.std.specs.Prelude.{◌≡◌, ◌++◌, [], length, take, OnOk, OnErr};
ghost use Rattle.byte_forms.specs.Numbers.{number};

use gr_ids::Memory;
use std::alloc::Global;
use std::marker::Model;

/// The bytes that were put. Numbers are big-endian. Each call is linear in what it puts, and changes nothing
/// where memory is refused.
#[derive(Debug, Drop)]
pub struct Packer {
    bytes: Vec<u8>,
}

impl Model for Packer {
    ghost use Rattle.std.specs.Prelude.{ℕ, List};

    ghost Value = { List ℕ };

    ghost view = { λ p. p.bytes.items };
}

impl Packer {
    /// No bytes; takes no memory.
    pub fn new(alloc: Global) -> Self
        ensures { result ≡ [] }
    {
        Packer {
            bytes: Vec::new(alloc),
        }
    }

    /// Puts one byte.
    pub fn put_u8(&mut self, n: u8) -> Result<(), Memory>
        ensures ok { OnOk result (self.new ≡ self.old ++ number 1 n) }
        ensures err { OnErr result (self.new ≡ self.old) }
    {
        self.put_slice(&[n])
    }

    /// Puts two bytes.
    pub fn put_u16(&mut self, n: u16) -> Result<(), Memory>
        ensures ok { OnOk result (self.new ≡ self.old ++ number 2 n) }
        ensures err { OnErr result (self.new ≡ self.old) }
    {
        self.put_slice(&n.to_be_bytes())
    }

    /// Puts four bytes.
    pub fn put_u32(&mut self, n: u32) -> Result<(), Memory>
        ensures ok { OnOk result (self.new ≡ self.old ++ number 4 n) }
        ensures err { OnErr result (self.new ≡ self.old) }
    {
        self.put_slice(&n.to_be_bytes())
    }

    /// Puts eight bytes.
    pub fn put_u64(&mut self, n: u64) -> Result<(), Memory>
        ensures ok { OnOk result (self.new ≡ self.old ++ number 8 n) }
        ensures err { OnErr result (self.new ≡ self.old) }
    {
        self.put_slice(&n.to_be_bytes())
    }

    /// Puts the bytes.
    pub fn put_slice(&mut self, bytes: &[u8]) -> Result<(), Memory>
        ensures ok { OnOk result (self.new ≡ self.old ++ bytes.now) }
        ensures err { OnErr result (self.new ≡ self.old) }
    {
        self.bytes.extend_from_slice(bytes)?;
        Ok(())
    }

    /// How many bytes there are.
    pub fn len(&self) -> usize
        ensures { result ≡ length self.now }
    {
        self.bytes.len()
    }

    /// Keeps the first `len` bytes, and takes the others back.
    pub fn truncate(&mut self, len: usize)
        ensures { self.new ≡ take len self.old }
    {
        self.bytes.truncate(len);
    }

    /// Hands on the answer of some puts. Where memory was refused, all behind the first `len` bytes is taken back.
    pub fn settle(&mut self, len: usize, put: Result<(), Memory>) -> Result<(), Memory>
        ensures same { result ≡ put }
        ensures ok { OnOk put (self.new ≡ self.old) }
        ensures err { OnErr put (self.new ≡ take len self.old) }
    {
        if put.is_err() {
            self.truncate(len);
        }
        put
    }

    /// The bytes; takes no memory.
    pub fn finish(self) -> Vec<u8>
        ensures { result.items ≡ self }
    {
        self.bytes
    }
}
