// A letter from one member to another.
ghost use Rattle.std.specs.Prelude.{◌≡◌, ◌<◌, ◌^◌, Some};
ghost use Rattle.wire_hub.specs.Spelt.{ends_of};

use gr_ids::{Blob, Inc};

/// A message on its way. `index` counts, from 1, the messages that the sender's steps sent, to whomever; `stamp` is that of the
/// event that sent it.
#[derive(Drop)]
pub struct Letter {
    pub from: Inc,
    pub to: Inc,
    pub index: u64,
    pub stamp: u64,
    pub bytes: Blob,
    ghost spelt: { ends_of bytes ≡ Some (from, to) },
    ghost stamped: { stamp < 2 ^ 62 },
}

impl Letter {
    /// A letter whose bytes spell a message from `from` to `to`. Takes no memory.
    pub fn new(from: Inc, to: Inc, index: u64, stamp: u64, bytes: Blob) -> Letter
        requires spelt { ends_of bytes ≡ Some (from, to) }
        requires stamped { stamp < 2 ^ 62 }
        ensures names { (result.from ≡ from) × (result.to ≡ to) }
        ensures content { (result.index ≡ index) × (result.stamp ≡ stamp) × (result.bytes ≡ bytes) }
    {
        Letter {
            from,
            to,
            index,
            stamp,
            bytes,
        }
    }
}
