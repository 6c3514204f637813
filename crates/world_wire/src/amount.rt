// How much was sent.
ghost use Rattle.std.specs.Prelude.{◌≡◌, ◌||◌, ◌^◌, nat_lt};

// The most messages: 2^20.
const MOST_MESSAGES: u64 = 1 << 20;

// The most bytes: 2^30.
const MOST_BYTES: u64 = 1 << 30;

/// A number of messages, and of the bytes of their spellings.
#[derive(Clone, Copy, Debug)]
pub(crate) struct Amount {
    pub(crate) messages: u64,
    pub(crate) bytes: u64,
}

impl Amount {
    /// It is more than the wire holds.
    pub(crate) fn is_full(&self) -> bool
        ensures { result ≡ (nat_lt (2 ^ 20) self.now.messages || nat_lt (2 ^ 30) self.now.bytes) }
    {
        self.messages > MOST_MESSAGES || self.bytes > MOST_BYTES
    }
}
