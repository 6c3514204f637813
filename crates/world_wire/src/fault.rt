// Why messages aren't sent.
use gr_ids::Memory;
use thiserror::Error;

/// Why messages aren't sent.
#[derive(Clone, Copy, Debug, PartialEq, Eq, Error)]
pub enum WireFault {
    /// The wire would have come to so many messages and bytes, above its limits.
    #[error("the wire is full")]
    Full { messages: u64, bytes: u64 },
    #[error("memory was refused")]
    Memory,
}

impl From<Memory> for WireFault {
    ghost use Rattle.std.specs.Prelude.{◌≡◌};
    ghost use Rattle.world_wire.specs.declared.fault.WireFault.TheVariants.{Memory as Refused};

    ghost from_gives = { λ _ e. e ≡ Refused };

    fn from(_: Memory) -> Self {
        WireFault::Memory
    }
}
