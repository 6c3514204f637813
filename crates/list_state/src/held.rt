// What a place holds.
ghost use Rattle.std.specs.Prelude.{◌≡◌};
ghost use Rattle.std.specs.Option.{option_map};
ghost use Rattle.list_state.specs.Holding.{news_of};

use gr_ids::Blob;
use txn_forms::{Body, Txn};

/// What a place holds.
#[derive(Debug, Drop)]
pub enum Held {
    /// A transaction, with the bytes that spell it as a body.
    Txn(Txn, Blob),
    /// A part of a transaction: whether it is void.
    Part(bool),
    /// Another body.
    Other(Body),
    /// No body, or bytes that spell none.
    Nothing,
}

impl Held {
    /// The body, where it is no transaction and no part.
    pub fn news(&self) -> Option<&Body>
        ensures { option_map (λ b. b.now) result ≡ news_of self.now }
    {
        match self {
            Held::Other(body) => Some(body),
            _ => None,
        }
    }
}
