// A certified transaction that isn't committed.
use gr_ids::{Gtid, Pos, ValueId};

/// A certified transaction that isn't committed here: its place, the identity of its value, its GTID, and whether it is AFTER.
#[derive(Clone, Copy, Debug, PartialEq, Eq)]
pub struct Uncommitted {
    pub place: Pos,
    /// The number is 0 where a donor gave the transaction, since a Give doesn't tell it.
    pub id: ValueId,
    pub gtid: Gtid,
    pub after: bool,
}
