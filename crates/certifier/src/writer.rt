// Writers of items.
use gr_ids::{Gtid, Pos};

/// A positive transaction: its GTID and its place.
#[derive(Clone, Copy, Debug, PartialEq, Eq)]
pub struct Writer {
    pub gtid: Gtid,
    pub place: Pos,
}
