// How a joiner gets what it lacks from a donor.
use gr_ids::{Blob, Gtid, Inc, LastNumber, OpenParts, Pos, Sequence};
use gtid_sets::{GtidSet, ToldSet};
use key_items::KeptItem;

/// A joiner asks a donor for what it lacks as of the place of its Add.
#[derive(Debug, Drop)]
pub struct Ask {
    pub place: Pos,
    /// The joiner's executed set.
    pub executed: GtidSet,
}

/// A certified transaction: its place, origin and GTID, and the bytes of its body.
#[derive(Debug, Drop)]
pub struct Given {
    pub place: Pos,
    pub origin: Inc,
    pub gtid: Gtid,
    pub body: Blob,
}

/// A donor's answer: the certifier as of the place of the Add, and the certified transactions that the joiner lacks.
#[derive(Debug, Drop)]
pub struct Give {
    pub place: Pos,
    /// How many blocks of GTID numbers are taken.
    pub blocks: u64,
    /// The number of the last positive transaction of each member that has one, ascending by member.
    pub last: Sequence<LastNumber>,
    /// The kept items, ascending.
    pub items: Sequence<KeptItem>,
    /// The last set that each member told, ascending by member.
    pub told: Sequence<ToldSet>,
    /// The GTIDs of all certified transactions.
    pub certified: GtidSet,
    /// The certified transactions that the joiner lacks, by place.
    pub txns: Sequence<Given>,
    /// The open parts of each member, ascending by member.
    pub parts: Sequence<OpenParts>,
}
