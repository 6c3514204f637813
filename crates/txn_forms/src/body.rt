// The bodies of values.
use gr_ids::{Blob, Gtid, Inc, Sequence};
use gtid_sets::GtidSet;
use key_items::{Change, WriteSet};

/// A transaction as its origin sends it to the group.
#[derive(Debug, Drop)]
pub struct Txn {
    /// Its commit waits until every ONLINE member has prepared it.
    pub after: bool,
    /// The executed set of its member when its commit was asked.
    pub snapshot: GtidSet,
    /// The items that it writes: those of its changes.
    pub items: WriteSet,
    /// Its changes, in the order made; not empty.
    pub changes: Sequence<Change>,
}

/// A change of the group's mode.
#[derive(Clone, Copy, Debug, PartialEq, Eq)]
pub enum ModeChange {
    /// All members take writes.
    Multi,
    /// One member takes writes: the one named, or one that is elected.
    Single(Option<Inc>),
}

/// Part `index` of `count` of a transaction's body that is too large to be sent whole.
#[derive(Debug, Drop)]
pub struct Part {
    pub index: u32,
    pub count: u32,
    pub bytes: Blob,
}

/// What a value's body says.
#[derive(Debug, Drop)]
pub enum Body {
    /// A transaction.
    Txn(Txn),
    /// A member has prepared the transaction with this GTID.
    Prepared(Gtid),
    /// The point up to which a BEFORE transaction waits.
    Sync,
    /// A member tells its executed set.
    Executed(GtidSet),
    /// A joiner has caught up, is ONLINE from here on, and tells its executed set.
    Online(GtidSet),
    /// The mode changes.
    Mode(ModeChange),
    /// In single-primary mode, this incarnation becomes the primary.
    Primary(Inc),
    /// A part of a large transaction.
    Part(Part),
}
