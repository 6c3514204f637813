// What a step of a script says.
use crate::marks::Mark;
use gr_ids::{Ballot, Blob, Gtid, Inc, MemberState, Mode, Pos, Sequence};
use gtid_sets::GtidSet;
use key_items::Item;

/// A member's state as another one shows it.
#[derive(Clone, Copy, Debug, PartialEq, Eq)]
pub enum Shown {
    State(MemberState),
    /// It has been silent for too long.
    Unreachable,
}

/// A member as `show members` lists it.
#[derive(Clone, Copy, Debug, PartialEq, Eq)]
pub struct ShownMember {
    pub inc: Inc,
    pub shown: Shown,
    pub primary: bool,
}

/// A row.
#[derive(Debug, Drop)]
pub struct Row {
    pub item: Item,
    pub value: Blob,
}

/// A queued place.
#[derive(Clone, Copy, Debug, PartialEq, Eq)]
pub struct QueuedPlace {
    pub place: Pos,
    pub done: bool,
}

/// An item with its last positive writer.
#[derive(Debug, Drop)]
pub struct ItemWriter {
    pub item: Item,
    pub gtid: Gtid,
}

/// A message that was neither delivered nor lost; `kind` is the byte of its kind.
#[derive(Clone, Copy, Debug, PartialEq, Eq)]
pub struct WireLine {
    pub number: u64,
    pub from: Inc,
    pub to: Inc,
    pub kind: u8,
}

/// What a look shows.
#[derive(Debug, Drop)]
pub enum Look {
    Members {
        inc: Inc,
        members: Sequence<ShownMember>,
        view: u64,
        mode: Mode,
    },
    Slots {
        inc: Inc,
        next: u64,
        place: Pos,
        promise: Option<Ballot>,
    },
    Config {
        inc: Inc,
        slot: u64,
        members: Option<Sequence<Inc>>,
    },
    Gtids {
        inc: Inc,
        set: GtidSet,
    },
    Rows {
        inc: Inc,
        rows: Sequence<Row>,
    },
    Queue {
        inc: Inc,
        places: Sequence<QueuedPlace>,
    },
    Certifier {
        inc: Inc,
        items: Sequence<ItemWriter>,
    },
    Kept {
        inc: Inc,
        low: u64,
    },
    Wire {
        messages: Sequence<WireLine>,
        sent: u64,
    },
}

/// One thing that a step says.
#[derive(Debug, Drop)]
pub enum Said {
    /// A mark of an incarnation.
    Marked(Inc, Mark),
    /// A worker found nothing to do.
    Idle(Inc),
    /// A row was written offline under this GTID.
    Offline(Gtid),
    Looked(Look),
}
