// Sessions whose begins are held.
use gr_ids::{Pos, Sequence, SessionId};
use group_rules::{Conditions, Pending};

/// A held begin: its conditions, the place of its Sync once that is taken, and its ticks of the limit.
#[derive(Debug, Drop)]
pub(crate) struct Held {
    pub(crate) session: SessionId,
    pub(crate) conditions: Conditions,
    pub(crate) sync_place: Option<Pos>,
    pub(crate) ticks: u32,
    pub(crate) limit: u32,
}

/// The certified transactions that this member has taken or was given and hasn't committed, ascending by place.
#[derive(Debug, Drop)]
pub struct Standing {
    pub pending: Sequence<Pending>,
}

/// A session whose conditions hold, with the place of its Sync if it has one.
#[derive(Clone, Copy, Debug, PartialEq, Eq)]
pub struct Released {
    pub session: SessionId,
    pub sync: Option<Pos>,
}
