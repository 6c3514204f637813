// What sessions and operators ask of a member.
use gr_ids::{Blob, Inc, Level};
use key_items::Item;

/// A session call.
#[derive(Debug, Drop)]
pub enum Request {
    /// Begins a transaction; where it has to wait, for at most so many ticks of the member, at least 1.
    Begin(Level, u32),
    Get(Item),
    Insert(Item, Blob),
    Update(Item, Blob),
    Delete(Item),
    Commit,
    Rollback,
}

/// An operator's action at a member.
#[derive(Clone, Copy, Debug, PartialEq, Eq)]
pub enum Operator {
    /// Tries to become the leader of the ordering.
    Campaign,
    /// Tells its executed set.
    Tell,
    /// Leaves the group.
    Leave,
    /// Makes this incarnation the primary (`group_replication_set_as_primary`).
    SetPrimary(Inc),
    /// Switches to single-primary mode, with this incarnation or an elected one as primary
    /// (`group_replication_switch_to_single_primary_mode`).
    Single(Option<Inc>),
    /// Switches to multi-primary mode (`group_replication_switch_to_multi_primary_mode`).
    Multi,
    /// Asks this donor for what the joiner lacks.
    AskDonor(Inc),
    /// Hands the pending ask back as failed.
    DonorFailed,
    /// Ends the work of a member's threads; changes nothing else.
    Finish,
}
