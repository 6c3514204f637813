// The settings of a group.

/// The settings that all members of a group share.
#[derive(Clone, Copy, Debug, PartialEq, Eq)]
pub struct Limits {
    /// The UUID under which the group's transactions get their GTIDs (`group_replication_group_name`).
    pub group: [u8; 16],
    /// How many slots after a membership change it rules, 10 to 200 (the event horizon).
    pub horizon: u16,
    /// Ticks beyond suspicion after which a silent member is expelled (`group_replication_member_expel_timeout`).
    pub expel: u32,
    /// Ticks without a majority after which a member takes ERROR (`group_replication_unreachable_majority_timeout`); 0 for never.
    pub majority: u32,
    /// How many consecutive GTID numbers an origin draws at a time, 1 to 1,000,000 (`group_replication_gtid_assignment_block_size`).
    pub block: u32,
}
