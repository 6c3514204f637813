// What a donor keeps of an Add, and what a joiner begins with.
use gr_ids::{LastNumber, OpenParts, Pos, Sequence};
use gtid_sets::ToldSet;
use key_items::KeptItem;
use paxos_forms::Given;

/// What stood at the place of an Add: the certifier, the sets told and the open parts.
#[derive(Debug, Drop)]
pub struct AtAdd {
    pub place: Pos,
    /// How many blocks of GTID numbers are taken.
    pub blocks: u64,
    /// The number of the last positive transaction of each member that has one, ascending by member.
    pub last: Sequence<LastNumber>,
    /// The kept items, ascending.
    pub items: Sequence<KeptItem>,
    /// The last set that each member told, ascending by member.
    pub told: Sequence<ToldSet>,
    /// The open parts of each member, ascending by member.
    pub parts: Sequence<OpenParts>,
}

/// What a joiner begins with: what stood at the place of its Add, and the certified transactions that it lacks, by place.
#[derive(Debug, Drop)]
pub struct Begin {
    pub at: AtAdd,
    pub queue: Sequence<Given>,
}
