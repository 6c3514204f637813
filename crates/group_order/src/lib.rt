//! The one ordered list: that of which every incarnation takes a part.
#![tactic(auto)]

ghost use Rattle.group_order.specs.OneLog.{EveryRunHasOne};

use group_runs::runs_are_of_nodes;
use order_laws::{
    consecutive_slots, no_value_invented, one_list, one_value_in_each_slot, welcomes_follow,
};

/// In every run of the group some log has the value of each slot that an incarnation takes or skips, and no other slot; each takes the next slot
/// after its last one. What it leaves of a slot is what the rules give from what the value became in the log: an entry, which but for the verdict
/// is that of the log's list at its place, or a mark that the slot was skipped. A value that is taken, or skipped and no Noop, was made
/// before by its origin. A Welcome comes with the slot of the joiner's own Add. The view, the place and the open parts of each history are those of
/// the list up to its last slot.
pub fn slots_are_of_one_log()
    ensures { EveryRunHasOne }
{
    runs_are_of_nodes();
    one_value_in_each_slot();
    one_list();
    consecutive_slots();
    welcomes_follow();
    no_value_invented();
}
