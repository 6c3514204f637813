// Where places stand in the ring.
ghost use Rattle.std.specs.Prelude.{◌≡◌, true, map, not, take, IfOk};
ghost use Rattle.std.specs.List.{list_all, prefix_len};
ghost use Rattle.apply_queue.specs.Queues.{is_at, is_waiting, shown};
ghost use Rattle.gr_ids.specs.declared.memory.Memory.{Memory};

use crate::entry::Entry;
use gr_ids::{Memory, Pos};
use group_rules::QueuedPlace;
use std::alloc::Global;
use std::collections::VecDeque;

/// The index of the first one that waits, or their number; those before `from` don't wait.
pub(crate) fn first_waiting_from(entries: &VecDeque<Entry>, from: usize) -> usize
    requires { list_all (λ q. not (is_waiting q)) (take from entries.now.items) ≡ true }
    ensures { result ≡ prefix_len (λ q. not (is_waiting q)) entries.now.items }
{
    for at in from..entries.len() {
        if entries[at].is_waiting() {
            return at;
        }
    }
    entries.len()
}

/// The index of the place, or the number of all.
pub(crate) fn index_of(entries: &VecDeque<Entry>, place: Pos) -> usize
    ensures { result ≡ prefix_len (λ q. not (is_at place q)) entries.now.items }
{
    for at in 0..entries.len() {
        if entries[at].place() == place {
            return at;
        }
    }
    entries.len()
}

/// Each place, with whether it is done.
pub(crate) fn shown_all(
    alloc: Global,
    entries: &VecDeque<Entry>,
) -> Result<Vec<QueuedPlace>, Memory>
    ensures { IfOk result (λ v. v.items ≡ map shown entries.now.items) }
{
    let mut all = Vec::new(alloc);
    for at in 0..entries.len() {
        all.push(entries[at].shown())?;
    }
    Ok(all)
}
