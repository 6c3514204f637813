// Maps by slot.
ghost use Rattle.std.specs.Prelude.{◌≡◌, ◌<◌, ℕ, true, false, slice_get, IsSomeAnd, Some};
ghost use Rattle.paxos_votes.specs.Entries.{entries_from};

use std::collections::BTreeMap;

/// Drops the entries of slots below `below`. Logarithmic in the entries for each one that is dropped; takes no memory.
pub fn forget_below<T: Drop>(slots: &mut BTreeMap<u64, T>, below: u64)
    ensures { slots.new.entries ≡ entries_from below slots.old.entries }
{
    while is_first_below(slots, below) {
        slots.pop_first();
    }
}

fn is_first_below<T>(slots: &BTreeMap<u64, T>, below: u64) -> bool
    ensures some { result ≡ true → IsSomeAnd (slice_get slots.now.entries 0) (λ e. e.0 < below) }
    ensures none { result ≡ false → entries_from below slots.now.entries ≡ slots.now.entries }
{
    match slots.first_key_value() {
        Some((slot, _)) => *slot < below,
        None => false,
    }
}
