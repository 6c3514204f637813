// Which slots are decided here, and which of them were handed out.
ghost use Rattle.std.specs.Prelude.{◌≡◌, ◌≤◌, ◌<◌, ◌+◌, ◌^◌, ◌==◌, if◌then◌else◌, length, map, not, IfOk, OnErr, OnOk, option_map, filter, nat_le, nat_lt, ◌&&◌};
ghost use Rattle.std.specs.List.{list_any};
ghost use Rattle.gr_ids.specs.declared.memory.Memory.{Memory};
ghost use Rattle.node_rules.specs.Learner.{begin_at, decided_at, forget_decided, is_decided, learn, learnt_remove, new_learner, next_entry, pass, removes, waiting};
ghost use Rattle.node_rules.specs.Proposing.{decided_above};
ghost use Rattle.node_rules.specs.Slots.{first_empty};
ghost use Rattle.paxos_votes.specs.Entries.{InRange, entries_from, entries_within, entry_in, entry_of};

use crate::slot_maps::forget_below;
use gr_ids::{Inc, Memory};
use slot_values::{Value, What};
use std::alloc::Global;
use std::collections::BTreeMap;
use std::marker::Model;

/// A decided slot whose value is kept.
#[derive(Debug, Drop)]
pub struct KnownSlot {
    pub slot: u64,
    pub value: Value,
}

/// The learner of a node of Multi-Paxos: decided slots are learnt in any order, and handed out in the order of the slots
/// (Lamport, "Paxos Made Simple", sections 2.3 and 3). Before a joiner's Welcome both numbers are 0.
#[derive(Drop)]
pub struct Learner {
    decided: BTreeMap<u64, Value>,
    slot: u64,
    next: u64,
}

impl Model for Learner {
    ghost use Rattle.std.specs.Prelude.{map};
    ghost use Rattle.node_rules.specs.Learner.{Learner as Learnt};
    ghost use Rattle.paxos_votes.specs.Entries.{InRange, entries_from, entries_within, entry_in, entry_of};

    ghost Value = { Learnt };

    ghost view = { λ l. record { decided = map entry_of l.decided.entries; slot = l.slot; next = l.next } };

    ghost invariant = { λ l. InRange l.decided.entries l.next };
}

impl Learner {
    /// Slots are handed out from this one on, which is the least undecided one.
    pub fn new(alloc: Global, next: u64) -> Learner
        requires { next ≤ 2 ^ 42 + 1 }
        ensures { result ≡ new_learner next }
    {
        Learner {
            decided: BTreeMap::new(alloc),
            slot: next,
            next,
        }
    }

    /// Whether the slot is decided here, its value kept or not. Logarithmic in the slots kept.
    pub fn is_decided(&self, slot: u64) -> bool
        ensures { result ≡ is_decided self.now slot }
    {
        slot < self.next || self.decided.contains_key(&slot)
    }

    /// The slot is decided with the value, and that is told; false, and nothing is done, exactly where it was decided
    /// before. Logarithmic in the slots kept, and for each slot that `next` passes.
    pub fn learn(&mut self, slot: u64, value: Value) -> Result<bool, Memory>
        requires { slot ≤ 2 ^ 42 }
        ensures new { IfOk result (λ new. new ≡ not (is_decided self.old slot)) }
        ensures ok { OnOk result (self.new ≡ learn self.old slot value) }
        ensures err { OnErr result (self.new ≡ self.old) }
    {
        if self.is_decided(slot) {
            return Ok(false);
        }
        self.decided.insert(slot, value)?;
        self.next = least_undecided(&self.decided, self.next);
        Ok(true)
    }

    /// Slots are handed out from this one on: a joiner begins with the slot after its Add.
    /// Logarithmic in the slots kept for each slot that `next` passes; takes no memory.
    pub fn begin(&mut self, slot: u64)
        requires { slot ≤ 2 ^ 42 + 1 }
        ensures { self.new ≡ begin_at self.old slot }
    {
        self.slot = slot;
        self.next = least_undecided(&self.decided, slot);
    }

    /// The value of the first slot that wasn't handed out. None exactly where that slot isn't decided, or its value isn't
    /// kept. Logarithmic in the slots kept.
    pub fn next(&self) -> Option<&Value>
        ensures { option_map (λ v. v.now) result ≡ option_map (λ e. e.value) (next_entry self.now) }
    {
        if self.slot < self.next {
            self.value(self.slot)
        } else {
            None
        }
    }

    /// That slot is handed out. Takes constant time.
    pub fn pass(&mut self)
        requires { self.old.slot < self.old.next }
        ensures { self.new ≡ pass self.old }
    {
        self.slot += 1;
    }

    /// The first slot that wasn't handed out; 0 at a joiner before its Welcome. Takes constant time.
    pub fn slot(&self) -> u64
        ensures { result ≡ self.now.slot }
    {
        self.slot
    }

    /// The least undecided slot; 0 at a joiner before its Welcome. Takes constant time.
    pub fn least_undecided(&self) -> u64
        ensures slot { result ≡ self.now.next }
        ensures range { result ≤ 2 ^ 42 + 1 }
    {
        self.next
    }

    /// The value of a slot. None exactly where the slot isn't decided or its value isn't kept. Logarithmic in the slots kept.
    pub fn value(&self, slot: u64) -> Option<&Value>
        ensures { option_map (λ v. v.now) result ≡ option_map (λ e. e.value) (decided_at self.now slot) }
    {
        self.decided.get(&slot)
    }

    /// The decided slots that weren't handed out, ascending. Linear in them.
    pub fn decided(&self, alloc: Global) -> Result<Vec<u64>, Memory>
        ensures { IfOk result (λ slots. slots.items ≡ waiting self.now) }
    {
        Ok(slots_from(alloc, &self.decided, self.slot)?)
    }

    /// The ten slots from this one on, as far as they are below the least undecided one and their values are kept, ascending.
    /// Logarithmic in the slots kept, and linear in the bytes of the values.
    pub fn known_from(&self, alloc: Global, from: u64) -> Result<Vec<KnownSlot>, Memory>
        ensures { IfOk result (λ known. map entry_in known.items ≡ filter (λ e. nat_le from e.slot && (nat_lt e.slot (from + 10) && nat_lt e.slot self.now.next)) self.now.decided) }
    {
        if from >= self.next {
            return Ok(Vec::new(alloc));
        }
        let end = self.next.min(from + 10);
        Ok(decided_between(alloc, &self.decided, from, end)?)
    }

    /// Whether a slot above this one is decided here, and its value is kept. Logarithmic in the slots kept.
    pub fn is_decided_above(&self, slot: u64) -> bool
        ensures { result ≡ decided_above self.now slot }
    {
        match self.decided.last_key_value() {
            Some((last, _)) => slot < *last,
            None => false,
        }
    }

    /// Whether a slot that wasn't handed out is decided with a Remove of the incarnation. Linear in the slots that wait.
    pub fn learnt_remove(&self, inc: Inc) -> bool
        ensures { result ≡ learnt_remove self.now inc }
    {
        has_remove_from(&self.decided, self.slot, inc)
    }

    /// Forgets the values of slots below `below`. Logarithmic in the slots kept for each one that is forgotten; takes no memory.
    pub fn forget(&mut self, below: u64)
        ensures { self.new ≡ forget_decided below self.old }
    {
        forget_below(&mut self.decided, below);
    }
}

// The decided slots from one to before another, ascending.
fn decided_between(
    alloc: Global,
    decided: &BTreeMap<u64, Value>,
    from: u64,
    end: u64,
) -> Result<Vec<KnownSlot>, Memory>
    requires { from ≤ end }
    ensures { IfOk result (λ known. map entry_in known.items ≡ map entry_of (entries_within from end decided.now.entries)) }
{
    let mut known = Vec::new(alloc);
    for (slot, value) in decided.range(from..end) {
        known.push(KnownSlot {
            slot: *slot,
            value: value.try_copy(alloc)?,
        })?;
    }
    Ok(known)
}

// The slots from this one on, ascending.
fn slots_from(alloc: Global, decided: &BTreeMap<u64, Value>, from: u64) -> Result<Vec<u64>, Memory>
    ensures { IfOk result (λ slots. slots.items ≡ map (λ e. e.0) (entries_from from decided.now.entries)) }
{
    let mut slots = Vec::new(alloc);
    for (slot, _) in decided.range(from..) {
        slots.push(*slot)?;
    }
    Ok(slots)
}

// Whether a slot from this one on is decided with a Remove of the incarnation.
fn has_remove_from(decided: &BTreeMap<u64, Value>, from: u64, inc: Inc) -> bool
    ensures { result ≡ list_any (λ e. removes inc e.1.what) (entries_from from decided.now.entries) }
{
    for (_, value) in decided.range(from..) {
        if removes(inc, &value.what) {
            return true;
        }
    }
    false
}

fn removes(inc: Inc, what: &What) -> bool
    ensures { result ≡ removes inc what.now }
{
    match what {
        What::Remove(removed) => *removed == inc,
        _ => false,
    }
}

// The least slot from `next` on that has no value here; 0 before a joiner's Welcome.
fn least_undecided(decided: &BTreeMap<u64, Value>, next: u64) -> u64
    requires { InRange decided.now.entries next }
    ensures slot { result ≡ (if next == 0 then 0 else first_empty (length decided.now.entries) (map entry_of decided.now.entries) next) }
    ensures range { result ≤ 2 ^ 42 + 1 }
{
    if next == 0 {
        0
    } else {
        first_without_value(decided, next)
    }
}

fn first_without_value(decided: &BTreeMap<u64, Value>, from: u64) -> u64
    requires { InRange decided.now.entries from }
    ensures slot { result ≡ first_empty (length decided.now.entries) (map entry_of decided.now.entries) from }
    ensures range { result ≤ 2 ^ 42 + 1 }
{
    let mut slot = from;
    for passed in 0..decided.len() {
        if !decided.contains_key(&slot) {
            return slot;
        }
        slot += 1;
    }
    slot
}
