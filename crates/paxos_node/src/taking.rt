// Taking the next decided slot, and forgetting the slots that every member has.
ghost use Rattle.std.specs.Prelude.{◌≡◌, ◌<◌, ◌≤◌, ◌^◌, not, filter, map, nat_lt, option_map, option_to_list, vec_len, vec_capacity, if◌then◌else◌, IfOk, MatchOption, OnErr, OnOk, Some};
ghost use Rattle.gr_ids.specs.Names.{inc_eq};
ghost use Rattle.gr_ids.specs.declared.memory.Memory.{Memory};
ghost use Rattle.node_rules.specs.Learner.{next_entry};
ghost use Rattle.node_rules.specs.Node.{takes_effect};
ghost use Rattle.node_rules.specs.Taking.{forget, least_told, take, take_next, told_after};
ghost use Rattle.slot_values.specs.Log.{became, last_in, turn};
ghost use Rattle.slot_values.specs.Turns.{forgotten};
ghost use Rattle.paxos_node.specs.Parts.{HasRoom, last_known, log_of};
ghost use Rattle.paxos_node.specs.Told.{told_of};

use crate::leading;
use crate::node::Node;
use crate::told::{ToldSlot, least_of};
use gr_ids::{Inc, Memory};
use node_rules::Taken;
use paxos_leader::has_inc;
use slot_values::{Kept, Turns, Value, What};
use std::alloc::Global;

impl Node {
    /// Hands out the next decided slot, and forgets the slots that every member is known to have. None exactly where that
    /// slot isn't decided here, and then nothing changes; nor does it where memory is refused. Linear in the members, in the own
    /// values that aren't kept, in the incarnations that ever were members and in the value's bytes; what it forgets takes more.
    #[tactic(auto, unfolding(node_rules::specs::Taking::take))]
    pub fn take(&mut self, alloc: Global) -> Result<Option<Taken>, Memory>
        ensures taken { IfOk result (λ taken. option_to_list taken ≡ (take self.old).took) }
        ensures node { IfOk result (λ taken. MatchOption taken (self.new ≡ self.old) (λ t. self.new ≡ (take self.old).node)) }
        ensures err { OnErr result (self.new ≡ self.old) }
    {
        let Some(taken) = self.take_next(alloc)? else {
            return Ok(None);
        };
        self.forget_told();
        Ok(Some(taken))
    }

    fn take_next(&mut self, alloc: Global) -> Result<Option<Taken>, Memory>
        ensures taken { IfOk result (λ taken. option_to_list taken ≡ (take_next self.old self.old.turns (next_entry self.old.learner)).took) }
        ensures node { OnOk result (self.new ≡ (take_next self.old self.old.turns (next_entry self.old.learner)).node) }
        ensures err { OnErr result (self.new ≡ self.old) }
    {
        let slot = self.learner.slot();
        if slot >= self.learner.least_undecided() {
            return Ok(None);
        }
        let Some(value) = self.next_value(alloc)? else {
            return Ok(None);
        };
        match self.take_value(alloc, slot, &value)? {
            Some(kept) => Ok(Some(Taken { slot, value, kept })),
            None => Ok(None),
        }
    }

    fn next_value(&self, alloc: Global) -> Result<Option<Value>, Memory>
        ensures { IfOk result (λ value. value ≡ option_map (λ e. e.value) (next_entry self.now.learner)) }
    {
        match self.learner.next() {
            Some(value) => Ok(Some(value.try_copy(alloc)?)),
            None => Ok(None),
        }
    }

    // The slot is handed out with this value; None where nothing is known of the log.
    #[tactic(auto, unfolding(slot_values::specs::Log::turn))]
    fn take_value(
        &mut self,
        alloc: Global,
        slot: u64,
        value: &Value,
    ) -> Result<Option<Kept>, Memory>
        requires slot { slot ≡ self.old.learner.slot }
        requires decided { slot < self.old.learner.next }
        requires range { slot ≤ 2 ^ 42 }
        ensures kept { IfOk result (λ kept. kept ≡ option_map (λ w. became w.reading value.now) self.old.turns) }
        ensures node { OnOk result (self.new ≡ (take_next self.old self.old.turns (Some (record { slot = slot; value = value.now }))).node) }
        ensures err { OnErr result (self.new ≡ self.old) }
    {
        self.told.reserve(1)?;
        let Some(kept) = take_turn(alloc, &mut self.turns, value)? else {
            return Ok(None);
        };
        self.learner.pass();
        note(&mut self.told, value, &kept, slot);
        let last = last_kept(&self.turns, self.me);
        keep_above(&mut self.own, last);
        Ok(Some(kept))
    }

    /// Forgets the slots below the least that a member, or the node itself, is known to lack. Linear in the members, and
    /// logarithmic in what is kept for each slot; takes no memory.
    pub(crate) fn forget_told(&mut self)
        ensures { self.new ≡ forget (least_told self.old) self.old }
    {
        let low = least_of(&self.told, self.learner.slot());
        self.forget(low);
    }

    #[tactic(auto, unfolding(node_rules::specs::Taking::forget))]
    fn forget(&mut self, below: u64)
        requires { below ≤ self.old.learner.slot }
        ensures { self.new ≡ forget below self.old }
    {
        if below <= self.acceptor.kept_from() {
            return;
        }
        self.acceptor.forget(below);
        self.learner.forget(below);
        leading::forget_below(&mut self.leader, below);
        forget_configs(&mut self.turns, below);
    }
}

fn forget_configs(turns: &mut Option<Turns>, below: u64)
    ensures { turns.new ≡ option_map (forgotten below) turns.old }
{
    if let Some(turns) = turns {
        turns.forget(below);
    }
}

// What the value becomes; None where nothing is known of the log.
fn take_turn(
    alloc: Global,
    turns: &mut Option<Turns>,
    value: &Value,
) -> Result<Option<Kept>, Memory>
    requires { HasRoom turns.old }
    ensures kept { IfOk result (λ kept. kept ≡ option_map (λ w. became w.turns.reading value.now) turns.old) }
    ensures ok { OnOk result (turns.new ≡ option_map (λ w. record { turns = turn w.turns value.now; low = w.low }) turns.old) }
    ensures err { OnErr result (turns.new ≡ turns.old) }
{
    match turns {
        Some(turns) => Ok(Some(turns.take(alloc, value)?)),
        None => Ok(None),
    }
}

fn takes_effect(kept: &Kept) -> bool
    ensures { result ≡ takes_effect kept.now }
{
    match kept {
        Kept::At(_, effect) => *effect,
        Kept::Skipped => false,
    }
}

// A member that an Add makes counts from the slot after it; one that a Remove ends counts no more.
fn note(told: &mut Vec<ToldSlot>, value: &Value, kept: &Kept, slot: u64)
    requires room { vec_len told.old < vec_capacity told.old }
    requires slot { slot ≤ 2 ^ 42 }
    ensures { map told_of told.new.items ≡ (if takes_effect kept.now then told_after (map told_of told.old.items) value.now.what slot else map told_of told.old.items) }
{
    if !takes_effect(kept) {
        return;
    }
    match &value.what {
        What::Add(joiner) => told.push_reserved(ToldSlot {
            inc: joiner.inc,
            slot: slot + 1,
        }),
        What::Remove(inc) => drop_told(told, *inc),
        _ => {}
    }
}

fn drop_told(told: &mut Vec<ToldSlot>, inc: Inc)
    ensures { told.new.items ≡ filter (λ x. not (inc_eq x.inc inc)) told.old.items }
{
    told.retain(|one| one.inc != inc);
}

// The last kept number of a member, 0 for any other.
fn last_kept(turns: &Option<Turns>, inc: Inc) -> u64
    ensures { result ≡ last_known (log_of turns.now) inc }
{
    match turns {
        Some(turns) => last_number(turns, inc),
        None => 0,
    }
}

fn last_number(turns: &Turns, inc: Inc) -> u64
    ensures { result ≡ last_in turns.now.turns.reading.members inc }
{
    if has_inc(turns.members(), inc) {
        turns.last(inc)
    } else {
        0
    }
}

// The values with numbers above this one stay.
fn keep_above(own: &mut Vec<Value>, last: u64)
    ensures { own.new.items ≡ filter (λ v. nat_lt last v.id.number) own.old.items }
{
    own.retain(|value| last < value.id.number);
}
