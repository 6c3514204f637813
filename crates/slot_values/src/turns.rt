// The kept list's state, one slot taken after another.
ghost use Rattle.std.specs.Prelude.{◌≡◌, ◌+◌, ◌-◌, ◌<◌, ◌≤◌, ◌^◌, IfOk, MatchOption, None, OnErr, OnOk, Some, find, length, map, option_map, replicate, slice_get};
ghost use Rattle.gr_ids.specs.Names.{inc_eq};
ghost use Rattle.gr_ids.specs.declared.memory.Memory.{Memory};
ghost use Rattle.slot_values.specs.Log.{Group, became, first_turns, incs, last_of, turn};
ghost use Rattle.slot_values.specs.Turns.{Taken, forgotten, known_config, resumed, told};

use crate::kept::Kept;
use crate::member::Member;
use crate::reading::{incs_of, kept_as, members_after, place_after, remember};
use crate::turns_at::TurnsAt;
use crate::value::Value;
use gr_ids::{Inc, Memory, Pos, Sequence};
use std::alloc::Global;
use std::marker::Model;

/// The state of the kept list after a slot: the members with their last kept numbers, and the configurations of the
/// slots up to the horizon. A change of membership in slot s rules from slot s+H on, H being the horizon
/// (Lamport, Malkhi, Zhou, "Reconfiguring a State Machine").
#[derive(Debug, Drop)]
pub struct Turns {
    slot: u64,
    place: u64,
    members: Vec<Member>,
    ever: Vec<Inc>,
    former: Vec<Member>,
    base: u64,
    low: u64,
    configs: Vec<Sequence<Inc>>,
}

impl Model for Turns {
    ghost use Rattle.slot_values.specs.Turns.{Taken};

    ghost Value = { Taken };

    ghost use Rattle.slot_values.specs.TurnsInside.{taken};
    ghost use Rattle.slot_values.specs.Turns.{HoldsTogether};

    ghost view = { taken };

    ghost invariant = { λ w. HoldsTogether (taken w).turns };
}

impl Turns {
    /// The state before slot 1. The founders are 1 to 9 incarnations of distinct servers, ascending, and the horizon is 10 to 200.
    /// Linear in the founders times the horizon.
    pub fn new(alloc: Global, founders: &[Inc], horizon: u16) -> Result<Turns, Memory>
        requires { 0 < horizon }
        ensures { IfOk result (λ w. w ≡ record { turns = first_turns (record { founders = founders.now; horizon = horizon }); low = 0 }) }
    {
        Ok(Turns {
            slot: 0,
            place: 0,
            members: unkept(alloc, founders)?,
            ever: founders.to_vec(alloc)?,
            former: Vec::new(alloc),
            base: 0,
            low: 0,
            configs: repeated(alloc, founders, horizon)?,
        })
    }

    /// The state as a joiner was told it, with as many configurations as the horizon. The removed members aren't known.
    /// Takes constant time.
    pub fn resume(alloc: Global, at: TurnsAt) -> Result<Turns, Memory>
        requires places { at.place ≤ at.slot }
        requires latest { slice_get at.configs (length at.configs - 1) ≡ Some (incs at.last) }
        ensures { IfOk result (λ w. w ≡ record { turns = resumed at; low = 0 }) }
    {
        Ok(Turns {
            slot: at.slot,
            place: at.place.0,
            members: at.last.into_vec(),
            ever: at.ever.into_vec(),
            former: Vec::new(alloc),
            base: at.slot,
            low: 0,
            configs: at.configs.into_vec(),
        })
    }

    /// What a joiner that was added in the last slot is told. Linear in it.
    pub fn at(&self, alloc: Global) -> Result<TurnsAt, Memory>
        ensures { IfOk result (λ x. x ≡ told self.now.turns) }
    {
        let read = (self.slot - self.base) as usize;
        Ok(TurnsAt {
            slot: self.slot,
            place: Pos(self.place),
            last: Sequence::from_vec(self.members.to_vec(alloc)?),
            ever: Sequence::from_vec(self.ever.to_vec(alloc)?),
            configs: Sequence::from_vec(copied(alloc, &self.configs[read..])?),
        })
    }

    /// Takes the value of the next slot, and says what it becomes. Linear in the members and in the incarnations that ever were members.
    #[tactic(auto, unfolding(crate::specs::Log::turn))]
    pub fn take(&mut self, alloc: Global, value: &Value) -> Result<Kept, Memory>
        requires { self.old.turns.slot < 2 ^ 42 }
        ensures ok { OnOk result (self.new ≡ record { turns = turn self.old.turns value.now; low = self.old.low }) }
        ensures kept { IfOk result (λ kept. kept ≡ became self.old.turns.reading value.now) }
        ensures err { OnErr result (self.new ≡ self.old) }
    {
        let kept = kept_as(self.place, &self.members, &self.ever, value);
        let place = place_after(self.place, &self.members, value);
        let members = members_after(alloc, &self.members, &self.ever, value)?;
        let config = Sequence::from_vec(incs_of(alloc, &members)?);
        self.configs.reserve(1)?;
        remember(
            alloc,
            &self.members,
            &mut self.ever,
            &mut self.former,
            value,
        )?;
        self.configs.push_reserved(config);
        self.members = members;
        self.place = place;
        self.slot += 1;
        Ok(kept)
    }

    /// The members, ascending. Takes constant time.
    pub fn members(&self) -> &[Inc]
        ensures { result.now ≡ incs self.now.turns.reading.members }
    {
        match self.configs.last() {
            Some(members) => members.as_slice(),
            None => &[],
        }
    }

    /// The members that rule a slot: those after the slot H before it. None exactly where the slot is above the last one
    /// taken plus H, or below the first one kept. Takes constant time.
    pub fn config(&self, slot: u64) -> Option<&[Inc]>
        ensures { option_map (λ c. c.now) result ≡ known_config self.now slot }
    {
        if slot <= self.base || slot < self.low {
            return None;
        }
        let index = slot - (self.base + 1);
        match self.configs.get(index as usize) {
            Some(config) => Some(config.as_slice()),
            None => None,
        }
    }

    /// The last kept number of an incarnation that is a member, or was one and was removed here; 0 for any other.
    /// Linear in the incarnations that were members.
    pub fn last(&self, inc: Inc) -> u64
        ensures { result ≡ last_of self.now.turns.reading inc }
    {
        match last_among(&self.members, inc) {
            Some(last) => last,
            None => last_among(&self.former, inc).unwrap_or(0),
        }
    }

    /// Forgets the configurations of slots below `below`. Linear in those that are known; takes no memory.
    pub fn forget(&mut self, below: u64)
        ensures { self.new ≡ forgotten below self.old }
    {
        if below > self.low {
            self.low = below;
        }
        if below > self.base {
            let known = self.slot - self.base;
            let count = known.min(below - (self.base + 1)) as usize;
            self.configs.rotate_left(count);
            let left = self.configs.len() - count;
            self.configs.truncate(left);
            self.base += count as u64;
        }
    }
}

// The last kept number among these, None where the incarnation is none of them.
fn last_among(members: &[Member], inc: Inc) -> Option<u64>
    ensures { result ≡ option_map (λ m. m.last) (find (λ m. inc_eq m.inc inc) members.now) }
{
    members.iter().find(|m| m.inc == inc).map(|m| m.last)
}

// Members of whom no value was kept.
fn unkept(alloc: Global, incs: &[Inc]) -> Result<Vec<Member>, Memory>
    ensures { IfOk result (λ v. v.items ≡ map (λ i. record { inc = i; last = 0 }) incs.now) }
{
    Ok(
        incs.iter()
            .map(|inc| Member { inc: *inc, last: 0 })
            .collect(alloc)?,
    )
}

fn repeated(alloc: Global, config: &[Inc], count: u16) -> Result<Vec<Sequence<Inc>>, Memory>
    ensures { IfOk result (λ v. v.items ≡ replicate count config.now) }
{
    let mut configs = Vec::new(alloc);
    for _ in 0..count {
        configs.push(Sequence::from_vec(config.to_vec(alloc)?))?;
    }
    Ok(configs)
}

fn copied(alloc: Global, configs: &[Sequence<Inc>]) -> Result<Vec<Sequence<Inc>>, Memory>
    ensures { IfOk result (λ v. v.items ≡ configs.now) }
{
    let mut copies = Vec::new(alloc);
    for config in configs {
        copies.push(Sequence::from_vec(config.as_slice().to_vec(alloc)?))?;
    }
    Ok(copies)
}
