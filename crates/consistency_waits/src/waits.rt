// The holds of a member.
ghost use Rattle.std.specs.Prelude.{◌≡◌, ◌≤◌, [], IfOk, MatchOption, OnErr, OnOk, false, filter, find, map, not, true};
ghost use Rattle.std.specs.Option.{option_map};
ghost use Rattle.gr_ids.specs.declared.memory.Memory.{Memory};
ghost use Rattle.consistency_waits.specs.Following.{IsTurn};
ghost use Rattle.consistency_waits.specs.Holding.{ascend as is_ascending, is_due, is_held, is_over, new_hold, placed, released_as, ticked, with_hold, without};

use crate::conditions::holds_now;
use crate::held::{Held, Released, Standing};
use crate::placing::{place_of, place_sync, tick_each};
use gr_ids::{Memory, Pos, Sequence, SessionId, ValueId};
use group_rules::Conditions;
use std::alloc::Global;
use std::marker::Model;

/// The begins of a member that are held (MySQL 8.0 Reference Manual, Group Replication: Transaction Consistency Guarantees),
/// ascending by session. Each call is linear in them at most.
#[derive(Debug, Drop)]
pub struct Waits {
    holds: Vec<Held>,
}

impl Model for Waits {
    ghost use Rattle.std.specs.Prelude.{◌≡◌, List, true};
    ghost use Rattle.consistency_waits.specs.Holding.{Held, ascend};

    ghost Value = { List Held };

    ghost view = { λ w. w.holds.items };

    ghost invariant = { λ w. ascend w.holds.items ≡ true };
}

impl Waits {
    /// Nothing is held; takes no memory.
    pub fn new(alloc: Global) -> Waits
        ensures { result ≡ [] }
    {
        Waits {
            holds: Vec::new(alloc),
        }
    }

    /// Whether no begin is held. Takes no memory.
    pub fn is_empty(&self) -> bool
        ensures nothing { result ≡ true → self.now ≡ [] }
        ensures something { self.now ≡ [] → result ≡ true }
    {
        self.holds.is_empty()
    }

    /// The begin of a session is held until its conditions hold, for `limit` ticks at most. The session isn't held.
    pub fn hold(
        &mut self,
        session: SessionId,
        conditions: Conditions,
        limit: u32,
    ) -> Result<(), Memory>
        requires free { is_held self.old session ≡ false }
        requires limit { 1 ≤ limit }
        ensures ok { OnOk result (self.new ≡ with_hold self.old (new_hold session conditions limit)) }
        ensures err { OnErr result (self.new ≡ self.old) }
    {
        let at = place_of(&self.holds, session);
        let held = Held {
            session,
            conditions,
            sync_place: None,
            ticks: 0,
            limit,
        };
        self.holds.insert(at, held)?;
        Ok(())
    }

    /// The session is held no more. Takes no memory.
    pub fn end(&mut self, session: SessionId)
        ensures { self.new ≡ without session self.old }
    {
        drop_session(&mut self.holds, session);
    }

    /// The Sync is taken at this place: each hold that waits for it knows that. Takes no memory.
    pub fn sync_taken(&mut self, sync: ValueId, place: Pos)
        ensures { self.new ≡ map (placed sync place) self.old }
    {
        place_sync(&mut self.holds, sync, place);
    }

    /// Hands out the sessions whose conditions hold, ascending, each with the place of its Sync; they are held no more.
    /// Linear in the holds times what is pending.
    pub fn release(&mut self, alloc: Global, now: &Standing) -> Result<Sequence<Released>, Memory>
        ensures ok { OnOk result (self.new ≡ filter (λ h. not (is_due now.now.pending h)) self.old) }
        ensures released { IfOk result (λ out. out ≡ map released_as (filter (is_due now.now.pending) self.old)) }
        ensures order { is_ascending self.old ≡ true }
        ensures err { OnErr result (self.new ≡ self.old) }
    {
        let out = due(alloc, &self.holds, now)?;
        keep_others(&mut self.holds, now);
        Ok(Sequence::from_vec(out))
    }

    /// One tick passes. Takes no memory.
    pub fn tick(&mut self)
        ensures { self.new ≡ map ticked self.old }
    {
        tick_each(&mut self.holds);
    }

    /// Hands out the least session whose ticks have reached its limit, with that limit; it is held no more. None exactly where
    /// there is none. Takes no memory.
    pub fn timed_out(&mut self) -> Option<(SessionId, u32)>
        ensures session { option_map (λ o. o.0) result ≡ option_map (λ h. h.session) (find is_over self.old) }
        ensures limit { option_map (λ o. o.1) result ≡ option_map (λ h. h.limit) (find is_over self.old) }
        ensures rest { MatchOption result (self.new ≡ self.old) (λ o. self.new ≡ without o.0 self.old) }
        ensures turn { IsTurn self.old self.new result }
        ensures order { is_ascending self.old ≡ true }
    {
        let over = first_over(&self.holds)?;
        drop_session(&mut self.holds, over.0);
        Some(over)
    }
}

fn first_over(holds: &[Held]) -> Option<(SessionId, u32)>
    ensures session { option_map (λ o. o.0) result ≡ option_map (λ h. h.session) (find is_over holds.now) }
    ensures limit { option_map (λ o. o.1) result ≡ option_map (λ h. h.limit) (find is_over holds.now) }
{
    match holds.iter().find(|held| held.limit <= held.ticks) {
        Some(held) => Some((held.session, held.limit)),
        None => None,
    }
}

fn drop_session(holds: &mut Vec<Held>, session: SessionId)
    ensures { holds.new.items ≡ without session holds.old.items }
{
    holds.retain(|held| held.session != session);
}

fn due(alloc: Global, holds: &[Held], now: &Standing) -> Result<Vec<Released>, Memory>
    ensures { IfOk result (λ v. v.items ≡ map released_as (filter (is_due now.now.pending) holds.now)) }
{
    Ok(
        holds
            .iter()
            .filter(|held| holds_now(held, now.pending.as_slice()))
            .map(|held| Released {
                session: held.session,
                sync: held.sync_place,
            })
            .collect(alloc)?,
    )
}

fn keep_others(holds: &mut Vec<Held>, now: &Standing)
    ensures { holds.new.items ≡ filter (λ h. not (is_due now.now.pending h)) holds.old.items }
{
    holds.retain(|held| !holds_now(held, now.pending.as_slice()));
}
