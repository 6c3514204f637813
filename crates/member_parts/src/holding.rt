// Held begins.
ghost use Rattle.std.specs.Prelude.{◌≡◌, ◌≤◌, ◌∷◌, IfOk, MatchOption, OnOk, false};
ghost use Rattle.std.specs.List.{find};
ghost use Rattle.std.specs.Option.{option_map};
ghost use Rattle.gr_ids.specs.declared.levels.Level.{Level as AnyLevel};
ghost use Rattle.gr_ids.specs.declared.memory.Memory.{Memory};
ghost use Rattle.gr_ids.specs.declared.names.Inc.{Inc as Member};
ghost use Rattle.group_rules.specs.Events.{Called, Ends, Life, Setup};
ghost use Rattle.group_rules.specs.Holds.{conditions as conditions_of};
ghost use Rattle.group_rules.specs.Life.{executed as executed_by};
ghost use Rattle.group_rules.specs.Member.{Member as AnyMember};
ghost use Rattle.group_rules.specs.Points.{begin_all};
ghost use Rattle.group_rules.specs.Sessions.{is_holding, phase};
ghost use Rattle.consistency_waits.specs.Following.{begins};
ghost use Rattle.consistency_waits.specs.Holding.{is_over, without};
ghost use Rattle.member_parts.specs.Ending.{IsTurn};
ghost use Rattle.member_parts.specs.Standing.{StandsFor};

use crate::parts::MemberParts;
use consistency_waits::{Released, Standing};
use gr_ids::{Memory, Sequence, SessionId};
use group_rules::Conditions;
use std::alloc::Global;

impl MemberParts {
    /// The begin of a session that holds none is held until its conditions hold, for `limit` ticks at most. Linear in the holds.
    pub fn hold(
        &mut self,
        session: SessionId,
        conditions: Conditions,
        limit: u32,
    ) -> Result<(), Memory>
        requires { 1 ≤ limit }
        ensures { OnOk result ((s : Setup) (me : Member) (l : Life) (v : AnyLevel) → conditions ≡ conditions_of s me v l → is_holding (phase l session) ≡ false
            → StandsFor s me l self.old → StandsFor s me (Called session v limit ∷ l) self.new) }
    {
        self.waits.end(session);
        self.waits.hold(session, conditions, limit)
    }

    /// The transaction or the hold of a session ends. Linear in the holds; takes no memory.
    pub fn end_hold(&mut self, session: SessionId)
        ensures { (s : Setup) (me : Member) (l : Life) → StandsFor s me l self.old → StandsFor s me (Ends session ∷ l) self.new }
    {
        self.waits.end(session);
    }

    /// Hands out the sessions that begin at this point, ascending, each with the place of its Sync; they are held no more. Linear in
    /// the holds times what is pending.
    pub fn release(&mut self, alloc: Global) -> Result<Sequence<Released>, Memory>
        ensures begun { IfOk result (λ rs. (a : AnyMember) → StandsFor a.setup a.me.inc a.life self.old → begin_all a ≡ begins (executed_by a.life) rs a) }
        ensures stands { OnOk result ((a : AnyMember) → StandsFor a.setup a.me.inc a.life self.old → StandsFor a.setup a.me.inc (begin_all a).life self.new) }
    {
        if self.waits.is_empty() {
            return Ok(Sequence::from_vec(Vec::new(alloc)));
        }
        let now = Standing {
            pending: self.backlog.pending(alloc)?,
        };
        self.waits.release(alloc, &now)
    }

    /// Hands out the least session whose ticks have reached its limit, with that limit; it ends. None exactly where there is none.
    /// Linear in the holds; takes no memory.
    pub fn timed_out(&mut self) -> Option<(SessionId, u32)>
        ensures session { option_map (λ o. o.0) result ≡ option_map (λ h. h.session) (find is_over self.old.waits) }
        ensures limit { option_map (λ o. o.1) result ≡ option_map (λ h. h.limit) (find is_over self.old.waits) }
        ensures rest { MatchOption result (self.new.waits ≡ self.old.waits) (λ o. self.new.waits ≡ without o.0 self.old.waits) }
        ensures turn { IsTurn self.old self.new result }
        ensures ends { MatchOption result (self.new ≡ self.old) (λ o. (s : Setup) (me : Member) (l : Life) → StandsFor s me l self.old → StandsFor s me (Ends o.0 ∷ l) self.new) }
    {
        self.waits.timed_out()
    }
}
