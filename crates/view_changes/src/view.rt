// The view and what it answers.
ghost use Rattle.std.specs.Prelude.{◌≡◌, ◌≤◌, ◌^◌, IfOk, OnErr, OnOk, find, map};
ghost use Rattle.std.specs.Option.{option_map};
ghost use Rattle.gr_ids.specs.Names.{inc_eq};
ghost use Rattle.gr_ids.specs.declared.memory.Memory.{Memory};
ghost use Rattle.group_rules.specs.Holds.{elected_in};
ghost use Rattle.group_rules.specs.View.{View as ViewOf, effect_in, founding, next_view};
ghost use Rattle.view_changes.specs.Told.{told_view};

use crate::changing::{change, effect_here};
use crate::seats::{copied, seats_of_founders};
use crate::settling::settle;
use crate::view_at::ViewAt;
use gr_ids::{Inc, MemberState, Memory, Mode, Pos, Sequence};
use group_rules::Effect;
use node_rules::Seat;
use slot_values::{Joiner, Value};
use std::alloc::Global;
use std::marker::Model;
use txn_forms::Body;

/// The members and their states, the mode and the primary, after some entries (MySQL 8.0 Reference Manual, Group Replication,
/// Group Membership; Single-Primary Mode; Changing a Group's Mode).
#[derive(Debug, Drop)]
pub struct View {
    pub(crate) number: u64,
    pub(crate) mode: Mode,
    pub(crate) primary: Option<Inc>,
    pub(crate) elected: u64,
    pub(crate) seats: Vec<Seat>,
}

impl Model for View {
    ghost use Rattle.group_rules.specs.View.{View as ViewOf};

    ghost Value = { ViewOf };

    ghost view = { λ v. record { number = v.number; mode = v.mode; primary = v.primary; elected = v.elected; seats = v.seats.items } };
}

impl View {
    /// The view of a founding: the founders are ONLINE, and in single-primary mode the first primary is elected among them.
    /// Linear in the founders.
    pub fn founding(alloc: Global, founders: &[Joiner], mode: Mode) -> Result<View, Memory>
        ensures { IfOk result (λ v. v ≡ founding mode founders.now) }
    {
        let mut view = View {
            number: 1,
            mode,
            primary: None,
            elected: 0,
            seats: seats_of_founders(alloc, founders)?,
        };
        settle(&mut view, alloc, 0)?;
        Ok(view)
    }

    /// The view that was told, taken up again; takes no memory.
    pub fn resume(at: ViewAt) -> View
        ensures { result ≡ told_view at }
    {
        View {
            number: at.number,
            mode: at.mode,
            primary: at.primary,
            elected: at.elected.0,
            seats: at.members.into_vec(),
        }
    }

    /// What a joiner is told of the view. Linear in the members.
    pub fn at(&self, alloc: Global) -> Result<ViewAt, Memory>
        ensures { IfOk result (λ x. told_view x ≡ self.now) }
    {
        Ok(ViewAt {
            number: self.number,
            mode: self.mode,
            primary: self.primary,
            elected: Pos(self.elected),
            members: Sequence::from_vec(self.seats.to_vec(alloc)?),
        })
    }

    /// Takes the entry at a place: its value, the body that the place holds, and whether an Add or a Remove has effect by the kept list.
    /// Answers what it does: nothing is said here of the verdict on a transaction. Linear in the members.
    pub fn take(
        &mut self,
        alloc: Global,
        place: Pos,
        value: &Value,
        holds: Option<&Body>,
        has_effect: bool,
    ) -> Result<Effect, Memory>
        requires { self.old.number ≤ 2 ^ 42 }
        ensures effect { IfOk result (λ e. e ≡ effect_in self.old has_effect value.now.what (option_map (λ b. b.now) holds.entry)) }
        ensures ok { OnOk result (self.new ≡ next_view place value.now.id.origin value.now.what (option_map (λ b. b.now) holds.entry)
            (effect_in self.old has_effect value.now.what (option_map (λ b. b.now) holds.entry)) self.old) }
        ensures err { OnErr result (self.new ≡ self.old) }
    {
        let effect = effect_here(self, &value.what, holds, has_effect);
        let mut next = copied(alloc, self)?;
        if effect == Effect::Plain {
            change(
                &mut next,
                alloc,
                place.0,
                value.id.origin,
                &value.what,
                holds,
            )?;
        }
        settle(&mut next, alloc, place.0)?;
        *self = next;
        Ok(effect)
    }

    /// The state of a member, None exactly where the incarnation is none. Linear in the members.
    pub fn state(&self, inc: Inc) -> Option<MemberState>
        ensures { result ≡ option_map (λ s. s.state) (find (λ s. inc_eq s.joiner.inc inc) self.now.seats) }
    {
        self.seats
            .iter()
            .find(|seat| seat.joiner.inc == inc)
            .map(|seat| seat.state)
    }

    /// The members with their states, by ascending incarnation.
    pub fn seats(&self) -> &[Seat]
        ensures { result.now ≡ self.now.seats }
    {
        &self.seats
    }

    /// 1 and the Adds and Removes that took effect; 0 at a joiner that wasn't welcomed.
    pub fn number(&self) -> u64
        ensures { result ≡ self.now.number }
    {
        self.number
    }

    /// Whether one member takes writes, or all do.
    pub fn mode(&self) -> Mode
        ensures { result ≡ self.now.mode }
    {
        self.mode
    }

    /// The primary, None exactly where there is none.
    pub fn primary(&self) -> Option<Inc>
        ensures { result ≡ self.now.primary }
    {
        self.primary
    }

    /// The place at which this member became primary, None exactly where it isn't the primary in single-primary mode.
    pub fn elected_as(&self, me: Inc) -> Option<Pos>
        ensures { result ≡ elected_in self.now me }
    {
        match (self.mode, self.primary) {
            (Mode::Single, Some(primary)) if primary == me => Some(Pos(self.elected)),
            _ => None,
        }
    }

    /// The place at which the present primary became primary, 0 where there is none or it was elected at the founding.
    pub fn elected(&self) -> Pos
        ensures { result ≡ self.now.elected }
    {
        Pos(self.elected)
    }
}
