// The founding of a group.
ghost use Rattle.std.specs.Prelude.{◌≡◌, ◌≤◌, true, IsTrue, None, nat_lt, option_copied, List, OnOk};
ghost use Rattle.std.specs.List.{list_all};
ghost use Rattle.byte_forms.specs.Lists.{IsChain};
ghost use Rattle.gr_ids.specs.Names.{inc_lt};
ghost use Rattle.node_rules.specs.Lists.{In};
ghost use Rattle.group_rules.specs.declared.said.Said.{Said as SaidThing};
ghost use Rattle.group_rules.specs.Script.{founders, plays};
ghost use Rattle.group_rules.specs.World.{Founds, World, found_all, found_at};
ghost use Rattle.member_ranges.specs.Ranges.{IsFounderAfter, IsFounding, setup_with};
ghost use Rattle.group_world.specs.Founding.{AreFounded, IsWithin};
ghost use Rattle.group_world.specs.Standing.{Goes};

use crate::site::{Site, Stay};
use crate::stage::Stage;
use crate::uuids::uuid_fits;
use gr_ids::{Inc, Limits, MemberState, Memory, Mode};
use group_rules::{Cause, Mark, Said};
use member_core::Member;
use message_checks::is_joiner;
use play_runs::plays_are_runs;
use slot_values::Joiner;
use world_servers::{DeclaredServer, servers_are_those_of_the_world};

/// What the group was founded with.
#[derive(Debug, Drop)]
pub(crate) struct Founding {
    pub(crate) limits: Limits,
    pub(crate) mode: Mode,
    pub(crate) founders: Vec<Joiner>,
}

impl Founding {
    /// Whether it has one to nine founders, ascending, and all is in its range.
    pub(crate) fn fits(&self) -> bool
        ensures { result ≡ true → IsFounding (setup_with self.now.limits self.now.mode self.now.founders.items) }
    {
        uuid_fits(&self.limits.group);
        if !are_founders(&self.founders) {
            return false;
        }
        if self.founders.is_empty() || self.founders.len() > 9 {
            return false;
        }
        if self.limits.horizon < 10 || self.limits.horizon > 200 {
            return false;
        }
        1 <= self.limits.block && self.limits.block <= 1_000_000
    }
}

fn are_founders(founders: &[Joiner]) -> bool
    ensures { result ≡ true → IsChain IsFounderAfter None founders.now }
{
    let mut before = None;
    let mut left = founders;
    while let Some((first, behind)) = left.split_first() {
        if !is_founder_after(before, first) {
            return false;
        }
        before = Some(first);
        left = behind;
    }
    true
}

fn is_founder_after(before: Option<&Joiner>, founder: &Joiner) -> bool
    ensures { result ≡ true → IsFounderAfter (option_copied before.entry) founder.now }
{
    if !is_joiner(founder) {
        return false;
    }
    match before {
        None => true,
        Some(last) => is_before(last.inc, founder.inc),
    }
}

fn is_before(i: Inc, j: Inc) -> bool
    ensures { result ≡ inc_lt i j }
{
    i < j
}

impl Stage {
    /// The group is founded, with the first incarnations of these servers, numbered below 100. Nothing happens where one was founded, or its UUID is taken.
    pub(crate) fn found(&mut self, limits: Limits, mode: Mode, servers: &[u8]) -> Result<(), Memory>
        requires { list_all (λ n. nat_lt n 100) servers.now ≡ true }
        ensures { OnOk result (Goes (λ y. plays (Founds (setup_with limits mode (founders y.world servers.now))) y) self.old self.new) }
    {
        plays_are_runs();
        servers_are_those_of_the_world();
        if self.founding.is_some() {
            return Ok(());
        }
        if self.servers.is_group_taken(limits.group) {
            return Ok(());
        }
        let founding = Founding {
            limits,
            mode,
            founders: self.servers.founders(self.alloc, servers)?,
        };
        if !founding.fits() {
            return Err(Memory);
        }
        self.found_all(&founding)?;
        self.founding = Some(founding);
        Ok(())
    }

    fn found_all(&mut self, founding: &Founding) -> Result<(), Memory>
        requires { IsFounding (setup_with founding.now.limits founding.now.mode founding.now.founders.items) }
        ensures founded { OnOk result ((w : World) (said : List SaidThing) → AreFounded said w self.old → AreFounded said (found_all (setup_with founding.now.limits founding.now.mode founding.now.founders.items) founding.now.founders.items w) self.new) }
        ensures within { OnOk result (IsWithin self.old self.new) }
    {
        let mut left = founding.founders.as_slice();
        while let Some((founder, behind)) = left.split_first() {
            self.found_at(founding, founder)?;
            left = behind;
        }
        Ok(())
    }

    // The first incarnation of its server starts.
    fn found_at(&mut self, founding: &Founding, me: &Joiner) -> Result<(), Memory>
        requires founding { IsFounding (setup_with founding.now.limits founding.now.mode founding.now.founders.items) }
        requires founder { In me.now founding.now.founders.items }
        ensures founded { OnOk result ((w : World) (said : List SaidThing) → AreFounded said w self.old → AreFounded said (found_at (setup_with founding.now.limits founding.now.mode founding.now.founders.items) me.now w) self.new) }
        ensures within { OnOk result (IsWithin self.old self.new) }
    {
        uuid_fits(&me.uuid);
        let member = Member::found(
            self.alloc,
            *me,
            &founding.founders,
            founding.mode,
            founding.limits,
        )?;
        self.sites.put(Site {
            number: me.inc.server,
            starts: 1,
            stay: Stay::Running(member),
        })?;
        self.enlist(DeclaredServer {
            number: me.inc.server,
            uuid: me.uuid,
            version: me.version,
            weight: me.weight,
        })?;
        self.said.push(Said::Marked(me.inc, Mark::State(MemberState::Online, Cause::Founded)))?;
        Ok(())
    }
}
