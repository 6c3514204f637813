// The row Welcome: how a joiner begins.
ghost use Rattle.std.specs.Prelude.{◌≡◌, ◌-◌, ◌≤◌, ◌^◌, length, map, slice_get, IfOk, OnOk, None, Some};
ghost use Rattle.gr_ids.specs.declared.memory.Memory.{Memory};
ghost use Rattle.node_rules.specs.Welcoming.{hear_welcome, higher_ballot, incs_in, told_in, welcomed};

use crate::node::Node;
use crate::order::{incs_in, is_for, is_in_order};
use crate::told::told_by_others;
use gr_ids::{Ballot, Inc, Memory, Sequence};
use paxos_forms::{Welcome, WelcomeMember};
use slot_values::{Member, Turns, TurnsAt};
use std::alloc::Global;

impl Node {
    /// A Welcome: the first one in order counts. Linear in it, in its members times all that ever were members, and in the
    /// slots decided.
    #[tactic(auto, unfolding(node_rules::specs::Welcoming::hear_welcome))]
    pub(crate) fn hear_welcome(&mut self, alloc: Global, welcome: &Welcome) -> Result<(), Memory>
        requires slot { welcome.now.slot ≤ 2 ^ 42 }
        requires place { welcome.now.place ≤ welcome.now.slot }
        ensures { OnOk result (self.new ≡ (hear_welcome welcome.now self.old).node) }
    {
        if self.turns.is_some() {
            return Ok(());
        }
        if !is_in_order(alloc, welcome)? {
            return Ok(());
        }
        if !is_for(welcome, self.me, self.horizon) {
            return Ok(());
        }
        self.begin(alloc, welcome)
    }

    // The promise becomes the greater of the two, and the slots after the Add's are taken.
    fn begin(&mut self, alloc: Global, welcome: &Welcome) -> Result<(), Memory>
        requires slot { welcome.now.slot ≤ 2 ^ 42 }
        requires place { welcome.now.place ≤ welcome.now.slot }
        requires first { self.old.turns ≡ None }
        requires latest { slice_get welcome.now.configs (length welcome.now.configs - 1) ≡ Some (incs_in welcome.now) }
        ensures { OnOk result (self.new ≡ welcomed self.old welcome.now) }
    {
        let first = welcome.slot + 1;
        let incs = incs_in(alloc, welcome)?;
        let told = told_by_others(alloc, first, self.me, &incs)?;
        let turns = Turns::resume(alloc, told_in(alloc, welcome)?)?;
        let promise = higher(self.acceptor.promised(), welcome.promise);
        self.acceptor.promise(promise);
        self.learner.begin(first);
        self.turns = Some(turns);
        self.told = told;
        Ok(())
    }
}

fn higher(promise: Ballot, other: Ballot) -> Ballot
    ensures { result ≡ higher_ballot promise other }
{
    if promise < other { other } else { promise }
}

// What the Welcome tells of the log.
fn told_in(alloc: Global, welcome: &Welcome) -> Result<TurnsAt, Memory>
    ensures { IfOk result (λ at. at ≡ told_in welcome.now) }
{
    Ok(TurnsAt {
        slot: welcome.slot,
        place: welcome.place,
        last: Sequence::from_vec(last_in(alloc, welcome.members.as_slice())?),
        ever: Sequence::from_vec(welcome.ever.as_slice().to_vec(alloc)?),
        configs: Sequence::from_vec(copied(alloc, welcome.configs.as_slice())?),
    })
}

fn last_in(alloc: Global, members: &[WelcomeMember]) -> Result<Vec<Member>, Memory>
    ensures { IfOk result (λ last. last.items ≡ map (λ m. record { inc = m.joiner.inc; last = m.last }) members.now) }
{
    Ok(
        members
            .iter()
            .map(|m| Member {
                inc: m.joiner.inc,
                last: m.last,
            })
            .collect(alloc)?,
    )
}

fn copied(alloc: Global, configs: &[Sequence<Inc>]) -> Result<Vec<Sequence<Inc>>, Memory>
    ensures { IfOk result (λ v. v.items ≡ configs.now) }
{
    let mut copies = Vec::new(alloc);
    for config in configs {
        copies.push(Sequence::from_vec(config.as_slice().to_vec(alloc)?))?;
    }
    Ok(copies)
}
