// A Give that comes.
ghost use Rattle.std.specs.Prelude.{◌≡◌, IfOk, OnOk, map};
ghost use Rattle.std.specs.List.{All};
ghost use Rattle.gr_ids.specs.declared.memory.Memory.{Memory};
ghost use Rattle.paxos_forms.specs.Gives.{IsGive};
ghost use Rattle.donor_recovery.specs.Donating.{HasNumber};
ghost use Rattle.list_state.specs.Joining.{FitsPlace};
ghost use Rattle.group_rules.specs.Recovery.{hear_give as hears_give};
ghost use Rattle.member_parts.specs.Joining.{IsSpeltGiven};
ghost use Rattle.member_moment.specs.Doing.{Does, DoesIf};
ghost use Rattle.member_moment.specs.Joining.{Awaits, IsTakeable, Restored, takes_up, waiting_of};

use crate::moment::Moment;
use donor_recovery::{Begin, TakeFault};
use gr_ids::{Inc, Memory, ValueId};
use group_rules::Cause;
use member_backlog::Uncommitted;
use member_joining::{GivenTxn, is_possible, read_given};
use paxos_forms::Give;
use std::alloc::Global;

impl Moment {
    /// A Give comes. Linear in its bytes.
    pub fn hear_give(&mut self, from: Inc, give: Give) -> Result<(), Memory>
        requires { IsGive give }
        ensures { OnOk result (Does (hears_give from give) self.old self.new) }
    {
        if !self.joining.awaits(self.state(), from, give.place) {
            return Ok(());
        }
        if give.place != self.parts.list().taken() {
            return Ok(());
        }
        let Some(txns) = read_given(self.alloc, give.txns.as_slice())? else {
            return Ok(());
        };
        if !is_possible(self.parts.list().limits().block, &give, &txns) {
            return Ok(());
        }
        self.gave(give.place, give.txns.as_slice().len() as u64)?;
        self.take_give(give, &txns)
    }

    // It is taken up, unless this member has transactions that the group hasn't.
    fn take_give(&mut self, give: Give, txns: &[GivenTxn]) -> Result<(), Memory>
        requires { IsTakeable self.old give txns.now }
        ensures { OnOk result (DoesIf (Awaits give) (takes_up give) self.old self.new) }
    {
        match self.joining.take(self.alloc, give) {
            Ok(begin) => self.restore(begin, txns),
            Err(TakeFault::ExtraTransactions(set)) => self.fall(Cause::Extra(set)),
            Err(TakeFault::Memory) => Err(Memory),
        }
    }

    // The parts have what was given.
    fn restore(&mut self, begin: Begin, txns: &[GivenTxn]) -> Result<(), Memory>
        requires fits { FitsPlace self.old.parts.list.taken self.old.parts.list.limits.block begin.at }
        requires numbers { All HasNumber begin.queue }
        requires spelt { All IsSpeltGiven begin.queue }
        ensures others { OnOk result (self.new ≡ record self.old { parts = self.new.parts }) }
        ensures restored { OnOk result (Restored begin txns.now self.old self.new) }
    {
        let certified = waiting(self.alloc, txns)?;
        self.parts.restore(
            self.alloc,
            self.me.inc,
            &self.tables.tables().executed,
            begin.at,
            begin.queue.as_slice(),
            &certified,
        )
    }
}

// Those that wait to be committed.
fn waiting(alloc: Global, txns: &[GivenTxn]) -> Result<Vec<Uncommitted>, Memory>
    ensures { IfOk result (λ v. v.items ≡ map waiting_of txns.now) }
{
    let mut waiting = Vec::new(alloc);
    for one in txns {
        waiting.push(waiting_one(one))?;
    }
    Ok(waiting)
}

// A Give doesn't tell the number of a value: it is 0 there.
fn waiting_one(one: &GivenTxn) -> Uncommitted
    ensures { result ≡ waiting_of one.now }
{
    Uncommitted {
        place: one.given.place,
        id: ValueId {
            origin: one.given.origin,
            number: 0,
        },
        gtid: one.given.gtid,
        after: one.txn.after,
    }
}
