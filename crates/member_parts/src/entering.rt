// What an entry does to the watch, the donor and the backlog.
ghost use Rattle.std.specs.Prelude.{◌≡◌, OnOk};
ghost use Rattle.gr_ids.specs.declared.memory.Memory.{Memory};
ghost use Rattle.group_rules.specs.Recovery.{is_add};
ghost use Rattle.group_rules.specs.Watch.{watched};
ghost use Rattle.donor_recovery.specs.Laws.{marked_if};
ghost use Rattle.list_state.specs.Holding.{HasNumber};
ghost use Rattle.list_state.specs.Joining.{add_here};
ghost use Rattle.member_parts.specs.Entering.{given_by, waiting_by};

use donor_recovery::Donor;
use failure_events::Watch;
use gr_ids::{Inc, Memory, ValueId};
use group_rules::Effect;
use gtid_sets::GtidSet;
use list_state::{Entered, Held, ListState};
use member_backlog::{Backlog, Uncommitted};
use paxos_forms::Given;
use slot_values::What;
use std::alloc::Global;

/// A member that is added is watched from now on, and one that is removed no more.
pub(crate) fn watch_entry(watch: &mut Watch, what: &What, effect: Effect) -> Result<(), Memory>
    ensures { OnOk result (watch.new ≡ record watch.old { watch = watched what.now effect watch.old.watch }) }
{
    match (what, effect) {
        (What::Add(joiner), Effect::Plain) => watch.follow_one(joiner.inc),
        (What::Remove(inc), Effect::Plain) => {
            watch.unfollow(*inc);
            Ok(())
        }
        _ => Ok(()),
    }
}

/// A certified transaction is kept, with its bytes. Linear in them.
pub(crate) fn give_certified(
    donor: &mut Donor,
    alloc: Global,
    origin: Inc,
    entered: &Entered,
) -> Result<(), Memory>
    requires { HasNumber entered.now.effect }
    ensures { OnOk result (donor.new ≡ given_by entered.now.place origin entered.now.effect entered.now.held donor.old) }
{
    match (&entered.effect, &entered.held) {
        (Effect::Positive(gtid), Held::Txn(_, bytes)) => donor.certified(Given {
            place: entered.place,
            origin,
            gtid: *gtid,
            body: bytes.try_copy(alloc)?,
        }),
        _ => Ok(()),
    }
}

/// Of an Add with effect is kept what stands at its place, which the list has taken last.
pub(crate) fn mark_add(
    donor: &mut Donor,
    alloc: Global,
    list: &ListState,
    what: &What,
    effect: Effect,
) -> Result<(), Memory>
    ensures { OnOk result (donor.new ≡ marked_if (is_add what.now effect) (add_here list.now) donor.old) }
{
    match (what, effect) {
        (What::Add(_), Effect::Plain) => donor.mark(list.at_add(alloc)?),
        _ => Ok(()),
    }
}

/// A certified transaction waits to be committed, unless it is so already.
pub(crate) fn await_certified(
    backlog: &mut Backlog,
    executed: &GtidSet,
    id: ValueId,
    entered: &Entered,
) -> Result<(), Memory>
    ensures { OnOk result (backlog.new ≡ waiting_by executed.now entered.now.place id entered.now.effect entered.now.held backlog.old) }
{
    match (&entered.effect, &entered.held) {
        (Effect::Positive(gtid), Held::Txn(txn, _)) => {
            let place = entered.place;
            let certified = Uncommitted {
                place,
                id,
                gtid: *gtid,
                after: txn.after,
            };
            backlog.certify(executed, certified)
        }
        _ => Ok(()),
    }
}
