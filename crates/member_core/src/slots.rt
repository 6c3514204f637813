// Decided slots are taken, one after another.
ghost use Rattle.std.specs.Prelude.{IfOk, OnOk};
ghost use Rattle.gr_ids.specs.declared.memory.Memory.{Memory};
ghost use Rattle.group_rules.specs.Taking.{propose as proposes, settle_slots as settles_slots};
ghost use Rattle.member_moment.specs.Doing.{Does, DoesIf};
ghost use Rattle.member_moment.specs.Taking.{done_of};
ghost use Rattle.member_core.specs.Slots.{HasPassed, MayCause, pass_slot, round_more, round_once, take_all, take_more as takes_more};

use crate::points::point;
use gr_ids::Memory;
use group_rules::Cause;
use member_moment::{Caused, Moment};
use node_rules::PaxosEvent;

// Slots end at 2^42.
const SLOTS: u64 = 4_398_046_511_104;

/// The decided slots are taken, with a point after each, and a leader proposes again, until neither does anything.
pub(crate) fn settle_slots(moment: &mut Moment) -> Result<(), Memory>
    ensures { OnOk result (Does settles_slots moment.old moment.new) }
{
    take_slots(moment)?;
    propose(moment)?;
    settle_more(moment)
}

// Rounds, as long as there are slots.
fn settle_more(moment: &mut Moment) -> Result<(), Memory>
    ensures { OnOk result (Does round_more moment.old moment.new) }
{
    for _ in 0..SLOTS {
        let took = settle_once(moment)?;
        if !took {
            return Ok(());
        }
    }
    Ok(())
}

// One round. Answers whether a slot was taken.
fn settle_once(moment: &mut Moment) -> Result<bool, Memory>
    ensures { IfOk result (λ took. HasPassed (λ t. round_once) took moment.old moment.new) }
{
    let took = take_slots(moment)?;
    if !took {
        return Ok(false);
    }
    propose(moment)?;
    Ok(true)
}

// All that are decided. Answers whether a slot was taken.
fn take_slots(moment: &mut Moment) -> Result<bool, Memory>
    ensures { IfOk result (λ took. HasPassed (λ t. take_all) took moment.old moment.new) }
{
    let took = take_slot(moment)?;
    if !took {
        return Ok(false);
    }
    take_more(moment)?;
    Ok(true)
}

fn take_more(moment: &mut Moment) -> Result<(), Memory>
    ensures { OnOk result (Does takes_more moment.old moment.new) }
{
    for _ in 1..SLOTS {
        let took = take_slot(moment)?;
        if !took {
            return Ok(());
        }
    }
    Ok(())
}

// One slot, and a point after it. Answers whether one was taken.
fn take_slot(moment: &mut Moment) -> Result<bool, Memory>
    ensures { IfOk result (λ took. HasPassed pass_slot took moment.old moment.new) }
{
    if !moment.takes_slots() {
        return Ok(false);
    }
    match moment.take_next()? {
        None => Ok(false),
        Some(caused) => {
            cause(moment, caused)?;
            point(moment)?;
            Ok(true)
        }
    }
}

// What an entry causes.
fn cause(moment: &mut Moment, caused: Caused) -> Result<(), Memory>
    ensures { OnOk result (DoesIf (MayCause caused) (done_of caused) moment.old moment.new) }
{
    match caused {
        Caused::Nothing => Ok(()),
        Caused::Conflict(id, gtid) => moment.conflict(id, gtid),
        Caused::Welcome(inc) => moment.greet(inc),
        Caused::Removal => moment.fall(Cause::Removed),
        Caused::Arrival => moment.come_online(Cause::OwnOnline),
    }
}

// A leader proposes, but in ERROR.
fn propose(moment: &mut Moment) -> Result<(), Memory>
    ensures { OnOk result (Does proposes moment.old moment.new) }
{
    if moment.is_in_error() {
        return Ok(());
    }
    moment.at_node(&PaxosEvent::Propose)
}
