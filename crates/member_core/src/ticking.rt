// Ticks.
ghost use Rattle.std.specs.Prelude.{OnOk};
ghost use Rattle.gr_ids.specs.declared.memory.Memory.{Memory};
ghost use Rattle.name_forms.specs.Incs.{IsInc};
ghost use Rattle.group_rules.specs.Steps.{expel_one as expels_one, tick_on as ticks_on, tick_once as ticks_once};
ghost use Rattle.member_moment.specs.Doing.{Does, DoesIf};
ghost use Rattle.member_moment.specs.Watching.{watch_of};
ghost use Rattle.member_core.specs.Ticking.{IsInside, campaign_now, expel_all as expels_all, look_now, tell_now, tick_inside as ticks_inside};
ghost use Rattle.member_core.specs.Points.{IsWell};

use gr_ids::{Inc, Memory};
use group_rules::Cause;
use member_moment::Moment;
use message_checks::is_inc;
use node_rules::PaxosEvent;
use slot_values::What;
use txn_forms::Body;

/// A tick, which is counted already, passes at a member that isn't in ERROR: holds that have reached their limits end, and it looks after the others. Linear in
/// the holds times the sessions, besides what its node does.
pub(crate) fn tick(moment: &mut Moment) -> Result<(), Memory>
    ensures { OnOk result (DoesIf IsWell ticks_once moment.old moment.new) }
{
    moment.time_out_all()?;
    tick_on(moment)
}

// A joiner that isn't welcomed offers its Add again.
fn tick_on(moment: &mut Moment) -> Result<(), Memory>
    ensures { OnOk result (DoesIf IsWell ticks_on moment.old moment.new) }
{
    if moment.is_offline() {
        return moment.offer_add();
    }
    tick_inside(moment)
}

fn tick_inside(moment: &mut Moment) -> Result<(), Memory>
    ensures { OnOk result (DoesIf IsInside ticks_inside moment.old moment.new) }
{
    if moment.gives_up() {
        return moment.fall(Cause::Majority);
    }
    moment.at_node(&PaxosEvent::Tick)?;
    look_after(moment)?;
    tell(moment)
}

// The one that leads by rank expels who is silent, and sees to it that there is a leader.
fn look_after(moment: &mut Moment) -> Result<(), Memory>
    ensures { OnOk result (DoesIf IsInside look_now moment.old moment.new) }
{
    let leads = moment.leads()?;
    if !leads {
        return Ok(());
    }
    expel_all(moment)?;
    campaign_if_due(moment)
}

fn expel_all(moment: &mut Moment) -> Result<(), Memory>
    ensures { OnOk result (DoesIf IsInside expels_all moment.old moment.new) }
{
    let seated = moment.seated()?;
    for inc in &seated {
        expel_one(moment, *inc)?;
    }
    Ok(())
}

fn expel_one(moment: &mut Moment, inc: Inc) -> Result<(), Memory>
    ensures { OnOk result (DoesIf (λ a. IsInc inc) (λ a. expels_one (watch_of a) inc a) moment.old moment.new) }
{
    if !moment.expels(inc) {
        return Ok(());
    }
    if !is_inc(inc) {
        return Ok(());
    }
    moment.own_change(What::Remove(inc))
}

fn campaign_if_due(moment: &mut Moment) -> Result<(), Memory>
    ensures { OnOk result (Does campaign_now moment.old moment.new) }
{
    if !moment.needs_leader() {
        return Ok(());
    }
    moment.at_node(&PaxosEvent::Campaign)
}

// What it has executed, now and then.
fn tell(moment: &mut Moment) -> Result<(), Memory>
    ensures { OnOk result (Does tell_now moment.old moment.new) }
{
    if !moment.is_telling() {
        return Ok(());
    }
    let executed = moment.copy_executed()?;
    moment.own_body(&Body::Executed(executed))
}
