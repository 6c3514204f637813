// Actions of operators.
ghost use Rattle.std.specs.Prelude.{OnOk};
ghost use Rattle.gr_ids.specs.declared.memory.Memory.{Memory};
ghost use Rattle.txn_forms.specs.Bodies.{IsBody};
ghost use Rattle.group_rules.specs.declared.requests.Operator.TheVariants.{Campaign, Leave, Tell};
ghost use Rattle.group_rules.specs.Steps.{leave as leaves, operate as operates};
ghost use Rattle.member_moment.specs.Doing.{Does};
ghost use Rattle.member_core.specs.Operating.{IsOperator, refuse as refuses, send_body as sends_body};

use crate::recovery::{ask_donor, donor_failed};
use gr_ids::Memory;
use group_rules::{Operator, Reply};
use member_moment::Moment;
use message_checks::is_inc;
use node_rules::PaxosEvent;
use slot_values::What;
use txn_forms::{Body, ModeChange};

/// An operator acts, which is replied. Its cost is that of the value that is made, or of the node.
pub(crate) fn operate(moment: &mut Moment, operator: Operator) -> Result<(), Memory>
    requires { IsOperator operator }
    ensures { OnOk result (Does (operates operator) moment.old moment.new) }
{
    match operator {
        Operator::Campaign => campaign(moment),
        Operator::Tell => tell(moment),
        Operator::Leave => leave(moment),
        Operator::SetPrimary(inc) => send(moment, &Body::Primary(inc)),
        Operator::Single(inc) => send(moment, &Body::Mode(ModeChange::Single(inc))),
        Operator::Multi => send(moment, &Body::Mode(ModeChange::Multi)),
        Operator::AskDonor(donor) => ask_donor(moment, donor),
        Operator::DonorFailed => donor_failed(moment),
        Operator::Finish => moment.reply(Reply::Finished),
    }
}

fn campaign(moment: &mut Moment) -> Result<(), Memory>
    ensures { OnOk result (Does (operates Campaign) moment.old moment.new) }
{
    if !moment.is_up() {
        return refuse(moment);
    }
    moment.at_node(&PaxosEvent::Campaign)?;
    let ballot = moment.node().promise();
    moment.reply(Reply::Ballot(ballot))
}

fn tell(moment: &mut Moment) -> Result<(), Memory>
    ensures { OnOk result (Does (operates Tell) moment.old moment.new) }
{
    let executed = moment.copy_executed()?;
    send(moment, &Body::Executed(executed))
}

fn leave(moment: &mut Moment) -> Result<(), Memory>
    ensures { OnOk result (Does (operates Leave) moment.old moment.new) }
{
    if !moment.may_leave() {
        return refuse(moment);
    }
    remove_self(moment)
}

fn remove_self(moment: &mut Moment) -> Result<(), Memory>
    ensures { OnOk result (Does leaves moment.old moment.new) }
{
    let me = moment.inc();
    if !is_inc(me) {
        return Ok(());
    }
    let id = moment.next_id()?;
    moment.own_change(What::Remove(me))?;
    moment.reply(Reply::Sent(id))
}

// A body is sent, if the member is ONLINE.
fn send(moment: &mut Moment, body: &Body) -> Result<(), Memory>
    requires { IsBody body.now }
    ensures { OnOk result (Does (sends_body body.now) moment.old moment.new) }
{
    if !moment.is_up() {
        return refuse(moment);
    }
    let id = moment.next_id()?;
    moment.own_body(body)?;
    moment.reply(Reply::Sent(id))
}

// The member's state doesn't allow it.
fn refuse(moment: &mut Moment) -> Result<(), Memory>
    ensures { OnOk result (Does refuses moment.old moment.new) }
{
    let state = moment.state();
    moment.reply(Reply::NotOnline(state))
}
