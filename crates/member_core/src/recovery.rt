// A donor is asked, and asks fail.
ghost use Rattle.std.specs.Prelude.{◌≡◌, OnOk, Some, is_some, true};
ghost use Rattle.gr_ids.specs.declared.memory.Memory.{Memory};
ghost use Rattle.name_forms.specs.Incs.{IsInc};
ghost use Rattle.group_rules.specs.Recovery.{ask_donor as asks_donor, check_ask as checks_ask, check_donor as checks_donor, donor_failed as donor_fails, fail_ask as fails_ask, pending_ask};
ghost use Rattle.member_moment.specs.Doing.{Does, DoesIf};

use gr_ids::{Inc, Memory};
use group_rules::{Cause, Reply};
use member_moment::Moment;

// So many asks may fail.
const MOST_ASKS: u32 = 10;

/// A donor is asked. Linear in the runs of the executed set.
pub(crate) fn ask_donor(moment: &mut Moment, donor: Inc) -> Result<(), Memory>
    requires { IsInc donor }
    ensures { OnOk result (Does (asks_donor donor) moment.old moment.new) }
{
    if !moment.is_ask_due() {
        return moment.reply(Reply::NoAskDue);
    }
    moment.ask(donor)?;
    check_ask(moment)
}

/// The pending ask is handed back as failed.
pub(crate) fn donor_failed(moment: &mut Moment) -> Result<(), Memory>
    ensures { OnOk result (Does donor_fails moment.old moment.new) }
{
    if !moment.is_asking() {
        return moment.reply(Reply::NoAskPending);
    }
    moment.reply(Reply::Failed)?;
    fail_ask(moment)
}

/// A pending ask fails whose donor's Remove is learnt. Linear in the decided slots that aren't taken.
pub(crate) fn check_ask(moment: &mut Moment) -> Result<(), Memory>
    ensures { OnOk result (Does checks_ask moment.old moment.new) }
{
    if !moment.is_recovering() {
        return Ok(());
    }
    match moment.pending_ask() {
        None => Ok(()),
        Some(donor) => check_donor(moment, donor),
    }
}

fn check_donor(moment: &mut Moment, donor: Inc) -> Result<(), Memory>
    ensures { OnOk result (DoesIf (λ a. pending_ask a.life ≡ Some donor) (checks_donor (Some donor)) moment.old moment.new) }
{
    if !moment.node().learnt_remove(donor) {
        return Ok(());
    }
    fail_ask(moment)
}

// The tenth failure gives ERROR.
fn fail_ask(moment: &mut Moment) -> Result<(), Memory>
    ensures { OnOk result (DoesIf (λ a. is_some (pending_ask a.life) ≡ true) fails_ask moment.old moment.new) }
{
    let is_last = moment.ask_fails();
    if !is_last {
        return Ok(());
    }
    moment.fall(Cause::NoDonor(MOST_ASKS))
}
