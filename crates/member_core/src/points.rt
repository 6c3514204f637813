// What happens at a point, that is after the action of a step and after each slot.
ghost use Rattle.std.specs.Prelude.{OnOk};
ghost use Rattle.gr_ids.specs.declared.memory.Memory.{Memory};
ghost use Rattle.group_rules.specs.Points.{arrive as arrives, commit_all as commits_all, point as points, prepare_all as prepares_all, prepare_one as prepares};
ghost use Rattle.member_moment.specs.Doing.{Does, DoesIf};
ghost use Rattle.member_core.specs.Points.{DoesOne, IsWell, point_well as points_well};

use gr_ids::Memory;
use member_backlog::Uncommitted;
use member_moment::Moment;
use message_checks::is_gtid;
use txn_forms::Body;

/// Commits, Prepared entries, begins, and the own Online entry. Quadratic in what waits to be committed; commits and Prepared entries walk none of
/// it where no own one waits and the first of the queue isn't done.
pub(crate) fn point(moment: &mut Moment) -> Result<(), Memory>
    ensures { OnOk result (Does points moment.old moment.new) }
{
    if moment.is_in_error() {
        return moment.begin_all();
    }
    point_well(moment)
}

fn point_well(moment: &mut Moment) -> Result<(), Memory>
    ensures { OnOk result (DoesIf IsWell points_well moment.old moment.new) }
{
    commit_all(moment)?;
    prepare_all(moment)?;
    moment.begin_all()?;
    arrive(moment)
}

// By ascending place, each that may be.
fn commit_all(moment: &mut Moment) -> Result<(), Memory>
    ensures { OnOk result (DoesIf IsWell commits_all moment.old moment.new) }
{
    if moment.commits_none() {
        return Ok(());
    }
    let waiting = moment.waiting()?;
    for one in &waiting {
        moment.commit_one(one)?;
    }
    Ok(())
}

// By ascending place, each that is owed.
fn prepare_all(moment: &mut Moment) -> Result<(), Memory>
    ensures { OnOk result (DoesIf IsWell prepares_all moment.old moment.new) }
{
    if moment.prepares_none() {
        return Ok(());
    }
    let waiting = moment.waiting()?;
    for one in &waiting {
        prepare_one(moment, one)?;
    }
    Ok(())
}

fn prepare_one(moment: &mut Moment, one: &Uncommitted) -> Result<(), Memory>
    ensures { OnOk result (DoesOne prepares one.now moment.old moment.new) }
{
    let is_owed = moment.owes_prepared(one)?;
    if !is_owed {
        return Ok(());
    }
    if !is_gtid(one.gtid) {
        return Ok(());
    }
    moment.own_body(&Body::Prepared(one.gtid))
}

fn arrive(moment: &mut Moment) -> Result<(), Memory>
    ensures { OnOk result (Does arrives moment.old moment.new) }
{
    if !moment.is_arriving() {
        return Ok(());
    }
    let executed = moment.copy_executed()?;
    moment.own_body(&Body::Online(executed))
}
