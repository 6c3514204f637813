// Its sessions, and the work that waits.
ghost use Rattle.std.specs.Prelude.{◌≡◌, IfOk, find, not, option_map};
ghost use Rattle.group_rules.specs.Events.{Life};
ghost use Rattle.group_rules.specs.Member.{Member};
ghost use Rattle.group_rules.specs.Script.{waiting_at};
ghost use Rattle.group_rules.specs.Sessions.{is_active as is_active_by, phase};
ghost use Rattle.member_moment.specs.Standing.{Stands};
ghost use Rattle.member_looks.specs.Working.{IsLeast, IsResult};

use apply_queue::{Work, WorkDone};
use gr_ids::{Memory, Pos, SessionId};
use group_rules::QueuedPlace;
use member_moment::Moment;
use std::alloc::Global;

/// Whether the session has an active transaction. Linear in the sessions; takes no memory.
pub fn is_active(moment: &Moment, session: SessionId) -> bool
    ensures { (base : Life) (a : Member) → Stands base a moment.now → result ≡ is_active_by (phase a.life session) }
{
    moment.tables().is_active(session)
}

/// The result of the least place that waits, if one does. Linear in the queue and in the bytes of the place.
pub fn least_work(alloc: Global, moment: &Moment) -> Result<Option<WorkDone>, Memory>
    ensures { IfOk result (λ w. (base : Life) (a : Member) → Stands base a moment.now → IsLeast a (waiting_at a) w) }
{
    let places = moment.parts().queue().places(alloc)?;
    match first_undone(places.as_slice()) {
        Some(place) => work_at(alloc, moment, place),
        None => Ok(None),
    }
}

/// The result of a place, if it is queued. Linear in the queue and in the bytes of the place.
pub fn work_at(alloc: Global, moment: &Moment, place: Pos) -> Result<Option<WorkDone>, Memory>
    ensures { IfOk result (λ w. (base : Life) (a : Member) → Stands base a moment.now → IsResult a place w) }
{
    match moment.parts().queue().work(place) {
        Some(work) => Ok(Some(done(alloc, work)?)),
        None => Ok(None),
    }
}

fn done(alloc: Global, work: &Work) -> Result<WorkDone, Memory>
    ensures { IfOk result (λ d. (d.place ≡ work.now.place) × (d.body ≡ work.now.body)) }
{
    let copy = Work {
        place: work.place,
        gtid: work.gtid,
        body: work.body.try_copy(alloc)?,
    };
    WorkDone::of(alloc, copy)
}

fn first_undone(places: &[QueuedPlace]) -> Option<Pos>
    ensures { result ≡ option_map (λ q. q.place) (find (λ q. not q.done) places.now) }
{
    match places.iter().find(|queued| !queued.done) {
        Some(queued) => Some(queued.place),
        None => None,
    }
}
