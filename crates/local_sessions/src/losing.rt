// Sessions that lose keys to a place that is done.
ghost use Rattle.std.specs.Prelude.{◌≡◌, ◌∷◌, [], map};
ghost use Rattle.key_items.specs.declared.item.Item.{Item as AnyItem};
ghost use Rattle.row_locks.specs.Locking.{session_at};
ghost use Rattle.local_sessions.specs.Others.{can_lose as can_lose_at, has_session, killed_by, loses, unless_killed};

use crate::listing::stage_at;
use crate::session::{Session, Stage};
use gr_ids::{Gtid, SessionId};
use row_locks::Locks;

/// Each of these sessions that is to be killed holds no key any more.
pub(crate) fn free_losers(locks: &mut Locks, list: &[Session], losers: &[SessionId])
    ensures keys { (j : AnyItem) → session_at locks.new.keys j ≡ unless_killed list.now losers.now (session_at locks.old.keys j) }
    ensures places { locks.new.places ≡ locks.old.places }
{
    for session in losers {
        free_loser(locks, list, *session);
    }
}

fn free_loser(locks: &mut Locks, list: &[Session], session: SessionId)
    ensures keys { (j : AnyItem) → session_at locks.new.keys j ≡ unless_killed list.now (session ∷ []) (session_at locks.old.keys j) }
    ensures places { locks.new.places ≡ locks.old.places }
{
    if loses_key(list, session) {
        locks.free(session);
    }
}

fn loses_key(list: &[Session], session: SessionId) -> bool
    ensures { result ≡ loses list.now session }
{
    match stage_at(list, session) {
        Some(stage) => can_lose(stage),
        None => false,
    }
}

fn can_lose(stage: Stage) -> bool
    ensures { result ≡ can_lose_at stage }
{
    match stage {
        Stage::Active | Stage::Left => true,
        Stage::Holding | Stage::Killed(_) | Stage::Asked | Stage::Asking(_) => false,
    }
}

/// Each of these sessions whose transaction is active is killed.
pub(crate) fn kill_losers(list: &mut [Session], losers: &[SessionId], gtid: Gtid)
    ensures { list.new ≡ map (killed_by gtid losers.now) list.old }
{
    for x in list.iter_mut() {
        kill_loser(x, losers, gtid);
    }
}

fn kill_loser(x: &mut Session, losers: &[SessionId], gtid: Gtid)
    ensures { x.new ≡ killed_by gtid losers.now x.old }
{
    if is_among(losers, x.session) && can_lose(x.stage) {
        x.stage = Stage::Killed(gtid);
    }
}

fn is_among(sessions: &[SessionId], session: SessionId) -> bool
    ensures { result ≡ has_session sessions.now session }
{
    sessions.iter().any(|other| *other == session)
}
