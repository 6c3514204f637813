// Sessions in their list.
ghost use Rattle.std.specs.Prelude.{◌≡◌, List, OnErr, OnOk, nat_lt, not, option_copied};
ghost use Rattle.std.specs.List.{prefix_len};
ghost use Rattle.gr_ids.specs.declared.memory.Memory.{Memory};
ghost use Rattle.key_items.specs.Spelling.{IsItem};
ghost use Rattle.key_items.specs.declared.change.Change.{Change as AnyChange};
ghost use Rattle.local_sessions.specs.Standing.{Session as AnySession, asks, at_stage, begins, changed_at, is_of, session_in, stage_of, with_change, with_session, without};

use crate::changes::Changes;
use crate::session::{Session, Stage};
use gr_ids::{Memory, SessionId};
use gtid_sets::GtidSet;
use key_items::Change;
use std::alloc::Global;

/// The session, if it has a transaction.
pub(crate) fn session_of(list: &[Session], session: SessionId) -> Option<&Session>
    ensures { option_copied result ≡ session_in list.now session }
{
    list.iter().find(|x| x.session == session)
}

/// Where its transaction stands, if it has one.
pub(crate) fn stage_at(list: &[Session], session: SessionId) -> Option<Stage>
    ensures { result ≡ stage_of (session_in list.now session) }
{
    match session_of(list, session) {
        Some(x) => Some(x.stage),
        None => None,
    }
}

// The index of the session, or the number of all.
fn index_of(list: &[Session], session: SessionId) -> usize
    ensures { result ≡ prefix_len (λ x. not (is_of session x)) list.now }
{
    for (k, x) in list.iter().enumerate() {
        if x.session == session {
            return k;
        }
    }
    list.len()
}

// Where a session belongs that has none yet.
fn place_of(list: &[Session], session: SessionId) -> usize
    ensures { result ≡ prefix_len (λ x. not (nat_lt session x.session)) list.now }
{
    for (k, x) in list.iter().enumerate() {
        if session < x.session {
            return k;
        }
    }
    list.len()
}

/// Puts a session among the others.
pub(crate) fn put_session(list: &mut Vec<Session>, session: Session) -> Result<(), Memory>
    ensures ok { OnOk result (list.new.items ≡ with_session list.old.items session) }
    ensures err { OnErr result (list.new.items ≡ list.old.items) }
{
    let at = place_of(list, session.session);
    list.insert(at, session)?;
    Ok(())
}

/// The session has no transaction any more.
pub(crate) fn drop_session(list: &mut Vec<Session>, session: SessionId)
    ensures { list.new.items ≡ without session list.old.items }
{
    list.retain(|x| x.session != session);
}

/// Its transaction comes to this stage.
pub(crate) fn set_stage(list: &mut [Session], session: SessionId, stage: Stage)
    ensures { list.new ≡ changed_at session (at_stage stage) list.old }
{
    let at = index_of(list, session);
    if at < list.len() {
        let x = &mut list[at];
        x.stage = stage;
    }
}

/// It begins, and reads this set.
pub(crate) fn set_begun(list: &mut [Session], session: SessionId, set: GtidSet)
    ensures { list.new ≡ changed_at session (begins set) list.old }
{
    let at = index_of(list, session);
    if at < list.len() {
        let x = &mut list[at];
        x.stage = Stage::Active;
        x.set = set;
    }
}

/// It has made one change more.
pub(crate) fn add_change(
    list: &mut [Session],
    session: SessionId,
    change: Change,
) -> Result<(), Memory>
    requires { IsItem change.item }
    ensures ok { OnOk result (list.new ≡ changed_at session (with_change change) list.old) }
    ensures err { OnErr result (list.new ≡ list.old) }
{
    let at = index_of(list, session);
    if at < list.len() {
        let x = &mut list[at];
        x.changes.push(change)?;
    }
    Ok(())
}

/// The last change is made no more; takes no memory.
pub(crate) fn drop_change(list: &mut [Session], session: SessionId)
    ensures { (xs : List AnySession) (c : AnyChange) → list.old ≡ changed_at session (with_change c) xs → list.new ≡ xs }
{
    let at = index_of(list, session);
    if at < list.len() {
        let x = &mut list[at];
        x.changes.pop();
    }
}

/// Its commit is asked, and its changes stand in its body; takes no memory.
pub(crate) fn ask(list: &mut [Session], alloc: Global, session: SessionId)
    ensures { list.new ≡ changed_at session asks list.old }
{
    let at = index_of(list, session);
    if at < list.len() {
        let x = &mut list[at];
        x.stage = Stage::Asked;
        x.changes = Changes::new(alloc);
    }
}
