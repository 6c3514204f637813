// Keys of sessions in their map.
ghost use Rattle.std.specs.Prelude.{◌≡◌, ℕ, true, false, Some, IfOk, OnOk, map, nat_lt, slice_get, [], ◌∷◌, if◌then◌else◌};
ghost use Rattle.std.specs.List.{prefix_len};
ghost use Rattle.key_items.specs.declared.item.Item.{Item as AnyItem};
ghost use Rattle.key_items.specs.Items.{has_item};
ghost use Rattle.group_rules.specs.Sessions.{with_session};
ghost use Rattle.gr_ids.specs.declared.memory.Memory.{Memory};
ghost use Rattle.row_locks.specs.Locking.{holders_of, other_session, session_at, taken_over, with_loser, without_session};
ghost use Rattle.row_locks.specs.Inside.{key_of, lists};

use gr_ids::{Memory, SessionId};
use group_rules::Holder;
use key_items::Item;
use std::alloc::Global;
use std::collections::BTreeMap;

/// The session that holds the key.
pub(crate) fn session_of_key(keys: &BTreeMap<Item, SessionId>, item: &Item) -> Option<SessionId>
    ensures { result ≡ session_at (map key_of keys.now.entries) item.now }
{
    keys.get(item).copied()
}

pub(crate) fn other_holder(session: SessionId, holder: Option<SessionId>) -> Option<Holder>
    ensures { result ≡ other_session session holder }
{
    match holder {
        Some(other) if other != session => Some(Holder::Session(other)),
        _ => None,
    }
}

/// No session holds one of these keys any more.
pub(crate) fn unlock_all(keys: &mut BTreeMap<Item, SessionId>, items: &[Item])
    ensures { (j : AnyItem) → session_at (map key_of keys.new.entries) j ≡ taken_over items.now (session_at (map key_of keys.old.entries)) j }
{
    for item in items {
        keys.remove(item);
    }
}

/// The session holds none of these keys any more.
pub(crate) fn unlock_own(keys: &mut BTreeMap<Item, SessionId>, items: &[Item], session: SessionId)
    ensures { (j : AnyItem) → session_at (map key_of keys.new.entries) j ≡ (if has_item items.now j then without_session session (session_at (map key_of keys.old.entries) j) else session_at (map key_of keys.old.entries) j) }
{
    for item in items {
        unlock(keys, item, session);
    }
}

fn unlock(keys: &mut BTreeMap<Item, SessionId>, item: &Item, session: SessionId)
    ensures { (j : AnyItem) → session_at (map key_of keys.new.entries) j ≡ (if has_item (item.now ∷ []) j then without_session session (session_at (map key_of keys.old.entries) j) else session_at (map key_of keys.old.entries) j) }
{
    if is_session(session_of_key(keys, item), session) {
        keys.remove(item);
    }
}

fn is_session(holder: Option<SessionId>, session: SessionId) -> bool
    ensures yes { result ≡ true → holder ≡ Some session }
    ensures no { result ≡ false → holder ≡ Some session → ⊥ }
{
    match holder {
        Some(other) => other == session,
        None => false,
    }
}

/// The sessions that hold one of these keys, ascending.
pub(crate) fn sessions_of_keys(
    alloc: Global,
    keys: &BTreeMap<Item, SessionId>,
    items: &[Item],
) -> Result<Vec<SessionId>, Memory>
    ensures { IfOk result (λ v. v.items ≡ holders_of (map key_of keys.now.entries) items.now) }
{
    let mut sessions = Vec::new(alloc);
    for item in items {
        add_loser(&mut sessions, session_of_key(keys, item))?;
    }
    Ok(sessions)
}

fn add_loser(sessions: &mut Vec<SessionId>, loser: Option<SessionId>) -> Result<(), Memory>
    ensures { OnOk result (sessions.new.items ≡ with_loser sessions.old.items loser) }
{
    match loser {
        Some(session) => add_session(sessions, session),
        None => Ok(()),
    }
}

fn add_session(sessions: &mut Vec<SessionId>, session: SessionId) -> Result<(), Memory>
    ensures { OnOk result (sessions.new.items ≡ with_session sessions.old.items session) }
{
    let at = index_of(sessions, session);
    if is_session(session_at_index(sessions, at), session) {
        return Ok(());
    }
    sessions.insert(at, session)?;
    Ok(())
}

fn session_at_index(sessions: &[SessionId], at: usize) -> Option<SessionId>
    ensures { result ≡ slice_get sessions.now at }
{
    sessions.get(at).copied()
}

// How many of these are less.
fn index_of(sessions: &[SessionId], session: SessionId) -> usize
    ensures { result ≡ prefix_len (λ s. nat_lt s session) sessions.now }
{
    for (k, other) in sessions.iter().enumerate() {
        if *other >= session {
            return k;
        }
    }
    sessions.len()
}

/// Adds the key to the session's list.
pub(crate) fn list_key(
    listed: &mut BTreeMap<SessionId, Vec<Item>>,
    alloc: Global,
    session: SessionId,
    item: Item,
) -> Result<(), Memory>
    ensures kept { (s : ℕ) (i : AnyItem) → lists listed.old.entries s i ≡ true → lists listed.new.entries s i ≡ true }
    ensures ok { OnOk result (lists listed.new.entries session item ≡ true) }
{
    match listed.get_mut(&session) {
        Some(items) => items.push(item)?,
        None => {
            let mut items = Vec::new(alloc);
            items.push(item)?;
            listed.insert(session, items)?;
        }
    }
    Ok(())
}
