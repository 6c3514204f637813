// Inserts, updates and deletes.
ghost use Rattle.std.specs.Prelude.{◌≡◌, IfOk, None, OnErr, OnOk};
ghost use Rattle.gr_ids.specs.declared.memory.Memory.{Memory};
ghost use Rattle.key_items.specs.declared.item.Item.{Item as AnyItem};
ghost use Rattle.key_items.specs.Spelling.{IsItem};
ghost use Rattle.row_locks.specs.Locking.{holder_beside, locked_by, session_at};
ghost use Rattle.group_rules.specs.Calls.{misfit};
ghost use Rattle.local_sessions.specs.Standing.{changed_at, with_change};
ghost use Rattle.local_sessions.specs.Replies.{is_read_only as is_read_only_at, reply_to_change, statement_in};

use crate::listing::{add_change, drop_change};
use crate::session::Session;
use crate::tables::Tables;
use gr_ids::{MemberState, Memory, Mode, SessionId};
use group_rules::Answer;
use key_items::Change;
use row_locks::{LockFault, Locks};
use row_store::RowFault;
use std::alloc::Global;

/// Why the session's active transaction may not make this change; None where it may. For each change that it made, and for each
/// done place, logarithmic in the keys.
pub(crate) fn refusal(at: &Tables, session: &Session, change: &Change) -> Option<Answer>
    ensures { statement_in at.now change.now session.now ≡ reply_to_change change.now result }
{
    if session.state != MemberState::Online {
        return Some(Answer::NotOnline(session.state));
    }
    if is_read_only(at) {
        return Some(Answer::ReadOnly(at.primary));
    }
    if let Some(holder) = at.locks.holder(&change.item, session.session) {
        return Some(Answer::RowLocked(holder));
    }
    match at.store.check(session.changes.as_slice(), change) {
        Ok(()) => None,
        Err(RowFault::DuplicateKey) => Some(Answer::DuplicateKey),
        Err(RowFault::NoRow) => Some(Answer::NoRow),
    }
}

/// Single-primary mode, and this member isn't the primary.
pub(crate) fn is_read_only(at: &Tables) -> bool
    ensures { result ≡ is_read_only_at at.now }
{
    at.mode == Mode::Single && at.primary != Some(at.me)
}

/// Makes the change of a key that no other one holds, and locks the key.
pub(crate) fn make(
    list: &mut Vec<Session>,
    locks: &mut Locks,
    session: SessionId,
    change: Change,
) -> Result<(), Memory>
    requires item { IsItem change.item }
    requires free { holder_beside locks.old session change.item ≡ None }
    ensures changes { OnOk result (list.new.items ≡ changed_at session (with_change change) list.old.items) }
    ensures keys { OnOk result ((j : AnyItem) → session_at locks.new.keys j ≡ locked_by session change.item (session_at locks.old.keys) j) }
    ensures places { locks.new.places ≡ locks.old.places }
    ensures err { OnErr result ((list.new.items ≡ list.old.items) × (locks.new ≡ locks.old)) }
{
    let item = change.item.try_copy(*list.allocator())?;
    add_change(list, session, change)?;
    match locks.lock(&item, session) {
        Ok(()) => Ok(()),
        Err(LockFault::Locked { holder: _ }) => unreachable!(),
        Err(LockFault::Memory) => {
            drop_change(list, session);
            Err(Memory)
        }
    }
}
