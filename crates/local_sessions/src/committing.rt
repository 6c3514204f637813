// The body of a transaction whose commit is asked.
ghost use Rattle.std.specs.Prelude.{◌≡◌, IfOk, OnOk};
ghost use Rattle.gr_ids.specs.declared.memory.Memory.{Memory};
ghost use Rattle.txn_forms.specs.Bodies.{IsHeldTxn, IsTxn, body_bytes};
ghost use Rattle.txn_forms.specs.declared.body.Body.TheVariants.{Txn as Writes};
ghost use Rattle.group_rules.specs.Calls.{items_of};
ghost use Rattle.local_sessions.specs.Committing.{IsChecked};
ghost use Rattle.local_sessions.specs.Replies.{txn_of};

use crate::session::Session;
use crate::sizes::body_size;
use crate::tables::Tables;
use crate::writing::is_read_only;
use gr_ids::{Blob, Memory, Sequence};
use group_rules::Answer;
use key_items::{Change, WriteSet};
use std::alloc::Global;
use txn_forms::{Body, Txn, encode};

/// A body of more bytes isn't sent.
const LARGEST_BODY: u64 = 16_777_216;

/// Whether a commit ends the transaction at once.
#[derive(Drop)]
pub(crate) enum CommitCheck {
    Ends(Answer),
    /// It is to be sent, with this write set.
    Fits(WriteSet),
}

/// Whether the commit of the session's active transaction ends it at once. Logarithmic in the items for each change, and linear in
/// the runs of the executed set.
pub(crate) fn checked(alloc: Global, at: &Tables, session: &Session) -> Result<CommitCheck, Memory>
    ensures { IfOk result (λ k. IsChecked at.now session.now k) }
{
    if session.changes.as_slice().is_empty() {
        return Ok(CommitCheck::Ends(Answer::CommittedEmpty));
    }
    if is_read_only(at) {
        return Ok(CommitCheck::Ends(Answer::ReadOnly(at.primary)));
    }
    let items = items_of_changes(alloc, session.changes.as_slice())?;
    let bytes = body_size(&at.executed, items.as_slice(), session.changes.as_slice());
    if bytes > LARGEST_BODY {
        return Ok(CommitCheck::Ends(Answer::TooLarge { bytes }));
    }
    Ok(CommitCheck::Fits(items))
}

// The items of the changes.
fn items_of_changes(alloc: Global, changes: &[Change]) -> Result<WriteSet, Memory>
    ensures { IfOk result (λ set. set ≡ items_of changes.now) }
{
    let mut items = WriteSet::new(alloc);
    let mut rest = changes;
    while let Some((change, earlier)) = rest.split_last() {
        items.add(change.item.try_copy(alloc)?)?;
        rest = earlier;
    }
    Ok(items)
}

/// The bytes of the transaction, whose snapshot is what is executed now. Linear in them.
pub(crate) fn body_of(
    alloc: Global,
    at: &Tables,
    session: &Session,
    items: WriteSet,
) -> Result<Blob, Memory>
    requires items { items ≡ items_of session.now.changes }
    requires txn { IsTxn (txn_of at.now session.now) }
    ensures bytes { IfOk result (λ body. body ≡ body_bytes (Writes (txn_of at.now session.now))) }
    ensures held { OnOk result (IsHeldTxn (txn_of at.now session.now)) }
{
    let txn = Txn {
        after: session.after,
        snapshot: at.executed.try_copy(alloc)?,
        items,
        changes: copied(alloc, session.changes.as_slice())?,
    };
    encode(alloc, &Body::Txn(txn))
}

fn copied(alloc: Global, changes: &[Change]) -> Result<Sequence<Change>, Memory>
    ensures { IfOk result (λ copies. copies ≡ changes.now) }
{
    let mut copies = Vec::new(alloc);
    for change in changes {
        copies.push(change.try_copy(alloc)?)?;
    }
    Ok(Sequence::from_vec(copies))
}
