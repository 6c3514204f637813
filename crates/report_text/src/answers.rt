// The texts of answers to session calls.
ghost use Rattle.std.specs.Prelude.{◌≡◌, ◌++◌, OnOk};
ghost use Rattle.group_rules.specs.declared.answers.Answer.TheVariants.{Begun, ReadOnly, RowLocked};
ghost use Rattle.group_rules.specs.Texts.{row_text, sync_text, holder_text, answer_text as text_of};

use crate::names::{put_gtid, put_inc_or_dash, put_session, state_name};
use crate::worded::{
    put_after, put_gtid_after, put_id_after, put_number_after, put_place_after, put_set_after,
};
use gr_ids::{Blob, Inc, Memory, Pos};
use group_rules::{Answer, Holder};
use gtid_sets::GtidSet;
use std::alloc::Global;

/// A begin: the set that it reads, and the place of its Sync.
fn put_begun(alloc: Global, to: &mut Blob, set: &GtidSet, place: Option<Pos>) -> Result<(), Memory>
    ensures { OnOk result (to.new ≡ to.old ++ text_of (Begun set.now place)) }
{
    put_set_after(alloc, to, b"begun ", set)?;
    put_sync(to, place)
}

/// The place of a begin's Sync.
fn put_sync(to: &mut Blob, place: Option<Pos>) -> Result<(), Memory>
    ensures { OnOk result (to.new ≡ to.old ++ sync_text place) }
{
    match place {
        None => Ok(()),
        Some(place) => put_place_after(to, b" sync ", place),
    }
}

/// A row's value, if there is such a row.
fn put_row(to: &mut Blob, row: &Option<Blob>) -> Result<(), Memory>
    ensures { OnOk result (to.new ≡ to.old ++ row_text row.now) }
{
    match row {
        None => to.append(b"none"),
        Some(row) => put_after(to, b"row ", row.as_slice()),
    }
}

/// A member that isn't the primary.
fn put_read_only(to: &mut Blob, primary: Option<Inc>) -> Result<(), Memory>
    ensures { OnOk result (to.new ≡ to.old ++ text_of (ReadOnly primary)) }
{
    to.append(b"read only ")?;
    put_inc_or_dash(to, primary)
}

/// A row that is locked.
fn put_locked(to: &mut Blob, holder: Holder) -> Result<(), Memory>
    ensures { OnOk result (to.new ≡ to.old ++ text_of (RowLocked holder)) }
{
    to.append(b"row locked ")?;
    put_holder(to, holder)
}

/// Who holds a row lock.
fn put_holder(to: &mut Blob, holder: Holder) -> Result<(), Memory>
    ensures { OnOk result (to.new ≡ to.old ++ holder_text holder) }
{
    match holder {
        Holder::Session(session) => {
            to.append(b"session ")?;
            put_session(to, session)
        }
        Holder::Place(_, gtid) => put_gtid(to, gtid),
    }
}

/// The answer to a session call.
pub fn put_answer(alloc: Global, to: &mut Blob, answer: &Answer) -> Result<(), Memory>
    ensures { OnOk result (to.new ≡ to.old ++ text_of answer.now) }
{
    match answer {
        Answer::Begun(set, place) => put_begun(alloc, to, set, *place),
        Answer::Held => to.append(b"held"),
        Answer::Got(row) => put_row(to, row),
        Answer::Changed => to.append(b"changed"),
        Answer::Sent(id) => put_id_after(to, b"sent ", *id),
        Answer::CommittedEmpty => to.append(b"committed"),
        Answer::Committed(gtid) => put_gtid_after(to, b"committed ", *gtid),
        Answer::RolledBack => to.append(b"rolled back"),
        Answer::Busy => to.append(b"busy"),
        Answer::NoTransaction => to.append(b"no transaction"),
        Answer::NotOnline(state) => put_after(to, b"not online ", state_name(*state).as_bytes()),
        Answer::ReadOnly(primary) => put_read_only(to, *primary),
        Answer::RowLocked(holder) => put_locked(to, *holder),
        Answer::DuplicateKey => to.append(b"duplicate key"),
        Answer::NoRow => to.append(b"no row"),
        Answer::Killed(gtid) => put_gtid_after(to, b"killed ", *gtid),
        Answer::Conflict(gtid) => put_gtid_after(to, b"conflict ", *gtid),
        Answer::HoldTimeout(ticks) => put_number_after(to, b"hold timeout ", *ticks as u64),
        Answer::MemberLeft => to.append(b"member left"),
        Answer::Undecided(id) => put_id_after(to, b"undecided ", *id),
        Answer::NotAcknowledged(gtid) => put_gtid_after(to, b"not acknowledged ", *gtid),
        Answer::TooLarge { bytes } => put_number_after(to, b"too large ", *bytes),
    }
}
