// The texts of marks.
ghost use Rattle.std.specs.Prelude.{◌≡◌, ◌++◌, OnOk};
ghost use Rattle.group_rules.specs.declared.marks.Mark.TheVariants.{Took, Skipped, State, Given, Answered, Replied};
ghost use Rattle.group_rules.specs.Texts.{cause_text, effect_text, mark_text, reply_text};

use crate::answers::put_answer;
use crate::entries::put_effect;
use crate::names::{put_session, state_name};
use crate::worded::{
    put_after, put_ballot_after, put_gtid_after, put_id_after, put_inc_after, put_number_after,
    put_numbered_id, put_place_after, put_placed_id, put_set_after,
};
use gr_ids::{Blob, MemberState, Memory, Pos, SessionId, ValueId};
use group_rules::{Answer, Cause, Effect, Mark, Reply};
use slot_values::Value;
use std::alloc::Global;

/// Why a member has taken ERROR; the causes of other states have no text.
fn put_cause(alloc: Global, to: &mut Blob, cause: &Cause) -> Result<(), Memory>
    ensures { OnOk result (to.new ≡ to.old ++ cause_text cause.now) }
{
    match cause {
        Cause::Removed => to.append(b" removed"),
        Cause::Gone => to.append(b" gone"),
        Cause::Majority => to.append(b" majority"),
        Cause::Extra(set) => put_set_after(alloc, to, b" extra ", set),
        Cause::NoDonor(asks) => put_number_after(to, b" nodonor ", *asks as u64),
        Cause::Founded | Cause::Started | Cause::Welcomed | Cause::OwnOnline => Ok(()),
    }
}

/// The reply to an operator's action or a worker's result.
fn put_reply(to: &mut Blob, reply: Reply) -> Result<(), Memory>
    ensures { OnOk result (to.new ≡ to.old ++ reply_text reply) }
{
    match reply {
        Reply::Sent(id) => put_id_after(to, b"sent ", id),
        Reply::Ballot(ballot) => put_ballot_after(to, b"ballot ", ballot),
        Reply::Asked(inc) => put_inc_after(to, b"asked ", inc),
        Reply::Failed => to.append(b"failed"),
        Reply::Finished => to.append(b"finished"),
        Reply::NotOnline(state) => put_after(to, b"not online ", state_name(state).as_bytes()),
        Reply::NoAskDue => to.append(b"no ask due"),
        Reply::NoAskPending => to.append(b"no ask pending"),
        Reply::NotQueued(place) => put_place_after(to, b"not queued ", place),
        Reply::AlreadyDone(place) => put_place_after(to, b"already done ", place),
    }
}

/// Words and an entry.
fn put_effect_after(
    alloc: Global,
    to: &mut Blob,
    words: &[u8],
    value: &Value,
    effect: &Effect,
) -> Result<(), Memory>
    ensures { OnOk result (to.new ≡ to.old ++ (words.now ++ effect_text value.now.what effect.now)) }
{
    to.append(words)?;
    put_effect(alloc, to, &value.what, effect)
}

/// An entry that is taken.
fn put_took(
    alloc: Global,
    to: &mut Blob,
    place: Pos,
    value: &Value,
    effect: &Effect,
) -> Result<(), Memory>
    ensures { OnOk result (to.new ≡ to.old ++ mark_text (Took place value.now effect.now)) }
{
    put_placed_id(to, b"took ", place, value.id)?;
    put_effect_after(alloc, to, b" ", value, effect)
}

/// A slot whose value isn't kept.
fn put_skipped(to: &mut Blob, slot: u64, id: ValueId) -> Result<(), Memory>
    ensures { OnOk result (to.new ≡ to.old ++ mark_text (Skipped slot id)) }
{
    put_numbered_id(to, b"skipped ", slot, id)
}

/// A state that is taken.
fn put_state(alloc: Global, to: &mut Blob, state: MemberState, cause: &Cause) -> Result<(), Memory>
    ensures { OnOk result (to.new ≡ to.old ++ mark_text (State state cause.now)) }
{
    put_after(to, b"state ", state_name(state).as_bytes())?;
    put_cause(alloc, to, cause)
}

/// A Give that came.
fn put_given(to: &mut Blob, place: Pos, count: u64) -> Result<(), Memory>
    ensures { OnOk result (to.new ≡ to.old ++ mark_text (Given place count)) }
{
    put_place_after(to, b"given ", place)?;
    put_number_after(to, b" ", count)
}

/// An answer to a session.
fn put_answered(
    alloc: Global,
    to: &mut Blob,
    session: SessionId,
    answer: &Answer,
) -> Result<(), Memory>
    ensures { OnOk result (to.new ≡ to.old ++ mark_text (Answered session answer.now)) }
{
    to.append(b"answer ")?;
    put_session(to, session)?;
    to.append(b" ")?;
    put_answer(alloc, to, answer)
}

fn put_replied(to: &mut Blob, reply: Reply) -> Result<(), Memory>
    ensures { OnOk result (to.new ≡ to.old ++ mark_text (Replied reply)) }
{
    to.append(b"reply ")?;
    put_reply(to, reply)
}

/// A mark.
pub fn put_mark(alloc: Global, to: &mut Blob, mark: &Mark) -> Result<(), Memory>
    ensures { OnOk result (to.new ≡ to.old ++ mark_text mark.now) }
{
    match mark {
        Mark::Took(place, value, effect) => put_took(alloc, to, *place, value, effect),
        Mark::Skipped(slot, id) => put_skipped(to, *slot, *id),
        Mark::Done(place) => put_place_after(to, b"done ", *place),
        Mark::Committed(gtid) => put_gtid_after(to, b"committed ", *gtid),
        Mark::State(state, cause) => put_state(alloc, to, *state, cause),
        Mark::Given(place, count) => put_given(to, *place, *count),
        Mark::Answered(session, answer) => put_answered(alloc, to, *session, answer),
        Mark::Replied(reply) => put_replied(to, *reply),
    }
}
