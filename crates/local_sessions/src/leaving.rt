// What becomes of each session when the member takes ERROR.
ghost use Rattle.std.specs.Prelude.{◌≡◌, ◌++◌, IfOk, OnOk, filter, map};
ghost use Rattle.gr_ids.specs.declared.memory.Memory.{Memory};
ghost use Rattle.local_sessions.specs.Others.{answer_at, answer_list, answers_left, left, remains as remains_more, remains_at, taken_as, unanswered as unanswered_as};

use crate::session::{Session, Stage};
use crate::told::{Answered, TakenOwn};
use gr_ids::{Memory, ValueId};
use group_rules::Answer;
use std::alloc::Global;

/// The answers of the sessions that end, in their order. Linear in the sessions times the own transactions that were taken.
pub(crate) fn answers_of(
    alloc: Global,
    list: &[Session],
    taken: &[TakenOwn],
) -> Result<Vec<Answered>, Memory>
    ensures { IfOk result (λ v. v.items ≡ answers_left taken.now list.now) }
{
    let mut answers = Vec::new(alloc);
    for x in list {
        add_answer(&mut answers, x, taken)?;
    }
    Ok(answers)
}

fn add_answer(answers: &mut Vec<Answered>, x: &Session, taken: &[TakenOwn]) -> Result<(), Memory>
    ensures { OnOk result (answers.new.items ≡ answers.old.items ++ answer_list x.now (answer_at taken.now x.now.stage)) }
{
    let session = x.session;
    match answer_to(x.stage, taken) {
        Some(answer) => answers.push(Answered { session, answer })?,
        None => {}
    }
    Ok(())
}

// The answer with which a transaction at this stage ends, if it does.
fn answer_to(stage: Stage, taken: &[TakenOwn]) -> Option<Answer>
    ensures { result ≡ answer_at taken.now stage }
{
    match stage {
        Stage::Holding => Some(Answer::MemberLeft),
        Stage::Asking(id) => Some(unanswered(id, taken)),
        Stage::Active | Stage::Killed(_) | Stage::Left | Stage::Asked => None,
    }
}

fn unanswered(id: ValueId, taken: &[TakenOwn]) -> Answer
    ensures { result ≡ unanswered_as id (taken_as taken.now id) }
{
    match own_taken(taken, id) {
        Some(own) => Answer::NotAcknowledged(own.gtid),
        None => Answer::Undecided(id),
    }
}

fn own_taken(taken: &[TakenOwn], id: ValueId) -> Option<TakenOwn>
    ensures { result ≡ taken_as taken.now id }
{
    for own in taken {
        if own.id == id {
            return Some(*own);
        }
    }
    None
}

/// Those that have more to come are kept.
pub(crate) fn keep_remaining(list: &mut Vec<Session>)
    ensures { list.new.items ≡ filter remains_more list.old.items }
{
    list.retain(|x| remains(x.stage));
}

fn remains(stage: Stage) -> bool
    ensures { result ≡ remains_at stage }
{
    match stage {
        Stage::Holding | Stage::Asking(_) => false,
        Stage::Active | Stage::Killed(_) | Stage::Left | Stage::Asked => true,
    }
}

/// Each active transaction waits for the next call.
pub(crate) fn leave_each(list: &mut [Session])
    ensures { list.new ≡ map left list.old }
{
    for x in list.iter_mut() {
        leave_one(x);
    }
}

fn leave_one(x: &mut Session)
    ensures { x.new ≡ left x.old }
{
    if x.stage == Stage::Active {
        x.stage = Stage::Left;
    }
}
