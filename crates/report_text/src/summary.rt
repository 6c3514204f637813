// The summary of a script that was made.
ghost use Rattle.std.specs.Prelude.{◌≡◌, ◌++◌, [], IfOk, OnOk, codes, flat_map};
ghost use Rattle.group_rules.specs.Texts.{decimal, inc_text, state_text};
ghost use Rattle.report_text.specs.Summaries.{conflict_at, count_of, counts_line, counts_text, effect_verdict, foremost_of, further, mark_verdict, member_line, positive_at, said_verdict, summary};

use crate::names::{put_inc, state_name};
use crate::worded::{put_after, put_number_after};
use crate::world_report::{MemberReport, WorldReport};
use gr_ids::{Blob, Inc, Memory};
use group_rules::{Effect, Mark, Said};
use std::alloc::Global;

/// How a transaction was judged by an incarnation that took it.
#[derive(Clone, Copy, Debug, PartialEq, Eq)]
pub struct Verdict {
    pub inc: Inc,
    /// It was certified, and didn't meet a conflict.
    pub positive: bool,
}

fn verdict_of_effect(inc: Inc, effect: &Effect) -> Option<Verdict>
    ensures { result ≡ effect_verdict inc effect.now }
{
    match effect {
        Effect::Positive(_) => Some(Verdict {
            inc,
            positive: true,
        }),
        Effect::Conflict(_) => Some(Verdict {
            inc,
            positive: false,
        }),
        _ => None,
    }
}

fn verdict_of_mark(inc: Inc, mark: &Mark) -> Option<Verdict>
    ensures { result ≡ mark_verdict inc mark.now }
{
    match mark {
        Mark::Took(_, _, effect) => verdict_of_effect(inc, effect),
        _ => None,
    }
}

/// The verdict that is said, if one is.
pub fn verdict_of(said: &Said) -> Option<Verdict>
    ensures { result ≡ said_verdict said.now }
{
    match said {
        Said::Marked(inc, mark) => verdict_of_mark(*inc, mark),
        _ => None,
    }
}

fn count_positive(verdicts: &[Verdict], inc: Inc) -> u64
    ensures { result ≡ count_of (positive_at inc) verdicts.now }
{
    verdicts
        .iter()
        .filter(|v| v.inc == inc && v.positive)
        .count() as u64
}

fn count_conflicts(verdicts: &[Verdict], inc: Inc) -> u64
    ensures { result ≡ count_of (conflict_at inc) verdicts.now }
{
    verdicts
        .iter()
        .filter(|v| v.inc == inc && !v.positive)
        .count() as u64
}

/// The number of the member that has taken the most places, the first of such; of at least one.
fn foremost(first: &MemberReport, others: &[MemberReport]) -> Inc
    ensures { result ≡ (foremost_of first.now others.now).inc }
{
    let mut best = first;
    for member in others {
        if member.place > best.place {
            best = member;
        }
    }
    best.inc
}

/// The counts, each behind its name.
#[tactic(auto, unfolding(crate::specs::Summaries::counts_text))]
fn put_counts(to: &mut Blob, positive: u64, conflict: u64, messages: u64) -> Result<(), Memory>
    ensures { OnOk result (to.new ≡ to.old ++ counts_text positive conflict messages) }
{
    put_number_after(to, b"positive ", positive)?;
    put_number_after(to, b" conflict ", conflict)?;
    put_number_after(to, b" messages ", messages)?;
    to.append(b"\n")
}

fn put_counts_line(to: &mut Blob, verdicts: &[Verdict], world: &WorldReport) -> Result<(), Memory>
    ensures { OnOk result (to.new ≡ to.old ++ counts_line verdicts.now world.now.members world.now.messages) }
{
    let Some((first, others)) = world.members.as_slice().split_first() else {
        return put_counts(to, 0, 0, world.messages);
    };
    let inc = foremost(first, others);
    let positive = count_positive(verdicts, inc);
    let conflict = count_conflicts(verdicts, inc);
    put_counts(to, positive, conflict, world.messages)
}

/// A running incarnation: its state, its view and its rows.
#[tactic(auto, unfolding(crate::specs::Summaries::member_line))]
fn put_member_line(to: &mut Blob, member: &MemberReport) -> Result<(), Memory>
    ensures { OnOk result (to.new ≡ to.old ++ member_line member.now) }
{
    put_inc(to, member.inc)?;
    put_after(to, b" ", state_name(member.state).as_bytes())?;
    put_number_after(to, b" view ", member.view)?;
    put_number_after(to, b" rows ", member.rows)?;
    to.append(b"\n")
}

fn put_member_lines(to: &mut Blob, members: &[MemberReport]) -> Result<(), Memory>
    ensures { OnOk result (to.new ≡ to.old ++ flat_map member_line members.now) }
{
    for member in members {
        put_member_line(to, member)?;
    }
    Ok(())
}

/// The summary of a script that was made: how many transactions were certified and how many met a conflict, by the verdicts of the member that has taken the
/// most places, and how many messages were sent; then a line for each running incarnation. Linear in the verdicts.
pub fn summary_text(
    alloc: Global,
    verdicts: &[Verdict],
    world: &WorldReport,
) -> Result<Blob, Memory>
    ensures { IfOk result (λ text. text ≡ summary verdicts.now world.now) }
{
    let mut text = Blob::from_vec(Vec::new(alloc));
    put_counts_line(&mut text, verdicts, world)?;
    put_member_lines(&mut text, world.members.as_slice())?;
    Ok(text)
}
