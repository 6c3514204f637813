// Who is watched.
ghost use Rattle.std.specs.Prelude.{◌≡◌, IfOk, filter, map, not};
ghost use Rattle.gr_ids.specs.Names.{has_inc, inc_eq};
ghost use Rattle.failure_events.specs.Watching.{is_watched, silences_of, unheard};

use gr_ids::{Inc, Memory};
use group_rules::Silence;
use std::alloc::Global;

/// Nobody has been silent yet.
pub(crate) fn unheard_of(alloc: Global, members: &[Inc]) -> Result<Vec<Silence>, Memory>
    ensures { IfOk result (λ v. v.items ≡ map unheard members.now) }
{
    Ok(
        members
            .iter()
            .map(|inc| Silence {
                inc: *inc,
                ticks: 0,
            })
            .collect(alloc)?,
    )
}

/// The silences of these members: that of one not watched so far begins.
pub(crate) fn followed_by(
    alloc: Global,
    silences: &[Silence],
    members: &[Inc],
) -> Result<Vec<Silence>, Memory>
    ensures { IfOk result (λ v. v.items ≡ silences_of members.now silences.now) }
{
    let mut next = staying(alloc, silences, members)?;
    next.extend_from_slice(&unheard_of(alloc, &newcomers(alloc, silences, members)?)?)?;
    Ok(next)
}

/// All silences but that of the incarnation.
pub(crate) fn drop_member(silences: &mut Vec<Silence>, inc: Inc)
    ensures { silences.new.items ≡ filter (λ x. not (inc_eq x.inc inc)) silences.old.items }
{
    silences.retain(|silence| silence.inc != inc);
}

fn staying(alloc: Global, silences: &[Silence], members: &[Inc]) -> Result<Vec<Silence>, Memory>
    ensures { IfOk result (λ v. v.items ≡ filter (λ x. has_inc members.now x.inc) silences.now) }
{
    Ok(
        silences
            .iter()
            .filter(|silence| is_among(members, silence.inc))
            .copied()
            .collect(alloc)?,
    )
}

fn newcomers(alloc: Global, silences: &[Silence], members: &[Inc]) -> Result<Vec<Inc>, Memory>
    ensures { IfOk result (λ v. v.items ≡ filter (λ i. not (is_watched silences.now i)) members.now) }
{
    Ok(
        members
            .iter()
            .filter(|inc| !is_watched_here(silences, **inc))
            .copied()
            .collect(alloc)?,
    )
}

fn is_among(members: &[Inc], inc: Inc) -> bool
    ensures { result ≡ has_inc members.now inc }
{
    members.iter().any(|member| *member == inc)
}

fn is_watched_here(silences: &[Silence], inc: Inc) -> bool
    ensures { result ≡ is_watched silences.now inc }
{
    silences.iter().any(|silence| silence.inc == inc)
}
