// The election.
ghost use Rattle.std.specs.Prelude.{◌≡◌, Some};
ghost use Rattle.std.specs.Option.{option_map};
ghost use Rattle.group_rules.specs.View.{elect as first_of, first_of_two, goes_first};

use crate::versions::is_older;
use gr_ids::Inc;
use slot_values::Joiner;

/// Elects the primary among these members, which a `Joiner` describes as well as one that joins: the lowest version, then the
/// highest weight, then the lowest UUID, then the least incarnation (MySQL 8.0 Reference Manual, Single-Primary Mode, Primary
/// Election Algorithm). None exactly where there is no candidate. Linear in the candidates; takes no memory.
pub fn elect(candidates: &[Joiner]) -> Option<Inc>
    ensures { result ≡ option_map (λ j. j.inc) (first_of candidates.now) }
{
    let mut first = None;
    let mut left = candidates.len();
    while left > 0 {
        left -= 1;
        first = Some(first_of_both(candidates[left], first));
    }
    first.map(|candidate| candidate.inc)
}

// The first of this candidate and the first of those behind it.
fn first_of_both(candidate: Joiner, first: Option<Joiner>) -> Joiner
    ensures { Some result ≡ first_of_two candidate first }
{
    match first {
        Some(first) if !goes_before(&candidate, &first) => first,
        _ => candidate,
    }
}

fn goes_before(a: &Joiner, b: &Joiner) -> bool
    ensures { result ≡ goes_first a.now b.now }
{
    if a.version != b.version {
        return is_older(a.version, b.version);
    }
    if a.weight != b.weight {
        return b.weight < a.weight;
    }
    if a.uuid != b.uuid {
        return a.uuid.cmp(&b.uuid).is_lt();
    }
    a.inc < b.inc
}
