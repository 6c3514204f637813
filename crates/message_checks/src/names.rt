// Names within their ranges.
ghost use Rattle.std.specs.Prelude.{◌≡◌, ◌≤◌, ◌↔◌, IsTrue};
ghost use Rattle.gr_ids.specs.Names.{inc_lt};
ghost use Rattle.name_forms.specs.Ballots.{IsBallot};
ghost use Rattle.name_forms.specs.Gtids.{IsGtid};
ghost use Rattle.name_forms.specs.Ids.{IsId};
ghost use Rattle.name_forms.specs.Incs.{IsInc, IsIncAfter};

use gr_ids::{Ballot, Gtid, Inc, ValueId};

// The greatest number of a server.
const LAST_SERVER: u8 = 32;

// The greatest number of a GTID: 2^63-2.
const LAST_GTID_NUMBER: u64 = 9_223_372_036_854_775_806;

/// Whether the server is 1 to 32, and the start at least 1.
pub fn is_inc(inc: Inc) -> bool
    ensures { IsTrue result ↔ IsInc inc }
{
    1 <= inc.server && inc.server <= LAST_SERVER && 1 <= inc.start
}

/// Whether an incarnation of a list is above the one before it, if there is one.
pub(crate) fn is_inc_after(before: Option<Inc>, inc: Inc) -> bool
    ensures { IsTrue result ↔ IsIncAfter before inc }
{
    match before {
        None => is_inc(inc),
        Some(last) => is_inc(inc) && is_before(last, inc),
    }
}

fn is_before(i: Inc, j: Inc) -> bool
    ensures { result ≡ inc_lt i j }
{
    i < j
}

/// Whether the round is at least 1, and the incarnation in its range.
pub fn is_ballot(ballot: Ballot) -> bool
    ensures { IsTrue result ↔ IsBallot ballot }
{
    1 <= ballot.round && is_inc(ballot.inc)
}

/// Whether the origin is in its range.
pub fn is_id(id: ValueId) -> bool
    ensures { IsTrue result ↔ IsId id }
{
    is_inc(id.origin)
}

/// Whether the number is 1 to 2^63-2.
pub fn is_gtid(gtid: Gtid) -> bool
    ensures { IsTrue result ↔ IsGtid gtid }
{
    1 <= gtid.number && gtid.number <= LAST_GTID_NUMBER
}
