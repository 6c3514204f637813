// Whether what a server kept is within the ranges of what can be given to those that join.
ghost use Rattle.std.specs.Prelude.{◌≡◌, true};
ghost use Rattle.std.specs.List.{AllByRecursion};
ghost use Rattle.gtid_sets.specs.Canonical.{IsUuid};
ghost use Rattle.name_forms.specs.Gtids.{IsGtid};
ghost use Rattle.name_forms.specs.Incs.{IsInc};
ghost use Rattle.member_moment.specs.Founding.{IsKeepable};

use message_checks::{is_gtid, is_inc};
use paxos_forms::Given;

// The last place, 2^42.
const LAST_PLACE: u64 = 4_398_046_511_104;

// What the count of a body's bytes can say: 2^32 - 1.
const MOST_BYTES: usize = 4_294_967_295;

/// Whether each of these transactions can be given. Linear in them.
pub(crate) fn are_keepable(committed: &[Given]) -> bool
    ensures { result ≡ true → AllByRecursion IsKeepable committed.now }
{
    let mut left = committed;
    while let Some((first, behind)) = left.split_first() {
        if !is_keepable(first) {
            return false;
        }
        left = behind;
    }
    true
}

fn is_keepable(given: &Given) -> bool
    ensures { result ≡ true → IsKeepable given.now }
{
    uuid_fits(&given.gtid.source);
    let place = given.place.0;
    if place == 0 || place > LAST_PLACE {
        return false;
    }
    is_named(given) && given.body.as_slice().len() <= MOST_BYTES
}

fn is_named(given: &Given) -> bool
    ensures { result ≡ true → IsInc given.now.origin × IsGtid given.now.gtid }
{
    is_inc(given.origin) && is_gtid(given.gtid)
}

// Each of the bytes is below 256: this walk reads them, and compiles to nothing.
#[inline]
fn uuid_fits(id: &[u8; 16])
    ensures { IsUuid id.now }
{
    'bytes: for i in 0..16 {
        let _ = id[i];
    }
}
