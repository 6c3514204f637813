// Where an origin's parts stand among open parts that ascend by origin.
ghost use Rattle.std.specs.Prelude.{◌≡◌, ◌≤◌, None, length};
ghost use Rattle.byte_forms.specs.Lists.{IsChain};
ghost use Rattle.gr_ids.specs.Names.{inc_lt};
ghost use Rattle.name_forms.specs.OpenParts.{IsOpenAfter};
ghost use Rattle.txn_forms.specs.PartPlaces.{has_parts as has_parts_of, parts_before as parts_before_of};

use gr_ids::{Inc, OpenParts};

/// How many parts stand before those of the origin. Logarithmic in the origins.
pub(crate) fn parts_before(parts: &[OpenParts], origin: Inc) -> usize
    requires { IsChain IsOpenAfter None parts.now }
    ensures place { result ≡ parts_before_of parts.now origin }
    ensures within { result ≤ length parts.now }
{
    let mut low = 0;
    let mut high = parts.len();
    while low < high {
        let middle = low + (high - low) / 2;
        if is_below(parts[middle].origin, origin) {
            low = middle + 1;
        } else {
            high = middle;
        }
    }
    low
}

fn is_below(i: Inc, j: Inc) -> bool
    ensures { result ≡ inc_lt i j }
{
    i < j
}

/// Whether those at the place are the origin's. Takes constant time.
pub(crate) fn has_parts(parts: &[OpenParts], at: usize, origin: Inc) -> bool
    ensures { result ≡ has_parts_of parts.now at origin }
{
    match parts.get(at) {
        Some(held) => held.origin == origin,
        None => false,
    }
}
