// Fields whose bytes are above a floor.
ghost use Rattle.std.specs.Prelude.{◌≡◌, ◌≤◌, ◌<◌, ◌&&◌, [], None, Some, length, IfErr, IfOk, OnErr};
ghost use Rattle.byte_forms.specs.Cuts.{FaultsAt, Takes};
ghost use Rattle.byte_forms.specs.Fields.{field};
ghost use Rattle.key_items.specs.Floors.{left_at, passes};
ghost use Rattle.key_items.specs.Spelling.{is_between, length_where};

use byte_forms::{Cutter, Misfit};

/// The length in one byte, from 1 to `high`, of a string that is above the floor, or from it on.
pub(crate) fn take_length(
    from: &mut Cutter,
    high: u8,
    floor: &[u8],
    itself: bool,
) -> Result<u8, Misfit>
    ensures ok { IfOk result (λ n. Takes (length_where (λ m. is_between 1 high m && passes floor.now itself m [])) from.old n from.new) }
    ensures misfit { IfErr result (λ e. FaultsAt (length_where (λ m. is_between 1 high m && passes floor.now itself m [])) from.old e.at) }
    ensures err { OnErr result (from.new ≡ from.old) }
{
    let at = from.at();
    let mut ahead = from.fork();
    let n = ahead.take_u8()?;
    if n == 0 || n > high {
        return Err(Misfit { at });
    }
    if !can_pass(floor, itself, n) {
        return Err(Misfit { at });
    }
    *from = ahead;
    Ok(n)
}

/// A string of `n` bytes that is above the floor, or from it on.
pub(crate) fn take_above<'a>(
    from: &mut Cutter<'a>,
    n: u8,
    floor: &[u8],
    itself: bool,
) -> Result<&'a [u8], Misfit>
    ensures ok { IfOk result (λ slice. Takes (field (passes floor.now itself n) n) from.old slice.now from.new) }
    ensures misfit { IfErr result (λ e. FaultsAt (field (passes floor.now itself n) n) from.old e.at) }
    ensures err { OnErr result (from.new ≡ from.old) }
{
    match misfit(from.left(), n, floor, itself) {
        Some(left) => Err(Misfit {
            at: from.place(left),
        }),
        None => Ok(from.take_slice(n as u32)?),
    }
}

// Where so many bytes break off, as the number of bytes that are left there. Each byte is compared with the floor's;
// only where they tie, the floor's later bytes are looked at, up to the first one that isn't the greatest byte.
fn misfit(bytes: &[u8], n: u8, floor: &[u8], itself: bool) -> Option<usize>
    ensures { result ≡ left_at (field (passes floor.now itself n) n bytes.now) }
{
    let (mut rest, mut under, mut more) = (bytes, floor, n);
    while more > 0 {
        let Some((byte, behind)) = rest.split_first() else {
            return Some(0);
        };
        let Some((least, later)) = under.split_first() else {
            return shortage(rest, more);
        };
        if *byte < *least {
            return Some(rest.len());
        }
        if *byte > *least {
            return shortage(rest, more);
        }
        if !can_pass(later, itself, more - 1) {
            return Some(rest.len());
        }
        (rest, under, more) = (behind, later, more - 1);
    }
    None
}

fn shortage(bytes: &[u8], n: u8) -> Option<usize>
    ensures enough { n ≤ length bytes.now → result ≡ None }
    ensures few { length bytes.now < n → result ≡ Some 0 }
{
    if bytes.len() < n as usize {
        Some(0)
    } else {
        None
    }
}

// Whether a string of n bytes is above the floor, or from it on.
pub(crate) fn can_pass(floor: &[u8], itself: bool, n: u8) -> bool
    ensures { result ≡ passes floor.now itself n [] }
{
    let (mut under, mut more) = (floor, n);
    while let Some((least, later)) = under.split_first() {
        if more == 0 {
            return false;
        }
        if *least < u8::MAX {
            return true;
        }
        (under, more) = (later, more - 1);
    }
    more > 0 || itself
}
