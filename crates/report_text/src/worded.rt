// Words with a name behind them.
ghost use Rattle.std.specs.Prelude.{◌≡◌, ◌++◌, OnOk, codes};
ghost use Rattle.group_rules.specs.Texts.{decimal, inc_text, id_text, gtid_text, set_text, ballot_text};

use crate::names::{put_ballot, put_decimal, put_gtid, put_id, put_inc, put_set};
use gr_ids::{Ballot, Blob, Gtid, Inc, Memory, Pos, ValueId};
use gtid_sets::GtidSet;
use std::alloc::Global;

/// Words and what stands behind them.
pub fn put_after(to: &mut Blob, words: &[u8], text: &[u8]) -> Result<(), Memory>
    ensures { OnOk result (to.new ≡ to.old ++ (words.now ++ text.now)) }
{
    to.append(words)?;
    to.append(text)
}

/// Words and a number.
pub fn put_number_after(to: &mut Blob, words: &[u8], n: u64) -> Result<(), Memory>
    ensures { OnOk result (to.new ≡ to.old ++ (words.now ++ decimal n)) }
{
    to.append(words)?;
    put_decimal(to, n)
}

/// Words and a place.
pub fn put_place_after(to: &mut Blob, words: &[u8], place: Pos) -> Result<(), Memory>
    ensures { OnOk result (to.new ≡ to.old ++ (words.now ++ decimal place)) }
{
    put_number_after(to, words, place.0)
}

/// Words, a number and a value's identity.
pub fn put_numbered_id(to: &mut Blob, words: &[u8], n: u64, id: ValueId) -> Result<(), Memory>
    ensures { OnOk result (to.new ≡ to.old ++ (words.now ++ decimal n ++ codes " " ++ id_text id)) }
{
    put_number_after(to, words, n)?;
    put_id_after(to, b" ", id)
}

/// Words, a place and a value's identity.
pub fn put_placed_id(to: &mut Blob, words: &[u8], place: Pos, id: ValueId) -> Result<(), Memory>
    ensures { OnOk result (to.new ≡ to.old ++ (words.now ++ decimal place ++ codes " " ++ id_text id)) }
{
    put_numbered_id(to, words, place.0, id)
}

/// Words and an incarnation.
pub fn put_inc_after(to: &mut Blob, words: &[u8], inc: Inc) -> Result<(), Memory>
    ensures { OnOk result (to.new ≡ to.old ++ (words.now ++ inc_text inc)) }
{
    to.append(words)?;
    put_inc(to, inc)
}

/// Words and a value's identity.
pub fn put_id_after(to: &mut Blob, words: &[u8], id: ValueId) -> Result<(), Memory>
    ensures { OnOk result (to.new ≡ to.old ++ (words.now ++ id_text id)) }
{
    to.append(words)?;
    put_id(to, id)
}

/// Words and a GTID.
pub fn put_gtid_after(to: &mut Blob, words: &[u8], gtid: Gtid) -> Result<(), Memory>
    ensures { OnOk result (to.new ≡ to.old ++ (words.now ++ gtid_text gtid)) }
{
    to.append(words)?;
    put_gtid(to, gtid)
}

/// Words and a ballot.
pub fn put_ballot_after(to: &mut Blob, words: &[u8], ballot: Ballot) -> Result<(), Memory>
    ensures { OnOk result (to.new ≡ to.old ++ (words.now ++ ballot_text ballot)) }
{
    to.append(words)?;
    put_ballot(to, ballot)
}

/// Words and a set of GTIDs.
pub fn put_set_after(
    alloc: Global,
    to: &mut Blob,
    words: &[u8],
    set: &GtidSet,
) -> Result<(), Memory>
    ensures { OnOk result (to.new ≡ to.old ++ (words.now ++ set_text set.now)) }
{
    to.append(words)?;
    put_set(alloc, to, set)
}
