// How long the elements of the lists in messages are.
#![tactic(auto, using(crate::proofs::Lengths::lengths))]

ghost use Rattle.std.specs.Prelude.{◌≡◌, ◌+◌, length, IfOk};
ghost use Rattle.byte_forms.specs.Numbers.{number};
ghost use Rattle.name_forms.specs.Gtids.{gtid_bytes};
ghost use Rattle.gtid_sets.specs.Spelling.{set_bytes};
ghost use Rattle.slot_values.specs.Joiners.{joiner_bytes};
ghost use Rattle.slot_values.specs.Spelling.{value_bytes, vote_bytes, what_bytes};
ghost use Rattle.key_items.specs.Spelling.{item_bytes};
ghost use Rattle.name_forms.specs.Incs.{inc_bytes};
ghost use Rattle.paxos_forms.specs.Gives.{given_bytes, kept_bytes, last_bytes, parts_bytes, told_bytes};
ghost use Rattle.paxos_forms.specs.Welcomes.{config_bytes, member_bytes};

use crate::sums::{SizedForm, elements_size, list_size, sum};
use byte_forms::Packer;
use gr_ids::{Blob, Gtid, Inc, LastNumber, Memory, OpenParts, Sequence};
use gtid_sets::{GtidSet, ToldSet};
use key_items::{Item, KeptItem};
use paxos_forms::{Given, WelcomeMember};
use slot_values::{Joiner, Value, Vote, What};
use std::alloc::Global;

/// The number of bytes of a set. Linear in its runs.
pub(crate) fn set_size(alloc: Global, set: &GtidSet) -> Result<u64, Memory>
    ensures { IfOk result (λ n. n ≡ length (set_bytes set.now)) }
{
    let mut to = Packer::new(alloc);
    set.write_bytes(&mut to)?;
    Ok(to.len() as u64)
}

// Numbers of eight bytes each.
struct Eights;

impl SizedForm for Eights {
    type Element = u64;

    ghost spelling = { λ form n. number 8 n };

    fn size(&self, _n: &u64) -> Result<u64, Memory> {
        Ok(8)
    }
}

fn counted_size(bytes: &Blob) -> Result<u64, Memory>
    ensures { IfOk result (λ n. n ≡ length bytes.now + 4) }
{
    sum(bytes.len() as u64, 4)
}

fn joiner_size(joiner: &Joiner) -> Result<u64, Memory>
    ensures { IfOk result (λ n. n ≡ length (joiner_bytes joiner.now)) }
{
    let uuid: &[u8] = &joiner.uuid;
    let version: &[u64] = &joiner.version;
    sum(uuid.len() as u64, sum(elements_size(&Eights, version)?, 6)?)
}

fn gtid_size(gtid: &Gtid) -> Result<u64, Memory>
    ensures { IfOk result (λ n. n ≡ length (gtid_bytes gtid.now)) }
{
    let source: &[u8] = &gtid.source;
    sum(source.len() as u64, 8)
}

fn item_size(item: &Item) -> Result<u64, Memory>
    ensures { IfOk result (λ n. n ≡ length (item_bytes item.now)) }
{
    sum(sum(item.table.len() as u64, item.key.len() as u64)?, 2)
}

fn what_size(what: &What) -> Result<u64, Memory>
    ensures { IfOk result (λ n. n ≡ length (what_bytes what.now)) }
{
    match what {
        What::Noop => Ok(1),
        What::Add(joiner) => sum(joiner_size(joiner)?, 1),
        What::Remove(_) => Ok(6),
        What::Body(bytes) => sum(counted_size(bytes)?, 1),
    }
}

/// The number of bytes of a value.
pub(crate) fn value_size(value: &Value) -> Result<u64, Memory>
    ensures { IfOk result (λ n. n ≡ length (value_bytes value.now)) }
{
    sum(what_size(&value.what)?, 13)
}

pub(crate) struct Votes;

impl SizedForm for Votes {
    type Element = Vote;

    ghost spelling = { λ form vote. vote_bytes vote };

    fn size(&self, vote: &Vote) -> Result<u64, Memory> {
        sum(value_size(&vote.value)?, 17)
    }
}

pub(crate) struct Members;

impl SizedForm for Members {
    type Element = WelcomeMember;

    ghost spelling = { λ form member. member_bytes member };

    fn size(&self, member: &WelcomeMember) -> Result<u64, Memory> {
        sum(joiner_size(&member.joiner)?, 9)
    }
}

pub(crate) struct Incs;

impl SizedForm for Incs {
    type Element = Inc;

    ghost spelling = { λ form inc. inc_bytes inc };

    fn size(&self, _inc: &Inc) -> Result<u64, Memory> {
        Ok(5)
    }
}

pub(crate) struct Configs;

impl SizedForm for Configs {
    type Element = Sequence<Inc>;

    ghost spelling = { λ form config. config_bytes config };

    fn size(&self, config: &Sequence<Inc>) -> Result<u64, Memory> {
        list_size(&Incs, config.as_slice())
    }
}

pub(crate) struct LastNumbers;

impl SizedForm for LastNumbers {
    type Element = LastNumber;

    ghost spelling = { λ form last. last_bytes last };

    fn size(&self, _last: &LastNumber) -> Result<u64, Memory> {
        Ok(13)
    }
}

pub(crate) struct KeptItems;

impl SizedForm for KeptItems {
    type Element = KeptItem;

    ghost spelling = { λ form kept. kept_bytes kept };

    fn size(&self, kept: &KeptItem) -> Result<u64, Memory> {
        sum(item_size(&kept.item)?, sum(gtid_size(&kept.gtid)?, 8)?)
    }
}

#[derive(Drop)]
pub(crate) struct ToldSets {
    pub(crate) alloc: Global,
}

impl SizedForm for ToldSets {
    type Element = ToldSet;

    ghost spelling = { λ form told. told_bytes told };

    fn size(&self, told: &ToldSet) -> Result<u64, Memory> {
        sum(set_size(self.alloc, &told.set)?, 5)
    }
}

pub(crate) struct Txns;

impl SizedForm for Txns {
    type Element = Given;

    ghost spelling = { λ form given. given_bytes given };

    fn size(&self, given: &Given) -> Result<u64, Memory> {
        sum(
            counted_size(&given.body)?,
            sum(gtid_size(&given.gtid)?, 13)?,
        )
    }
}

pub(crate) struct PartsOpen;

impl SizedForm for PartsOpen {
    type Element = OpenParts;

    ghost spelling = { λ form parts. parts_bytes parts };

    fn size(&self, parts: &OpenParts) -> Result<u64, Memory> {
        sum(counted_size(&parts.bytes)?, 13)
    }
}
