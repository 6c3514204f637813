// Told sets as bytes.
ghost use Rattle.std.specs.Prelude.{◌≡◌, ◌≤◌, ◌<◌, ◌^◌, ◌++◌, length, IfErr, IfOk, IfSome, OnErr, OnOk, option_copied};
ghost use Rattle.std.specs.List.{AllByRecursion, flat_map};
ghost use Rattle.byte_forms.specs.Cuts.{Takes};
ghost use Rattle.byte_forms.specs.Lists.{several};
ghost use Rattle.byte_forms.specs.Packs.{Keeps};
ghost use Rattle.byte_forms.specs.Unreads.{Breaks};
ghost use Rattle.gtid_sets.specs.Spelling.{HasCounts};
ghost use Rattle.paxos_forms.specs.Gives.{inc_of_told as inc_of_told_of, next_told_after, told_bytes};

use byte_forms::{Cutter, ListForm, Packer, Unread};
use gr_ids::{Inc, Memory};
use gtid_sets::{GtidSet, ToldSet};
use name_forms::{put_inc, take_inc_after};
use std::alloc::Global;

/// Told sets, each incarnation above the one before it.
pub(crate) struct ToldSets;

impl ListForm for ToldSets {
    type Element = ToldSet;

    ghost reader = { λ form before. next_told_after before };

    ghost spelling = { λ form told. told_bytes told };

    ghost CanPrecede = { λ form told. told.inc.server ≤ 32 };

    ghost CanPut = { λ form told. Unit {0} };

    fn take_next(
        &self,
        alloc: Global,
        from: &mut Cutter,
        before: Option<&ToldSet>,
    ) -> Result<ToldSet, Unread> {
        take_told(alloc, from, before)
    }

    fn put_next(&self, to: &mut Packer, told: &ToldSet) -> Result<(), Memory> {
        put_told(to, told)
    }
}

/// Puts told sets. Linear in the bytes; changes nothing where memory is refused.
pub(crate) fn put_told_sets(to: &mut Packer, told: &[ToldSet]) -> Result<(), Memory>
    requires { length told.now < 2 ^ 32 }
    ensures ok { OnOk result (to.new ≡ to.old ++ several told_bytes told.now) }
    ensures held { OnOk result (AllByRecursion (λ x. HasCounts x.set) told.now) }
    ensures err { OnErr result (to.new ≡ to.old) }
{
    let len = to.len();
    let put = put_told_list(to, told);
    to.settle(len, put)
}

#[tactic(auto, using(byte_forms::proofs::PackLemmas::keeps_trans))]
fn put_told_list(to: &mut Packer, told: &[ToldSet]) -> Result<(), Memory>
    requires { length told.now < 2 ^ 32 }
    ensures ok { OnOk result (to.new ≡ to.old ++ several told_bytes told.now) }
    ensures held { OnOk result (AllByRecursion (λ x. HasCounts x.set) told.now) }
    ensures err { OnErr result (Keeps to.old to.new) }
{
    to.put_u32(told.len() as u32)?;
    put_each_told(to, told)
}

fn put_each_told(to: &mut Packer, told: &[ToldSet]) -> Result<(), Memory>
    ensures ok { OnOk result (to.new ≡ to.old ++ flat_map told_bytes told.now) }
    ensures held { OnOk result (AllByRecursion (λ x. HasCounts x.set) told.now) }
    ensures err { OnErr result (Keeps to.old to.new) }
{
    let mut left = told;
    while let Some((first, behind)) = left.split_first() {
        put_told(to, first)?;
        left = behind;
    }
    Ok(())
}

#[tactic(auto, using(byte_forms::proofs::PackLemmas::keeps_trans))]
fn put_told(to: &mut Packer, told: &ToldSet) -> Result<(), Memory>
    ensures ok { OnOk result (to.new ≡ to.old ++ told_bytes told.now) }
    ensures held { OnOk result (HasCounts told.now.set) }
    ensures err { OnErr result (Keeps to.old to.new) }
{
    put_inc(to, told.inc)?;
    told.set.write_bytes(to)
}

#[tactic(auto, unfolding(crate::specs::Gives::next_told_after))]
fn take_told(alloc: Global, from: &mut Cutter, before: Option<&ToldSet>) -> Result<ToldSet, Unread>
    requires { IfSome (option_copied before) (λ b. b.inc.server ≤ 32) }
    ensures ok { IfOk result (λ told. Takes (next_told_after (option_copied before.entry)) from.old told from.new) }
    ensures range { IfOk result (λ told. told.inc.server ≤ 32) }
    ensures misfit { IfErr result (λ e. Breaks (next_told_after (option_copied before.entry)) from.old e) }
{
    let inc = take_inc_after(from, inc_of_told(before))?;
    let set = GtidSet::read_bytes(alloc, from)?;
    Ok(ToldSet { inc, set })
}

fn inc_of_told(before: Option<&ToldSet>) -> Option<Inc>
    ensures { result ≡ inc_of_told_of (option_copied before.entry) }
{
    match before {
        None => None,
        Some(told) => Some(told.inc),
    }
}
