// Asks and Gives as bytes.
ghost use Rattle.std.specs.Prelude.{◌≡◌, ◌++◌, IfErr, IfOk, OnErr, OnOk};
ghost use Rattle.byte_forms.specs.Cuts.{Takes};
ghost use Rattle.byte_forms.specs.Packs.{Keeps};
ghost use Rattle.byte_forms.specs.Unreads.{Breaks};
ghost use Rattle.std.specs.List.{AllByRecursion};
ghost use Rattle.gtid_sets.specs.Spelling.{HasCounts};
ghost use Rattle.paxos_forms.specs.Gives.{IsGive, IsHeldGive, ask_bytes, give_bytes, next_ask, next_give};
ghost use Rattle.paxos_forms.specs.GiveParts.{lacks_bytes, state_bytes};

use crate::donors::{KeptItems, LastNumbers, PartsOpen, Txns};
use crate::fits::kept_items_fit;
use crate::recovery::{Ask, Give};
use crate::told_sets::{ToldSets, put_told_sets};
use byte_forms::{Cutter, Packer, Unread, put_list, take_list};
use gr_ids::{Memory, Pos};
use gtid_sets::GtidSet;
use std::alloc::Global;

// The greatest slot, and so the greatest place: 2^42.
const LAST_SLOT: u64 = 1 << 42;

#[tactic(auto, unfolding(crate::specs::Gives::next_ask))]
pub(crate) fn take_ask(alloc: Global, from: &mut Cutter) -> Result<Ask, Unread>
    ensures ok { IfOk result (λ ask. Takes next_ask from.old ask from.new) }
    ensures misfit { IfErr result (λ e. Breaks next_ask from.old e) }
{
    let place = from.take_u64_in(1, LAST_SLOT)?;
    let executed = GtidSet::read_bytes(alloc, from)?;
    Ok(Ask {
        place: Pos(place),
        executed,
    })
}

pub(crate) fn put_ask(to: &mut Packer, ask: &Ask) -> Result<(), Memory>
    ensures ok { OnOk result (to.new ≡ to.old ++ ask_bytes ask.now) }
    ensures held { OnOk result (HasCounts ask.now.executed) }
    ensures err { OnErr result (Keeps to.old to.new) }
{
    to.put_u64(ask.place.0)?;
    ask.executed.write_bytes(to)
}

#[tactic(auto, unfolding(crate::specs::Gives::next_give))]
pub(crate) fn take_give(alloc: Global, from: &mut Cutter) -> Result<Give, Unread>
    ensures ok { IfOk result (λ give. Takes next_give from.old give from.new) }
    ensures misfit { IfErr result (λ e. Breaks next_give from.old e) }
{
    let place = from.take_u64_in(1, LAST_SLOT)?;
    let blocks = from.take_u64_in(0, place)?;
    let last = take_list(alloc, from, 0, &LastNumbers)?;
    let items = take_list(alloc, from, 0, &KeptItems { place })?;
    let told = take_list(alloc, from, 0, &ToldSets)?;
    let certified = GtidSet::read_bytes(alloc, from)?;
    let txns = take_list(alloc, from, 0, &Txns { place })?;
    let parts = take_list(alloc, from, 0, &PartsOpen)?;
    Ok(Give {
        place: Pos(place),
        blocks,
        last,
        items,
        told,
        certified,
        txns,
        parts,
    })
}

#[tactic(auto, using(crate::proofs::Parts::give_parts))]
pub(crate) fn put_give(to: &mut Packer, give: &Give) -> Result<(), Memory>
    requires { IsGive give.now }
    ensures ok { OnOk result (to.new ≡ to.old ++ give_bytes give.now) }
    ensures held { OnOk result (IsHeldGive give.now) }
    ensures err { OnErr result (Keeps to.old to.new) }
{
    kept_items_fit(give.items.as_slice());
    put_state(to, give)?;
    put_lacks(to, give)
}

fn put_state(to: &mut Packer, give: &Give) -> Result<(), Memory>
    requires { IsGive give.now }
    ensures ok { OnOk result (to.new ≡ to.old ++ state_bytes give.now) }
    ensures held { OnOk result (AllByRecursion (λ x. HasCounts x.set) give.now.told) }
    ensures err { OnErr result (Keeps to.old to.new) }
{
    let place = give.place.0;
    to.put_u64(place)?;
    to.put_u64(give.blocks)?;
    put_list(to, give.last.as_slice(), &LastNumbers)?;
    put_list(to, give.items.as_slice(), &KeptItems { place })?;
    put_told_sets(to, give.told.as_slice())
}

fn put_lacks(to: &mut Packer, give: &Give) -> Result<(), Memory>
    requires { IsGive give.now }
    ensures ok { OnOk result (to.new ≡ to.old ++ lacks_bytes give.now) }
    ensures held { OnOk result (HasCounts give.now.certified) }
    ensures err { OnErr result (Keeps to.old to.new) }
{
    let place = give.place.0;
    give.certified.write_bytes(to)?;
    put_list(to, give.txns.as_slice(), &Txns { place })?;
    put_list(to, give.parts.as_slice(), &PartsOpen)
}
