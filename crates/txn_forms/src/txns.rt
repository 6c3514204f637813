// Transactions as bytes.
ghost use Rattle.std.specs.Prelude.{◌≡◌, ◌++◌, IfErr, IfOk, OnErr, OnOk};
ghost use Rattle.byte_forms.specs.Cuts.{Takes};
ghost use Rattle.byte_forms.specs.Packs.{Keeps};
ghost use Rattle.byte_forms.specs.Unreads.{Breaks};
ghost use Rattle.txn_forms.specs.Bodies.{IsHeldTxn, IsTxn, next_txn, txn_bytes};

use crate::body::Txn;
use crate::changes::Changes;
use byte_forms::{Cutter, Packer, Unread, put_list, take_list};
use gr_ids::Memory;
use gtid_sets::GtidSet;
use key_items::{items_fit, put_write_set, take_write_set};
use std::alloc::Global;

#[tactic(auto, unfolding(crate::specs::Bodies::next_txn))]
pub(crate) fn take_txn(alloc: Global, from: &mut Cutter) -> Result<Txn, Unread>
    ensures ok { IfOk result (λ txn. Takes next_txn from.old txn from.new) }
    ensures misfit { IfErr result (λ e. Breaks next_txn from.old e) }
{
    let after = from.take_u8_in(0, 1)?;
    let snapshot = GtidSet::read_bytes(alloc, from)?;
    let items = take_write_set(alloc, from)?;
    let changes = take_list(alloc, from, 1, &Changes { items: &items })?;
    Ok(Txn {
        after: after == 1,
        snapshot,
        items,
        changes,
    })
}

pub(crate) fn put_txn(to: &mut Packer, txn: &Txn) -> Result<(), Memory>
    requires { IsTxn txn.now }
    ensures ok { OnOk result (to.new ≡ to.old ++ txn_bytes txn.now) }
    ensures held { OnOk result (IsHeldTxn txn.now) }
    ensures err { OnErr result (Keeps to.old to.new) }
{
    items_fit(txn.items.as_slice());
    to.put_u8(u8::from(txn.after))?;
    txn.snapshot.write_bytes(to)?;
    put_write_set(to, &txn.items)?;
    put_list(to, txn.changes.as_slice(), &Changes { items: &txn.items })
}
