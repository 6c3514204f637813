// The rows of a member.
ghost use Rattle.std.specs.Prelude.{◌≡◌, false, true, [], IfErr, IfOk, OnOk, map, option_copied};
ghost use Rattle.key_items.specs.Items.{Ascend};
ghost use Rattle.gtid_sets.specs.Sets.{Gtids};
ghost use Rattle.key_items.specs.declared.item.Item.{Item as AnyItem};
ghost use Rattle.gr_ids.specs.declared.memory.Memory.{Memory};
ghost use Rattle.group_rules.specs.Rows.{changed_row, fits};
ghost use Rattle.row_store.specs.Chains.{IsApplied, fault_of, has_room, item_of, row_at, row_listed, row_now, row_own, rows_of, versions_of};

use crate::chains::{make_room, put_all};
use crate::copying::copy_chains;
use crate::fault::RowFault;
use crate::presence::is_there_after;
use crate::rows::rows_of_chains;
use crate::version::{Version, newest_in, newest_row};
use gr_ids::{Blob, Gtid, Memory, Sequence};
use group_rules::Row;
use gtid_sets::GtidSet;
use key_items::{Change, ChangeKind, Item};
use std::alloc::Global;
use std::collections::BTreeMap;
use std::marker::Model;

/// The rows of a member, with the versions that its transactions left (MySQL 8.0 Reference Manual, InnoDB Multi-Versioning).
#[derive(Debug, Drop)]
pub struct Store {
    // Each chain oldest first; it is read from its end.
    chains: BTreeMap<Item, Vec<Version>>,
    alloc: Global,
}

impl Model for Store {
    ghost use Rattle.std.specs.Prelude.{List, map};
    ghost use Rattle.row_store.specs.Chains.{Chain};
    ghost use Rattle.row_store.specs.Inside.{chain_of};

    ghost Value = { List Chain };

    ghost view = { λ s. map chain_of s.chains.entries };
}

impl Store {
    /// No rows; takes no memory.
    pub fn new(alloc: Global) -> Store
        ensures { result ≡ [] }
    {
        Store {
            chains: BTreeMap::new(alloc),
            alloc,
        }
    }

    /// Whether the change fits the rows now, after the transaction's own changes: an insert needs the row absent, an update or delete
    /// needs it present. Logarithmic in the items, and linear in the own changes.
    pub fn check(&self, own: &[Change], change: &Change) -> Result<(), RowFault>
        ensures ok { OnOk result (fits change.now.what (row_own self.now own.now change.now.item) ≡ true) }
        ensures err { IfErr result (λ e. (fits change.now.what (row_own self.now own.now change.now.item) ≡ false) × (e ≡ fault_of change.now.what)) }
    {
        let there = is_there_after(self.get(&change.item).is_some(), own, &change.item);
        match change.what {
            ChangeKind::Insert(_) if there => Err(RowFault::DuplicateKey),
            ChangeKind::Insert(_) => Ok(()),
            _ if there => Ok(()),
            _ => Err(RowFault::NoRow),
        }
    }

    /// Makes room for the changes of a transaction. The rows stay, whatever the result. For each change, logarithmic in the items.
    pub fn room(&mut self, changes: &[Change]) -> Result<(), Memory>
        ensures same { (i : AnyItem) → versions_of self.new i ≡ versions_of self.old i }
        ensures ok { OnOk result (has_room self.new changes.now ≡ true) }
    {
        make_room(&mut self.chains, self.alloc, changes)
    }

    /// Applies the changes of a transaction, for which there is room. For each change, logarithmic in the items; takes no memory.
    pub fn apply(&mut self, changes: Sequence<Change>, gtid: Gtid)
        requires { has_room self.old changes ≡ true }
        ensures at { IsApplied self.old self.new gtid changes }
        ensures now { (i : AnyItem) → row_now self.new i ≡ changed_row i (row_now self.old i) changes }
    {
        put_all(&mut self.chains, changes, gtid);
    }

    /// The row now. Logarithmic in the items; takes no memory.
    pub fn get(&self, item: &Item) -> Option<&Blob>
        ensures { option_copied result ≡ row_now self.now item.now }
    {
        newest_row(self.chains.get(item)?)
    }

    /// The row that the transactions of this set left. Logarithmic in the items, and linear in the versions that aren't in the set and
    /// newer than the first that is; takes no memory.
    pub fn get_at(&self, item: &Item, view: &GtidSet) -> Option<&Blob>
        ensures { option_copied result ≡ row_at self.now item.now view.now }
    {
        newest_in(self.chains.get(item)?, view)
    }

    /// The rows now, by ascending item. Linear in the items and in the bytes of the rows.
    pub fn rows(&self, alloc: Global) -> Result<Sequence<Row>, Memory>
        ensures rows { IfOk result (λ rows. rows ≡ rows_of self.now) }
        ensures ascend { IfOk result (λ rows. Ascend (map item_of rows)) }
        ensures listed { IfOk result (λ rows. (i : AnyItem) → row_listed rows i ≡ row_now self.now i) }
    {
        Ok(Sequence::from_vec(rows_of_chains(alloc, &self.chains)?))
    }

    /// A copy: the same versions of each item. Logarithmic in the items for each item, and linear in the bytes of all versions.
    pub fn try_copy(&self, alloc: Global) -> Result<Store, Memory>
        ensures { IfOk result (λ copy. (i : AnyItem) → versions_of copy i ≡ versions_of self.now i) }
    {
        let chains = copy_chains(alloc, &self.chains)?;
        Ok(Store { chains, alloc })
    }
}
