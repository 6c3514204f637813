// Who is awaited.
ghost use Rattle.std.specs.Prelude.{◌≡◌, [], IfOk, map, OnErr, OnOk};
ghost use Rattle.gr_ids.specs.declared.names.Gtid.{Gtid as AnyGtid};
ghost use Rattle.gr_ids.specs.declared.memory.Memory.{Memory};
ghost use Rattle.prepare_acks.specs.Inside.{waiting_of};
ghost use Rattle.prepare_acks.specs.Awaited.{awaited, is_complete, is_none, left_by, prepared_by, requiring, without};

use gr_ids::{Gtid, Inc, Memory};
use std::alloc::Global;
use std::collections::BTreeMap;
use std::marker::Model;

/// For each AFTER transaction the members that have yet to prepare it. It is complete once nobody is awaited
/// (MySQL 8.0 Reference Manual, Group Replication: Transaction Consistency Guarantees, AFTER).
#[derive(Debug, Drop)]
pub struct Acks {
    awaited: BTreeMap<Gtid, Vec<Inc>>,
}

impl Model for Acks {
    ghost use Rattle.std.specs.Prelude.{List, map};
    ghost use Rattle.prepare_acks.specs.Awaited.{Waiting};
    ghost use Rattle.prepare_acks.specs.Inside.{waiting_of};

    ghost Value = { List Waiting };

    ghost view = { λ a. map waiting_of a.awaited.entries };
}

impl Acks {
    /// Nobody is awaited; takes no memory.
    pub fn new(alloc: Global) -> Acks
        ensures { result ≡ [] }
    {
        Acks {
            awaited: BTreeMap::new(alloc),
        }
    }

    /// The transaction, taken at its place, requires the members that are ONLINE there; its origin need not be awaited.
    /// Logarithmic in the transactions that wait, and linear in these members.
    pub fn require(
        &mut self,
        alloc: Global,
        gtid: Gtid,
        origin: Inc,
        online: &[Inc],
    ) -> Result<(), Memory>
        ensures ok { OnOk result ((g : AnyGtid) → awaited self.new g ≡ requiring gtid origin online.now (awaited self.old) g) }
        ensures err { OnErr result (self.new ≡ self.old) }
    {
        let members = others(alloc, online, origin)?;
        self.awaited.insert(gtid, members)?;
        Ok(())
    }

    /// A member has prepared the transaction. Logarithmic in the transactions that wait; takes no memory.
    pub fn prepared(&mut self, gtid: Gtid, inc: Inc)
        ensures { (g : AnyGtid) → awaited self.new g ≡ prepared_by gtid inc (awaited self.old) g }
    {
        acknowledge(&mut self.awaited, gtid, inc);
    }

    /// The incarnation is a member no more: nothing waits for it. Linear in the transactions that wait; takes no memory.
    pub fn left(&mut self, inc: Inc)
        ensures { (g : AnyGtid) → awaited self.new g ≡ left_by inc (awaited self.old) g }
    {
        self.awaited.retain(|_, members| {
            drop_member(members, inc);
            true
        });
    }

    /// Whether nobody is awaited, as for a transaction that requires nobody here. Logarithmic in the transactions that wait;
    /// takes no memory.
    pub fn complete(&self, gtid: Gtid) -> bool
        ensures { result ≡ is_complete self.now gtid }
    {
        match self.awaited.get(&gtid) {
            Some(members) => is_nobody(members),
            None => true,
        }
    }
}

fn others(alloc: Global, online: &[Inc], origin: Inc) -> Result<Vec<Inc>, Memory>
    ensures { IfOk result (λ v. v.items ≡ without origin online.now) }
{
    Ok(
        online
            .iter()
            .filter(|inc| **inc != origin)
            .copied()
            .collect(alloc)?,
    )
}

fn acknowledge(waiting: &mut BTreeMap<Gtid, Vec<Inc>>, gtid: Gtid, inc: Inc)
    ensures { (g : AnyGtid) → awaited (map waiting_of waiting.new.entries) g ≡ prepared_by gtid inc (awaited (map waiting_of waiting.old.entries)) g }
{
    let Some(members) = waiting.get_mut(&gtid) else {
        return;
    };
    drop_member(members, inc);
    if is_nobody(members) {
        waiting.remove(&gtid);
    }
}

fn is_nobody(members: &[Inc]) -> bool
    ensures { result ≡ is_none members.now }
{
    members.is_empty()
}

fn drop_member(members: &mut Vec<Inc>, inc: Inc)
    ensures { members.new.items ≡ without inc members.old.items }
{
    members.retain(|member| *member != inc);
}
