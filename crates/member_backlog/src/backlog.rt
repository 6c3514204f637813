// The backlog.
ghost use Rattle.std.specs.Prelude.{◌≡◌, ◌||◌, [], IfOk, OnErr, OnOk};
ghost use Rattle.gr_ids.specs.Names.{inc_eq};
ghost use Rattle.gr_ids.specs.declared.memory.Memory.{Memory};
ghost use Rattle.member_backlog.specs.Waiting.{after_below, is_below, is_clear, pending_of, with_certified, without, without_committed};

use crate::uncommitted::Uncommitted;
use gr_ids::{Gtid, Inc, Memory, Pos, Sequence};
use group_rules::Pending;
use gtid_sets::GtidSet;
use std::alloc::Global;
use std::marker::Model;

/// The certified transactions that aren't committed here, by ascending place.
#[derive(Debug, Drop)]
pub struct Backlog {
    waiting: Vec<Uncommitted>,
}

impl Model for Backlog {
    ghost use Rattle.std.specs.Prelude.{List};
    ghost use Rattle.member_backlog.specs.Waiting.{Uncommitted};

    ghost Value = { List Uncommitted };

    ghost view = { λ b. b.waiting.items };
}

impl Backlog {
    /// Nothing waits; takes no memory.
    pub fn new(alloc: Global) -> Backlog
        ensures { result ≡ [] }
    {
        Backlog {
            waiting: Vec::new(alloc),
        }
    }

    /// The transactions that a donor gave, but for those that are committed already. Linear in them, besides the looks into the set.
    pub fn restore(
        alloc: Global,
        executed: &GtidSet,
        certified: &[Uncommitted],
    ) -> Result<Backlog, Memory>
        ensures { IfOk result (λ backlog. backlog ≡ without_committed executed.now certified.now) }
    {
        Ok(Backlog {
            waiting: uncommitted_from(alloc, executed, certified)?,
        })
    }

    /// A transaction is certified, at a place above those before; it doesn't wait where it is committed already. Takes constant time, seen
    /// over many, besides the look into the set.
    pub fn certify(&mut self, executed: &GtidSet, certified: Uncommitted) -> Result<(), Memory>
        ensures ok { OnOk result (self.new ≡ with_certified executed.now self.old certified) }
        ensures err { OnErr result (self.new ≡ self.old) }
    {
        if executed.contains(certified.gtid) {
            return Ok(());
        }
        self.waiting.push(certified)?;
        Ok(())
    }

    /// The transaction with this GTID is committed, and waits no more. Linear in those that wait; takes no memory.
    pub fn commit(&mut self, gtid: Gtid)
        ensures { self.new ≡ without gtid self.old }
    {
        keep_others(&mut self.waiting, gtid);
    }

    /// Those that wait, by ascending place.
    pub fn waiting(&self) -> &[Uncommitted]
        ensures { result.now ≡ self.now }
    {
        &self.waiting
    }

    /// Those that wait, as a held begin asks for them. Linear in them.
    pub fn pending(&self, alloc: Global) -> Result<Sequence<Pending>, Memory>
        ensures { IfOk result (λ pending. pending ≡ pending_of self.now) }
    {
        Ok(Sequence::from_vec(pending_from(alloc, &self.waiting)?))
    }

    /// The GTIDs of the AFTER transactions that wait, and are this member's own or stand below the place, if there is one. Linear in
    /// those that wait.
    pub fn after_below(
        &self,
        alloc: Global,
        me: Inc,
        below: Option<Pos>,
    ) -> Result<Sequence<Gtid>, Memory>
        ensures { IfOk result (λ gtids. gtids ≡ after_below me below self.now) }
    {
        Ok(Sequence::from_vec(gtids_below(alloc, me, below, &self.waiting)?))
    }

    /// Whether all that is certified below the place is committed. Linear in those that wait.
    pub fn is_clear(&self, place: Pos) -> bool
        ensures { result ≡ is_clear place self.now }
    {
        self.waiting.iter().all(|waiting| !(waiting.place < place))
    }
}

fn uncommitted_from(
    alloc: Global,
    executed: &GtidSet,
    certified: &[Uncommitted],
) -> Result<Vec<Uncommitted>, Memory>
    ensures { IfOk result (λ v. v.items ≡ without_committed executed.now certified.now) }
{
    Ok(
        certified
            .iter()
            .filter(|one| !executed.contains(one.gtid))
            .copied()
            .collect(alloc)?,
    )
}

fn keep_others(waiting: &mut Vec<Uncommitted>, gtid: Gtid)
    ensures { waiting.new.items ≡ without gtid waiting.old.items }
{
    waiting.retain(|one| gtid != one.gtid);
}

fn pending_from(alloc: Global, waiting: &[Uncommitted]) -> Result<Vec<Pending>, Memory>
    ensures { IfOk result (λ v. v.items ≡ pending_of waiting.now) }
{
    Ok(
        waiting
            .iter()
            .map(|one| Pending {
                place: one.place,
                gtid: one.gtid,
            })
            .collect(alloc)?,
    )
}

fn gtids_below(
    alloc: Global,
    me: Inc,
    below: Option<Pos>,
    waiting: &[Uncommitted],
) -> Result<Vec<Gtid>, Memory>
    ensures { IfOk result (λ v. v.items ≡ after_below me below waiting.now) }
{
    Ok(
        waiting
            .iter()
            .filter(|one| one.after && is_own_or_below(one, me, below))
            .map(|one| one.gtid)
            .collect(alloc)?,
    )
}

fn is_own_or_below(one: &Uncommitted, me: Inc, below: Option<Pos>) -> bool
    ensures { result ≡ (inc_eq one.now.id.origin me || is_below below one.now.place) }
{
    one.id.origin == me || is_below(one.place, below)
}

fn is_below(place: Pos, below: Option<Pos>) -> bool
    ensures { result ≡ is_below below place }
{
    match below {
        Some(below) => place < below,
        None => true,
    }
}
