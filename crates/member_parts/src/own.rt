// A member's own certified transactions.
ghost use Rattle.std.specs.Prelude.{◌≡◌, ◌++◌, ◌∷◌, [], IfOk, MatchOption, None, Some, OnErr, OnOk, not, true};
ghost use Rattle.std.specs.List.{find, prefix_len};
ghost use Rattle.gr_ids.specs.declared.memory.Memory.{Memory};
ghost use Rattle.gr_ids.specs.declared.names.Gtid.{Gtid as AnyGtid};
ghost use Rattle.gr_ids.specs.Names.{gtid_eq};
ghost use Rattle.member_parts.specs.Remote.{OwnWork, none_waits, without_own};

use apply_queue::WorkDone;
use gr_ids::{Gtid, Memory};
use std::alloc::Global;
use std::marker::Model;

/// An own certified transaction: what its commit writes.
#[derive(Debug, Drop)]
pub(crate) struct OwnDone {
    pub(crate) gtid: Gtid,
    pub(crate) done: WorkDone,
}

impl Model for OwnDone {
    ghost use Rattle.member_parts.specs.Remote.{OwnWork};

    ghost Value = { OwnWork };

    ghost view = { λ o. record { place = o.done.place; gtid = o.gtid; body = o.done.body; changes = o.done.changes } };
}

/// The own certified transactions that aren't committed, ascending by place.
#[derive(Debug, Drop)]
pub(crate) struct OwnCertified {
    waiting: Vec<OwnDone>,
}

impl Model for OwnCertified {
    ghost use Rattle.std.specs.Prelude.{List};
    ghost use Rattle.member_parts.specs.Remote.{OwnWork};

    ghost Value = { List OwnWork };

    ghost view = { λ o. o.waiting.items };
}

impl OwnCertified {
    /// None waits; takes no memory.
    pub(crate) fn new(alloc: Global) -> OwnCertified
        ensures { result ≡ [] }
    {
        OwnCertified {
            waiting: Vec::new(alloc),
        }
    }

    /// Whether none waits. Takes constant time, and no memory.
    pub(crate) fn is_empty(&self) -> bool
        ensures { result ≡ none_waits self.now }
    {
        self.waiting.is_empty()
    }

    /// One more waits. Takes constant time, seen over many.
    pub(crate) fn push(&mut self, own: OwnDone) -> Result<(), Memory>
        ensures ok { OnOk result (self.new ≡ self.old ++ own ∷ []) }
        ensures err { OnErr result (self.new ≡ self.old) }
    {
        self.waiting.push(own)?;
        Ok(())
    }

    /// Takes out the first one with this GTID. Linear in those that wait; takes no memory.
    pub(crate) fn take_out(&mut self, gtid: Gtid) -> Option<WorkDone>
        ensures rest { self.new ≡ without_own gtid self.old }
        ensures found { MatchOption result (find (λ w. gtid_eq w.gtid gtid) self.old ≡ None) (λ d. (g : AnyGtid) × (find (λ w. gtid_eq w.gtid gtid) self.old ≡ Some (record { place = d.place; gtid = g; body = d.body; changes = d.changes }))) }
    {
        let at = index_of(&self.waiting, gtid);
        if at < self.waiting.len() {
            Some(self.waiting.remove(at).done)
        } else {
            None
        }
    }
}

fn is_of(own: &OwnDone, gtid: Gtid) -> bool
    ensures { result ≡ gtid_eq own.now.gtid gtid }
{
    own.gtid == gtid
}

/// The index of the first one with this GTID, or the number of all.
fn index_of(waiting: &[OwnDone], gtid: Gtid) -> usize
    ensures { result ≡ prefix_len (λ w. not (gtid_eq w.gtid gtid)) waiting.now }
{
    for at in 0..waiting.len() {
        if is_of(&waiting[at], gtid) {
            return at;
        }
    }
    waiting.len()
}
