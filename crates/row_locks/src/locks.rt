// Who holds which key.
ghost use Rattle.std.specs.Prelude.{◌≡◌, [], None, Some, IfErr, IfOk, OnErr, OnOk};
ghost use Rattle.key_items.specs.declared.item.Item.{Item as AnyItem};
ghost use Rattle.gr_ids.specs.declared.memory.Memory.{Memory};
ghost use Rattle.row_locks.specs.Locking.{IsCause, holder_beside, holders_of, locked_by, session_at, taken_over, with_place, without_place, without_session};

use crate::done::{DonePlace, drop_place, place_of_key, put_place};
use crate::fault::LockFault;
use crate::keys::{
    list_key, other_holder, session_of_key, sessions_of_keys, unlock_all, unlock_own,
};
use gr_ids::{Gtid, Memory, Pos, Sequence, SessionId};
use group_rules::Holder;
use key_items::{Item, WriteSet};
use std::alloc::Global;
use std::collections::BTreeMap;
use std::marker::Model;

/// The locks of a member. A key is held by one session, or by the places that are done and share it, of which the least is named.
#[derive(Debug, Drop)]
pub struct Locks {
    keys: BTreeMap<Item, SessionId>,
    // What each session has locked. A key that it lost may still stand here.
    listed: BTreeMap<SessionId, Vec<Item>>,
    // Ascending.
    places: Vec<DonePlace>,
}

impl Model for Locks {
    ghost use Rattle.std.specs.Prelude.{map};
    ghost use Rattle.row_locks.specs.Locking.{Locked};
    ghost use Rattle.row_locks.specs.Inside.{AreListed, key_of};

    ghost Value = { Locked };

    ghost view = { λ l. record { keys = map key_of l.keys.entries; places = l.places.items } };

    ghost invariant = { λ l. AreListed l.keys.entries l.listed.entries };
}

impl Locks {
    /// Nothing is locked; takes no memory.
    pub fn new(alloc: Global) -> Locks
        ensures { result ≡ record { keys = []; places = [] } }
    {
        Locks {
            keys: BTreeMap::new(alloc),
            listed: BTreeMap::new(alloc),
            places: Vec::new(alloc),
        }
    }

    /// Who holds the key beside this session: the least place that is done, else another session. Logarithmic in the locks; for each
    /// done place, logarithmic in its keys. Takes no memory.
    pub fn holder(&self, item: &Item, session: SessionId) -> Option<Holder>
        ensures { result ≡ holder_beside self.now session item.now }
    {
        self.holder_beside(item, session, session_of_key(&self.keys, item))
    }

    /// The session locks the key, which it may hold already. Refused exactly where another session or a done place holds it.
    /// Logarithmic in the locks; for each done place, logarithmic in its keys.
    pub fn lock(&mut self, item: &Item, session: SessionId) -> Result<(), LockFault>
        ensures free { OnOk result (holder_beside self.old session item.now ≡ None) }
        ensures ok { OnOk result ((j : AnyItem) → session_at self.new.keys j ≡ locked_by session item.now (session_at self.old.keys) j) }
        ensures locked { IfErr result (IsCause self.old session item.now) }
        ensures places { self.new.places ≡ self.old.places }
        ensures err { OnErr result (self.new ≡ self.old) }
    {
        let holder = session_of_key(&self.keys, item);
        if let Some(holder) = self.holder_beside(item, session, holder) {
            return Err(LockFault::Locked { holder });
        }
        if holder.is_some() {
            return Ok(());
        }
        match self.give(item, session) {
            Ok(()) => Ok(()),
            Err(Memory) => Err(LockFault::Memory),
        }
    }

    /// A place that is done takes over these keys, and holds them until it is freed. Gives the sessions that lost one, ascending.
    /// Logarithmic in the locks for each key, and linear in the done places.
    pub fn take_over(
        &mut self,
        items: &WriteSet,
        place: Pos,
        gtid: Gtid,
    ) -> Result<Sequence<SessionId>, Memory>
        ensures losers { IfOk result (λ ss. ss ≡ holders_of self.old.keys items.now) }
        ensures keys { OnOk result ((j : AnyItem) → session_at self.new.keys j ≡ taken_over items.now (session_at self.old.keys) j) }
        ensures places { OnOk result (self.new.places ≡ with_place self.old.places (record { place = place; gtid = gtid; items = items.now })) }
        ensures err { OnErr result (self.new ≡ self.old) }
    {
        let alloc = *self.places.allocator();
        let losers = sessions_of_keys(alloc, &self.keys, items.as_slice())?;
        let done = DonePlace::of(alloc, place, gtid, items)?;
        put_place(&mut self.places, done)?;
        unlock_all(&mut self.keys, items.as_slice());
        Ok(Sequence::from_vec(losers))
    }

    /// The session holds nothing any more. Logarithmic in the locks for each key that it locked; takes no memory.
    pub fn free(&mut self, session: SessionId)
        ensures keys { (j : AnyItem) → session_at self.new.keys j ≡ without_session session (session_at self.old.keys j) }
        ensures places { self.new.places ≡ self.old.places }
    {
        if let Some(items) = self.listed.remove(&session) {
            unlock_own(&mut self.keys, &items, session);
        }
    }

    /// The place holds nothing any more. Linear in the done places; takes no memory.
    pub fn free_place(&mut self, place: Pos)
        ensures { self.new ≡ record self.old { places = without_place place self.old.places } }
    {
        drop_place(&mut self.places, place);
    }

    /// No place holds anything any more. Linear in the done places; takes no memory.
    pub fn free_places(&mut self)
        ensures { self.new ≡ record self.old { places = [] } }
    {
        self.places.clear();
    }

    fn holder_beside(
        &self,
        item: &Item,
        session: SessionId,
        holder: Option<SessionId>,
    ) -> Option<Holder>
        requires { holder ≡ session_at self.now.keys item.now }
        ensures { result ≡ holder_beside self.now session item.now }
    {
        match place_of_key(&self.places, item) {
            Some(place) => Some(place),
            None => other_holder(session, holder),
        }
    }

    // The key becomes the session's. It stands in the session's list first.
    fn give(&mut self, item: &Item, session: SessionId) -> Result<(), Memory>
        ensures ok { OnOk result ((j : AnyItem) → session_at self.new.keys j ≡ locked_by session item.now (session_at self.old.keys) j) }
        ensures places { self.new.places ≡ self.old.places }
        ensures err { OnErr result (self.new ≡ self.old) }
    {
        let alloc = *self.places.allocator();
        list_key(&mut self.listed, alloc, session, item.try_copy(alloc)?)?;
        self.keys.insert(item.try_copy(alloc)?, session)?;
        Ok(())
    }
}
