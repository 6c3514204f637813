// The changes of a transaction.
ghost use Rattle.std.specs.Prelude.{◌≡◌, ◌++◌, ◌∷◌, [], List, OnErr, OnOk};
ghost use Rattle.gr_ids.specs.declared.memory.Memory.{Memory};
ghost use Rattle.key_items.specs.Spelling.{IsItem};
ghost use Rattle.key_items.specs.declared.change.Change.{Change as AnyChange};
ghost use Rattle.local_sessions.specs.Changing.{AreOfItems};

use gr_ids::{Memory, Sequence};
use key_items::Change;
use std::alloc::Global;
use std::marker::Model;

/// The changes of a transaction, in the order made. Their tables and keys have the lengths that those of an item may have.
#[derive(Debug, Drop)]
pub(crate) struct Changes {
    list: Vec<Change>,
}

impl Model for Changes {
    ghost use Rattle.std.specs.Prelude.{List};
    ghost use Rattle.key_items.specs.declared.change.Change.{Change};
    ghost use Rattle.local_sessions.specs.Changing.{AreOfItems};

    ghost Value = { List Change };

    ghost view = { λ c. c.list.items };

    ghost invariant = { λ c. AreOfItems c.list.items };
}

impl Changes {
    /// None; takes no memory.
    pub(crate) fn new(alloc: Global) -> Changes
        ensures { result ≡ [] }
    {
        Changes {
            list: Vec::new(alloc),
        }
    }

    /// The changes.
    pub(crate) fn as_slice(&self) -> &[Change]
        ensures changes { result.now ≡ self.now }
        ensures items { AreOfItems self.now }
    {
        &self.list
    }

    /// One change more.
    pub(crate) fn push(&mut self, change: Change) -> Result<(), Memory>
        requires { IsItem change.item }
        ensures ok { OnOk result (self.new ≡ self.old ++ change ∷ []) }
        ensures err { OnErr result (self.new ≡ self.old) }
    {
        self.list.push(change)?;
        Ok(())
    }

    /// Without the last change; takes no memory.
    pub(crate) fn pop(&mut self)
        ensures { (cs : List AnyChange) (c : AnyChange) → self.old ≡ cs ++ c ∷ [] → self.new ≡ cs }
    {
        self.list.pop();
    }

    /// The changes as a list; takes no memory.
    pub(crate) fn into_sequence(self) -> Sequence<Change>
        ensures { result ≡ self }
    {
        Sequence::from_vec(self.list)
    }

    /// The list as changes; takes no memory.
    pub(crate) fn from_sequence(changes: Sequence<Change>) -> Changes
        requires { AreOfItems changes }
        ensures { result ≡ changes }
    {
        Changes {
            list: changes.into_vec(),
        }
    }
}
