// The tables of a member.
ghost use Rattle.std.specs.Prelude.{◌≡◌, ◌∷◌, []};
ghost use Rattle.slot_values.specs.declared.value.Joiner.{Joiner};
ghost use Rattle.gr_ids.specs.declared.names.Inc.{Inc as Member};
ghost use Rattle.group_rules.specs.View.{founding};
ghost use Rattle.group_rules.specs.Events.{Setup, Starts, Stored};
ghost use Rattle.group_rules.specs.Member.{Member as AnyMember};
ghost use Rattle.group_rules.specs.Sessions.{is_active, phase};
ghost use Rattle.group_rules.specs.Steps.{found, start};
ghost use Rattle.row_store.specs.Following.{RowsOf};
ghost use Rattle.gtid_sets.specs.Canonical.{IsCanonical};
ghost use Rattle.member_tables.specs.Standing.{HasGtids, TablesFor};

use gr_ids::{Inc, MemberState, Mode, SessionId};
use gtid_sets::GtidSet;
use local_sessions::{Sessions, Tables};
use row_locks::Locks;
use row_store::Store;
use std::alloc::Global;

/// What the sessions of a member read and write, and the sessions.
#[derive(Debug, Drop)]
pub struct MemberTables {
    pub(crate) tables: Tables,
    pub(crate) sessions: Sessions,
}

impl MemberTables {
    /// Those of a founder: no rows. The mode and the primary are those of the first view. Takes no memory.
    pub fn founded(alloc: Global, me: Inc, mode: Mode, primary: Option<Inc>) -> MemberTables
        ensures { (s : Setup) (j : Joiner) → me ≡ j.inc → mode ≡ (founding s.mode s.founders).mode
            → primary ≡ (founding s.mode s.founders).primary → TablesFor (found s j) result }
    {
        MemberTables {
            tables: Tables {
                me,
                store: Store::new(alloc),
                locks: Locks::new(alloc),
                executed: GtidSet::new(alloc),
                state: MemberState::Online,
                mode,
                primary,
            },
            sessions: Sessions::new(alloc),
        }
    }

    /// Those of a joiner, whose server kept these rows and has executed this set. Takes no memory.
    pub fn joining(alloc: Global, me: Inc, store: Store, executed: GtidSet) -> MemberTables
        ensures { (s : Setup) (j : Joiner) (y : Stored) (i : Member) → me ≡ j.inc → executed ≡ y.executed → IsCanonical y.executed
            → RowsOf (Starts y ∷ []) store → HasGtids (Starts y ∷ []) → TablesFor (start s j y i) result }
    {
        MemberTables {
            tables: Tables {
                me,
                store,
                locks: Locks::new(alloc),
                executed,
                state: MemberState::Offline,
                mode: Mode::Multi,
                primary: None,
            },
            sessions: Sessions::new(alloc),
        }
    }

    /// What its sessions read and write.
    pub fn tables(&self) -> &Tables
        ensures { result.now ≡ self.now.tables }
    {
        &self.tables
    }

    /// Whether the session has an active transaction. Linear in the sessions; takes no memory.
    pub fn is_active(&self, session: SessionId) -> bool
        ensures { (a : AnyMember) → TablesFor a self.now → result ≡ is_active (phase a.life session) }
    {
        self.sessions.is_open(session)
    }
}
