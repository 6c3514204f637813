// What the list and the state of a member make of its tables.
ghost use Rattle.std.specs.Prelude.{◌≡◌, ◌∷◌, [], false};
ghost use Rattle.paxos_forms.specs.declared.welcome.Welcome.{Welcome};
ghost use Rattle.group_rules.specs.declared.marks.Cause.{Cause as AnyCause};
ghost use Rattle.group_rules.specs.Events.{Enters, Entry, Is, Took};
ghost use Rattle.group_rules.specs.Life.{is_error, state as state_of, view};
ghost use Rattle.group_rules.specs.Member.{Member, push};
ghost use Rattle.group_rules.specs.Queue.{is_done};
ghost use Rattle.member_truth.specs.Truth.{IsTrueEntry};
ghost use Rattle.member_tables.specs.Standing.{TablesFor};

use crate::tables::MemberTables;
use gr_ids::{Inc, MemberState, Mode};

impl MemberTables {
    /// An entry is taken, at a place that isn't done: the mode and the primary are those of the view after it. Takes no memory.
    pub fn taken(&mut self, mode: Mode, primary: Option<Inc>)
        ensures { (a : Member) (e : Entry) → IsTrueEntry a.setup a.me.inc a.life e → is_done a.life e.place ≡ false
            → mode ≡ (view a.setup (Took e ∷ a.life)).mode → primary ≡ (view a.setup (Took e ∷ a.life)).primary
            → TablesFor a self.old → TablesFor (push (Took e) a) self.new }
    {
        self.tables.mode = mode;
        self.tables.primary = primary;
    }

    /// A joiner is welcomed: the mode and the primary are those of the view that it is told. Takes no memory.
    pub fn entered(&mut self, mode: Mode, primary: Option<Inc>)
        ensures { (a : Member) (w : Welcome) → mode ≡ w.mode → primary ≡ w.primary → TablesFor a self.old
            → TablesFor (push (Enters w) a) self.new }
    {
        self.tables.mode = mode;
        self.tables.primary = primary;
    }

    /// The member, which isn't in ERROR, takes this state, which isn't ERROR either. Takes no memory.
    pub fn stated(&mut self, state: MemberState)
        ensures { (a : Member) (c : AnyCause) → is_error (state_of a.life) ≡ false → is_error state ≡ false → TablesFor a self.old
            → TablesFor (push (Is state c) a) self.new }
    {
        self.tables.state = state;
    }
}
