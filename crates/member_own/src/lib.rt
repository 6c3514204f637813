//! What a member keeps of its own values, of its ticks, and of its own Online entry.
#![tactic(auto)]

ghost use Rattle.std.specs.Prelude.{◌≡◌, ◌∷◌, [], Option, false};
ghost use Rattle.gr_ids.specs.declared.names.Inc.{Inc as Member};
ghost use Rattle.slot_values.specs.declared.value.Value.{Value};
ghost use Rattle.txn_forms.specs.declared.body.Body.{Body};
ghost use Rattle.group_rules.specs.Events.{Came, Did, Entry, Founds, Life, Made, Starts, Stored, Ticks, Took};
ghost use Rattle.group_rules.specs.Life.{is_arrival};
ghost use Rattle.member_own.specs.Keeping.{Keeps, Kept, is_of_own, is_own_arrival, nothing_kept, with_place, with_tick, with_value};

mod own;

pub use own::Own;

/// It stands for a history: from the beginning on, with each own value, each tick and each entry; what else happens changes nothing.
pub fn what_is_kept_follows_the_history()
    ensures founded { (me : Member) → Keeps me (Founds ∷ []) nothing_kept }
    ensures started { (me : Member) (x : Stored) → Keeps me (Starts x ∷ []) nothing_kept }
    ensures made { (me : Member) (l : Life) (k : Kept) (v : Value) (holds : Option Body) → Keeps me l k
        → Keeps me (Made v holds ∷ l) (with_value v.id.number (is_arrival holds) k) }
    ensures ticked { (me : Member) (l : Life) (k : Kept) → Keeps me l k → Keeps me (Came Ticks ∷ l) (with_tick k) }
    ensures taken { (me : Member) (l : Life) (k : Kept) (e : Entry) → Keeps me l k → Keeps me (Took e ∷ l) (with_place e.place (is_own_arrival me e) k) }
    ensures passed { (me : Member) (l : Life) (k : Kept) (d : Did) → is_of_own d ≡ false → Keeps me l k → Keeps me (d ∷ l) k }
{}
