// What a member sends itself.
ghost use Rattle.std.specs.Prelude.{◌≡◌, ◌≤◌, ℕ, Some, false, length, true};
ghost use Rattle.std.specs.List.{list_all};
ghost use Rattle.gtid_sets.specs.Canonical.{IsCanonical};
ghost use Rattle.gtid_sets.specs.Sets.{Gtids};
ghost use Rattle.slot_values.specs.Log.{Turns, incs};
ghost use Rattle.slot_values.specs.Spelling.{IsValue, last_u32};
ghost use Rattle.paxos_forms.specs.Gives.{IsGive};
ghost use Rattle.paxos_forms.specs.Messages.{IsWire};
ghost use Rattle.paxos_forms.specs.Welcomes.{IsWelcome};
ghost use Rattle.node_rules.specs.Welcoming.{welcome_of};
ghost use Rattle.group_rules.specs.Events.{Entry, Stored};
ghost use Rattle.group_rules.specs.Life.{entry_at, executed, is_error, is_recovering, state, taken, view};
ghost use Rattle.group_rules.specs.Member.{Member};
ghost use Rattle.group_rules.specs.Recovery.{ask_wire};
ghost use Rattle.group_rules.specs.Steps.{add_of};
ghost use Rattle.group_rules.specs.View.{is_seated, shown};
ghost use Rattle.group_rules.specs.World.{stored_by};
ghost use Rattle.member_truth.specs.Truth.{IsTrue};
ghost use Rattle.member_ranges.specs.Giving.{give_at_entry};
ghost use Rattle.member_ranges.specs.Lives.{AreGivable};
ghost use Rattle.member_ranges.specs.Ranges.{InRange};

/// What a member in range sends itself can be spelt: its Welcomes, for which each member of its log has a seat in the view, its asks, its Gives and its Add; and its
/// server keeps what can be given. Lists that only memory bounds aren't too long to be counted.
pub fn what_members_send_is_spelt()
    ensures seats { (a : Member) (w : Turns) → InRange a → is_error (state a.life) ≡ false → a.node.turns ≡ Some w
        → list_all (is_seated (view a.setup a.life)) (incs w.reading.members) ≡ true }
    ensures welcome { (a : Member) (w : Turns) → InRange a → is_error (state a.life) ≡ false → a.node.turns ≡ Some w → 1 ≤ taken a.life
        → length w.reading.ever ≤ last_u32 → IsWelcome (welcome_of a.node w (shown (view a.setup a.life))) }
    ensures ask { (a : Member) → InRange a → is_recovering (state a.life) ≡ true → IsCanonical (executed a.life) → IsWire (ask_wire a) }
    ensures give { (a : Member) (p : ℕ) (e : Entry) (set : Gtids) → InRange a → IsTrue a.setup a.me.inc a.life → entry_at a.life p ≡ Some e
        → length (give_at_entry a e set).items ≤ last_u32 → length (give_at_entry a e set).txns ≤ last_u32 → IsGive (give_at_entry a e set) }
    ensures add { (a : Member) → InRange a → IsValue (add_of a.me) }
    ensures stored { (x : Stored) (a : Member) → InRange a → IsTrue a.setup a.me.inc a.life → AreGivable (stored_by x (Some a)).committed }
{}
