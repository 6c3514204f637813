//! What the ordered list has made at a member that takes it: the view, the told sets, the certifier and the open parts.
#![tactic(auto)]

ghost use Rattle.std.specs.Prelude.{◌≡◌, ◌∷◌, ℕ, suc, Bool, List, false};
ghost use Rattle.name_forms.specs.Incs.{IsInc};
ghost use Rattle.slot_values.specs.declared.value.Value.{Value as AnyValue};
ghost use Rattle.paxos_forms.specs.Gives.{IsGive};
ghost use Rattle.paxos_forms.specs.declared.recovery.Give.{Give as AnyGive};
ghost use Rattle.paxos_forms.specs.declared.welcome.Welcome.{Welcome as AnyWelcome};
ghost use Rattle.group_rules.specs.Events.{Cert, Did, Enters, Life, Restores, Setup, Took};
ghost use Rattle.group_rules.specs.Taking.{entry_of};
ghost use Rattle.list_state.specs.Following.{Follows, is_of_list};
ghost use Rattle.donor_recovery.specs.Asking.{at_add};
ghost use Rattle.donor_recovery.specs.Laws.{add_of};
ghost use Rattle.list_state.specs.Joining.{add_here, restored, welcomed};
ghost use Rattle.list_state.specs.Listing.{Listed, entry_next, with_entry};

mod entered;
mod held;
mod holding;
mod joining;
mod state;
mod taking;

pub use entered::Entered;
pub use held::Held;
pub use state::ListState;

/// What the list has made stands for a history, entry by entry: the next value becomes the entry that the rules of the group make of it
/// there, and what is then made stands for the history with that entry. So it does after a Welcome and a Give; what is kept of an Add is
/// what the rules give of it; and what else happens changes nothing.
pub fn lists_are_those_of_the_rules()
    ensures entry { (s : Setup) (l : Life) (x : Listed) (t : ℕ) (b : Bool) (v : AnyValue) → Follows s l x
        → entry_next x t b v ≡ entry_of s l t (suc x.taken) b v }
    ensures taken { (s : Setup) (l : Life) (x : Listed) (t : ℕ) (b : Bool) (v : AnyValue) → Follows s l x
        → IsInc v.id.origin → Follows s (Took (entry_of s l t (suc x.taken) b v) ∷ l) (with_entry (entry_next x t b v) x) }
    ensures welcomed { (s : Setup) (l : Life) (x : Listed) (w : AnyWelcome) → Follows s l x → Follows s (Enters w ∷ l) (welcomed w x) }
    ensures given { (s : Setup) (l : Life) (x : Listed) (g : AnyGive) (cs : List Cert) → Follows s l x → IsGive g
        → Follows s (Restores g cs ∷ l) (restored (at_add g) x) }
    ensures kept { (s : Setup) (l : Life) (x : Listed) → Follows s l x → add_here x ≡ add_of s l x.taken }
    ensures passed { (s : Setup) (l : Life) (x : Listed) (d : Did) → is_of_list d ≡ false → Follows s l x → Follows s (d ∷ l) x }
{}
