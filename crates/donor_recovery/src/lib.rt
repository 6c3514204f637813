//! Recovery: what a donor gives a joiner, and how a joiner asks for it.
#![tactic(auto)]

ghost use Rattle.std.specs.Prelude.{◌≡◌, ℕ, [], false, filter, IsSome, List, map, nat_le, None, Some, ◌∷◌, true};
ghost use Rattle.gr_ids.specs.declared.names.Inc.{Inc as Member};
ghost use Rattle.gtid_sets.specs.Sets.{Gtids};
ghost use Rattle.paxos_forms.specs.declared.recovery.Give.{Give as AnyGive};
ghost use Rattle.group_rules.specs.declared.marks.Reply.TheVariants.{Asked};
ghost use Rattle.group_rules.specs.Events.{AskFails, Cert, Did, Entry, Founds, Life, Replied, Restores, Setup, Took};
ghost use Rattle.group_rules.specs.Life.{certs, entry_at, is_recovering, state, upto};
ghost use Rattle.group_rules.specs.Member.{Member as AnyMember};
ghost use Rattle.group_rules.specs.Recovery.{give_of, given_of, is_ask_due};
ghost use Rattle.group_rules.specs.Rows.{known};
ghost use Rattle.donor_recovery.specs.declared.at_add.AtAdd.{AtAdd};
ghost use Rattle.donor_recovery.specs.Donating.{Donating, at_place, give_from, is_by, no_adds};
ghost use Rattle.donor_recovery.specs.Asking.{Asking, asks, fails, is_due, with_give};
ghost use Rattle.donor_recovery.specs.Laws.{Donates, Follows, add_of, after_entry, is_of_donor, with_certs};

mod at_add;
mod copying;
mod donor;
mod recovery;

pub use at_add::{AtAdd, Begin};
pub use donor::{Donor, GiveFault};
pub use recovery::{AskFault, Recovery, RecoveryFault, TakeFault};

/// What a donor gives of a history, with the data of the Add and the certified transactions at or before it, is what the rules of the
/// group give.
pub fn gives_are_those_of_the_rules()
    ensures { (s : Setup) (l : Life) (cs : List Cert) (v : ℕ) (e : Gtids)
        → give_of s l cs v e ≡ give_from (add_of s l v) (map given_of cs) e }
{}

/// An ask, its failure and a Give that is taken are those of the joiner's history, and an ask is due where the rules of the group say so.
pub fn asks_are_those_of_the_rules()
    ensures asked { (r : Asking) (l : Life) (d : Member) → Follows r l → Follows (asks d r) (Replied (Asked d) ∷ l) }
    ensures failed { (r : Asking) (l : Life) → Follows r l → Follows (fails r) (AskFails ∷ l) }
    ensures taken { (r : Asking) (l : Life) (g : AnyGive) (cs : List Cert) → Follows r l → Follows (with_give r) (Restores g cs ∷ l) }
    ensures due { (r : Asking) (a : AnyMember) → Follows r a.life → is_recovering (state a.life) ≡ true → is_ask_due a ≡ is_due r }
{}

/// A donor stands for a history: with each entry, at a place that wasn't taken before, and with the transactions of a Give, before which
/// none was certified; what else happens changes nothing. Of an Add that it took it gives what the rules give, and of no other place.
pub fn donors_are_those_of_the_rules()
    ensures founded { (s : Setup) → Donates s (Founds ∷ []) no_adds }
    ensures taken { (s : Setup) (l : Life) (e : Entry) (d : Donating) → Donates s l d → entry_at l e.place ≡ None
        → Donates s (Took e ∷ l) (after_entry e (add_of s (Took e ∷ l) e.place) d) }
    ensures restored { (s : Setup) (l : Life) (g : AnyGive) (cs : List Cert) (d : Donating) → Donates s l d → certs l ≡ []
        → Donates s (Restores g cs ∷ l) (record d { certified = with_certs d.certified cs }) }
    ensures passed { (s : Setup) (l : Life) (d : Donating) (x : Did) → is_of_donor x ≡ false → Donates s l d → Donates s (x ∷ l) d }
    ensures gives { (s : Setup) (l : Life) (v : ℕ) (e : Gtids) (d : Donating) (a : AtAdd) → Donates s l d → at_place d.adds v ≡ Some a
        → give_from a (filter (is_by v) d.certified) e ≡ give_of s (upto l v) (filter (λ c. nat_le c.place v) (known l)) v e }
{}
