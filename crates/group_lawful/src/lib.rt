//! What each thing in the history of a member asks, as the laws of the group have it.
//!
//! `specs/Lived` has a history by itself, each thing in it allowed by the history before it, `specs/Knows` what is known of one that takes a list. The proofs
//! go through the things that happen, and show that the life of such a history keeps the rules on which the laws of the group rest.
#![tactic(auto)]

ghost use Rattle.std.specs.Prelude.{◌≡◌, ℕ, Option, Some, List};
ghost use Rattle.gr_ids.specs.declared.names.Inc.{Inc};
ghost use Rattle.gr_ids.specs.declared.names.Gtid.{Gtid};
ghost use Rattle.gtid_sets.specs.Sets.{Gtids};
ghost use Rattle.group_rules.specs.Events.{Done, Life, Setup};
ghost use Rattle.group_bridge.specs.Left.{IsCommitted, IsBegun};
ghost use Rattle.group_laws.specs.Entries as law;
ghost use Rattle.group_laws.specs.Life as lives;
ghost use Rattle.group_laws.specs.Lawful.{Holds, LawfulCommit, LawfulFinish};
ghost use Rattle.group_lives.specs.Lives.{life_of};
ghost use Rattle.group_lives.specs.Sound.{HasSets};
ghost use Rattle.group_lawful.specs.Lived.{LivedDid, Lived};
ghost use Rattle.group_lawful.specs.Knows.{Distinct, AlwaysSound};

/// What is committed, begun and applied in a sound history keeps the rules of the laws: a commit is of a certified transaction that is in order and complete;
/// a begin has waited for what its level asks; what a worker has done is a place of another origin.
pub fn marks_are_lawful()
    ensures commits { (t : Setup) (i : Inc) (base : List law.Placed) (l : Life) (g : Gtid) → IsCommitted t i l g → Lived t i l → AlwaysSound t i base l → HasSets l
        → Distinct t base l → LawfulCommit t i (life_of base l) g }
    ensures begins { (t : Setup) (i : Inc) (base : List law.Placed) (l : Life) (s : ℕ) (read : Gtids) (place : Option ℕ) → IsBegun t i l s read place → Lived t i l
        → AlwaysSound t i base l → HasSets l → (c : lives.Call) × (lives.last_call (life_of base l) s ≡ Some c) × Holds t (life_of base l) i c }
    ensures finishes { (t : Setup) (i : Inc) (base : List law.Placed) (l : Life) (p : ℕ) → LivedDid t i (Done p) l → AlwaysSound t i base l
        → LawfulFinish t i (life_of base l) p }
{}
