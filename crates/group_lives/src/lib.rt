//! How the histories of members are lives of which the laws of the group speak.
//!
//! A history has all that an incarnation did; its life has what the laws rest on. The definitions in `specs/` map one to the other, and what
//! happened in the world to a run of the laws.
#![tactic(auto)]

ghost use Rattle.std.specs.Prelude.{◌≡◌, ℕ, true, false, List, length, map};
ghost use Rattle.gr_ids.specs.declared.names.Inc.{Inc};
ghost use Rattle.gr_ids.specs.declared.names.Gtid.{Gtid};
ghost use Rattle.gtid_sets.specs.Sets.{Gtids, has};
ghost use Rattle.txn_forms.specs.declared.body.Txn.{Txn};
ghost use Rattle.group_rules.specs.Events.{Life, Cert, Setup};
ghost use Rattle.group_rules.specs.Life.{executed, taken, view, certs, has_give};
ghost use Rattle.group_rules.specs.View.{is_seated, is_online};
ghost use Rattle.group_rules.specs.Told.{told, told_of, stable};
ghost use Rattle.group_rules.specs.Certifier.{certifier, next_gtid, verdict};
ghost use Rattle.group_rules.specs.Recovery.{give_of};
ghost use Rattle.group_rules.specs.World.{Past, life_in};
ghost use Rattle.group_laws.specs.Entries as law;
ghost use Rattle.group_laws.specs.View as seen;
ghost use Rattle.group_laws.specs.View.{is_in};
ghost use Rattle.group_laws.specs.Primary as primary;
ghost use Rattle.group_laws.specs.Verdict as decided;
ghost use Rattle.group_laws.specs.Life as lives;
ghost use Rattle.group_laws.specs.World as run;
ghost use Rattle.group_laws.specs.World.{IsKeptList};
ghost use Rattle.group_lives.specs.Lives.{law_cert, outcome_of, life_of, run_of};
ghost use Rattle.group_lives.specs.Given.{IsHere, GivenAs};
ghost use Rattle.group_lives.specs.Sound.{HasSets, IsTaking, HasToldSets, AddsNew};

/// A life has executed what its history has.
pub fn executed_sets_agree()
    ensures { (base : List law.Placed) (l : Life) (g : Gtid) → HasSets l → lives.executed (life_of base l) g ≡ has (executed l) g }
{}

/// The life of a history that takes a list has its places and its view, and a founder's its certified transactions.
pub fn lists_agree()
    ensures places { (s : Setup) (base : List law.Placed) (l : Life) → IsTaking s base l → length (lives.marked (life_of base l)) ≡ taken l }
    ensures certified { (s : Setup) (base : List law.Placed) (l : Life) → IsTaking s base l → has_give l ≡ false
        → law.certified s (lives.marked (life_of base l)) ≡ map law_cert (certs l) }
    ensures view { (s : Setup) (base : List law.Placed) (l : Life) → IsTaking s base l → primary.view s (lives.taken (life_of base l)) ≡ view s l }
{}

/// The view after a list has a seat for each incarnation that is a member, ONLINE where it is active, if none is added twice.
pub fn seats_are_members()
    ensures seated { (s : Setup) (p : List law.Value) (m : Inc) → AddsNew s p → is_seated (primary.view s p) m ≡ is_in (seen.standing s p m) }
    ensures online { (s : Setup) (p : List law.Value) (m : Inc) → AddsNew s p → is_online (primary.view s p) m ≡ seen.active s p m }
{}

/// And the told sets of those ONLINE, its stable set, and the next numbers and verdicts of those who aren't removed.
pub fn certifiers_agree()
    ensures told { (s : Setup) (base : List law.Placed) (l : Life) (m : Inc) → IsTaking s base l → seen.active s (lives.taken (life_of base l)) m ≡ true
        → told_of (told l) m ≡ seen.told (lives.taken (life_of base l)) m }
    ensures stable { (s : Setup) (base : List law.Placed) (l : Life) (g : Gtid) → IsTaking s base l → HasToldSets l → AddsNew s (lives.taken (life_of base l))
        → has (stable s l) g ≡ seen.stable s (lives.taken (life_of base l)) g }
    ensures numbers { (s : Setup) (base : List law.Placed) (l : Life) (m : Inc) → IsTaking s base l → IsHere s (lives.taken (life_of base l)) m
        → (next_gtid s.limits (certifier s l) m).number ≡ decided.next_number s (law.certified s (lives.marked (life_of base l))) m }
    ensures verdicts { (s : Setup) (base : List law.Placed) (l : Life) (o : Inc) (t : Txn) → IsTaking s base l → HasToldSets l → AddsNew s (lives.taken (life_of base l)) → IsHere s (lives.taken (life_of base l)) o
        → outcome_of (verdict s.limits (certifier s l) o t) ≡ decided.kept_parts s (lives.marked (life_of base l)) o (law.Write t) }
{}

/// A Give of a history that takes a list tells of that list: a joiner that takes it up goes on from there.
pub fn a_give_tells_of_the_list()
    ensures { (s : Setup) (base : List law.Placed) (l : Life) (cs : List Cert) (v : ℕ) (e : Gtids)
        → IsTaking s base l → HasToldSets l → AddsNew s (lives.taken (life_of base l)) → IsKeptList s (lives.taken (life_of base l))
        → GivenAs s (lives.marked (life_of base l)) (give_of s l cs v e) (view s l) (taken l) }
{}

/// The life of an incarnation in the run of a world is that of its history.
pub fn lives_are_of_the_world()
    ensures { (base : Inc → List law.Placed) (p : Past) (i : Inc) → run.life (run_of base p) i ≡ life_of (base i) (life_in p i) }
{}
