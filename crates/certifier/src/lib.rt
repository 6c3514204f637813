//! Certification: the verdict on each transaction by the items that are kept with their last writers, and GTID numbers by blocks.
#![tactic(auto)]

ghost use Rattle.std.specs.Prelude.{◌≡◌, [], ◌∷◌, List, Some};
ghost use Rattle.paxos_forms.specs.declared.recovery.Give.{Give};
ghost use Rattle.txn_forms.specs.declared.body.Body.TheVariants.{Txn as Writes};
ghost use Rattle.txn_forms.specs.declared.body.Txn.{Txn as AnyTxn};
ghost use Rattle.group_rules.specs.Certifier.{certifier as certifier_of, with_entry};
ghost use Rattle.group_rules.specs.Events.{Cert, Entry, Life, Restores, Setup, Took};
ghost use Rattle.group_rules.specs.Told.{stable};
ghost use Rattle.certifier.specs.Certifying.{nothing_certified, restored_as, verdict_on, with_txn, without_stable};
ghost use Rattle.certifier.specs.Laws.{NumbersAscend, certifying};

mod blocking;
mod certifier;
mod copying;
mod forgetting;
mod kept;
mod noting;
mod numbers;
mod verdict;
mod writer;
mod writing;

pub use certifier::Certifier;
pub use verdict::Verdict;
pub use writer::Writer;

/// A certifier stands for a history: it begins as that of no history; a transaction that is certified, and then the stable set that is
/// forgotten, make it that of the history with this entry; so does forgetting alone, where an entry certifies nothing; and what a Give
/// tells, its last numbers ascending, is that of a history with this Give.
pub fn certifiers_are_those_of_the_rules()
    ensures begun { (s : Setup) → nothing_certified s.limits.group s.limits.block ≡ certifying s [] }
    ensures taken { (s : Setup) (l : Life) (e : Entry) (t : AnyTxn) → e.holds ≡ Some (Writes t) → e.effect ≡ verdict_on (certifying s l) e.value.id.origin t
        → without_stable (stable s (Took e ∷ l)) (with_txn e.place e.value.id.origin t (certifying s l)) ≡ certifying s (Took e ∷ l) }
    ensures passed { (s : Setup) (l : Life) (e : Entry) → with_entry s.limits e (certifier_of s l) ≡ certifier_of s l
        → without_stable (stable s (Took e ∷ l)) (certifying s l) ≡ certifying s (Took e ∷ l) }
    ensures restored { (s : Setup) (l : Life) (g : Give) (cs : List Cert) → NumbersAscend g.last
        → restored_as s.limits.group s.limits.block g.blocks g.last g.items ≡ certifying s (Restores g cs ∷ l) }
{}
