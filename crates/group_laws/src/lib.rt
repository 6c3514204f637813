//! The laws of the group: what holds of every run of a group whose members keep the rules of a member, over one ordered list.
//!
//! The definitions in `specs/` are a view of a member's exact history, as far as the laws rest on it: values with the effect that they
//! have at their places, and the marks of a member that the laws speak of. All lists stand newest first.
#![tactic(auto)]

ghost use Rattle.std.specs.Prelude.{◌≡◌, ◌↔◌, ◌<◌, List, Some};
ghost use Rattle.group_rules.specs.Events.{Setup};
ghost use Rattle.group_laws.specs.Names.{Item};
ghost use Rattle.group_laws.specs.Lists.{Mem, IsPast};
ghost use Rattle.group_laws.specs.Entries.{Placed, Value, Cert, certified};
ghost use Rattle.group_laws.specs.Verdict.{kept_outcome, kept_writer, scan_outcome, scan};
ghost use Rattle.group_laws.specs.Fresh.{Fresh, IsKept};
ghost use Rattle.group_laws.specs.World.{InEveryRun};
ghost use Rattle.group_laws.specs.Laws.{AllFresh, SameVerdicts, BeforeLaw, AfterLaw, FailoverLaw, RowLaw, JoinLaw};

/// On a fresh transaction the kept items give the verdict of the scan of the whole list.
pub fn kept_verdict_is_the_scan()
    ensures { (r : Setup) (m : List Placed) (v : Value) → Fresh r m v → kept_outcome r m v ≡ scan_outcome r m v }
{}

/// An item is kept with its last positive writer, until a stable set has that one's GTID.
pub fn kept_items_are_last_writers()
    ensures { (r : Setup) (m : List Placed) (i : Item) (c : Cert) → (kept_writer r m i ≡ Some c) ↔ IsKept r m i c }
{}

/// Numbers are drawn by blocks of each origin, of whatever size; no two transactions get one GTID.
pub fn numbers_are_distinct()
    ensures { (r : Setup) → 0 < r.limits.block → (k : List Value) (c d : Cert) → Mem c (certified r (scan r k)) → Mem d (certified r (scan r k)) → c.gtid ≡ d.gtid → c ≡ d }
{}

/// In every run each transaction is fresh.
pub fn every_run_is_fresh()
    ensures { InEveryRun (λ r k w. AllFresh r w) }
{}

/// Each member gives each transaction the verdict and the GTID of the scan of the whole list.
pub fn verdicts_are_the_scan()
    ensures { InEveryRun (λ r k w. SameVerdicts r k w) }
{}

/// What a joiner is given is what each member had taken up to the joiner's Add, with its verdicts: so the joiner certifies as the others do.
pub fn joiners_certify_alike()
    ensures { InEveryRun (λ r k w. JoinLaw w) }
{}

/// A BEFORE transaction reads all that is certified before the place of its Sync, and that place is above all that any member had taken at
/// the begin call.
pub fn before_reads_all()
    ensures { InEveryRun (λ r k w. BeforeLaw r k w) }
{}

/// When the commit of an AFTER transaction is answered, every member that it requires has prepared it or is gone; a later begin at a member of
/// that view reads it.
pub fn after_is_prepared()
    ensures { InEveryRun (λ r k w. AfterLaw r k w) }
{}

/// A begin at a primary, at any level but EVENTUAL, reads all that is certified before the place of its election.
pub fn a_new_primary_has_its_backlog()
    ensures { InEveryRun (λ r k w. FailoverLaw r k w) }
{}

/// The rows of each server are those of its certified transactions in order of place, and no change of theirs is refused.
pub fn rows_are_in_order()
    ensures { InEveryRun (λ r k w. RowLaw r k w) }
{}
