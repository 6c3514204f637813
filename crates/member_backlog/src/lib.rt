//! The certified transactions that a member has taken or was given, and hasn't committed.
#![tactic(auto)]

ghost use Rattle.std.specs.Prelude.{◌≡◌, ◌∷◌, ℕ, [], List, false, map};
ghost use Rattle.gr_ids.specs.declared.names.Gtid.{Gtid as AnyGtid};
ghost use Rattle.gtid_sets.specs.Canonical.{IsNumber, IsUuid};
ghost use Rattle.paxos_forms.specs.declared.recovery.Give.{Give as AnyGive};
ghost use Rattle.group_rules.specs.Events.{Cert, Committed, Did, Entry, Founds, Life, Restores, Took};
ghost use Rattle.group_rules.specs.Holds.{standing};
ghost use Rattle.group_rules.specs.Life.{cert_of, certs, executed};
ghost use Rattle.group_rules.specs.Queue.{all_below};
ghost use Rattle.member_backlog.specs.Standing.{Waits, is_of_backlog, uncommitted_of};
ghost use Rattle.member_backlog.specs.Waiting.{Uncommitted as AnyUncommitted, is_clear, pending_of, with_certified, without, without_committed};

mod backlog;
mod uncommitted;

pub use backlog::Backlog;
pub use uncommitted::Uncommitted;

/// A backlog stands for a history: with an entry that is certified, and one that isn't; with a commit; with a Give; what else happens
/// changes nothing.
/// It tells what is pending, and whether all that is certified below a place is committed, as the rules of the group do.
pub fn backlogs_are_those_of_the_rules()
    ensures founded { Waits (Founds ∷ []) [] }
    ensures certified { (l : Life) (e : Entry) (c : Cert) (us : List AnyUncommitted) → Waits l us → cert_of e ≡ c ∷ []
        → Waits (Took e ∷ l) (with_certified (executed l) us (uncommitted_of c)) }
    ensures taken { (l : Life) (e : Entry) (us : List AnyUncommitted) → Waits l us → cert_of e ≡ [] → Waits (Took e ∷ l) us }
    ensures committed { (l : Life) (g : AnyGtid) (us : List AnyUncommitted) → Waits l us → IsUuid g.source → IsNumber g.number
        → Waits (Committed g ∷ l) (without g us) }
    ensures restored { (l : Life) (g : AnyGive) (cs : List Cert) (us : List AnyUncommitted) → Waits l us
        → Waits (Restores g cs ∷ l) (without_committed (executed l) (map uncommitted_of cs)) }
    ensures passed { (l : Life) (d : Did) (us : List AnyUncommitted) → is_of_backlog d ≡ false → Waits l us → Waits (d ∷ l) us }
    ensures pending { (l : Life) (us : List AnyUncommitted) → Waits l us → pending_of us ≡ standing l }
    ensures clear { (l : Life) (us : List AnyUncommitted) (p : ℕ) → Waits l us → is_clear p us ≡ all_below (executed l) (certs l) p }
{}
