// Laws of the operations: what each set has, and that a set is one list of runs.
ghost use Rattle.std.specs.Prelude.{◌≡◌, ◌↔◌, ◌&&◌, ◌||◌, not, IsTrue, Ok};
ghost use Rattle.gr_ids.specs.declared.names.Gtid.{Gtid};
ghost use Rattle.gr_ids.specs.Names.{gtid_eq};
ghost use Rattle.gtid_sets.specs.Sets.{Gtids, has, with_gtid, union, meet, minus, subset};
ghost use Rattle.gtid_sets.specs.Canonical.{IsCanonical, IsUuid, IsNumber};
ghost use Rattle.gtid_sets.specs.Spelling.{set_bytes, next_set, HasCounts};
ghost use Rattle.gtid_sets.specs.Text.{set_text};
ghost use Rattle.gtid_sets.specs.Grammar.{set_of};
ghost use Rattle.byte_forms.specs.Forms.{IsForm};

/// A set to which a GTID was added has that one and those that it had.
pub fn members_of_added()
    ensures members { (s : Gtids) (g m : Gtid) → IsCanonical s → IsUuid g.source → IsNumber g.number
        → has (with_gtid s g) m ≡ (gtid_eq g m || has s m) }
    ensures canonical { (s : Gtids) (g : Gtid) → IsCanonical s → IsUuid g.source → IsNumber g.number
        → IsCanonical (with_gtid s g) }
{}

/// A union has what either has.
pub fn members_of_union()
    ensures members { (a b : Gtids) (g : Gtid) → IsCanonical a → IsCanonical b → has (union a b) g ≡ (has a g || has b g) }
    ensures canonical { (a b : Gtids) → IsCanonical a → IsCanonical b → IsCanonical (union a b) }
{}

/// An intersection has what both have.
pub fn members_of_meet()
    ensures members { (a b : Gtids) (g : Gtid) → IsCanonical a → IsCanonical b → has (meet a b) g ≡ (has a g && has b g) }
    ensures canonical { (a b : Gtids) → IsCanonical a → IsCanonical b → IsCanonical (meet a b) }
{}

/// A difference has what the first has and the second hasn't.
pub fn members_of_minus()
    ensures members { (a b : Gtids) (g : Gtid) → IsCanonical a → IsCanonical b → has (minus a b) g ≡ (has a g && not (has b g)) }
    ensures canonical { (a b : Gtids) → IsCanonical a → IsCanonical b → IsCanonical (minus a b) }
{}

/// A set is a subset of another one where each GTID of it is one of the other.
pub fn members_of_subset()
    ensures { (a b : Gtids) → IsCanonical a → IsCanonical b
        → IsTrue (subset a b) ↔ ((g : Gtid) → IsTrue (has a g) → IsTrue (has b g)) }
{}

/// Two canonical lists of runs with the same GTIDs are one list.
pub fn one_list_of_runs()
    ensures { (s t : Gtids) → IsCanonical s → IsCanonical t → ((g : Gtid) → has s g ≡ has t g) → s ≡ t }
{}

/// A set's bytes are read as that set, whatever follows; what is read is a set whose bytes were read.
#[tactic(auto, using(crate::proofs::SourceLemmas::set_form))]
pub fn bytes_of_sets()
    ensures { IsForm (λ s. IsCanonical s × HasCounts s) set_bytes next_set }
{}

/// A set's text is read as that set, so each set has a text of its own.
pub fn texts_read_back()
    ensures read { (s : Gtids) → IsCanonical s → set_of (set_text s) ≡ Ok s }
    ensures apart { (s t : Gtids) → IsCanonical s → IsCanonical t → set_text s ≡ set_text t → s ≡ t }
{}
