// Runs of consecutive numbers.
use crate::fits::bytes_fit;
use gr_ids::Gtid;

/// The numbers `first` to `last` of one source.
#[derive(Clone, Copy, Debug, PartialEq, Eq)]
pub struct Run {
    pub source: [u8; 16],
    pub first: u64,
    pub last: u64,
}

impl Run {
    ghost use Rattle.std.specs.Prelude.{◌≡◌};
    ghost use Rattle.gtid_sets.specs.Sets.{single, in_run, before_run, joined, covers};
    ghost use Rattle.gtid_sets.specs.Canonical.{IsUuid};
    ghost use Rattle.gtid_sets.specs.Places.{starts_by, precedes, ends_first};

    /// The run of one GTID.
    pub(crate) fn single(gtid: Gtid) -> Run
        ensures run { result ≡ single gtid }
        ensures uuid { IsUuid gtid.source }
    {
        let source = gtid.source;
        bytes_fit(&source);
        Run {
            source,
            first: gtid.number,
            last: gtid.number,
        }
    }

    /// Whether it has the GTID.
    pub(crate) fn has(&self, gtid: &Gtid) -> bool
        ensures { result ≡ in_run gtid.now self.now }
    {
        self.source == gtid.source && self.first <= gtid.number && gtid.number <= self.last
    }

    /// Whether it stands before the other one, with a gap between.
    pub(crate) fn is_before(&self, other: &Run) -> bool
        ensures { result ≡ before_run self.now other.now }
    {
        if self.source == other.source {
            return self.last < other.first && self.last + 1 < other.first;
        }
        self.source < other.source
    }

    /// One run out of two of one source that touch or overlap.
    pub(crate) fn joined(&self, other: &Run) -> Run
        ensures { result ≡ joined self.now other.now }
    {
        let source = self.source;
        Run {
            source,
            first: self.first.min(other.first),
            last: self.last.max(other.last),
        }
    }

    /// Whether the other one has all that it has.
    pub(crate) fn is_covered(&self, other: &Run) -> bool
        ensures { result ≡ covers self.now other.now }
    {
        other.source == self.source && other.first <= self.first && self.last <= other.last
    }

    /// Whether it begins no later than the other one.
    pub(crate) fn starts_by(&self, other: &Run) -> bool
        ensures { result ≡ starts_by self.now other.now }
    {
        if self.source == other.source {
            return self.first <= other.first;
        }
        self.source < other.source
    }

    /// Whether all of it stands before all of the other one.
    pub(crate) fn precedes(&self, other: &Run) -> bool
        ensures { result ≡ precedes self.now other.now }
    {
        if self.source == other.source {
            return self.last < other.first;
        }
        self.source < other.source
    }

    /// Whether it ends before the other one does.
    pub(crate) fn ends_first(&self, other: &Run) -> bool
        ensures { result ≡ ends_first self.now other.now }
    {
        if self.source == other.source {
            return self.last < other.last;
        }
        self.source < other.source
    }
}
