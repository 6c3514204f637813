// A text, read from the front.
use crate::faults::TextFault;
use crate::fits::bytes_fit;
use crate::numerals::{blanks_len, digits_len, read_number};
use crate::run::Run;
use gr_ids::read_uuid;
use std::marker::Model;

// The length of a UUID's text.
const UUID_LENGTH: usize = 36;

/// What follows a run.
#[derive(Clone, Copy, Debug, PartialEq, Eq)]
pub(crate) enum Joint {
    End,
    /// A colon: another run of the same source.
    Interval,
    /// A comma: another source.
    Source,
}

/// A text, and how far it is read.
#[derive(Debug, Drop)]
pub(crate) struct Scanner<'a> {
    left: &'a [u8],
    total: usize,
}

impl<'a> Model for Scanner<'a> {
    ghost use Rattle.std.specs.Prelude.{◌≤◌, length};
    ghost use Rattle.byte_forms.specs.Cuts.{Cut};

    ghost Value = { Cut };

    ghost view = { λ s. record { left = s.left.now; total = s.total } };

    ghost invariant = { λ s. length s.left.now ≤ s.total };
}

impl<'a> Scanner<'a> {
    ghost use Rattle.std.specs.Prelude.{◌≡◌, ◌≤◌, ◌<◌, ◌↔◌, ℕ, [], IsTrue, drop, length, IfOk, IfErr, nat_le, not};
    ghost use Rattle.gtid_sets.specs.Grammar.{place, after_blanks, starts_with, next_number, next_last, next_interval, next_uuid, next_source, source_or_next, next_run, next_joint};
    ghost use Rattle.gtid_sets.specs.Canonical.{last_number, IsRun};
    ghost use Rattle.gtid_sets.specs.Spelling.{interval_of};
    ghost use Rattle.gtid_sets.specs.Pieces.{run_of};
    ghost use Rattle.gtid_sets.specs.Scans.{Finds, Refuses};

    /// The whole text is left.
    pub(crate) fn new(text: &'a [u8]) -> Scanner<'a>
        ensures left { result.left ≡ text.now }
        ensures total { result.total ≡ length text.now }
    {
        Scanner {
            left: text,
            total: text.len(),
        }
    }

    /// Whether nothing is left.
    pub(crate) fn is_at_end(&self) -> bool
        ensures { IsTrue result ↔ (self.now.left ≡ []) }
    {
        self.left.is_empty()
    }

    /// Passes over blanks.
    pub(crate) fn skip_blanks(&mut self)
        ensures left { self.new.left ≡ after_blanks self.old.left }
        ensures within { length self.new.left ≤ length self.old.left }
        ensures total { self.new.total ≡ self.old.total }
    {
        let n = blanks_len(self.left);
        self.left = &self.left[n..];
    }

    // Where the text that is left stands.
    fn place(&self) -> u64
        ensures { result ≡ place self.now.total self.now.left }
    {
        (self.total - self.left.len()) as u64
    }

    // Passes over the byte, if it stands there, and over the blanks behind it.
    fn takes(&mut self, byte: u8) -> bool
        ensures is { result ≡ starts_with byte self.old.left }
        ensures taken { IsTrue result → self.new.left ≡ after_blanks (drop 1 self.old.left) }
        ensures same { IsTrue (not result) → self.new ≡ self.old }
        ensures within { length self.new.left ≤ length self.old.left }
        ensures total { self.new.total ≡ self.old.total }
    {
        if self.left.is_empty() || self.left[0] != byte {
            return false;
        }
        self.left = &self.left[1..];
        self.skip_blanks();
        true
    }

    // The number at the front.
    #[tactic(auto, using(crate::proofs::Scanning::all_digits), unfolding(crate::specs::Grammar::next_number))]
    fn take_number(&mut self) -> Result<u64, TextFault>
        ensures found { IfOk result (λ n. Finds next_number self.old n self.new) }
        ensures shorter { IfOk result (λ _. length self.new.left < length self.old.left) }
        ensures range { IfOk result (λ n. (1 ≤ n) × (n ≤ last_number)) }
        ensures refused { IfErr result (λ e. Refuses next_number self.old e) }
    {
        let n = digits_len(self.left);
        match read_number(&self.left[..n]) {
            Some(number) => {
                self.left = &self.left[n..];
                Ok(number)
            }
            None => Err(TextFault::BadNumber { at: self.place() }),
        }
    }

    // The last number of an interval, behind its first one.
    #[tactic(auto, unfolding(crate::specs::Grammar::next_last))]
    fn take_last(&mut self, first: u64) -> Result<u64, TextFault>
        requires { first ≤ last_number }
        ensures found { IfOk result (λ last. Finds (λ whole text. next_last whole first text) self.old last self.new) }
        ensures range { IfOk result (λ last. last ≤ last_number) }
        ensures within { IfOk result (λ _. length self.new.left ≤ length self.old.left) }
        ensures refused { IfErr result (λ e. Refuses (λ whole text. next_last whole first text) self.old e) }
    {
        if self.takes(b'-') {
            return self.take_number();
        }
        Ok(first)
    }

    // The interval at the front, as a run of the source.
    #[tactic(auto, unfolding(crate::specs::Grammar::next_interval))]
    fn take_interval(&mut self, source: [u8; 16]) -> Result<Run, TextFault>
        ensures found { IfOk result (λ run. Finds next_interval self.old (interval_of run) self.new) }
        ensures source { IfOk result (λ run. run.source ≡ source) }
        ensures range { IfOk result (λ run. (1 ≤ run.first) × (run.first ≤ run.last) × (run.last ≤ last_number)) }
        ensures shorter { IfOk result (λ _. length self.new.left < length self.old.left) }
        ensures refused { IfErr result (λ e. Refuses next_interval self.old e) }
    {
        let at = self.place();
        let first = self.take_number()?;
        self.skip_blanks();
        let last = self.take_last(first)?;
        if last < first {
            return Err(TextFault::BadInterval { at });
        }
        Ok(Run {
            source,
            first,
            last,
        })
    }

    // The UUID at the front.
    #[tactic(auto, using(crate::proofs::Scanning::uuid_short), unfolding(crate::specs::Grammar::next_uuid))]
    fn take_uuid(&mut self) -> Result<[u8; 16], TextFault>
        ensures found { IfOk result (λ u. Finds next_uuid self.old u self.new) }
        ensures within { IfOk result (λ _. length self.new.left ≤ length self.old.left) }
        ensures refused { IfErr result (λ e. Refuses next_uuid self.old e) }
    {
        if self.left.len() < UUID_LENGTH {
            return Err(TextFault::BadUuid { at: self.place() });
        }
        match read_uuid(&self.left[..UUID_LENGTH]) {
            Ok(uuid) => {
                self.left = &self.left[UUID_LENGTH..];
                Ok(uuid)
            }
            Err(_) => Err(TextFault::BadUuid { at: self.place() }),
        }
    }

    // The UUID and the colon at the front.
    #[tactic(auto, unfolding(crate::specs::Grammar::next_source))]
    fn take_source(&mut self) -> Result<[u8; 16], TextFault>
        ensures found { IfOk result (λ u. Finds next_source self.old u self.new) }
        ensures within { IfOk result (λ _. length self.new.left ≤ length self.old.left) }
        ensures refused { IfErr result (λ e. Refuses next_source self.old e) }
    {
        let uuid = self.take_uuid()?;
        self.skip_blanks();
        if !self.takes(b':') {
            return Err(TextFault::BadInterval { at: self.place() });
        }
        Ok(uuid)
    }

    // The source of the next run: the one before, or one that is named.
    #[tactic(auto, unfolding(crate::specs::Grammar::source_or_next))]
    fn take_source_or(&mut self, before: Option<[u8; 16]>) -> Result<[u8; 16], TextFault>
        ensures found { IfOk result (λ u. Finds (λ whole text. source_or_next whole before text) self.old u self.new) }
        ensures within { IfOk result (λ _. length self.new.left ≤ length self.old.left) }
        ensures refused { IfErr result (λ e. Refuses (λ whole text. source_or_next whole before text) self.old e) }
    {
        match before {
            Some(source) => Ok(source),
            None => self.take_source(),
        }
    }

    /// Takes the run at the front. Linear in its text.
    #[tactic(auto, unfolding(crate::specs::Grammar::next_run))]
    pub(crate) fn take_run(&mut self, before: Option<[u8; 16]>) -> Result<Run, TextFault>
        ensures found { IfOk result (λ run. Finds (λ whole text. next_run whole before text) self.old run self.new) }
        ensures shorter { IfOk result (λ _. length self.new.left < length self.old.left) }
        ensures run { IfOk result IsRun }
        ensures refused { IfErr result (λ e. Refuses (λ whole text. next_run whole before text) self.old e) }
    {
        let source = self.take_source_or(before)?;
        bytes_fit(&source);
        self.take_interval(source)
    }

    /// Takes what follows a run.
    #[tactic(auto, unfolding(crate::specs::Grammar::next_joint))]
    pub(crate) fn take_joint(&mut self) -> Result<Joint, TextFault>
        ensures found { IfOk result (λ joint. Finds next_joint self.old joint self.new) }
        ensures within { IfOk result (λ _. length self.new.left ≤ length self.old.left) }
        ensures refused { IfErr result (λ e. Refuses next_joint self.old e) }
    {
        if self.left.is_empty() {
            return Ok(Joint::End);
        }
        if self.takes(b':') {
            return Ok(Joint::Interval);
        }
        if self.takes(b',') {
            return Ok(Joint::Source);
        }
        Err(TextFault::Trailing { at: self.place() })
    }
}
