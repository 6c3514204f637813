// The messages that were ever sent.
ghost use Rattle.std.specs.Prelude.{◌≡◌, ◌<◌, ◌+◌, ◌^◌, ◌++◌, [], None, Some, false, true, suc, length, map, option_copied, option_map, IfErr, IfNone, IfOk, IfSome, OnErr, OnOk};
ghost use Rattle.gr_ids.specs.Names.{has_inc};
ghost use Rattle.gr_ids.specs.declared.names.Inc.{Inc as Incarnation};
ghost use Rattle.group_rules.specs.Script.{is_full, letter as letter_of, letter_at, next_letter, set_letter, total, wire_lines};
ghost use Rattle.group_rules.specs.World.{World, runs};
ghost use Rattle.world_wire.specs.Faults.{IsCause};

use crate::amount::Amount;
use crate::fault::WireFault;
use crate::lanes::Lanes;
use crate::letter::Letter;
use crate::letters::{all_lines, letters_of, total_of};
use gr_ids::{Inc, Memory, Sequence};
use group_rules::WireLine;
use message_sizes::sum;
use paxos_forms::Message;
use std::alloc::Global;
use std::marker::Model;

/// Every message ever sent, the delivered and the lost ones too: the k-th one is the k-th message sent, from 1. At most 2^20 messages,
/// and 2^30 bytes of their spellings.
#[derive(Debug, Drop)]
pub struct Wire {
    letters: Vec<Letter>,
    bytes: u64,
    // The letters that may still be delivered.
    lanes: Lanes,
    alloc: Global,
}

impl Model for Wire {
    ghost use Rattle.std.specs.Prelude.{◌≡◌, List};
    ghost use Rattle.group_rules.specs.Script.{Letter, total};
    ghost use Rattle.world_wire.specs.Lanes.{IsIndex};

    ghost Value = { List Letter };

    ghost view = { λ w. w.letters.items };

    ghost invariant = { λ w. (w.bytes ≡ total w.letters.items) × IsIndex w.lanes w.letters.items };
}

impl Wire {
    /// Nothing was sent; takes no memory.
    pub fn new(alloc: Global) -> Wire
        ensures { result ≡ [] }
    {
        Wire {
            letters: Vec::new(alloc),
            bytes: 0,
            lanes: Lanes::new(alloc),
            alloc,
        }
    }

    /// How many messages were sent.
    pub fn sent(&self) -> u64
        ensures { result ≡ length self.now }
    {
        self.letters.len() as u64
    }

    /// The bytes of the spellings of all messages sent.
    pub fn bytes(&self) -> u64
        ensures { result ≡ total self.now }
    {
        self.bytes
    }

    /// All these messages are sent, or none of them. Refused as `Full` exactly where the wire would pass its limits, with the numbers
    /// that it would have come to. Linear in the messages' lists, and for each in the pairs of a server and an incarnation.
    pub fn send(&mut self, messages: Sequence<Message>) -> Result<(), WireFault>
        ensures ok { OnOk result (self.new ≡ self.old ++ map letter_of messages) }
        ensures few { OnOk result (is_full self.new ≡ false) }
        ensures refused { IfErr result (IsCause (self.old ++ map letter_of messages)) }
        ensures err { OnErr result (self.new ≡ self.old) }
    {
        let fresh = letters_of(self.alloc, messages.into_vec())?;
        let amount = self.amount_with(&fresh)?;
        if amount.is_full() {
            return Err(WireFault::Full {
                messages: amount.messages,
                bytes: amount.bytes,
            });
        }
        self.append(fresh, amount.bytes)?;
        Ok(())
    }

    // How much it would be with these letters too.
    fn amount_with(&self, fresh: &[Letter]) -> Result<Amount, Memory>
        ensures messages { IfOk result (λ a. a.messages ≡ length (self.now ++ fresh.now)) }
        ensures bytes { IfOk result (λ a. a.bytes ≡ total (self.now ++ fresh.now)) }
    {
        let messages = sum(self.letters.len() as u64, fresh.len() as u64)?;
        let bytes = sum(self.bytes, total_of(fresh)?)?;
        Ok(Amount { messages, bytes })
    }

    fn append(&mut self, fresh: Vec<Letter>, bytes: u64) -> Result<(), Memory>
        requires few { length self.old + length fresh.items < 2 ^ 64 }
        requires sum { bytes ≡ total (self.old ++ fresh.items) }
        ensures ok { OnOk result (self.new ≡ self.old ++ fresh.items) }
        ensures err { OnErr result (self.new ≡ self.old) }
    {
        let mut fresh = fresh;
        let at = self.letters.len();
        self.lanes.put_all(self.alloc, &fresh, at)?;
        self.letters.append(&mut fresh)?;
        self.bytes = bytes;
        Ok(())
    }

    /// The k-th letter sent; None exactly where fewer were sent, and for 0. Takes constant time.
    pub fn letter(&self, k: u64) -> Option<&Letter>
        ensures { option_copied result ≡ letter_at self.now k }
    {
        let at = self.index_of(k)?;
        Some(&self.letters[at])
    }

    /// The k-th message sent.
    pub fn message(&self, k: u64) -> Option<&Message>
        ensures { option_copied result ≡ option_map (λ x. x.message) (letter_at self.now k) }
    {
        match self.letter(k) {
            Some(letter) => Some(letter.message()),
            None => None,
        }
    }

    /// The k-th message is delivered; nothing changes where fewer were sent. Linear in the pairs, and in those that it drops from the index.
    pub fn mark_delivered(&mut self, k: u64)
        ensures { self.new ≡ set_letter self.old k (λ x. record x { delivered = true }) }
    {
        let Some(at) = self.index_of(k) else {
            return;
        };
        self.letters[at].deliver();
        self.lanes.drop_closed(
            &self.letters,
            self.letters[at].to(),
            self.letters[at].from(),
        );
    }

    /// The k-th message is lost; nothing changes where fewer were sent. Linear in the pairs, and in those that it drops from the index.
    pub fn mark_lost(&mut self, k: u64)
        ensures { self.new ≡ set_letter self.old k (λ x. record x { lost = true }) }
    {
        let Some(at) = self.index_of(k) else {
            return;
        };
        self.letters[at].lose();
        self.lanes.drop_closed(
            &self.letters,
            self.letters[at].to(),
            self.letters[at].from(),
        );
    }

    /// The least number of a letter that was never delivered and isn't lost, between these servers (none stand for all), to one of the
    /// incarnations that run. It looks at one letter of each pair that has such letters; those to others are passed over as one.
    pub fn next(&self, among: &[u8], running: &[Inc]) -> Option<u64>
        ensures { (w : World) → ((i : Incarnation) → runs w i ≡ has_inc running.now i) → result ≡ next_letter w among.now 1 self.now }
    {
        match self.lanes.first_next(&self.letters, among, running) {
            Some(index) => Some(index as u64 + 1),
            None => None,
        }
    }

    /// What was neither delivered nor lost, in order. Linear in all that was sent.
    pub fn lines(&self, alloc: Global) -> Result<Sequence<WireLine>, Memory>
        ensures { IfOk result (λ lines. lines ≡ wire_lines 1 self.now) }
    {
        Ok(Sequence::from_vec(all_lines(alloc, &self.letters)?))
    }

    // The index of the k-th letter.
    fn index_of(&self, k: u64) -> Option<usize>
        ensures none { IfNone result (letter_at self.now k ≡ None) }
        ensures some { IfSome result (λ i. (k ≡ suc i) × (i < length self.now)) }
    {
        let at = k.checked_sub(1)? as usize;
        if at < self.letters.len() {
            Some(at)
        } else {
            None
        }
    }
}
