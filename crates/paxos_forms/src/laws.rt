// Laws of messages and their bytes.
ghost use Rattle.std.specs.Prelude.{◌≡◌, ◌++◌, ℕ, List};
ghost use Rattle.byte_forms.specs.Forms.{IsRead, IsSpelled};
ghost use Rattle.paxos_forms.specs.Messages.{Message, IsMessage, IsHeld, message_bytes, next_message};

/// A message's bytes are read as that message, whatever follows; what is read is a message whose bytes were read.
#[tactic(auto, using(crate::proofs::MessageForms::message_read, crate::proofs::MessageForms::message_spelled))]
pub fn bytes_of_messages()
    ensures reads { IsRead (λ m. IsMessage m × IsHeld m.wire) message_bytes next_message }
    ensures spells { IsSpelled IsMessage message_bytes next_message }
{}

/// The bytes of a message are no beginning of those of another one.
pub fn no_message_begins_another()
    ensures { (a b : Message) (c d : List ℕ) → IsMessage a → IsHeld a.wire → IsMessage b → IsHeld b.wire
        → message_bytes a ++ c ≡ message_bytes b ++ d → (a ≡ b) × (c ≡ d) }
{}
