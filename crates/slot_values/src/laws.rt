// Laws of joiners, values and votes, and their bytes.
ghost use Rattle.std.specs.Prelude.{Option};
ghost use Rattle.byte_forms.specs.Forms.{IsForm};
ghost use Rattle.gr_ids.specs.declared.names.Inc.{Inc};
ghost use Rattle.slot_values.specs.Joiners.{IsJoinerAfter, joiner_bytes, next_joiner_after};
ghost use Rattle.slot_values.specs.Spelling.{IsValue, IsVoteAfter, value_bytes, vote_bytes, next_value, next_vote_after};
ghost use Rattle.slot_values.specs.Values.{Vote};

/// The bytes of a joiner, a value or a vote are read as that one, whatever follows; what is read is one whose bytes
/// were read.
#[tactic(auto, using(crate::proofs::ValueForms::joiner_after_form, crate::proofs::ValueForms::value_form, crate::proofs::ValueForms::vote_after_form))]
pub fn bytes_of_values()
    ensures joiners { (before : Option Inc) → IsForm (IsJoinerAfter before) joiner_bytes (next_joiner_after before) }
    ensures values { IsForm IsValue value_bytes next_value }
    ensures votes { (before : Option Vote) → IsForm (IsVoteAfter before) vote_bytes (next_vote_after before) }
{}
