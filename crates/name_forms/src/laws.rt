// Laws of names and their bytes.
ghost use Rattle.std.specs.Prelude.{Option};
ghost use Rattle.byte_forms.specs.Forms.{IsForm};
ghost use Rattle.gr_ids.specs.declared.names.Inc.{Inc};
ghost use Rattle.name_forms.specs.Incs.{IsInc, IsIncAfter, inc_bytes, next_inc, next_inc_after};
ghost use Rattle.name_forms.specs.Ballots.{IsBallot, ballot_bytes, next_ballot};
ghost use Rattle.name_forms.specs.Ids.{IsId, id_bytes, next_id};
ghost use Rattle.name_forms.specs.Gtids.{IsGtid, gtid_bytes, next_gtid};

/// A name's bytes are read as that name, whatever follows; what is read is a name whose bytes were read.
#[tactic(auto, using(crate::proofs::NameLaws::inc_form, crate::proofs::NameLaws::inc_after_form, crate::proofs::NameLaws::ballot_form, crate::proofs::NameLaws::id_form, crate::proofs::NameLaws::gtid_form))]
pub fn bytes_of_names()
    ensures incs { IsForm IsInc inc_bytes next_inc }
    ensures ascending { (before : Option Inc) → IsForm (IsIncAfter before) inc_bytes (next_inc_after before) }
    ensures ballots { IsForm IsBallot ballot_bytes next_ballot }
    ensures ids { IsForm IsId id_bytes next_id }
    ensures gtids { IsForm IsGtid gtid_bytes next_gtid }
{}
