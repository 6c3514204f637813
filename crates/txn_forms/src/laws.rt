// Laws of bodies and their bytes, and of the open parts.
ghost use Rattle.std.specs.Prelude.{◌≡◌, ◌++◌, ℕ, List, Option, None, IfSome, if◌then◌else◌};
ghost use Rattle.byte_forms.specs.Forms.{IsRead, IsSpelled};
ghost use Rattle.byte_forms.specs.Lists.{IsChain};
ghost use Rattle.gr_ids.specs.declared.names.Inc.{Inc};
ghost use Rattle.gr_ids.specs.declared.names.OpenParts.{OpenParts};
ghost use Rattle.gr_ids.specs.Names.{inc_eq};
ghost use Rattle.name_forms.specs.OpenParts.{IsOpenAfter};
ghost use Rattle.txn_forms.specs.Bodies.{Body, IsBody, IsHeld, body_bytes, next_body};
ghost use Rattle.txn_forms.specs.Parts.{parts_of, with_parts};

/// A body's bytes are read as that body, whatever follows; what is read is a body whose bytes were read.
#[tactic(auto, using(crate::proofs::BodyForms::body_read, crate::proofs::BodyForms::body_spelled))]
pub fn bytes_of_bodies()
    ensures reads { IsRead (λ b. IsBody b × IsHeld b) body_bytes next_body }
    ensures spells { IsSpelled IsBody body_bytes next_body }
{}

/// The bytes of a body are no beginning of those of another one.
pub fn no_body_begins_another()
    ensures { (a b : Body) (c d : List ℕ) → IsBody a → IsHeld a → IsBody b → IsHeld b
        → body_bytes a ++ c ≡ body_bytes b ++ d → (a ≡ b) × (c ≡ d) }
{}

/// The open parts of an origin are those that were put there last; those of other origins stay.
pub fn parts_of_origins()
    ensures { (ps : List OpenParts) (o q : Inc) (w : Option OpenParts) → IsChain IsOpenAfter None ps → IfSome w (λ p. p.origin ≡ o)
        → parts_of (with_parts ps o w) q ≡ (if inc_eq o q then w else parts_of ps q) }
{}
