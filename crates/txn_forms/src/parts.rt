// The open parts of large transactions.
use crate::body::Part;
use crate::copies::copied;
use crate::joined::Joined;
use crate::joining::{end_parts, take_part};
use crate::places::parts_before;
use gr_ids::{Inc, Memory, OpenParts, Sequence};
use std::alloc::Global;
use std::marker::Model;

/// The parts of large transactions that are open: of each origin those that its last kept values left so. Contracts
/// see the list of them, ascending by origin.
#[derive(Debug, Drop)]
pub struct Parts {
    by_origin: Vec<OpenParts>,
}

impl Model for Parts {
    ghost use Rattle.std.specs.Prelude.{List, None};
    ghost use Rattle.gr_ids.specs.declared.names.OpenParts.{OpenParts};
    ghost use Rattle.byte_forms.specs.Lists.{IsChain};
    ghost use Rattle.name_forms.specs.OpenParts.{IsOpenAfter};

    ghost Value = { List OpenParts };

    ghost view = { λ p. p.by_origin.items };

    ghost invariant = { λ p. IsChain IsOpenAfter None p.by_origin.items };
}

impl Parts {
    ghost use Rattle.std.specs.Prelude.{◌≡◌, [], None, IfOk, OnErr, OnOk};
    ghost use Rattle.byte_forms.specs.Lists.{IsChain};
    ghost use Rattle.name_forms.specs.Incs.{IsInc};
    ghost use Rattle.name_forms.specs.OpenParts.{IsOpenAfter};
    ghost use Rattle.txn_forms.specs.Bodies.{IsPart};
    ghost use Rattle.txn_forms.specs.Parts.{after_part, becomes, parts_of, with_parts};

    /// No parts are open; takes no memory.
    pub fn new(alloc: Global) -> Parts
        ensures { result ≡ [] }
    {
        Parts {
            by_origin: Vec::new(alloc),
        }
    }

    /// Takes a kept part of the origin. Linear in its bytes, and logarithmic in the origins that have open parts; where
    /// the origin's parts begin or end, the entries behind them are moved. The bytes of a whole body are read once, to
    /// see whether they spell a transaction. Nothing changes where memory is refused.
    pub fn take(&mut self, alloc: Global, origin: Inc, part: Part) -> Result<Joined, Memory>
        requires origin { IsInc origin }
        requires part { IsPart part }
        ensures joined { IfOk result (λ joined. joined ≡ becomes (parts_of self.old origin) part) }
        ensures left { OnOk result (self.new ≡ with_parts self.old origin (after_part origin (parts_of self.old origin) part)) }
        ensures err { OnErr result (self.new ≡ self.old) }
    {
        take_part(alloc, &mut self.by_origin, origin, part)
    }

    /// A kept value of the origin that isn't a part ends its parts. Logarithmic in the origins that have open parts;
    /// the entries behind are moved. Takes no memory.
    pub fn left(&mut self, origin: Inc)
        ensures { self.new ≡ with_parts self.old origin None }
    {
        let at = parts_before(&self.by_origin, origin);
        end_parts(&mut self.by_origin, at, origin);
    }

    /// The open parts, ascending by origin.
    pub fn unfinished(&self) -> &[OpenParts]
        ensures parts { result.now ≡ self.now }
        ensures ascend { IsChain IsOpenAfter None self.now }
    {
        &self.by_origin
    }

    /// A copy of the open parts, as a donor gives them. Linear in their bytes.
    pub fn copy_open(&self, alloc: Global) -> Result<Sequence<OpenParts>, Memory>
        ensures parts { IfOk result (λ parts. parts ≡ self.now) }
        ensures ascend { IfOk result (λ parts. IsChain IsOpenAfter None parts) }
    {
        Ok(Sequence::from_vec(copied(alloc, &self.by_origin)?))
    }

    /// The open parts that a donor gave, taken up again; takes no memory.
    pub fn resume(parts: Sequence<OpenParts>) -> Parts
        requires { IsChain IsOpenAfter None parts }
        ensures { result ≡ parts }
    {
        Parts {
            by_origin: parts.into_vec(),
        }
    }
}
