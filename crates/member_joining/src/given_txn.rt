// A certified transaction that a donor gave.
ghost use Rattle.std.specs.Prelude.{◌≡◌, Some};
ghost use Rattle.txn_forms.specs.declared.body.Body.TheVariants.{Txn as Writes};
ghost use Rattle.txn_forms.specs.Bodies.{read_body};

use paxos_forms::Given;
use txn_forms::Txn;

/// A certified transaction that a donor gave, with its bytes, and as it is read from them.
#[derive(Debug, Drop)]
pub struct GivenTxn {
    pub given: Given,
    pub txn: Txn,
    ghost spelled: { read_body given.body ≡ Some (Writes txn) },
}
