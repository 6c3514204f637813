// What a donor gave, read.
ghost use Rattle.std.specs.Prelude.{◌≡◌, IfOk, IfSome, List, map, option_map};
ghost use Rattle.group_rules.specs.Events.{Cert, Setup};
ghost use Rattle.group_rules.specs.Recovery.{is_possible as is_possible_by};
ghost use Rattle.member_joining.specs.Reading.{are_of_blocks, cert_of_given, certs_read, txn_in};

use crate::given_txn::GivenTxn;
use gr_ids::Memory;
use paxos_forms::{Give, Given, TryCopy};
use std::alloc::Global;
use txn_forms::{Body, BodyFault, decode};

/// What was given, each transaction read once from its bytes, of which a copy stays with it. None exactly where a body spells no
/// transaction. Linear in the bytes.
pub fn read_given(alloc: Global, given: &[Given]) -> Result<Option<Vec<GivenTxn>>, Memory>
    ensures certs { IfOk result (λ read. option_map (λ txns. map cert_of_given txns.items) read ≡ certs_read given.now) }
    ensures given { IfOk result (λ read. IfSome read (λ txns. map (λ t. t.given) txns.items ≡ given.now)) }
{
    let mut read = Vec::with_capacity(alloc, given.len())?;
    for one in given {
        match read_one(alloc, one)? {
            Some(txn) => read.push(txn)?,
            None => return Ok(None),
        }
    }
    Ok(Some(read))
}

// One transaction that was given; None where its body spells none.
fn read_one(alloc: Global, given: &Given) -> Result<Option<GivenTxn>, Memory>
    ensures txn { IfOk result (λ read. option_map (λ t. t.txn) read ≡ txn_in given.now.body) }
    ensures given { IfOk result (λ read. IfSome read (λ t. t.given ≡ given.now)) }
{
    match decode(alloc, given.body.as_slice()) {
        Ok(Body::Txn(txn)) => Ok(Some(GivenTxn {
            given: given.try_copy(alloc)?,
            txn,
        })),
        Ok(_) => Ok(None),
        Err(BodyFault::Memory) => Err(Memory),
        Err(BodyFault::BadBody { at: _ }) => Ok(None),
    }
}

/// Whether a Give with these transactions, as they were read, can be: all of them were read, and no last number is above those of the
/// blocks taken, of `block` numbers each. Linear in the last numbers.
pub fn is_possible(block: u32, give: &Give, txns: &[GivenTxn]) -> bool
    ensures { (s : Setup) (cs : List Cert) → s.limits.block ≡ block → cs ≡ map cert_of_given txns.now → result ≡ is_possible_by s give.now cs }
{
    txns.len() == give.txns.as_slice().len() && are_of_blocks(block, give)
}

// Whether no last number is above those of the blocks taken.
fn are_of_blocks(block: u32, give: &Give) -> bool
    ensures { result ≡ are_of_blocks block give.now }
{
    let most = give.blocks as u128 * block as u128;
    give.last
        .as_slice()
        .iter()
        .all(|last| last.number as u128 <= most)
}
