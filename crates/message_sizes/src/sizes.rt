// How many bytes a message is spelled in, counted without spelling it.
#![tactic(auto, using(crate::proofs::Lengths::lengths))]

ghost use Rattle.std.specs.Prelude.{◌≡◌, length, IfOk};
ghost use Rattle.paxos_forms.specs.Gives.{ask_bytes, give_bytes};
ghost use Rattle.paxos_forms.specs.GiveParts.{lacks_bytes, state_bytes};
ghost use Rattle.paxos_forms.specs.Messages.{message_bytes, wire_bytes};
ghost use Rattle.paxos_forms.specs.Welcomes.{primary_bytes, welcome_bytes};
ghost use Rattle.paxos_forms.specs.WelcomeParts.{lists_bytes, numbers_bytes};

use crate::forms::{
    Configs, Incs, KeptItems, LastNumbers, Members, PartsOpen, ToldSets, Txns, Votes, set_size,
    value_size,
};
use crate::sums::{list_size, sum};
use gr_ids::{Inc, Memory};
use paxos_forms::{Ask, Give, Message, Welcome, Wire};
use std::alloc::Global;

/// The number of bytes of the spelling of a message. Linear in its lists. Refused as want of memory from 2^64 on, and where a set's
/// counts need more than four bytes.
pub fn message_size(alloc: Global, message: &Message) -> Result<u64, Memory>
    ensures { IfOk result (λ n. n ≡ length (message_bytes message.now)) }
{
    sum(wire_size(alloc, &message.wire)?, 10)
}

fn wire_size(alloc: Global, wire: &Wire) -> Result<u64, Memory>
    ensures { IfOk result (λ n. n ≡ length (wire_bytes wire.now)) }
{
    match wire {
        Wire::Prepare(_, _) => Ok(18),
        Wire::Promise(_, _, votes) => sum(list_size(&Votes, votes.as_slice())?, 18),
        Wire::Accept(_, _, value) => sum(value_size(value)?, 18),
        Wire::Accepted(_, _) => Ok(18),
        Wire::Learn(_, value) => sum(value_size(value)?, 9),
        Wire::Offer(value) => sum(value_size(value)?, 1),
        Wire::Welcome(welcome) => sum(welcome_size(welcome)?, 1),
        Wire::Ask(ask) => sum(ask_size(alloc, ask)?, 1),
        Wire::Give(give) => sum(give_size(alloc, give)?, 1),
        Wire::Alive(_) => Ok(9),
        Wire::Gone => Ok(1),
    }
}

fn primary_size(primary: &Option<Inc>) -> u64
    ensures { result ≡ length (primary_bytes primary.now) }
{
    match primary {
        None => 1,
        Some(_) => 6,
    }
}

fn numbers_size(welcome: &Welcome) -> Result<u64, Memory>
    ensures { IfOk result (λ n. n ≡ length (numbers_bytes welcome.now)) }
{
    sum(primary_size(&welcome.primary), 42)
}

fn lists_size(welcome: &Welcome) -> Result<u64, Memory>
    ensures { IfOk result (λ n. n ≡ length (lists_bytes welcome.now)) }
{
    let members = list_size(&Members, welcome.members.as_slice())?;
    let ever = list_size(&Incs, welcome.ever.as_slice())?;
    let configs = list_size(&Configs, welcome.configs.as_slice())?;
    sum(members, sum(ever, configs)?)
}

fn welcome_size(welcome: &Welcome) -> Result<u64, Memory>
    ensures { IfOk result (λ n. n ≡ length (welcome_bytes welcome.now)) }
{
    let numbers = numbers_size(welcome)?;
    let lists = lists_size(welcome)?;
    sum(numbers, lists)
}

fn ask_size(alloc: Global, ask: &Ask) -> Result<u64, Memory>
    ensures { IfOk result (λ n. n ≡ length (ask_bytes ask.now)) }
{
    sum(set_size(alloc, &ask.executed)?, 8)
}

fn state_size(alloc: Global, give: &Give) -> Result<u64, Memory>
    ensures { IfOk result (λ n. n ≡ length (state_bytes give.now)) }
{
    let last = list_size(&LastNumbers, give.last.as_slice())?;
    let items = list_size(&KeptItems, give.items.as_slice())?;
    let told = list_size(&ToldSets { alloc }, give.told.as_slice())?;
    sum(16, sum(last, sum(items, told)?)?)
}

fn lacks_size(alloc: Global, give: &Give) -> Result<u64, Memory>
    ensures { IfOk result (λ n. n ≡ length (lacks_bytes give.now)) }
{
    let certified = set_size(alloc, &give.certified)?;
    let txns = list_size(&Txns, give.txns.as_slice())?;
    let parts = list_size(&PartsOpen, give.parts.as_slice())?;
    sum(certified, sum(txns, parts)?)
}

fn give_size(alloc: Global, give: &Give) -> Result<u64, Memory>
    ensures { IfOk result (λ n. n ≡ length (give_bytes give.now)) }
{
    let state = state_size(alloc, give)?;
    let lacks = lacks_size(alloc, give)?;
    sum(state, lacks)
}
