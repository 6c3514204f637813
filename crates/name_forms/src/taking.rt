// Names cut from bytes. Each call takes constant time. A refusal changes nothing.
ghost use Rattle.std.specs.Prelude.{◌≡◌, ◌≤◌, IfErr, IfOk, IfSome, OnErr};
ghost use Rattle.byte_forms.specs.Cuts.{FaultsAt, Takes};
ghost use Rattle.name_forms.specs.Incs.{least_server as least_server_of, least_start as least_start_of, next_inc, next_inc_after};
ghost use Rattle.name_forms.specs.Ballots.{next_ballot};
ghost use Rattle.name_forms.specs.Ids.{next_id};
ghost use Rattle.name_forms.specs.Gtids.{next_gtid};

use byte_forms::{Cutter, Misfit};
use gr_ids::{Ballot, Gtid, Inc, ValueId};

// The greatest number of a GTID: 2^63-2.
const LAST_GTID_NUMBER: u64 = 9_223_372_036_854_775_806;

// The greatest number of a server.
const LAST_SERVER: u8 = 32;

/// Takes an incarnation.
#[tactic(auto, unfolding(crate::specs::Incs::next_inc))]
pub fn take_inc(from: &mut Cutter) -> Result<Inc, Misfit>
    ensures ok { IfOk result (λ inc. Takes next_inc from.old inc from.new) }
    ensures misfit { IfErr result (λ e. FaultsAt next_inc from.old e.at) }
    ensures err { OnErr result (from.new ≡ from.old) }
{
    let mut ahead = from.fork();
    let server = ahead.take_u8_in(1, LAST_SERVER)?;
    let start = ahead.take_u32_in(1, u32::MAX)?;
    *from = ahead;
    Ok(Inc { server, start })
}

/// Takes an incarnation that is above the one before it in a list.
#[tactic(auto, unfolding(crate::specs::Incs::next_inc_after))]
pub fn take_inc_after(from: &mut Cutter, before: Option<Inc>) -> Result<Inc, Misfit>
    requires { IfSome before (λ b. b.server ≤ 32) }
    ensures ok { IfOk result (λ inc. Takes (next_inc_after before) from.old inc from.new) }
    ensures range { IfOk result (λ inc. inc.server ≤ 32) }
    ensures misfit { IfErr result (λ e. FaultsAt (next_inc_after before) from.old e.at) }
    ensures err { OnErr result (from.new ≡ from.old) }
{
    let mut ahead = from.fork();
    let server = ahead.take_u8_in(least_server(before), LAST_SERVER)?;
    let start = ahead.take_u32_in(least_start(before, server), u32::MAX)?;
    *from = ahead;
    Ok(Inc { server, start })
}

/// Takes a ballot.
#[tactic(auto, unfolding(crate::specs::Ballots::next_ballot))]
pub fn take_ballot(from: &mut Cutter) -> Result<Ballot, Misfit>
    ensures ok { IfOk result (λ ballot. Takes next_ballot from.old ballot from.new) }
    ensures misfit { IfErr result (λ e. FaultsAt next_ballot from.old e.at) }
    ensures err { OnErr result (from.new ≡ from.old) }
{
    let mut ahead = from.fork();
    let round = ahead.take_u32_in(1, u32::MAX)?;
    let inc = take_inc(&mut ahead)?;
    *from = ahead;
    Ok(Ballot { round, inc })
}

/// Takes the identity of a value.
#[tactic(auto, unfolding(crate::specs::Ids::next_id))]
pub fn take_id(from: &mut Cutter) -> Result<ValueId, Misfit>
    ensures ok { IfOk result (λ id. Takes next_id from.old id from.new) }
    ensures misfit { IfErr result (λ e. FaultsAt next_id from.old e.at) }
    ensures err { OnErr result (from.new ≡ from.old) }
{
    let mut ahead = from.fork();
    let origin = take_inc(&mut ahead)?;
    let number = ahead.take_u64_in(0, u64::MAX)?;
    *from = ahead;
    Ok(ValueId { origin, number })
}

/// Takes a GTID.
#[tactic(auto, unfolding(crate::specs::Gtids::next_gtid))]
pub fn take_gtid(from: &mut Cutter) -> Result<Gtid, Misfit>
    ensures ok { IfOk result (λ gtid. Takes next_gtid from.old gtid from.new) }
    ensures misfit { IfErr result (λ e. FaultsAt next_gtid from.old e.at) }
    ensures err { OnErr result (from.new ≡ from.old) }
{
    let mut ahead = from.fork();
    let mut source = [0u8; 16];
    source.copy_from_slice(ahead.take_slice(16)?);
    let number = ahead.take_u64_in(1, LAST_GTID_NUMBER)?;
    *from = ahead;
    Ok(Gtid { source, number })
}

// The least server that has an incarnation above this one.
fn least_server(before: Option<Inc>) -> u8
    requires { IfSome before (λ b. b.server ≤ 32) }
    ensures { result ≡ least_server_of before }
{
    match before {
        Some(b) if b.start == u32::MAX => b.server + 1,
        Some(b) => b.server.max(1),
        None => 1,
    }
}

// The least start of a server that is above this one.
fn least_start(before: Option<Inc>, server: u8) -> u32
    requires { least_server_of before ≤ server }
    ensures { result ≡ least_start_of before server }
{
    match before {
        Some(b) if b.server == server => b.start + 1,
        _ => 1,
    }
}
