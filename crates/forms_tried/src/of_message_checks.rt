use gr_ids::{Ballot, Inc, Memory, Sequence, ValueId};
use message_checks::is_message;
use paxos_forms::{Message, Wire};
use slot_values::{Value, Vote, What};
use std::alloc::Global;
use std::test::Fail;

fn inc(server: u8) -> Inc {
    Inc { server, start: 1 }
}

fn between(from: u8, to: u8, wire: Wire) -> Message {
    Message {
        from: inc(from),
        to: inc(to),
        wire,
    }
}

fn vote(slot: u64) -> Vote {
    Vote {
        slot,
        ballot: Ballot {
            round: 1,
            inc: inc(2),
        },
        value: Value {
            id: ValueId {
                origin: inc(1),
                number: 1,
            },
            what: What::Remove(inc(3)),
        },
    }
}

fn is_one(from: u8, to: u8, wire: Wire) -> bool {
    is_message(&between(from, to, wire))
}

#[test]
fn messages_are_within_their_ranges(rt: HostRuntime) -> Result<(), Fail> {
    assert!(rt; is_one(1, 32, Wire::Gone));
    assert!(rt; !is_one(1, 33, Wire::Gone));
    assert!(rt; is_one(1, 2, Wire::Alive((1 << 42) + 1)));
    assert!(rt; !is_one(1, 2, Wire::Alive(0)));
    Ok(())
}

// A Promise from slot 4 on, with votes in these slots.
fn promise(alloc: Global, one: u64, two: u64) -> Result<Wire, Memory> {
    let mut votes = Vec::new(alloc);
    votes.push(vote(one))?;
    votes.push(vote(two))?;
    Ok(Wire::Promise(vote(1).ballot, 4, Sequence::from_vec(votes)))
}

#[test]
fn votes_ascend(rt: HostRuntime) -> Result<(), Fail> {
    assert!(rt; is_one(2, 1, promise(rt.alloc(), 4, 5)?));
    assert!(rt; !is_one(2, 1, promise(rt.alloc(), 4, 4)?));
    Ok(())
}
