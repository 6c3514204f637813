use gr_ids::{Gtid, Inc};
use prepare_acks::Acks;
use std::alloc::Global;
use std::process::Abort;
use std::test::Fail;

fn first_start(server: u8) -> Inc {
    Inc { server, start: 1 }
}

fn gtid(number: u64) -> Gtid {
    Gtid {
        source: [7; 16],
        number,
    }
}

// Transaction 1 is of server 1, and transaction 2 of server 2; each awaits the two others.
fn require_both(alloc: Global, acks: &mut Acks) -> Result<(), Fail> {
    let online = [first_start(1), first_start(2), first_start(3)];
    acks.require(alloc, gtid(1), first_start(1), &online)?;
    acks.require(alloc, gtid(2), first_start(2), &online)?;
    Ok(())
}

fn acknowledge(rt: &impl Abort, acks: &mut Acks) {
    assert!(rt; !acks.complete(gtid(1)));
    acks.prepared(gtid(1), first_start(2));
    acks.prepared(gtid(3), first_start(3));
    assert!(rt; !acks.complete(gtid(1)) && !acks.complete(gtid(2)));
}

// One that leaves is awaited no more.
fn leave(rt: &impl Abort, acks: &mut Acks) {
    acks.left(first_start(3));
    assert!(rt; acks.complete(gtid(1)) && !acks.complete(gtid(2)));
    acks.prepared(gtid(2), first_start(1));
    assert!(rt; acks.complete(gtid(2)));
}

#[test]
fn a_transaction_is_complete_once_nobody_is_awaited(rt: HostRuntime) -> Result<(), Fail> {
    let alloc = rt.alloc();
    let mut acks = Acks::new(alloc);
    assert!(rt; acks.complete(gtid(1)));
    require_both(alloc, &mut acks)?;
    acknowledge(&rt, &mut acks);
    leave(&rt, &mut acks);
    Ok(())
}
