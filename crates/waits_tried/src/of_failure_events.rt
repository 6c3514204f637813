use failure_events::Watch;
use gr_ids::{Inc, Limits};
use std::alloc::Global;
use std::process::Abort;
use std::test::Fail;

fn first_start(server: u8) -> Inc {
    Inc { server, start: 1 }
}

const LIMITS: Limits = Limits {
    group: [7; 16],
    horizon: 10,
    expel: 2,
    majority: 3,
    block: 1,
};

fn tick(watch: &mut Watch, times: u64) {
    for _ in 0..times {
        watch.tick();
    }
}

// Server 3 alone stays silent in the fifth tick.
fn suspect(rt: &impl Abort, watch: &mut Watch) {
    tick(watch, 4);
    assert!(rt; !watch.suspects(first_start(3)) && !watch.majority_lost());
    watch.heard(first_start(2));
    watch.tick();
    assert!(rt; watch.suspects(first_start(3)) && !watch.suspects(first_start(2)));
    assert!(rt; !watch.suspects(first_start(1)) && !watch.is_overdue(first_start(3)));
}

// Who is suspected doesn't lead.
fn lead(rt: &impl Abort, watch: &Watch) {
    let me = first_start(1);
    assert!(rt; !watch.leads(&[first_start(2), me]) && watch.leads(&[first_start(3), me]));
}

fn expel(rt: &impl Abort, watch: &mut Watch) {
    let members = [first_start(1), first_start(2), first_start(3)];
    assert!(rt; watch.leads(&members));
    tick(watch, 2);
    assert!(rt; watch.is_overdue(first_start(3)) && !watch.is_overdue(first_start(2)));
    lead(rt, watch);
}

fn lose_majority(rt: &impl Abort, watch: &mut Watch) {
    tick(watch, 3);
    assert!(rt; watch.majority_lost());
    assert_eq!(rt; watch.lost_for(), 2);
}

// Server 4 comes in place of server 3.
fn follow_another(rt: &impl Abort, alloc: Global, watch: &mut Watch) -> Result<(), Fail> {
    watch.follow(alloc, &[first_start(1), first_start(2), first_start(4)])?;
    assert!(rt; !watch.suspects(first_start(3)) && watch.suspects(first_start(2)));
    assert!(rt; !watch.majority_lost());
    watch.tick();
    assert_eq!(rt; watch.lost_for(), 0);
    Ok(())
}

#[test]
fn silence_is_counted_in_own_ticks(rt: HostRuntime) -> Result<(), Fail> {
    let alloc = rt.alloc();
    let members = [first_start(1), first_start(2), first_start(3)];
    let mut watch = Watch::new(alloc, first_start(1), &members, LIMITS)?;
    suspect(&rt, &mut watch);
    expel(&rt, &mut watch);
    lose_majority(&rt, &mut watch);
    follow_another(&rt, alloc, &mut watch)
}

fn count_new(rt: &impl Abort, watch: &mut Watch) -> Result<(), Fail> {
    watch.follow_one(first_start(2))?;
    tick(watch, 5);
    assert!(rt; watch.majority_lost());
    watch.unfollow(first_start(2));
    assert!(rt; !watch.majority_lost());
    Ok(())
}

#[test]
fn a_new_member_counts(rt: HostRuntime) -> Result<(), Fail> {
    let alloc = rt.alloc();
    let me = first_start(1);
    let mut watch = Watch::new(alloc, me, &[me], LIMITS)?;
    count_new(&rt, &mut watch)
}
