ghost use Rattle.std.specs.Prelude.{◌≡◌};

use donor_recovery::{
    AskFault, AtAdd, Begin, Donor, GiveFault, Recovery, RecoveryFault, TakeFault,
};
use gr_ids::{Blob, Gtid, Inc, Memory, Pos, Sequence};
use gtid_sets::GtidSet;
use key_items::{Item, KeptItem};
use paxos_forms::{Ask, Give, Given};
use std::alloc::Global;
use std::process::Abort;
use std::test::Fail;

const SOURCE: [u8; 16] = [0xaa; 16];

const NONE: &[u8] = b"";

const FIRST: &[u8] = b"aaaaaaaa-aaaa-aaaa-aaaa-aaaaaaaaaaaa:1";

const FIRST_TWO: &[u8] = b"aaaaaaaa-aaaa-aaaa-aaaa-aaaaaaaaaaaa:1-2";

const SECOND: &[u8] = b"aaaaaaaa-aaaa-aaaa-aaaa-aaaaaaaaaaaa:2";

fn first_start(server: u8) -> Inc {
    Inc { server, start: 1 }
}

fn set(alloc: Global, text: &[u8]) -> Result<GtidSet, Fail> {
    Ok(GtidSet::parse(alloc, text)?)
}

fn kept_item(alloc: Global, place: u64, number: u64) -> Result<KeptItem, Memory> {
    Ok(KeptItem {
        item: Item {
            table: Blob::of(alloc, b"t")?,
            key: Blob::of(alloc, b"a")?,
        },
        gtid: Gtid {
            source: SOURCE,
            number,
        },
        place: Pos(place),
    })
}

/// What stands at the place of an Add after so many certified transactions, of which the last one is kept.
fn at_add(alloc: Global, place: u64, blocks: u64) -> Result<AtAdd, Memory> {
    let mut items = Vec::new(alloc);
    items.push(kept_item(alloc, place, blocks)?)?;
    Ok(AtAdd {
        place: Pos(place),
        blocks,
        last: Sequence::new(alloc),
        items: Sequence::from_vec(items),
        told: Sequence::new(alloc),
        parts: Sequence::new(alloc),
    })
}

fn given(alloc: Global, place: u64, number: u64) -> Given
    ensures { result.gtid.number ≡ number }
{
    Given {
        place: Pos(place),
        origin: first_start(1),
        gtid: Gtid {
            source: SOURCE,
            number,
        },
        body: Blob::from_vec(Vec::new(alloc)),
    }
}

/// The transactions 1 to 3 are certified at the places 1, 3 and 5, and Adds are taken at the places 2 and 4.
fn serve(alloc: Global, donor: &mut Donor) -> Result<(), Memory> {
    donor.certified(given(alloc, 1, 1))?;
    donor.mark(at_add(alloc, 2, 1)?)?;
    donor.certified(given(alloc, 3, 2))?;
    donor.mark(at_add(alloc, 4, 2)?)?;
    donor.certified(given(alloc, 5, 3))
}

fn donor(alloc: Global) -> Result<Donor, Memory> {
    let mut donor = Donor::new(alloc);
    serve(alloc, &mut donor)?;
    Ok(donor)
}

/// A joiner with this set asks for this place; what it is given.
#[derive(Clone, Copy)]
struct Case {
    place: u64,
    executed: &'static [u8],
    blocks: u64,
    certified: &'static [u8],
    lacking: usize,
}

fn ask_for(alloc: Global, place: u64, executed: &[u8]) -> Result<Ask, Fail> {
    Ok(Ask {
        place: Pos(place),
        executed: set(alloc, executed)?,
    })
}

fn is_certified(alloc: Global, give: &Give, certified: &[u8]) -> Result<bool, Fail> {
    let text = give.certified.write_text(alloc)?;
    Ok(text.as_slice() == certified)
}

fn check_give(rt: &impl Abort, alloc: Global, give: &Give, case: &Case) -> Result<(), Fail> {
    assert!(rt; give.place == Pos(case.place) && give.blocks == case.blocks);
    assert!(rt; is_certified(alloc, give, case.certified)?);
    assert_eq!(rt; give.txns.as_slice().len(), case.lacking);
    assert_eq!(rt; give.items.as_slice().len(), 1);
    Ok(())
}

fn give(rt: &impl Abort, alloc: Global, donor: &Donor, case: &Case) -> Result<(), Fail> {
    match donor.give(alloc, &ask_for(alloc, case.place, case.executed)?) {
        Ok(give) => check_give(rt, alloc, &give, case),
        Err(_) => Err(Fail::new("not given")),
    }
}

fn give_all(rt: &impl Abort, alloc: Global, donor: &Donor) -> Result<(), Fail> {
    let first = Case {
        place: 2,
        executed: NONE,
        blocks: 1,
        certified: FIRST,
        lacking: 1,
    };
    let of_second = Case {
        place: 4,
        executed: SECOND,
        blocks: 2,
        certified: FIRST_TWO,
        lacking: 1,
    };
    let has_first = Case {
        executed: FIRST,
        lacking: 0,
        ..first
    };
    for case in [first, has_first, of_second].iter() {
        give(rt, alloc, donor, case)?;
    }
    Ok(())
}

fn is_not_kept(alloc: Global, donor: &Donor, place: u64) -> Result<bool, Fail> {
    match donor.give(alloc, &ask_for(alloc, place, NONE)?) {
        Ok(_) => Ok(false),
        Err(fault) => Ok(fault == GiveFault::NotKept { place: Pos(place) }),
    }
}

fn check_gives(rt: &impl Abort, alloc: Global, donor: &Donor) -> Result<(), Fail> {
    give_all(rt, alloc, donor)?;
    assert!(rt; is_not_kept(alloc, donor, 3)?);
    Ok(())
}

#[test]
fn a_give_is_that_of_the_add(rt: HostRuntime) -> Result<(), Fail> {
    check_gives(&rt, rt.alloc(), &donor(rt.alloc())?)
}

// An ask of the joiner fails.
fn fail(
    rt: &impl Abort,
    alloc: Global,
    recovery: &mut Recovery,
    wanted: Result<(), RecoveryFault>,
) -> Result<(), Fail> {
    let ask = recovery.ask(alloc, first_start(1))?;
    assert!(rt; ask.place == Pos(2) && recovery.pending() == Some(first_start(1)));
    assert!(rt; recovery.failed() == wanted && recovery.pending().is_none());
    Ok(())
}

fn fail_all(rt: &impl Abort, alloc: Global, recovery: &mut Recovery) -> Result<(), Fail> {
    for _ in 0..9 {
        fail(rt, alloc, recovery, Ok(()))?;
    }
    fail(
        rt,
        alloc,
        recovery,
        Err(RecoveryFault::NoDonor { tries: 10 }),
    )
}

fn is_ask_due(alloc: Global, recovery: &mut Recovery) -> bool {
    match recovery.ask(alloc, first_start(2)) {
        Ok(_) => true,
        Err(fault) => fault != AskFault::NoAskDue,
    }
}

#[test]
fn the_tenth_failed_ask_is_the_last(rt: HostRuntime) -> Result<(), Fail> {
    let mut recovery = Recovery::new(set(rt.alloc(), NONE)?, Pos(2));
    assert!(rt; recovery.failed() == Err(RecoveryFault::NoAskPending));
    fail_all(&rt, rt.alloc(), &mut recovery)?;
    assert!(rt; !is_ask_due(rt.alloc(), &mut recovery));
    Ok(())
}

/// What the donor gives the joiner that asks it.
fn asked(alloc: Global, recovery: &mut Recovery) -> Result<Give, Fail> {
    let ask = recovery.ask(alloc, first_start(1))?;
    let donor = donor(alloc)?;
    Ok(donor.give(alloc, &ask)?)
}

fn check_begin(rt: &impl Abort, begin: &Begin) {
    assert!(rt; begin.at.place == Pos(4) && begin.at.blocks == 2);
    assert_eq!(rt; begin.queue.as_slice().len(), 1);
}

fn begin(rt: &impl Abort, alloc: Global, recovery: &mut Recovery) -> Result<(), Fail> {
    let give = asked(alloc, recovery)?;
    assert!(rt; recovery.pending().is_some() && give.place == recovery.place());
    match recovery.take(alloc, give) {
        Ok(begin) => check_begin(rt, &begin),
        Err(_) => return Err(Fail::new("not taken")),
    }
    assert!(rt; recovery.pending().is_none());
    Ok(())
}

#[test]
fn a_joiner_begins_with_what_it_is_given(rt: HostRuntime) -> Result<(), Fail> {
    let mut recovery = Recovery::new(set(rt.alloc(), FIRST)?, Pos(4));
    begin(&rt, rt.alloc(), &mut recovery)
}

fn is_extra(alloc: Global, fault: &TakeFault, extra: &[u8]) -> Result<bool, Fail> {
    match fault {
        TakeFault::ExtraTransactions(set) => Ok(set.write_text(alloc)?.as_slice() == extra),
        TakeFault::Memory => Ok(false),
    }
}

fn refuse(rt: &impl Abort, alloc: Global, recovery: &mut Recovery) -> Result<(), Fail> {
    let give = asked(alloc, recovery)?;
    assert!(rt; recovery.pending().is_some() && give.place == recovery.place());
    match recovery.take(alloc, give) {
        Ok(_) => return Err(Fail::new("taken")),
        Err(fault) => assert!(rt; is_extra(alloc, &fault, SECOND)?),
    }
    assert!(rt; recovery.pending() == Some(first_start(1)));
    Ok(())
}

#[test]
fn a_joiner_may_have_no_more_than_the_group(rt: HostRuntime) -> Result<(), Fail> {
    let mut recovery = Recovery::new(set(rt.alloc(), FIRST_TWO)?, Pos(2));
    refuse(&rt, rt.alloc(), &mut recovery)
}

// The second one is certified at a place below the first one's, as a joiner has it that had some already.
fn certify_back(alloc: Global, donor: &mut Donor) -> Result<(), Memory> {
    donor.certified(given(alloc, 5, 3))?;
    donor.certified(given(alloc, 3, 2))?;
    donor.mark(at_add(alloc, 6, 3)?)
}

fn first_place(alloc: Global, donor: &Donor) -> Result<Option<Pos>, Fail> {
    let give = donor.give(alloc, &ask_for(alloc, 6, NONE)?)?;
    match give.txns.as_slice().first() {
        Some(given) => Ok(Some(given.place)),
        None => Ok(None),
    }
}

#[test]
fn what_is_certified_stands_by_place(rt: HostRuntime) -> Result<(), Fail> {
    let mut donor = Donor::new(rt.alloc());
    certify_back(rt.alloc(), &mut donor)?;
    assert!(rt; first_place(rt.alloc(), &donor)? == Some(Pos(3)));
    Ok(())
}
