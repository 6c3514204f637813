ghost use Rattle.std.specs.Prelude.{◌≡◌, IfOk};

use donor_recovery::{AskFault, Begin, RecoveryFault};
use gr_ids::{Blob, Gtid, Inc, LastNumber, MemberState, Memory, Pos, Sequence};
use gtid_sets::GtidSet;
use member_joining::{GivenTxn, Joining, is_possible, read_given};
use paxos_forms::{Give, Given};
use std::alloc::Global;
use std::process::Abort;
use std::test::Fail;

const DONOR: Inc = Inc {
    server: 1,
    start: 1,
};

const OTHER: Inc = Inc {
    server: 2,
    start: 1,
};

/// A transaction that deletes the row `a` of the table `t`.
const TXN: &[u8] = &[
    1, 0, 0, 0, 0, 0, 0, 0, 0, 1, 1, b't', 1, b'a', 0, 0, 0, 1, 0, 0, 0, 0, 3,
];

/// The same, without its last byte.
const SHORT: &[u8] = &[
    1, 0, 0, 0, 0, 0, 0, 0, 0, 1, 1, b't', 1, b'a', 0, 0, 0, 1, 0, 0, 0, 0,
];

const SYNC: &[u8] = &[3];

const NONE: &[u8] = &[];

/// A joiner without transactions, whose Add has the place 4.
fn welcomed(alloc: Global) -> Joining {
    let mut joining = Joining::new();
    joining.enter(GtidSet::new(alloc), Pos(4));
    joining
}

fn check_unwelcomed(rt: &impl Abort, alloc: Global, joining: &mut Joining) {
    assert!(rt; !joining.is_ask_due(MemberState::Recovering) && !joining.has_give());
    assert!(rt; joining.ask(alloc, DONOR).err() == Some(AskFault::NoAskDue));
    assert!(rt; joining.failed() == Err(RecoveryFault::NoAskPending));
}

fn check_welcomed(rt: &impl Abort, joining: &Joining) {
    assert!(rt; joining.is_ask_due(MemberState::Recovering));
    assert!(rt; !joining.is_ask_due(MemberState::Error));
}

/// Asks the donor; the place that is asked for.
fn ask(alloc: Global, joining: &mut Joining) -> Result<Pos, AskFault> {
    let ask = joining.ask(alloc, DONOR)?;
    Ok(ask.place)
}

fn check_asked(rt: &impl Abort, joining: &Joining, place: Pos) {
    assert!(rt; place == Pos(4) && joining.pending() == Some(DONOR));
    assert!(rt; !joining.is_ask_due(MemberState::Recovering));
}

/// What is said of the failure of this ask; the tenth is the last.
fn said_of(tries: u8) -> Result<(), RecoveryFault> {
    if tries < 10 {
        Ok(())
    } else {
        Err(RecoveryFault::NoDonor { tries: 10 })
    }
}

/// Ten asks, of which each fails.
fn check_asks(rt: &impl Abort, alloc: Global, joining: &mut Joining) -> Result<(), AskFault> {
    for tries in 1..11 {
        let place = ask(alloc, joining)?;
        check_asked(rt, joining, place);
        assert!(rt; joining.failed() == said_of(tries));
    }
    Ok(())
}

#[test]
fn an_ask_is_due_until_one_is_pending(rt: HostRuntime) -> Result<(), Fail> {
    let mut joining = Joining::new();
    check_unwelcomed(&rt, rt.alloc(), &mut joining);
    joining.enter(GtidSet::new(rt.alloc()), Pos(4));
    check_welcomed(&rt, &joining);
    check_asks(&rt, rt.alloc(), &mut joining)?;
    assert!(rt; !joining.is_ask_due(MemberState::Recovering));
    Ok(())
}

/// Whether a Give from this incarnation, for this place, is awaited in this state by a joiner that asked the donor.
#[derive(Clone, Copy)]
struct AwaitedCase {
    state: MemberState,
    from: Inc,
    place: u64,
    is_awaited: bool,
}

const fn awaited(state: MemberState, from: Inc, place: u64, is_awaited: bool) -> AwaitedCase {
    AwaitedCase {
        state,
        from,
        place,
        is_awaited,
    }
}

fn check_awaited(rt: &impl Abort, joining: &Joining, case: &AwaitedCase) {
    let is_awaited = joining.awaits(case.state, case.from, Pos(case.place));
    assert!(rt; is_awaited == case.is_awaited);
}

fn check_all_awaited(rt: &impl Abort, joining: &Joining) {
    let cases = [
        awaited(MemberState::Recovering, DONOR, 4, true),
        awaited(MemberState::Recovering, OTHER, 4, false),
        awaited(MemberState::Recovering, DONOR, 3, false),
        awaited(MemberState::Error, DONOR, 4, false),
    ];
    for case in cases.iter() {
        check_awaited(rt, joining, case);
    }
}

#[test]
fn a_give_is_awaited_from_the_donor_for_the_place(rt: HostRuntime) -> Result<(), Fail> {
    let mut joining = welcomed(rt.alloc());
    assert!(rt; !joining.awaits(MemberState::Recovering, DONOR, Pos(4)));
    ask(rt.alloc(), &mut joining)?;
    check_all_awaited(&rt, &joining);
    Ok(())
}

fn given(alloc: Global, place: u64, body: &[u8]) -> Result<Given, Memory> {
    Ok(Given {
        place: Pos(place),
        origin: DONOR,
        gtid: Gtid {
            source: [7; 16],
            number: place,
        },
        body: Blob::of(alloc, body)?,
    })
}

/// Two bodies that were given, and how many transactions are read.
#[derive(Clone, Copy)]
struct BodiesCase {
    first: &'static [u8],
    second: &'static [u8],
    read: Option<usize>,
}

const fn bodies(first: &'static [u8], second: &'static [u8], read: Option<usize>) -> BodiesCase {
    BodiesCase {
        first,
        second,
        read,
    }
}

/// How many transactions are read, where each body spells one.
fn count_read(alloc: Global, given: &[Given]) -> Result<Option<usize>, Memory> {
    let read = read_given(alloc, given)?;
    Ok(read.map(|txns| txns.len()))
}

fn both(alloc: Global, case: &BodiesCase) -> Result<Vec<Given>, Memory> {
    let mut both = Vec::new(alloc);
    both.push(given(alloc, 2, case.first)?)?;
    both.push(given(alloc, 3, case.second)?)?;
    Ok(both)
}

fn check_bodies(rt: &impl Abort, alloc: Global, case: &BodiesCase) -> Result<(), Memory> {
    let given = both(alloc, case)?;
    let read = count_read(alloc, &given)?;
    assert!(rt; read == case.read);
    Ok(())
}

#[test]
fn each_body_spells_a_transaction(rt: HostRuntime) -> Result<(), Fail> {
    let cases = [
        bodies(TXN, TXN, Some(2)),
        bodies(TXN, SYNC, None),
        bodies(SHORT, TXN, None),
        bodies(NONE, TXN, None),
    ];
    for case in cases.iter() {
        check_bodies(&rt, rt.alloc(), case)?;
    }
    Ok(())
}

fn last_number(alloc: Global, number: u64) -> Result<Sequence<LastNumber>, Memory> {
    let mut last = Vec::new(alloc);
    last.push(LastNumber { inc: DONOR, number })?;
    Ok(Sequence::from_vec(last))
}

fn one_given(alloc: Global) -> Result<Sequence<Given>, Memory> {
    let mut txns = Vec::new(alloc);
    txns.push(given(alloc, 2, TXN)?)?;
    Ok(Sequence::from_vec(txns))
}

/// A Give of one transaction, with this many blocks and this last number.
fn give(alloc: Global, blocks: u64, number: u64) -> Result<Give, Memory>
    ensures { IfOk result (λ g. g.place ≡ 4) }
{
    let last = last_number(alloc, number)?;
    let txns = one_given(alloc)?;
    Ok(Give {
        place: Pos(4),
        blocks,
        last,
        items: Sequence::new(alloc),
        told: Sequence::new(alloc),
        certified: GtidSet::new(alloc),
        txns,
        parts: Sequence::new(alloc),
    })
}

/// A size of blocks, a number of blocks and a last number; whether they can be.
#[derive(Clone, Copy)]
struct NumbersCase {
    block: u32,
    blocks: u64,
    number: u64,
    is_possible: bool,
}

const fn numbers(block: u32, blocks: u64, number: u64, is_possible: bool) -> NumbersCase {
    NumbersCase {
        block,
        blocks,
        number,
        is_possible,
    }
}

fn check_possible(rt: &impl Abort, case: &NumbersCase, give: &Give, txns: &[GivenTxn]) {
    assert!(rt; is_possible(case.block, give, txns) == case.is_possible);
    assert!(rt; !is_possible(case.block, give, &[]));
}

fn check_read(rt: &impl Abort, alloc: Global, case: &NumbersCase, give: &Give) -> Result<(), Fail> {
    let txns = read_given(alloc, give.txns.as_slice())?.ok_or("unread")?;
    check_possible(rt, case, give, &txns);
    Ok(())
}

fn check_numbers(rt: &impl Abort, alloc: Global, case: &NumbersCase) -> Result<(), Fail> {
    let give = give(alloc, case.blocks, case.number)?;
    check_read(rt, alloc, case, &give)
}

#[test]
fn no_number_is_above_the_blocks(rt: HostRuntime) -> Result<(), Fail> {
    let cases = [
        numbers(10, 2, 20, true),
        numbers(10, 2, 21, false),
        numbers(1000000, u64::MAX, u64::MAX, true),
    ];
    for case in cases.iter() {
        check_numbers(&rt, rt.alloc(), case)?;
    }
    Ok(())
}

/// Takes up a Give that is awaited.
fn take(rt: &impl Abort, alloc: Global, joining: &mut Joining) -> Result<Begin, Fail> {
    let give = give(alloc, 1, 1)?;
    assert!(rt; joining.pending().is_some());
    assert!(rt; joining.awaits(MemberState::Recovering, DONOR, give.place));
    Ok(joining.take(alloc, give)?)
}

fn check_begin(rt: &impl Abort, begin: &Begin) {
    assert!(rt; begin.at.place == Pos(4));
    assert!(rt; begin.queue.as_slice().len() == 1);
}

fn check_taken(rt: &impl Abort, alloc: Global, joining: &mut Joining) -> Result<(), Fail> {
    let begin = take(rt, alloc, joining)?;
    check_begin(rt, &begin);
    Ok(())
}

fn check_given(rt: &impl Abort, joining: &Joining) {
    assert!(rt; joining.has_give() && !joining.is_ask_due(MemberState::Recovering));
}

fn ask_and_take(rt: &impl Abort, alloc: Global, joining: &mut Joining) -> Result<(), Fail> {
    ask(alloc, joining)?;
    check_taken(rt, alloc, joining)?;
    check_given(rt, joining);
    Ok(())
}

#[test]
fn a_give_that_is_awaited_is_taken(rt: HostRuntime) -> Result<(), Fail> {
    let mut joining = welcomed(rt.alloc());
    ask_and_take(&rt, rt.alloc(), &mut joining)
}
