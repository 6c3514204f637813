use gr_ids::{
    Ballot, Blob, Gtid, Inc, MemberState, Memory, Mode, Pos, Sequence, SessionId, ValueId,
};
use group_rules::{
    Answer, Cause, Effect, Holder, ItemWriter, Look, Mark, QueuedPlace, Reply, Row, Said, Shown,
    ShownMember, WireLine,
};
use gtid_sets::GtidSet;
use key_items::Item;
use report_text::{MemberReport, WorldFault, WorldReport, answer_text, fault_text, report};
use slot_values::{Joiner, Value, What};
use std::alloc::Global;
use std::process::Abort;
use std::test::Fail;

const ONE: Inc = Inc {
    server: 1,
    start: 1,
};

const TWO: Inc = Inc {
    server: 2,
    start: 3,
};

const ID: ValueId = ValueId {
    origin: TWO,
    number: 9,
};

const GTID: Gtid = Gtid {
    source: [0xaa; 16],
    number: 4,
};

fn some_set(alloc: Global) -> Result<GtidSet, Fail> {
    Ok(GtidSet::parse(alloc, b"aaaaaaaa-aaaa-aaaa-aaaa-aaaaaaaaaaaa:1-3:5")?)
}

fn some_item(alloc: Global) -> Result<Item, Memory> {
    Ok(Item {
        table: Blob::of(alloc, b"t")?,
        key: Blob::of(alloc, b"k")?,
    })
}

// Asserts that what is said at line 7 has this text, LF aside.
fn check(rt: &impl Abort, alloc: Global, said: &Said, text: &str) -> Result<(), Memory> {
    let mut expected = Blob::of(alloc, text.as_bytes())?;
    expected.append(b"\n")?;
    let lines = answer_text(alloc, 7, said)?;
    assert_eq!(rt; lines.as_slice(), expected.as_slice(), "{text}");
    Ok(())
}

const ENTRIES: &str = "7 1.1 took 5 2.3#9 add 2.3
7 1.1 took 5 2.3#9 remove 2.3 void
7 1.1 took 5 2.3#9 txn positive aaaaaaaa-aaaa-aaaa-aaaa-aaaaaaaaaaaa:4
7 1.1 took 5 2.3#9 txn conflict aaaaaaaa-aaaa-aaaa-aaaa-aaaaaaaaaaaa:4
7 1.1 took 5 2.3#9 prepared 61616161-6161-6161-6161-616161616161:8
7 1.1 took 5 2.3#9 sync
7 1.1 took 5 2.3#9 executed -
7 1.1 took 5 2.3#9 online -
7 1.1 took 5 2.3#9 mode multi void
7 1.1 took 5 2.3#9 mode single
7 1.1 took 5 2.3#9 primary 2.3
7 1.1 took 5 2.3#9 part 2 of 2
7 1.1 took 5 2.3#9 unread";

const JOINER: Joiner = Joiner {
    inc: TWO,
    uuid: [0; 16],
    version: [8, 0, 36],
    weight: 50,
};

fn body(number: usize) -> &'static [u8] {
    match number {
        4 => b"\x02aaaaaaaaaaaaaaaa\x00\x00\x00\x00\x00\x00\x00\x08",
        6 => b"\x04\x00\x00\x00\x00",
        7 => b"\x05\x00\x00\x00\x00",
        8 => b"\x06\x00",
        9 => b"\x06\x01",
        10 => b"\x07\x02\x00\x00\x00\x03",
        11 => b"\x08\x00\x00\x00\x02\x00\x00\x00\x02\x00\x00\x00\x01x",
        12 => b"\x09",
        _ => b"\x03",
    }
}

fn what(alloc: Global, number: usize) -> Result<What, Memory> {
    match number {
        0 => Ok(What::Add(JOINER)),
        1 => Ok(What::Remove(TWO)),
        _ => Ok(What::Body(Blob::of(alloc, body(number))?)),
    }
}

fn effect(number: usize) -> Effect {
    match number {
        1 | 8 => Effect::Void,
        2 => Effect::Positive(GTID),
        3 => Effect::Conflict(GTID),
        12 => Effect::Unread,
        _ => Effect::Plain,
    }
}

#[test]
fn entries(rt: HostRuntime) -> Result<(), Fail> {
    let alloc = rt.alloc();
    for (number, text) in ENTRIES.lines().enumerate() {
        let what = what(alloc, number)?;
        let value = Value { id: ID, what };
        let said = Said::Marked(ONE, Mark::Took(Pos(5), value, effect(number)));
        check(&rt, alloc, &said, text)?;
    }
    Ok(())
}

const MARKS: &str = "7 1.1 skipped 6 2.3#9
7 1.1 done 2
7 1.1 committed aaaaaaaa-aaaa-aaaa-aaaa-aaaaaaaaaaaa:4
7 1.1 given 5 1
7 1.1 answer 1000000000 held
7 1.1 reply idle
7 offline aaaaaaaa-aaaa-aaaa-aaaa-aaaaaaaaaaaa:4
7 1.1 reply sent 2.3#9
7 1.1 reply ballot 2/2.3
7 1.1 reply asked 2.3
7 1.1 reply failed
7 1.1 reply finished
7 1.1 reply not online ERROR
7 1.1 reply no ask due
7 1.1 reply no ask pending
7 1.1 reply not queued 8
7 1.1 reply already done 8";

fn reply(number: usize) -> Reply {
    match number {
        7 => Reply::Sent(ID),
        8 => Reply::Ballot(Ballot { round: 2, inc: TWO }),
        9 => Reply::Asked(TWO),
        10 => Reply::Failed,
        11 => Reply::Finished,
        12 => Reply::NotOnline(MemberState::Error),
        13 => Reply::NoAskDue,
        14 => Reply::NoAskPending,
        15 => Reply::NotQueued(Pos(8)),
        _ => Reply::AlreadyDone(Pos(8)),
    }
}

fn mark(number: usize) -> Mark {
    match number {
        0 => Mark::Skipped(6, ID),
        1 => Mark::Done(Pos(2)),
        2 => Mark::Committed(GTID),
        3 => Mark::Given(Pos(5), 1),
        4 => Mark::Answered(SessionId(1_000_000_000), Answer::Held),
        _ => Mark::Replied(reply(number)),
    }
}

fn said(number: usize) -> Said {
    match number {
        5 => Said::Idle(ONE),
        6 => Said::Offline(GTID),
        _ => Said::Marked(ONE, mark(number)),
    }
}

#[test]
fn marks_and_replies(rt: HostRuntime) -> Result<(), Fail> {
    for (number, text) in MARKS.lines().enumerate() {
        check(&rt, rt.alloc(), &said(number), text)?;
    }
    Ok(())
}

const STATES: &str = "7 1.1 state ONLINE
7 1.1 state OFFLINE
7 1.1 state RECOVERING
7 1.1 state ONLINE
7 1.1 state ERROR removed
7 1.1 state ERROR gone
7 1.1 state ERROR majority
7 1.1 state ERROR nodonor 10
7 1.1 state ERROR extra aaaaaaaa-aaaa-aaaa-aaaa-aaaaaaaaaaaa:1-3:5";

fn cause(alloc: Global, number: usize) -> Result<Cause, Fail> {
    match number {
        0 => Ok(Cause::Founded),
        1 => Ok(Cause::Started),
        2 => Ok(Cause::Welcomed),
        3 => Ok(Cause::OwnOnline),
        4 => Ok(Cause::Removed),
        5 => Ok(Cause::Gone),
        6 => Ok(Cause::Majority),
        7 => Ok(Cause::NoDonor(10)),
        _ => Ok(Cause::Extra(some_set(alloc)?)),
    }
}

fn state(number: usize) -> MemberState {
    match number {
        0 | 3 => MemberState::Online,
        1 => MemberState::Offline,
        2 => MemberState::Recovering,
        _ => MemberState::Error,
    }
}

#[test]
fn states(rt: HostRuntime) -> Result<(), Fail> {
    let alloc = rt.alloc();
    for (number, text) in STATES.lines().enumerate() {
        let cause = cause(alloc, number)?;
        let said = Said::Marked(ONE, Mark::State(state(number), cause));
        check(&rt, alloc, &said, text)?;
    }
    Ok(())
}

const ANSWERS: &str = "7 1.1 answer o3 begun -
7 1.1 answer o3 begun aaaaaaaa-aaaa-aaaa-aaaa-aaaaaaaaaaaa:1-3:5 sync 6
7 1.1 answer o3 row v
7 1.1 answer o3 none
7 1.1 answer o3 held
7 1.1 answer o3 changed
7 1.1 answer o3 sent 2.3#9
7 1.1 answer o3 committed
7 1.1 answer o3 committed aaaaaaaa-aaaa-aaaa-aaaa-aaaaaaaaaaaa:4
7 1.1 answer o3 rolled back
7 1.1 answer o3 busy
7 1.1 answer o3 no transaction
7 1.1 answer o3 not online RECOVERING
7 1.1 answer o3 read only 2.3
7 1.1 answer o3 read only -
7 1.1 answer o3 row locked session 12
7 1.1 answer o3 row locked aaaaaaaa-aaaa-aaaa-aaaa-aaaaaaaaaaaa:4
7 1.1 answer o3 duplicate key
7 1.1 answer o3 no row
7 1.1 answer o3 killed aaaaaaaa-aaaa-aaaa-aaaa-aaaaaaaaaaaa:4
7 1.1 answer o3 conflict aaaaaaaa-aaaa-aaaa-aaaa-aaaaaaaaaaaa:4
7 1.1 answer o3 hold timeout 100
7 1.1 answer o3 member left
7 1.1 answer o3 undecided 2.3#9
7 1.1 answer o3 not acknowledged aaaaaaaa-aaaa-aaaa-aaaa-aaaaaaaaaaaa:4
7 1.1 answer o3 too large 16777217";

fn answer(alloc: Global, number: usize) -> Result<Answer, Fail> {
    match number {
        0 => Ok(Answer::Begun(GtidSet::new(alloc), None)),
        1 => Ok(Answer::Begun(some_set(alloc)?, Some(Pos(6)))),
        2 => Ok(Answer::Got(Some(Blob::of(alloc, b"v")?))),
        _ if number < 12 => Ok(success(number)),
        _ => Ok(refusal(number)),
    }
}

fn success(number: usize) -> Answer {
    match number {
        3 => Answer::Got(None),
        4 => Answer::Held,
        5 => Answer::Changed,
        6 => Answer::Sent(ID),
        7 => Answer::CommittedEmpty,
        8 => Answer::Committed(GTID),
        9 => Answer::RolledBack,
        10 => Answer::Busy,
        _ => Answer::NoTransaction,
    }
}

fn refusal(number: usize) -> Answer {
    match number {
        12 => Answer::NotOnline(MemberState::Recovering),
        13 => Answer::ReadOnly(Some(TWO)),
        14 => Answer::ReadOnly(None),
        15 => Answer::RowLocked(Holder::Session(SessionId(12))),
        16 => Answer::RowLocked(Holder::Place(Pos(3), GTID)),
        17 => Answer::DuplicateKey,
        18 => Answer::NoRow,
        19 => Answer::Killed(GTID),
        20 => Answer::Conflict(GTID),
        21 => Answer::HoldTimeout(100),
        22 => Answer::MemberLeft,
        23 => Answer::Undecided(ID),
        24 => Answer::NotAcknowledged(GTID),
        _ => Answer::TooLarge { bytes: 16_777_217 },
    }
}

#[test]
fn answers(rt: HostRuntime) -> Result<(), Fail> {
    let alloc = rt.alloc();
    for (number, text) in ANSWERS.lines().enumerate() {
        let answer = answer(alloc, number)?;
        let said = Said::Marked(ONE, Mark::Answered(SessionId(1_000_000_003), answer));
        check(&rt, alloc, &said, text)?;
    }
    Ok(())
}

const LOOKS: &str = "7 1.1 member 1.1 ONLINE primary
7 1.1 member 2.3 UNREACHABLE
7 1.1 view 4 single
7 1.1 row t k v
7 1.1 rows 1
7 1.1 queued 3 waiting
7 1.1 queued 4 done
7 1.1 queue 2
7 1.1 item t k aaaaaaaa-aaaa-aaaa-aaaa-aaaaaaaaaaaa:4
7 1.1 items 1
7 wire 3 1.1 2.3 Gone
7 wire 1 of 5
7 1.1 slots next 2 place 1 promise 1/1.1
7 1.1 slots next 0 place 0 promise -
7 1.1 config 11 1.1 2.3
7 1.1 config 99 unknown
7 1.1 gtids aaaaaaaa-aaaa-aaaa-aaaa-aaaaaaaaaaaa:1-3:5
7 1.1 kept from 4
";

fn members(alloc: Global) -> Result<Look, Memory> {
    let one = ShownMember {
        inc: ONE,
        shown: Shown::State(MemberState::Online),
        primary: true,
    };
    let two = ShownMember {
        inc: TWO,
        shown: Shown::Unreachable,
        primary: false,
    };
    Ok(Look::Members {
        inc: ONE,
        members: Sequence::from_vec([one, two].to_vec(alloc)?),
        view: 4,
        mode: Mode::Single,
    })
}

fn rows(alloc: Global) -> Result<Look, Memory> {
    let row = Row {
        item: some_item(alloc)?,
        value: Blob::of(alloc, b"v")?,
    };
    Ok(Look::Rows {
        inc: ONE,
        rows: Sequence::from_vec(vec![in alloc; row]?),
    })
}

fn queue(alloc: Global) -> Result<Look, Memory> {
    let waiting = QueuedPlace {
        place: Pos(3),
        done: false,
    };
    let done = QueuedPlace {
        place: Pos(4),
        done: true,
    };
    Ok(Look::Queue {
        inc: ONE,
        places: Sequence::from_vec([waiting, done].to_vec(alloc)?),
    })
}

fn certifier(alloc: Global) -> Result<Look, Memory> {
    let one = ItemWriter {
        item: some_item(alloc)?,
        gtid: GTID,
    };
    Ok(Look::Certifier {
        inc: ONE,
        items: Sequence::from_vec(vec![in alloc; one]?),
    })
}

fn wire(alloc: Global) -> Result<Look, Memory> {
    let gone = WireLine {
        number: 3,
        from: ONE,
        to: TWO,
        kind: 11,
    };
    Ok(Look::Wire {
        messages: Sequence::from_vec([gone].to_vec(alloc)?),
        sent: 5,
    })
}

fn slots(next: u64, place: Pos, promise: Option<Ballot>) -> Look {
    Look::Slots {
        inc: ONE,
        next,
        place,
        promise,
    }
}

fn config(slot: u64, members: Option<Sequence<Inc>>) -> Look {
    Look::Config {
        inc: ONE,
        slot,
        members,
    }
}

fn gtids(alloc: Global) -> Result<Look, Fail> {
    Ok(Look::Gtids {
        inc: ONE,
        set: some_set(alloc)?,
    })
}

fn look(alloc: Global, number: usize) -> Result<Look, Fail> {
    let promise = Some(Ballot { round: 1, inc: ONE });
    match number {
        0 => Ok(members(alloc)?),
        1 => Ok(rows(alloc)?),
        2 => Ok(queue(alloc)?),
        3 => Ok(certifier(alloc)?),
        4 => Ok(wire(alloc)?),
        5 => Ok(slots(2, Pos(1), promise)),
        6 => Ok(slots(0, Pos(0), None)),
        7 => Ok(config(11, Some(Sequence::from_vec([ONE, TWO].to_vec(alloc)?)))),
        8 => Ok(config(99, None)),
        9 => gtids(alloc),
        _ => Ok(Look::Kept { inc: ONE, low: 4 }),
    }
}

#[test]
fn looks(rt: HostRuntime) -> Result<(), Fail> {
    let alloc = rt.alloc();
    let mut texts = Blob::of(alloc, b"")?;
    for number in 0..11 {
        let said = Said::Looked(look(alloc, number)?);
        texts.append(answer_text(alloc, 7, &said)?.as_slice())?;
    }
    assert_eq!(rt; texts.as_slice(), LOOKS.as_bytes());
    Ok(())
}

const FAULTS: &str = "7 refused Declared
7 refused NoServer
7 refused AlreadyRunning
7 refused NoMessage 9
7 refused MessageLost 9
7 refused NoMember
7 limit wire 1048576
7 limit bytes 1073741824
7 refused Spent 16777216
";

fn fault(number: usize) -> WorldFault {
    let bytes = 1_073_741_825;
    match number {
        0 => WorldFault::Declared,
        1 => WorldFault::NoServer,
        2 => WorldFault::AlreadyRunning,
        3 => WorldFault::NoMessage { k: 9 },
        4 => WorldFault::MessageLost { k: 9 },
        5 => WorldFault::NoMember,
        6 => WorldFault::WireFull {
            messages: 1_048_577,
            bytes,
        },
        7 => WorldFault::WireFull {
            messages: 1_048_576,
            bytes,
        },
        8 => WorldFault::Spent { steps: 16_777_216 },
        _ => WorldFault::Memory,
    }
}

#[test]
fn faults(rt: HostRuntime) -> Result<(), Fail> {
    let mut texts = Blob::of(rt.alloc(), b"")?;
    for number in 0..10 {
        texts.append(fault_text(rt.alloc(), 7, fault(number))?.as_slice())?;
    }
    assert_eq!(rt; texts.as_slice(), FAULTS.as_bytes());
    Ok(())
}

fn world(alloc: Global) -> Result<WorldReport, Fail> {
    let one = MemberReport {
        inc: ONE,
        state: MemberState::Online,
        view: 1,
        place: Pos(1),
        executed: some_set(alloc)?,
        rows: 2,
    };
    let two = MemberReport {
        inc: TWO,
        state: MemberState::Offline,
        view: 0,
        place: Pos(0),
        executed: GtidSet::new(alloc),
        rows: 0,
    };
    Ok(WorldReport {
        lines: 4,
        members: Sequence::from_vec(vec![in alloc; one, two]?),
        messages: 12,
    })
}

const REPORT: &str = "{\"lines\":4,\"members\":[\
    {\"executed\":\"aaaaaaaa-aaaa-aaaa-aaaa-aaaaaaaaaaaa:1-3:5\",\"inc\":\"1.1\",\"place\":1,\"rows\":2,\"state\":\"ONLINE\",\"view\":1},\
    {\"executed\":\"\",\"inc\":\"2.3\",\"place\":0,\"rows\":0,\"state\":\"OFFLINE\",\"view\":0}],\"messages\":12}";

#[test]
fn reports(rt: HostRuntime) -> Result<(), Fail> {
    let alloc = rt.alloc();
    let none = WorldReport {
        lines: 0,
        members: Sequence::new(alloc),
        messages: 0,
    };
    let text = report(alloc, &none)?;
    assert_eq!(rt;
        text.as_slice(),
        b"{\"lines\":0,\"members\":[],\"messages\":0}".as_slice()
    );
    let text = report(alloc, &world(alloc)?)?;
    assert_eq!(rt; text.as_slice(), REPORT.as_bytes());
    Ok(())
}
