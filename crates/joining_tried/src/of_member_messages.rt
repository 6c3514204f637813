ghost use Rattle.std.specs.Prelude.{IfOk};
ghost use Rattle.std.specs.List.{All};
ghost use Rattle.gr_ids.specs.declared.memory.Memory.{Memory};
ghost use Rattle.paxos_forms.specs.Messages.{IsMessage};

use gr_ids::{Ballot, Inc, MemberState, Memory, Mode, Pos};
use member_messages::{Outgoing, arrange, cut_body, welcome};
use paxos_forms::{Message, Welcome, WelcomeMember, Wire};
use slot_values::{Joiner, Turns};
use std::alloc::Global;
use std::process::Abort;
use std::test::Fail;
use view_changes::View;

/// A recipient, and the slot that it is told.
#[derive(Clone, Copy)]
struct Row {
    server: u8,
    start: u32,
    slot: u8,
}

const fn row_of(server: u8, start: u32, slot: u8) -> Row {
    Row {
        server,
        start,
        slot,
    }
}

/// From 3.1 to a start of a server.
fn alive(row: &Row) -> Message
    ensures { IsMessage result }
{
    Message {
        from: Inc {
            server: 3,
            start: 1,
        },
        to: Inc {
            server: row.server.clamp(1, 32),
            start: row.start.clamp(1, 9),
        },
        wire: Wire::Alive((row.slot as u64).clamp(1, 9)),
    }
}

fn all_alive(alloc: Global, rows: &[Row]) -> Result<Vec<Message>, Memory>
    ensures { IfOk result (λ v. All IsMessage v.items) }
{
    let mut messages = Vec::new(alloc);
    for row in rows {
        messages.push(alive(row))?;
    }
    Ok(messages)
}

fn check_one(rt: &impl Abort, sent: &Outgoing, row: &Row) {
    let to = sent.message.to;
    assert_eq!(rt; (to.server, to.start), (row.server, row.start));
    assert!(rt; sent.bytes.as_slice().last() == Some(&row.slot));
}

fn check_order(rt: &impl Abort, sent: &[Outgoing], rows: &[Row]) {
    assert_eq!(rt; sent.len(), rows.len());
    for (one, row) in sent.iter().zip(rows.iter()) {
        check_one(rt, one, row);
    }
}

fn check_bytes(rt: &impl Abort, sent: &[Outgoing]) {
    let bytes = b"\x03\0\0\0\x01\x01\0\0\0\x02\x0a\0\0\0\0\0\0\0\x05";
    assert!(rt;
        sent.get(1)
            .is_some_and(|one| one.bytes.as_slice() == bytes.as_slice())
    );
}

#[test]
fn messages_go_out_in_their_order(rt: HostRuntime) -> Result<(), Fail> {
    let alloc = rt.alloc();
    let rows = [
        row_of(2, 1, 7),
        row_of(1, 2, 5),
        row_of(2, 1, 7),
        row_of(1, 1, 9),
        row_of(2, 1, 3),
    ];
    let sent = arrange(alloc, all_alive(alloc, &rows)?)?;
    check_order(
        &rt,
        &sent,
        &[
            row_of(1, 1, 9),
            row_of(1, 2, 5),
            row_of(2, 1, 3),
            row_of(2, 1, 7),
        ],
    );
    check_bytes(&rt, &sent);
    Ok(())
}

const FIRST: Inc = Inc {
    server: 1,
    start: 1,
};

const SECOND: Inc = Inc {
    server: 2,
    start: 4,
};

const FOUNDERS: [Joiner; 2] = [
    Joiner {
        inc: FIRST,
        uuid: *b"ABCDEFGHIJKLMNOP",
        version: [8, 0, 36],
        weight: 50,
    },
    Joiner {
        inc: SECOND,
        uuid: *b"abcdefghijklmnop",
        version: [8, 0, 17],
        weight: 70,
    },
];

const PROMISE: Ballot = Ballot {
    round: 3,
    inc: SECOND,
};

fn told(alloc: Global) -> Result<Welcome, Memory> {
    let turns = Turns::new(alloc, &[FIRST, SECOND], 10)?;
    let view = View::founding(alloc, &FOUNDERS, Mode::Single)?;
    welcome(alloc, &turns, PROMISE, &view)
}

fn check_numbers(rt: &impl Abort, told: &Welcome) {
    assert_eq!(rt; (told.slot, told.place, told.number), (0, Pos(0), 1));
    assert!(rt; told.promise == PROMISE);
    assert!(rt;
        told.mode == Mode::Single && told.primary == Some(SECOND) && told.elected == Pos(0)
    );
}

fn check_member(rt: &impl Abort, member: &WelcomeMember, founder: &Joiner) {
    assert!(rt; member.joiner.inc == founder.inc && member.joiner.weight == founder.weight);
    assert!(rt; member.state == MemberState::Online && member.last == 0);
}

fn check_members(rt: &impl Abort, members: &[WelcomeMember], founders: &[Joiner]) {
    assert!(rt; members.len() == founders.len());
    for (member, founder) in members.iter().zip(founders.iter()) {
        check_member(rt, member, founder);
    }
}

fn check_log(rt: &impl Abort, told: &Welcome) {
    assert!(rt; told.ever.as_slice() == [FIRST, SECOND].as_slice());
    assert!(rt; told.configs.as_slice().len() == 10);
}

fn check_told(rt: &impl Abort, told: &Welcome) {
    check_numbers(rt, told);
    check_members(rt, told.members.as_slice(), &FOUNDERS);
    check_log(rt, told);
}

#[test]
fn a_joiner_is_told_the_log_and_the_view(rt: HostRuntime) -> Result<(), Fail> {
    let told = told(rt.alloc())?;
    check_told(&rt, &told);
    Ok(())
}

/// So many bytes, which repeat after 251.
fn numbered(alloc: Global, len: usize) -> Result<Vec<u8>, Memory> {
    let mut bytes = Vec::new(alloc);
    for k in 0..len {
        bytes.push((k % 251) as u8)?;
    }
    Ok(bytes)
}

/// A part's number, the number of parts, and its size.
#[derive(Clone, Copy, PartialEq, Eq)]
struct Cut {
    index: u32,
    count: u32,
    size: usize,
}

const fn cut_of(index: u32, count: u32, size: usize) -> Cut {
    Cut { index, count, size }
}

fn check_sizes(rt: &impl Abort, alloc: Global, body: &[u8], wanted: &[Cut]) -> Result<(), Memory> {
    assert!(rt; body.len() <= 16_777_216);
    let cuts: Vec<Cut> = cut_body(alloc, body)?
        .iter()
        .map(|part| cut_of(part.index, part.count, part.bytes.len()))
        .collect(alloc)?;
    assert!(rt; cuts.as_slice() == wanted);
    Ok(())
}

/// The bytes of the parts, one after the other.
fn joined(rt: &impl Abort, alloc: Global, body: &[u8]) -> Result<Vec<u8>, Memory> {
    assert!(rt; body.len() <= 16_777_216);
    let mut joined = Vec::new(alloc);
    for part in cut_body(alloc, body)?.iter() {
        joined.extend_from_slice(part.bytes.as_slice())?;
    }
    Ok(joined)
}

fn check_joined(rt: &impl Abort, alloc: Global, body: &[u8]) -> Result<(), Memory> {
    let joined = joined(rt, alloc, body)?;
    assert!(rt; joined.as_slice() == body);
    Ok(())
}

fn is_cut(rt: &impl Abort, alloc: Global, len: usize, wanted: &[Cut]) -> Result<(), Fail> {
    let body = numbered(alloc, len)?;
    check_sizes(rt, alloc, &body, wanted)?;
    check_joined(rt, alloc, &body)?;
    Ok(())
}

#[test]
fn bodies_are_cut_at_the_size_of_a_part(rt: HostRuntime) -> Result<(), Fail> {
    let alloc = rt.alloc();
    is_cut(
        &rt,
        alloc,
        65_537,
        &[cut_of(1, 2, 65_523), cut_of(2, 2, 14)],
    )?;
    is_cut(
        &rt,
        alloc,
        131_046,
        &[cut_of(1, 2, 65_523), cut_of(2, 2, 65_523)],
    )?;
    is_cut(
        &rt,
        alloc,
        131_047,
        &[cut_of(1, 3, 65_523), cut_of(2, 3, 65_523), cut_of(3, 3, 1)],
    )
}
