use gr_ids::{Inc, Memory, Sequence};
use group_rules::WireLine;
use paxos_forms::{Message, Wire as Says};
use std::alloc::Global;
use std::process::Abort;
use std::test::Fail;
use world_wire::Wire;

const ONE: Inc = Inc {
    server: 1,
    start: 1,
};

const TWO: Inc = Inc {
    server: 2,
    start: 1,
};

const THREE: Inc = Inc {
    server: 3,
    start: 1,
};

const AGAIN: Inc = Inc {
    server: 1,
    start: 2,
};

fn alive(from: Inc, to: Inc) -> Message {
    Message {
        from,
        to,
        wire: Says::Alive(1),
    }
}

fn messages(alloc: Global) -> Result<Sequence<Message>, Memory> {
    let mut messages = Vec::new(alloc);
    messages.push(alive(ONE, TWO))?;
    messages.push(alive(TWO, ONE))?;
    messages.push(alive(ONE, THREE))?;
    messages.push(alive(ONE, TWO))?;
    messages.push(alive(THREE, AGAIN))?;
    Ok(Sequence::from_vec(messages))
}

// Five letters, of which the first is delivered and the third is lost.
fn fill(alloc: Global, wire: &mut Wire) -> Result<(), Fail> {
    wire.send(messages(alloc)?)?;
    wire.mark_delivered(1);
    wire.mark_lost(3);
    wire.mark_lost(6);
    Ok(())
}

// The least letter that may be next among servers, while these run.
fn check_next(rt: &impl Abort, wire: &Wire) {
    assert!(rt; wire.next(&[], &[ONE, TWO, THREE]) == Some(2));
    assert!(rt; wire.next(&[], &[TWO]) == Some(4));
    assert!(rt; wire.next(&[1, 2], &[THREE, TWO]) == Some(4));
    assert!(rt; wire.next(&[1, 3], &[AGAIN, TWO]) == Some(5));
}

// Where no letter may be next.
fn check_none_next(rt: &impl Abort, wire: &Wire) {
    assert!(rt; wire.next(&[2], &[ONE, TWO]).is_none());
    assert!(rt; wire.next(&[], &[THREE]).is_none());
    assert!(rt; wire.next(&[], &[]).is_none());
}

fn check_letters(rt: &impl Abort, wire: &Wire) {
    assert!(rt; wire.sent() == 5 && wire.bytes() == 95);
    assert!(rt; wire.letter(0).is_none() && wire.letter(6).is_none());
}

fn check_marks(rt: &impl Abort, wire: &Wire) {
    assert!(rt;
        wire.letter(1)
            .is_some_and(|x| x.is_delivered() && !x.is_lost() && x.size() == 19)
    );
    assert!(rt;
        wire.letter(3)
            .is_some_and(|x| x.is_lost() && !x.is_delivered())
    );
}

fn check_messages(rt: &impl Abort, wire: &Wire) {
    assert!(rt; wire.message(6).is_none());
    assert!(rt; wire.message(5).is_some_and(|m| m.to == AGAIN));
}

fn check_line(rt: &impl Abort, line: &WireLine, number: u64) {
    assert!(rt; line.number == number);
    assert!(rt; line.kind == 10);
}

fn check_lines(rt: &impl Abort, lines: &[WireLine]) {
    let numbers = [2, 4, 5];
    assert!(rt; lines.len() == numbers.len());
    for (line, number) in lines.iter().zip(numbers.iter()) {
        check_line(rt, line, *number);
    }
}

fn check_all(rt: &impl Abort, alloc: Global, wire: &mut Wire) -> Result<(), Fail> {
    fill(alloc, wire)?;
    check_next(rt, wire);
    check_none_next(rt, wire);
    check_letters(rt, wire);
    check_marks(rt, wire);
    check_messages(rt, wire);
    check_lines(rt, wire.lines(alloc)?.as_slice());
    Ok(())
}

#[test]
fn letters_are_kept_and_shown(rt: HostRuntime) -> Result<(), Fail> {
    let mut wire = Wire::new(rt.alloc());
    check_all(&rt, rt.alloc(), &mut wire)
}
