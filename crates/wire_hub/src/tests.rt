ghost use Rattle.std.specs.Prelude.{◌≡◌, ◌<◌, ◌≤◌, ◌^◌, true, Some};
ghost use Rattle.std.specs.List.{All};
ghost use Rattle.gr_ids.specs.Names.{has_inc};
ghost use Rattle.wire_hub.specs.Spelt.{ends_of};
ghost use Rattle.wire_hub.specs.Passes.{IsSendPassOf, IsTakePassOf};

use crate::{Hub, Letter, SendPass, TakePass};
use gr_ids::{Blob, Inc};
use std::alloc::Global;
use std::process::Abort;
use std::sync::Wait;
use std::test::Fail;
use std::thread::{Threads, join, yield_now};

// How many letters each of two members sends to the third.
const EACH: u64 = 500;

const FIRST: Inc = Inc {
    server: 1,
    start: 1,
};

const SECOND: Inc = Inc {
    server: 2,
    start: 1,
};

const THIRD: Inc = Inc {
    server: 3,
    start: 1,
};

// `Gone`, from the first to the third.
fn from_first() -> [u8; 11]
    ensures { ends_of result ≡ Some (record { server = 1; start = 1 }, record { server = 3; start = 1 }) }
{
    [1, 0, 0, 0, 1, 3, 0, 0, 0, 1, 11]
}

// `Gone`, from the second to the third.
fn from_second() -> [u8; 11]
    ensures { ends_of result ≡ Some (record { server = 2; start = 1 }, record { server = 3; start = 1 }) }
{
    [2, 0, 0, 0, 1, 3, 0, 0, 0, 1, 11]
}

// Sends letters with the indices from 1 on. False where memory is refused.
fn send_all<R: Wait>(
    rt: &R,
    alloc: Global,
    hub: &Hub,
    pass: SendPass,
    from: Inc,
    to: Inc,
    bytes: &[u8],
) -> (SendPass, bool)
    requires own { IsSendPassOf hub.now pass × (pass.name ≡ from) × (pass.last ≡ 0) }
    requires to { has_inc hub.now.members.items to ≡ true }
    requires spelt { ends_of bytes.now ≡ Some (from, to) }
    ensures { IsSendPassOf hub.now result.0 }
{
    let mut pass = pass;
    for index in 0..EACH {
        let Ok(blob) = Blob::of(alloc, bytes) else {
            return (pass, false);
        };
        let letter = Letter::new(from, to, index + 1, index, blob);
        if hub.send(rt, &mut pass, letter).is_err() {
            return (pass, false);
        }
    }
    (pass, true)
}

// Waits for a letter.
fn take_one<R: Wait>(rt: &R, hub: &Hub, pass: &mut TakePass) -> Letter
    requires { IsTakePassOf hub.now pass.old }
    ensures { IsTakePassOf hub.now pass.new }
{
    for _ in rt.forever() {
        match hub.take(rt, pass) {
            Some(letter) => return letter,
            None => yield_now(),
        }
    }
    unreachable!()
}

// Takes all letters, and says whether those of each sender are those with the indices from 1 on, in order.
fn take_all<R: Wait>(rt: &R, hub: &Hub, pass: TakePass) -> (TakePass, bool)
    requires { IsTakePassOf hub.now pass }
    ensures { IsTakePassOf hub.now result.0 }
{
    let mut pass = pass;
    let mut last = [0, 0];
    for _ in 0..2 * EACH {
        let letter = take_one(rt, hub, &mut pass);
        let sender = if letter.from == FIRST { 0 } else { 1 };
        if letter.index <= last[sender] {
            return (pass, false);
        }
        last[sender] = letter.index;
    }
    (pass, last == [EACH, EACH])
}

// The second member sends to the third while it takes.
fn send_and_take<R: Threads + Wait + Sync>(
    rt: &R,
    alloc: Global,
    hub: &Hub,
    second: SendPass,
    take: TakePass,
) -> (SendPass, TakePass, bool)
    requires second { IsSendPassOf hub.now second × (second.name ≡ record { server = 2; start = 1 }) × (second.last ≡ 0) }
    requires take { IsTakePassOf hub.now take }
    requires third { has_inc hub.now.members.items (record { server = 3; start = 1 }) ≡ true }
    ensures sender { IsSendPassOf hub.now result.0 }
    ensures taker { IsTakePassOf hub.now result.1 }
{
    let ((second, sent), (take, ordered)) = join(
        rt,
        move || -> (SendPass, bool)
            requires own { IsSendPassOf hub.now second × (second.name ≡ record { server = 2; start = 1 }) × (second.last ≡ 0) }
            requires to { has_inc hub.now.members.items (record { server = 3; start = 1 }) ≡ true }
            ensures { IsSendPassOf hub.entry.now result.0 }
        { send_all(rt, alloc, hub, second, SECOND, THIRD, &from_second()) },
        move || -> (TakePass, bool)
            requires { IsTakePassOf hub.now take }
            ensures { IsTakePassOf hub.entry.now result.0 }
        { take_all(rt, hub, take) },
    );
    (second, take, sent && ordered)
}

// Two members send to the third while it takes.
fn exchange<R: Threads + Wait + Sync>(
    rt: &R,
    alloc: Global,
    hub: &Hub,
    first: SendPass,
    second: SendPass,
    take: TakePass,
) -> (SendPass, SendPass, TakePass, bool)
    requires first { IsSendPassOf hub.now first × (first.name ≡ record { server = 1; start = 1 }) × (first.last ≡ 0) }
    requires second { IsSendPassOf hub.now second × (second.name ≡ record { server = 2; start = 1 }) × (second.last ≡ 0) }
    requires take { IsTakePassOf hub.now take }
    requires third { has_inc hub.now.members.items (record { server = 3; start = 1 }) ≡ true }
    ensures senders { IsSendPassOf hub.now result.0 × IsSendPassOf hub.now result.1 }
    ensures taker { IsTakePassOf hub.now result.2 }
{
    let ((first, sent), (second, take, ordered)) = join(
        rt,
        move || -> (SendPass, bool)
            requires own { IsSendPassOf hub.now first × (first.name ≡ record { server = 1; start = 1 }) × (first.last ≡ 0) }
            requires to { has_inc hub.now.members.items (record { server = 3; start = 1 }) ≡ true }
            ensures { IsSendPassOf hub.entry.now result.0 }
        { send_all(rt, alloc, hub, first, FIRST, THIRD, &from_first()) },
        move || -> (SendPass, TakePass, bool)
            requires own { IsSendPassOf hub.now second × (second.name ≡ record { server = 2; start = 1 }) × (second.last ≡ 0) }
            requires take { IsTakePassOf hub.now take }
            requires to { has_inc hub.now.members.items (record { server = 3; start = 1 }) ≡ true }
            ensures { IsSendPassOf hub.entry.now result.0 × IsTakePassOf hub.entry.now result.1 }
        { send_and_take(rt, alloc, hub, second, take) },
    );
    (first, second, take, sent && ordered)
}

// The pass of the last sender, whose name this is.
fn last_sender<R: Abort>(rt: &R, hub: &Hub, sends: &mut Vec<SendPass>, name: Inc) -> SendPass
    requires { All (IsSendPassOf hub.now) sends.old.items × All (λ s. s.last ≡ 0) sends.old.items }
    ensures rest { All (IsSendPassOf hub.now) sends.new.items × All (λ s. s.last ≡ 0) sends.new.items }
    ensures last { IsSendPassOf hub.now result × (result.name ≡ name) × (result.last ≡ 0) }
{
    let pass = sends.pop().expect(rt, "a member is left");
    assert!(rt; pass.name == name);
    pass
}

// The pass of the last taker.
fn last_taker<R: Abort>(rt: &R, hub: &Hub, takes: &mut Vec<TakePass>) -> TakePass
    requires { All (IsTakePassOf hub.now) takes.old.items }
    ensures rest { All (IsTakePassOf hub.now) takes.new.items }
    ensures last { IsTakePassOf hub.now result }
{
    takes.pop().expect(rt, "a member is left")
}

#[test]
fn letters_of_each_sender_come_in_order(rt: HostRuntime) -> Result<(), Fail> {
    let (hub, mut sends, mut takes) = Hub::new(rt.alloc(), &[FIRST, SECOND, THIRD])?;
    let third = last_sender(&rt, &hub, &mut sends, THIRD);
    let second = last_sender(&rt, &hub, &mut sends, SECOND);
    let first = last_sender(&rt, &hub, &mut sends, FIRST);
    let take = last_taker(&rt, &hub, &mut takes);
    let (mut first, second, mut take, ordered) = exchange(
        &rt,
        rt.alloc(),
        &hub,
        first,
        second,
        take,
    );
    assert!(rt; ordered);
    hub.tell(&mut first, &mut take);
    assert!(rt; hub.take(&rt, &mut take).is_none());
    assert_eq!(rt; hub.members(), [FIRST, SECOND, THIRD].as_slice());
    sends.push(first)?;
    sends.push(second)?;
    sends.push(third)?;
    takes.push(take)?;
    hub.close(&rt, sends, takes);
    Ok(())
}
