ghost use Rattle.paxos_forms.specs.Messages.{IsMessage};

use gr_ids::Inc;
use paxos_forms::{Message, MessageFault, Wire, decode, encode};
use std::alloc::Global;
use std::process::Abort;
use std::test::Fail;

// A message of each kind from 2.1 to 1.1.
const MESSAGES: [&[u8]; 11] = [
    // Prepare
    b"\x02\0\0\0\x01\x01\0\0\0\x01\x01\0\0\0\x02\x02\0\0\0\x01\0\0\0\0\0\0\0\x04",
    // Promise
    b"\x02\0\0\0\x01\x01\0\0\0\x01\x02\0\0\0\x02\x02\0\0\0\x01\0\0\0\0\0\0\0\x04\0\0\0\
        \x02\0\0\0\0\0\0\0\x04\0\0\0\x01\x01\0\0\0\x01\x01\0\0\0\x01\0\0\0\0\0\0\0\0\0\0\
        \0\0\0\0\0\0\x06\0\0\0\x01\x01\0\0\0\x01\x02\0\0\0\x01\0\0\0\0\0\0\0\x03\x01\x03\
        \0\0\0\x02abcdefghijklmnop\0\0\0\0\0\0\0\x08\0\0\0\0\0\0\0\0\0\0\0\0\0\0\0$2",
    // Accept
    b"\x02\0\0\0\x01\x01\0\0\0\x01\x03\0\0\0\x02\x02\0\0\0\x01\0\0\0\0\0\0\0\x04\x01\0\
        \0\0\x01\0\0\0\0\0\0\0\x09\x03\0\0\0\x01\x03",
    // Accepted
    b"\x02\0\0\0\x01\x01\0\0\0\x01\x04\0\0\0\x02\x02\0\0\0\x01\0\0\0\0\0\0\0\x04",
    // Learn
    b"\x02\0\0\0\x01\x01\0\0\0\x01\x05\0\0\0\0\0\0\0\x04\x02\0\0\0\x01\0\0\0\0\0\0\0\
        \x04\x02\x03\0\0\0\x01",
    // Offer
    b"\x02\0\0\0\x01\x01\0\0\0\x01\x06\x02\0\0\0\x01\0\0\0\0\0\0\0\x03\x01\x03\0\0\0\
        \x02abcdefghijklmnop\0\0\0\0\0\0\0\x08\0\0\0\0\0\0\0\0\0\0\0\0\0\0\0$2",
    // Welcome
    b"\x02\0\0\0\x01\x01\0\0\0\x01\x07\0\0\0\0\0\0\0\x09\0\0\0\0\0\0\0\x05\0\0\0\0\0\0\
        \0\x02\0\0\0\x01\x01\0\0\0\x01\x01\x01\x01\0\0\0\x01\0\0\0\0\0\0\0\0\0\0\0\x02\
        \x01\0\0\0\x01ABCDEFGHIJKLMNOP\0\0\0\0\0\0\0\x08\0\0\0\0\0\0\0\0\0\0\0\0\0\0\0$2\
        \x01\0\0\0\0\0\0\0\x02\x03\0\0\0\x02abcdefghijklmnop\0\0\0\0\0\0\0\x08\0\0\0\0\0\
        \0\0\0\0\0\0\0\0\0\0$2\x02\0\0\0\0\0\0\0\x01\0\0\0\x03\x01\0\0\0\x01\x03\0\0\0\
        \x01\x03\0\0\0\x02\0\0\0\x02\0\0\0\x01\x01\0\0\0\x01\0\0\0\x02\x01\0\0\0\x01\x03\
        \0\0\0\x02",
    // Ask
    b"\x02\0\0\0\x01\x01\0\0\0\x01\x08\0\0\0\0\0\0\0\x05\0\0\0\x01ABCDEFGHIJKLMNOP\0\0\
        \0\x01\0\0\0\0\0\0\0\x01\0\0\0\0\0\0\0\x03",
    // Give
    b"\x02\0\0\0\x01\x01\0\0\0\x01\x09\0\0\0\0\0\0\0\x07\0\0\0\0\0\0\0\x07\0\0\0\x01\
        \x01\0\0\0\x01\0\0\0\0\0\0\0\x03\0\0\0\x01\x01t\x01aABCDEFGHIJKLMNOP\0\0\0\0\0\0\
        \0\x03\0\0\0\0\0\0\0\x07\0\0\0\x01\x01\0\0\0\x01\0\0\0\x01ABCDEFGHIJKLMNOP\0\0\0\
        \x01\0\0\0\0\0\0\0\x01\0\0\0\0\0\0\0\x02\0\0\0\x01ABCDEFGHIJKLMNOP\0\0\0\x01\0\0\
        \0\0\0\0\0\x01\0\0\0\0\0\0\0\x03\0\0\0\x01\0\0\0\0\0\0\0\x05\x01\0\0\0\x01ABCDEF\
        GHIJKLMNOP\0\0\0\0\0\0\0\x02\0\0\0\x01\x03\0\0\0\0",
    // Alive
    b"\x02\0\0\0\x01\x01\0\0\0\x01\x0a\0\0\0\0\0\0\0\x02",
    // Gone
    b"\x02\0\0\0\x01\x01\0\0\0\x01\x0b",
];

fn is_spelled(alloc: Global, message: &Message, bytes: &[u8]) -> bool
    requires { IsMessage message.now }
{
    match encode(alloc, message) {
        Ok(spelled) => spelled.as_slice() == bytes,
        Err(_) => false,
    }
}

fn is_copy_spelled(alloc: Global, message: &Message, bytes: &[u8]) -> bool
    requires { IsMessage message.now }
{
    match message.try_copy(alloc) {
        Ok(copy) => is_spelled(alloc, &copy, bytes),
        Err(_) => false,
    }
}

// A copy of what was decoded is encoded as the same bytes.
fn is_read_back(alloc: Global, bytes: &[u8]) -> bool {
    match decode(alloc, bytes) {
        Ok(message) => is_copy_spelled(alloc, &message, bytes),
        Err(_) => false,
    }
}

// Cut anywhere, it is refused at its end.
fn is_refused_at_each_cut(rt: &impl Abort, alloc: Global, bytes: &[u8]) {
    for n in 0..bytes.len() {
        let fault = MessageFault::BadMessage { at: n as u64 };
        assert_eq!(rt; decode(alloc, &bytes[..n]).err(), Some(fault));
    }
}

// With a byte behind, it is refused at that byte.
fn is_refused_with_more(rt: &impl Abort, alloc: Global, bytes: &[u8]) -> Result<(), Fail> {
    let mut longer = bytes.to_vec(alloc)?;
    longer.push(0)?;
    let fault = MessageFault::BadMessage {
        at: bytes.len() as u64,
    };
    assert_eq!(rt; decode(alloc, &longer).err(), Some(fault));
    Ok(())
}

#[test]
fn messages_are_read_back_and_refused_at_each_cut(rt: HostRuntime) -> Result<(), Fail> {
    for bytes in MESSAGES.iter() {
        assert!(rt; is_read_back(rt.alloc(), bytes));
        is_refused_at_each_cut(&rt, rt.alloc(), bytes);
        is_refused_with_more(&rt, rt.alloc(), bytes)?;
    }
    Ok(())
}

// Each with the first byte with which no spelling goes on.
#[test]
fn faults_are_named(rt: HostRuntime) {
    let rows = [
        // a sender of server 0
        (b"\0\0\0\0\x01".as_slice(), 0),
        // a message cut to its first 7 bytes
        (b"\x02\0\0\0\x01\x01\0", 7),
        // kind 12
        (b"\x02\0\0\0\x01\x01\0\0\0\x01\x0c", 10),
        // a ballot of round 0
        (
            b"\x02\0\0\0\x01\x01\0\0\0\x01\x01\0\0\0\0\x02\0\0\0\x01",
            14,
        ),
        // Accept of slot 0
        (
            b"\x02\0\0\0\x01\x01\0\0\0\x01\x03\0\0\0\x02\x02\0\0\0\x01\0\0\0\0\0\0\0\0",
            27,
        ),
        // Accept of slot 2^42+1
        (
            b"\x02\0\0\0\x01\x01\0\0\0\x01\x03\0\0\0\x02\x02\0\0\0\x01\0\0\x04\0\0\0\0\x01",
            27,
        ),
        // votes that descend
        (
            b"\x02\0\0\0\x01\x01\0\0\0\x01\x02\0\0\0\x02\x02\0\0\0\x01\0\0\0\0\0\0\0\x04\0\0\0\
            \x02\0\0\0\0\0\0\0\x06\0\0\0\x01\x01\0\0\0\x01\x01\0\0\0\x01\0\0\0\0\0\0\0\0\0\0\
            \0\0\0\0\0\0\x05\0\0\0\x01\x01\0\0\0\x01\x01\0\0\0\x01\0\0\0\0\0\0\0\0\0",
            70,
        ),
        // a Noop with a number
        (
            b"\x02\0\0\0\x01\x01\0\0\0\x01\x06\x01\0\0\0\x01\0\0\0\0\0\0\0\x01\0",
            24,
        ),
        // an empty body
        (
            b"\x02\0\0\0\x01\x01\0\0\0\x01\x06\x01\0\0\0\x01\0\0\0\0\0\0\0\x01\x03\0\0\0\0",
            28,
        ),
        // a Welcome whose place is above its slot
        (
            b"\x02\0\0\0\x01\x01\0\0\0\x01\x07\0\0\0\0\0\0\0\x04\0\0\0\0\0\0\0\x05",
            26,
        ),
        // more blocks taken than places
        (
            b"\x02\0\0\0\x01\x01\0\0\0\x01\x09\0\0\0\0\0\0\0\x07\0\0\0\0\0\0\0\x08\0\0\0\x01\
            \x01\0\0\0\x01\0\0\0\0\0\0\0\x03\0\0\0\x01\x01t\x01aABCDEFGHIJKLMNOP\0\0\0\0\0\0\
            \0\x03\0\0\0\0\0\0\0\x07\0\0\0\0\0\0\0\0\0\0\0\0\0\0\0\0",
            26,
        ),
        // a writer behind the place
        (
            b"\x02\0\0\0\x01\x01\0\0\0\x01\x09\0\0\0\0\0\0\0\x07\0\0\0\0\0\0\0\x07\0\0\0\x01\
            \x01\0\0\0\x01\0\0\0\0\0\0\0\x03\0\0\0\x01\x01t\x01aABCDEFGHIJKLMNOP\0\0\0\0\0\0\
            \0\x03\0\0\0\0\0\0\0\x08\0\0\0\0\0\0\0\0\0\0\0\0\0\0\0\0",
            83,
        ),
        // all parts held
        (
            b"\x02\0\0\0\x01\x01\0\0\0\x01\x09\0\0\0\0\0\0\0\x07\0\0\0\0\0\0\0\x07\0\0\0\0\0\0\
            \0\0\0\0\0\0\0\0\0\0\0\0\0\0\0\0\0\x01\x01\0\0\0\x01\0\0\0\x02\0\0\0\x02",
            63,
        ),
    ];
    for (bytes, at) in rows.iter() {
        assert!(rt; is_refused_at(rt.alloc(), bytes, *at));
    }
}

// Alive with number 2, from 2.1 to 1.1.
const ALIVE: &[u8] = b"\x02\0\0\0\x01\x01\0\0\0\x01\x0a\0\0\0\0\0\0\0\x02";

const SENDER: Inc = Inc {
    server: 2,
    start: 1,
};

const ADDRESSEE: Inc = Inc {
    server: 1,
    start: 1,
};

fn alive() -> Message
    ensures { IsMessage result }
{
    Message {
        from: SENDER,
        to: ADDRESSEE,
        wire: Wire::Alive(2),
    }
}

fn is_alive(message: &Message) -> bool {
    let is_between = message.from == SENDER && message.to == ADDRESSEE;
    is_between && matches!(message.wire, Wire::Alive(2))
}

fn is_alive_read(alloc: Global) -> bool {
    match decode(alloc, ALIVE) {
        Ok(message) => is_alive(&message),
        Err(_) => false,
    }
}

#[test]
fn alive_is_spelled_as_worked(rt: HostRuntime) -> Result<(), Fail> {
    assert!(rt; is_spelled(rt.alloc(), &alive(), ALIVE));
    assert!(rt; is_alive_read(rt.alloc()));
    Ok(())
}

// The beginning of a Give with one open part of 3, of 65,523 bytes, up to the last byte of that length.
const OPEN_PART: &[u8] =
    b"\x02\0\0\0\x01\x01\0\0\0\x01\x09\0\0\0\0\0\0\0\x07\0\0\0\0\0\0\0\x07\0\0\0\0\0\0\
    \0\0\0\0\0\0\0\0\0\0\0\0\0\0\0\0\0\x01\x01\0\0\0\x01\0\0\0\x03\0\0\0\x01\0\0\xff";

fn open_part(alloc: Global, last: u8, length: usize) -> Result<Vec<u8>, Fail> {
    let mut bytes = OPEN_PART.to_vec(alloc)?;
    bytes.push(last)?;
    bytes.resize(length, b'x')?;
    Ok(bytes)
}

fn is_refused_at(alloc: Global, bytes: &[u8], at: u64) -> bool {
    decode(alloc, bytes).err() == Some(MessageFault::BadMessage { at })
}

// As it is; then with a count one less, and without its last byte.
#[test]
fn open_parts_have_their_length(rt: HostRuntime) -> Result<(), Fail> {
    let alloc = rt.alloc();
    let whole = open_part(alloc, 0xf3, 65_591)?;
    assert!(rt; is_read_back(alloc, &whole));
    is_refused_with_more(&rt, alloc, &whole)?;
    assert!(rt; is_refused_at(alloc, &open_part(alloc, 0xf2, 65_591)?, 67));
    assert!(rt; is_refused_at(alloc, &open_part(alloc, 0xf3, 65_590)?, 65_590));
    Ok(())
}
