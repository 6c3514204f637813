use message_sizes::message_size;
use paxos_forms::{Message, decode};
use std::alloc::Global;
use std::test::Fail;

// An Offer, an Ask and a Give, from 2.1 to 1.1.
fn spelling(number: usize) -> &'static [u8] {
    match number {
        0 => b"\x02\0\0\0\x01\x01\0\0\0\x01\x06\x02\0\0\0\x01\0\0\0\0\0\0\0\x03\x01\x03\0\0\0\
        \x02abcdefghijklmnop\0\0\0\0\0\0\0\x08\0\0\0\0\0\0\0\0\0\0\0\0\0\0\0$2",
        1 => b"\x02\0\0\0\x01\x01\0\0\0\x01\x08\0\0\0\0\0\0\0\x05\0\0\0\x01ABCDEFGHIJKLMNOP\0\0\
        \0\x01\0\0\0\0\0\0\0\x01\0\0\0\0\0\0\0\x03",
        _ => b"\x02\0\0\0\x01\x01\0\0\0\x01\x09\0\0\0\0\0\0\0\x07\0\0\0\0\0\0\0\x07\0\0\0\x01\
        \x01\0\0\0\x01\0\0\0\0\0\0\0\x03\0\0\0\x01\x01t\x01aABCDEFGHIJKLMNOP\0\0\0\0\0\0\
        \0\x03\0\0\0\0\0\0\0\x07\0\0\0\x01\x01\0\0\0\x01\0\0\0\x01ABCDEFGHIJKLMNOP\0\0\0\
        \x01\0\0\0\0\0\0\0\x01\0\0\0\0\0\0\0\x02\0\0\0\x01ABCDEFGHIJKLMNOP\0\0\0\x01\0\0\
        \0\0\0\0\0\x01\0\0\0\0\0\0\0\x03\0\0\0\x01\0\0\0\0\0\0\0\x05\x01\0\0\0\x01ABCDEF\
        GHIJKLMNOP\0\0\0\0\0\0\0\x02\0\0\0\x01\x03\0\0\0\0",
    }
}

fn has_size(alloc: Global, message: &Message, size: u64) -> bool {
    match message_size(alloc, message) {
        Ok(counted) => counted == size,
        Err(_) => false,
    }
}

fn is_counted(alloc: Global, spelling: &[u8]) -> bool {
    match decode(alloc, spelling) {
        Ok(message) => has_size(alloc, &message, spelling.len() as u64),
        Err(_) => false,
    }
}

#[test]
fn each_spelling_is_counted(rt: HostRuntime) -> Result<(), Fail> {
    for number in 0..3 {
        assert!(rt; is_counted(rt.alloc(), spelling(number)));
    }
    Ok(())
}
