ghost use Rattle.std.specs.Prelude.{◌≡◌, ◌≤◌, ◌<◌, suc, Some, None, ℕ, List, Option};
ghost use Rattle.byte_forms.specs.Numbers.{number};
ghost use Rattle.byte_forms.specs.Fields.{number_in};

use byte_forms::{
    CutFault, Cutter, ListForm, Misfit, Packer, Unread, put_counted, put_list, take_counted,
    take_list,
};
use gr_ids::Memory;
use std::alloc::Global;
use std::process::Abort;
use std::test::Fail;

// Numbers in one byte, up to 99, each above the one before.
struct Rising;

impl ListForm for Rising {
    type Element = u8;

    ghost reader = { λ form before. number_in 1 (elim before [ None ↦ 0 | Some b ↦ suc b ]) 99 };

    ghost spelling = { λ form. number 1 };

    ghost CanPrecede = { λ form x. x ≤ 99 };

    ghost CanPut = { λ form x. x < 256 };

    fn take_next(
        &self,
        _alloc: Global,
        from: &mut Cutter,
        before: Option<&u8>,
    ) -> Result<u8, Unread> {
        let least = match before {
            Some(b) => *b + 1,
            None => 0,
        };
        Ok(from.take_u8_in(least, 99)?)
    }

    fn put_next(&self, to: &mut Packer, x: &u8) -> Result<(), Memory> {
        to.put_u8(*x)
    }
}

const SPELLED: &[u8] = b"\0\0\0\x03\x01\x05\x63\0\0\0\x03key\x01\x02";

fn spelled(rt: &impl Abort, alloc: Global) -> Result<Vec<u8>, Fail> {
    let mut to = Packer::new(alloc);
    put_list(&mut to, &[1, 5, 99], &Rising)?;
    assert_eq!(rt; to.len(), 7);
    put_counted(&mut to, b"key")?;
    to.put_u16(258)?;
    Ok(to.finish())
}

fn is_list(alloc: Global, from: &mut Cutter, wanted: &[u8]) -> Result<bool, Fail> {
    let list = take_list(alloc, from, 2, &Rising)?;
    Ok(list.as_slice() == wanted)
}

fn is_counted(alloc: Global, from: &mut Cutter, wanted: &[u8]) -> Result<bool, Fail> {
    let bytes = take_counted(alloc, from, 1, 3)?;
    Ok(bytes.as_slice() == wanted)
}

// A number is left; then nothing.
fn check_end(rt: &impl Abort, from: &mut Cutter) {
    assert!(rt; from.end() == Err(CutFault::TooLong { at: 14 }));
    assert!(rt; from.take_u16() == Ok(258));
    assert!(rt; from.end() == Ok(()));
    assert!(rt; from.take_u8() == Err(CutFault::Short { at: 16 }));
    assert_eq!(rt; from.at(), 16);
}

#[test]
fn lists_are_read_back(rt: HostRuntime) -> Result<(), Fail> {
    assert!(rt; spelled(&rt, rt.alloc())?.as_slice() == SPELLED);
    let mut from = Cutter::new(SPELLED);
    assert!(rt; is_list(rt.alloc(), &mut from, &[1, 5, 99])?);
    assert!(rt; is_counted(rt.alloc(), &mut from, b"key")?);
    check_end(&rt, &mut from);
    Ok(())
}

fn is_misfit(alloc: Global, from: &mut Cutter, at: u64) -> bool {
    match take_list(alloc, from, 2, &Rising) {
        Ok(_) => false,
        Err(fault) => fault == Unread::Misfit { at },
    }
}

// The least count is 2; the third number isn't above the second; a count has no elements behind it.
fn refuse_lists(rt: &impl Abort, alloc: Global) {
    let rows = [
        (b"\0\0\0\x01\x01".as_slice(), 3),
        (b"\0\0\0\x03\x01\x05\x05", 6),
        (b"\0\0\0\x03\x01\x64\x05", 5),
        (b"\xff\xff\xff\xff\x01", 5),
        (b"\0\0\0", 3),
    ];
    for (bytes, at) in rows.iter() {
        let mut from = Cutter::new(bytes);
        assert!(rt; is_misfit(alloc, &mut from, *at));
        assert_eq!(rt; from.at(), 0);
    }
}

fn is_count_refused(alloc: Global, from: &mut Cutter, at: u64) -> bool {
    match take_counted(alloc, from, 1, 3) {
        Ok(_) => false,
        Err(fault) => fault == Unread::Misfit { at },
    }
}

#[test]
fn faults_stand_at_the_first_byte_that_goes_on_nowhere(rt: HostRuntime) -> Result<(), Fail> {
    refuse_lists(&rt, rt.alloc());
    let mut from = Cutter::new(b"\0\0\0\x02k");
    assert!(rt; is_count_refused(rt.alloc(), &mut from, 5));
    assert!(rt; from.take_u32_in(2, 0x0100_0000) == Ok(2));
    assert!(rt; from.take_u8_in(b'm', b'z') == Err(Misfit { at: 4 }));
    Ok(())
}
