use gr_ids::{Gtid, Inc, Sequence};
use gtid_sets::{GtidSet, ToldSet};
use stable_set::Told;
use std::alloc::Global;
use std::process::Abort;
use std::test::Fail;

const NONE: &[u8] = b"";

const TO_THREE: &[u8] = b"aaaaaaaa-aaaa-aaaa-aaaa-aaaaaaaaaaaa:1-3";

const TWO_TO_FIVE: &[u8] = b"aaaaaaaa-aaaa-aaaa-aaaa-aaaaaaaaaaaa:2-5";

const TWO_AND_THREE: &[u8] = b"aaaaaaaa-aaaa-aaaa-aaaa-aaaaaaaaaaaa:2-3";

const ONE: &[u8] = b"aaaaaaaa-aaaa-aaaa-aaaa-aaaaaaaaaaaa:1";

fn first_start(server: u8) -> Inc {
    Inc { server, start: 1 }
}

/// Members 1 to 3 tell these sets in this order, and after each one this is stable.
#[derive(Clone, Copy)]
struct Case {
    server: u8,
    told: &'static [u8],
    stable: &'static [u8],
    told_by: usize,
}

fn tells(server: u8, told: &'static [u8], stable: &'static [u8], told_by: usize) -> Case {
    Case {
        server,
        told,
        stable,
        told_by,
    }
}

fn is_stable(alloc: Global, told: &Told, online: &[Inc], wanted: &[u8]) -> Result<bool, Fail> {
    let stable = told.stable(alloc, online)?;
    let text = stable.write_text(alloc)?;
    Ok(text.as_slice() == wanted)
}

fn tell(
    rt: &impl Abort,
    alloc: Global,
    told: &mut Told,
    online: &[Inc],
    case: &Case,
) -> Result<(), Fail> {
    told.told(first_start(case.server), GtidSet::parse(alloc, case.told)?)?;
    assert!(rt; is_stable(alloc, told, online, case.stable)?);
    assert_eq!(rt; told.sets(alloc, online)?.as_slice().len(), case.told_by);
    Ok(())
}

fn tell_all(rt: &impl Abort, alloc: Global, told: &mut Told) -> Result<(), Fail> {
    let online = [first_start(1), first_start(2), first_start(3)];
    let cases = [
        tells(3, TO_THREE, NONE, 1),
        tells(1, TWO_TO_FIVE, NONE, 2),
        tells(2, TO_THREE, TWO_AND_THREE, 3),
        tells(1, ONE, ONE, 3),
        tells(4, NONE, ONE, 3),
    ];
    for case in cases.iter() {
        tell(rt, alloc, told, &online, case)?;
    }
    Ok(())
}

// Nothing is stable where nobody is ONLINE, or one is that has told nothing.
fn check_untold(rt: &impl Abort, alloc: Global, told: &Told) -> Result<(), Fail> {
    assert!(rt; is_stable(alloc, told, &[], NONE)?);
    assert!(rt; is_stable(alloc, told, &[first_start(2), first_start(5)], NONE)?);
    Ok(())
}

#[test]
fn what_all_have_told_is_stable(rt: HostRuntime) -> Result<(), Fail> {
    let mut told = Told::new(rt.alloc());
    tell_all(&rt, rt.alloc(), &mut told)?;
    check_untold(&rt, rt.alloc(), &told)
}

fn given(alloc: Global) -> Result<Told, Fail> {
    let one = ToldSet {
        inc: Inc {
            server: 1,
            start: 1,
        },
        set: GtidSet::parse(alloc, TO_THREE)?,
    };
    let two = ToldSet {
        inc: Inc {
            server: 2,
            start: 1,
        },
        set: GtidSet::parse(alloc, TWO_TO_FIVE)?,
    };
    Ok(Told::restore(alloc, Sequence::from_vec(vec![in alloc; one, two]?))?)
}

fn has(told: &Told, server: u8, number: u64) -> bool {
    let source = [0xaa; 16];
    told.has(first_start(server), Gtid { source, number })
}

fn check_given(rt: &impl Abort, alloc: Global, told: &Told) -> Result<(), Fail> {
    let online = [first_start(1), first_start(2)];
    assert!(rt; is_stable(alloc, told, &online, TWO_AND_THREE)?);
    assert!(rt; has(told, 1, 3) && !has(told, 1, 4) && !has(told, 3, 3));
    Ok(())
}

#[test]
fn sets_given_are_taken_up(rt: HostRuntime) -> Result<(), Fail> {
    check_given(&rt, rt.alloc(), &given(rt.alloc())?)
}
