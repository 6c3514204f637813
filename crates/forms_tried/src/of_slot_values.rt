use gr_ids::{Inc, Memory, Pos, ValueId};
use slot_values::{Kept, Turns, Value, What};
use std::alloc::Global;
use std::process::Abort;

const A: Inc = Inc {
    server: 1,
    start: 1,
};

const B: Inc = Inc {
    server: 2,
    start: 1,
};

const C: Inc = Inc {
    server: 3,
    start: 1,
};

fn value(origin: Inc, number: u64, what: What) -> Value {
    Value {
        id: ValueId { origin, number },
        what,
    }
}

// What is chosen in a slot: a value of 1.1 in slots 1 and 2; slot 5 removes 3.1, which so rules from slot 15 on.
fn chosen(slot: u64) -> Value {
    match slot {
        1 | 2 => value(A, 1, What::Remove(B)),
        3 => value(C, 0, What::Noop),
        4 => value(B, 1, What::Remove(B)),
        5 => value(C, 1, What::Remove(C)),
        _ => value(A, 2, What::Remove(A)),
    }
}

fn kept(slot: u64) -> Kept {
    match slot {
        1 => Kept::At(Pos(1), true),
        5 => Kept::At(Pos(2), true),
        6 => Kept::At(Pos(3), false),
        _ => Kept::Skipped,
    }
}

fn take(rt: &impl Abort, alloc: Global, turns: &mut Turns, slot: u64) -> Result<(), Memory> {
    let before = turns.at(alloc)?;
    assert!(rt; before.slot < 1 << 42);
    assert!(rt; turns.take(alloc, &chosen(slot))? == kept(slot));
    Ok(())
}

fn take_six(rt: &impl Abort, alloc: Global, turns: &mut Turns) -> Result<(), Memory> {
    for slot in 1..7 {
        take(rt, alloc, turns, slot)?;
    }
    Ok(())
}

fn check_configs(rt: &impl Abort, turns: &mut Turns) {
    assert!(rt; turns.config(10) == Some([A, B, C].as_slice()));
    assert!(rt; turns.config(14) == Some([A, C].as_slice()));
    assert!(rt; turns.config(15) == Some([A].as_slice()));
    assert!(rt; turns.config(0).is_none() && turns.config(17).is_none());
    turns.forget(6);
    assert!(rt; turns.config(5).is_none() && turns.config(6).is_some());
}

fn check_members(rt: &impl Abort, turns: &Turns) {
    assert!(rt; turns.members() == [A].as_slice());
    assert_eq!(rt; (turns.last(A), turns.last(B), turns.last(C)), (2, 0, 1));
}

#[test]
fn values_are_kept_once_and_a_remove_rules_behind_the_horizon(
    rt: HostRuntime,
) -> Result<(), Memory> {
    let mut turns = Turns::new(rt.alloc(), &[A, B, C], 10)?;
    take_six(&rt, rt.alloc(), &mut turns)?;
    check_members(&rt, &turns);
    check_configs(&rt, &mut turns);
    Ok(())
}
