use gr_ids::{Blob, Inc, MemberState, Mode, Pos, ValueId};
use group_rules::Effect;
use gtid_sets::GtidSet;
use slot_values::{Joiner, Value, What};
use std::alloc::Global;
use std::process::Abort;
use std::test::Fail;
use txn_forms::{Body, ModeChange};
use view_changes::View;

fn first_start(server: u8) -> Inc {
    Inc { server, start: 1 }
}

/// The first incarnation of a server whose UUID ends in its number.
fn joiner(server: u8) -> Joiner {
    let mut uuid = [0; 16];
    uuid[15] = server;
    Joiner {
        inc: first_start(server),
        uuid,
        version: [8, 0, 36],
        weight: 50,
    }
}

fn value(origin: u8, what: What) -> Value {
    Value {
        id: ValueId {
            origin: first_start(origin),
            number: 1,
        },
        what,
    }
}

/// The value of a body; its bytes aren't looked at.
fn saying(alloc: Global, origin: u8) -> Value {
    value(origin, What::Body(Blob::from_vec(Vec::new(alloc))))
}

// An Add or a Remove takes effect.
fn change(
    rt: &impl Abort,
    alloc: Global,
    view: &mut View,
    place: u64,
    entry: &Value,
) -> Result<(), Fail> {
    assert!(rt; view.number() < 100);
    let effect = view.take(alloc, Pos(place), entry, None, true)?;
    assert!(rt; effect == Effect::Plain);
    Ok(())
}

// An entry of this server holds a body, if it can be read.
fn say(
    rt: &impl Abort,
    alloc: Global,
    view: &mut View,
    place: u64,
    by: u8,
    body: Option<&Body>,
) -> Result<Effect, Fail> {
    assert!(rt; view.number() < 100);
    Ok(view.take(alloc, Pos(place), &saying(alloc, by), body, false)?)
}

fn check_primary(rt: &impl Abort, view: &View, primary: u8, elected: u64, number: u64) {
    assert!(rt; view.primary() == Some(first_start(primary)));
    assert!(rt; view.elected() == Pos(elected));
    assert_eq!(rt; view.number(), number);
}

// Server 1 is added; the primary is removed.
fn change_members(rt: &impl Abort, alloc: Global, view: &mut View) -> Result<(), Fail> {
    assert!(rt; view.primary() == Some(first_start(2)));
    change(rt, alloc, view, 1, &value(2, What::Add(joiner(1))))?;
    assert!(rt; view.state(first_start(1)) == Some(MemberState::Recovering));
    assert_eq!(rt; view.number(), 2);
    change(rt, alloc, view, 2, &value(3, What::Remove(first_start(2))))?;
    check_primary(rt, view, 3, 2, 3);
    Ok(())
}

fn come_online(rt: &impl Abort, alloc: Global, view: &mut View) -> Result<(), Fail> {
    let online = Body::Online(GtidSet::new(alloc));
    let _ = say(rt, alloc, view, 3, 1, Some(&online))?;
    assert!(rt; view.state(first_start(1)) == Some(MemberState::Online));
    Ok(())
}

// Server 1 becomes the primary, and is named again.
fn name_primary(rt: &impl Abort, alloc: Global, view: &mut View) -> Result<(), Fail> {
    let named = Body::Primary(first_start(1));
    assert!(rt; say(rt, alloc, view, 4, 3, Some(&named))? == Effect::Plain);
    assert!(rt; say(rt, alloc, view, 5, 3, Some(&named))? == Effect::Void);
    check_primary(rt, view, 1, 4, 3);
    Ok(())
}

fn change_mode(rt: &impl Abort, alloc: Global, view: &mut View) -> Result<(), Fail> {
    let multi = Body::Mode(ModeChange::Multi);
    assert!(rt; say(rt, alloc, view, 6, 3, Some(&multi))? == Effect::Plain);
    assert!(rt; say(rt, alloc, view, 7, 3, None)? == Effect::Unread);
    assert!(rt; view.primary().is_none());
    Ok(())
}

fn check_resumed(rt: &impl Abort, view: &View) {
    assert!(rt; view.mode() == Mode::Multi && view.number() == 3);
    assert!(rt; view.state(first_start(1)) == Some(MemberState::Online));
    assert!(rt; view.state(first_start(2)).is_none());
}

fn follow(rt: &impl Abort, alloc: Global, view: &mut View) -> Result<(), Fail> {
    change_members(rt, alloc, view)?;
    come_online(rt, alloc, view)?;
    name_primary(rt, alloc, view)?;
    change_mode(rt, alloc, view)?;
    check_resumed(rt, &View::resume(view.at(alloc)?));
    Ok(())
}

#[test]
fn a_primary_is_followed_by_an_online_member(rt: HostRuntime) -> Result<(), Fail> {
    let founders = [joiner(2), joiner(3)];
    let mut view = View::founding(rt.alloc(), &founders, Mode::Single)?;
    follow(&rt, rt.alloc(), &mut view)
}
