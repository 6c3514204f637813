ghost use Rattle.std.specs.Prelude.{◌≡◌, ◌≤◌, IfOk, length};
ghost use Rattle.key_items.specs.Spelling.{IsItem};

use gr_ids::{Blob, Gtid, Inc, Level, Memory, Mode, Pos, Sequence, SessionId, ValueId};
use group_rules::Answer;
use key_items::{Change, ChangeKind, Item, WriteSet};
use local_sessions::CommitStep;
use member_tables::MemberTables;
use std::alloc::Global;
use std::process::Abort;
use std::test::Fail;

const ME: Inc = Inc {
    server: 1,
    start: 1,
};

fn item(alloc: Global) -> Result<Item, Memory>
    ensures { IfOk result (λ i. IsItem i) }
{
    Ok(Item {
        table: Blob::of(alloc, b"t")?,
        key: Blob::of(alloc, b"a")?,
    })
}

fn gtid(number: u64) -> Gtid
    ensures { result.number ≡ number }
{
    Gtid {
        source: [7; 16],
        number,
    }
}

fn id(number: u64) -> ValueId {
    ValueId { origin: ME, number }
}

// The row of the item becomes this one.
fn write(alloc: Global, row: &[u8]) -> Result<Sequence<Change>, Memory> {
    let mut changes = Vec::new(alloc);
    changes.push(Change {
        item: item(alloc)?,
        what: ChangeKind::Insert(Blob::of(alloc, row)?),
    })?;
    Ok(Sequence::from_vec(changes))
}

fn begin(rt: &impl Abort, tables: &mut MemberTables, session: u32) -> Result<(), Fail> {
    let answer = tables.begin(SessionId(session), Level::Eventual, 3)?;
    assert!(rt; matches!(answer, Answer::Held));
    Ok(())
}

fn open(rt: &impl Abort, tables: &mut MemberTables, session: u32) -> Result<(), Fail> {
    begin(rt, tables, session)?;
    assert!(rt; tables.is_held(SessionId(session)));
    let _ = tables.begun(SessionId(session), None)?;
    Ok(())
}

// The session updates the row, and its commit is asked as value 1.
fn ask(rt: &impl Abort, alloc: Global, tables: &mut MemberTables) -> Result<(), Fail> {
    let answer = tables.insert(SessionId(1), item(alloc)?, Blob::of(alloc, b"1")?)?;
    assert!(rt; matches!(answer, Answer::Changed));
    match tables.commit_call(SessionId(1))? {
        CommitStep::Ready(_) => {
            let _ = tables.sent(SessionId(1), id(1));
        }
        CommitStep::Said(_) => assert!(rt; false),
    }
    Ok(())
}

// The length of the row that the session gets.
fn row(
    rt: &impl Abort,
    alloc: Global,
    tables: &mut MemberTables,
    session: u32,
) -> Result<usize, Fail> {
    match tables.get(SessionId(session), item(alloc)?)? {
        Answer::Got(Some(row)) => Ok(row.len()),
        Answer::Got(None) => Ok(0),
        _ => {
            assert!(rt; false);
            Ok(0)
        }
    }
}

// A place that writes the row is done.
fn finish(alloc: Global, tables: &mut MemberTables) -> Result<(), Memory> {
    let mut items = WriteSet::new(alloc);
    items.add(item(alloc)?)?;
    tables.done(Pos(2), gtid(2), &items)
}

// The commit of an own transaction is answered, and what it wrote is read.
fn commit(rt: &impl Abort, alloc: Global, tables: &mut MemberTables) -> Result<(), Fail> {
    open(rt, tables, 1)?;
    ask(rt, alloc, tables)?;
    let told = tables.commit(Pos(1), gtid(1), Some(id(1)), write(alloc, b"1")?)?;
    assert!(rt; matches!(told, Some(_)));
    open(rt, tables, 1)?;
    assert_eq!(rt; row(rt, alloc, tables, 1)?, 1);
    Ok(())
}

// A place that is done kills.
fn kill(rt: &impl Abort, alloc: Global, tables: &mut MemberTables) -> Result<(), Fail> {
    open(rt, tables, 1)?;
    let _ = tables.insert(SessionId(1), item(alloc)?, Blob::of(alloc, b"1")?)?;
    finish(alloc, tables)?;
    let answer = tables.rollback(SessionId(1))?;
    assert!(rt; matches!(answer, Answer::Killed(_)));
    Ok(())
}

// A conflict is answered.
fn fail(rt: &impl Abort, alloc: Global, tables: &mut MemberTables) -> Result<(), Fail> {
    open(rt, tables, 1)?;
    ask(rt, alloc, tables)?;
    let told = tables.conflict(id(1), gtid(1));
    assert!(rt; matches!(told, Some(_)));
    Ok(())
}

// Of two begins that are held one times out, and the other is told of a fall.
fn tell(rt: &impl Abort, tables: &mut MemberTables) -> Result<(), Fail> {
    begin(rt, tables, 1)?;
    begin(rt, tables, 2)?;
    assert!(rt; tables.is_held(SessionId(2)));
    let _ = tables.timed_out(SessionId(2), 3);
    assert_eq!(rt; tables.fall(&[])?.as_slice().len(), 1);
    Ok(())
}

#[test]
fn a_commit_is_answered_and_read(rt: HostRuntime) -> Result<(), Fail> {
    let alloc = rt.alloc();
    let mut tables = MemberTables::founded(alloc, ME, Mode::Multi, None);
    commit(&rt, alloc, &mut tables)
}

#[test]
fn a_done_place_kills(rt: HostRuntime) -> Result<(), Fail> {
    let alloc = rt.alloc();
    let mut tables = MemberTables::founded(alloc, ME, Mode::Multi, None);
    kill(&rt, alloc, &mut tables)
}

#[test]
fn those_that_wait_are_told(rt: HostRuntime) -> Result<(), Fail> {
    let alloc = rt.alloc();
    let mut tables = MemberTables::founded(alloc, ME, Mode::Multi, None);
    fail(&rt, alloc, &mut tables)?;
    tell(&rt, &mut tables)
}
