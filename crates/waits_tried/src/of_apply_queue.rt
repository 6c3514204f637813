ghost use Rattle.std.specs.Prelude.{◌≡◌, [], IfOk};

use apply_queue::{Queue, QueueFault, Work, WorkDone};
use gr_ids::{Blob, Gtid, Memory, Pos};
use std::alloc::Global;
use std::process::Abort;
use std::test::Fail;
use txn_forms::{Body, decode};

fn gtid(number: u64) -> Gtid {
    Gtid {
        source: [7; 16],
        number,
    }
}

// A transaction that deletes the row of this key, at this place.
fn work<R: Abort>(rt: &R, alloc: Global, place: u64, key: u8) -> Result<Work, Memory>
    ensures { IfOk result (λ w. w.place ≡ place) }
{
    let bytes = [
        1, 0, 0, 0, 0, 0, 0, 0, 0, 1, 1, b't', 1, key, 0, 0, 0, 1, 0, 0, 0, 0, 3,
    ];
    let body = Blob::of(alloc, &bytes)?;
    match decode(alloc, body.as_slice()) {
        Ok(Body::Txn(_)) => {}
        _ => panic!(rt; "no transaction"),
    }
    Ok(Work {
        place: Pos(place),
        gtid: gtid(place),
        body,
    })
}

fn done<R: Abort>(rt: &R, alloc: Global, place: u64, key: u8) -> Result<WorkDone, Memory> {
    WorkDone::of(alloc, work(rt, alloc, place, key)?)
}

fn place_of(work: Option<Work>) -> u64 {
    match work {
        Some(work) => work.place.0,
        None => 0,
    }
}

fn place_of_done(done: Option<WorkDone>) -> u64 {
    match done {
        Some(done) => done.place.0,
        None => 0,
    }
}

/// The next commit below a barrier takes this place; 0 where nothing is committed.
#[derive(Clone, Copy)]
struct CommitRow {
    barrier: Option<Pos>,
    place: u64,
}

const fn commit_row(barrier: Option<Pos>, place: u64) -> CommitRow {
    CommitRow { barrier, place }
}

/// How the result of a transaction, told by its place and key, is answered.
#[derive(Clone, Copy)]
struct ResultRow {
    place: u64,
    key: u8,
    refused: Option<QueueFault>,
}

const fn result_row(place: u64, key: u8, refused: Option<QueueFault>) -> ResultRow {
    ResultRow {
        place,
        key,
        refused,
    }
}

// The places 2, 3 and 5.
fn queue_three<R: Abort>(rt: &R, alloc: Global, queue: &mut Queue) -> Result<(), Memory>
    requires { queue.old ≡ [] }
{
    queue.push(Pos(2), work(rt, alloc, 2, b'a')?)?;
    queue.push(Pos(3), work(rt, alloc, 3, b'b')?)?;
    queue.push(Pos(5), work(rt, alloc, 5, b'c')?)?;
    Ok(())
}

// The places 2 and 4.
fn queue_two<R: Abort>(rt: &R, alloc: Global, queue: &mut Queue) -> Result<(), Memory>
    requires { queue.old ≡ [] }
{
    queue.push(Pos(2), work(rt, alloc, 2, b'a')?)?;
    queue.push(Pos(4), work(rt, alloc, 4, b'b')?)?;
    Ok(())
}

fn hand_out(rt: &impl Abort, queue: &mut Queue, place: u64) -> Result<(), Fail> {
    assert_eq!(rt; place_of(queue.next_work()?), place);
    Ok(())
}

fn finish<R: Abort>(
    rt: &R,
    alloc: Global,
    queue: &mut Queue,
    place: u64,
    key: u8,
) -> Result<(), Fail> {
    let done = done(rt, alloc, place, key)?;
    assert_eq!(rt; queue.done(done), Ok(()));
    Ok(())
}

fn commit_one(rt: &impl Abort, queue: &mut Queue, row: CommitRow) {
    assert_eq!(rt; place_of_done(queue.commits(row.barrier)), row.place);
}

fn commit_rows(rt: &impl Abort, queue: &mut Queue, rows: &[CommitRow]) {
    for row in rows {
        commit_one(rt, queue, *row);
    }
}

// The last place is done first, so nothing is committed.
fn finish_last<R: Abort>(rt: &R, alloc: Global, queue: &mut Queue) -> Result<(), Fail> {
    hand_out(rt, queue, 2)?;
    hand_out(rt, queue, 3)?;
    finish(rt, alloc, queue, 5, b'c')?;
    hand_out(rt, queue, 0)?;
    assert!(rt; !queue.front_is_done(Pos(2)) && !queue.front_is_done(Pos(5)));
    commit_one(rt, queue, commit_row(None, 0));
    Ok(())
}

fn finish_others<R: Abort>(rt: &R, alloc: Global, queue: &mut Queue) -> Result<(), Fail> {
    finish(rt, alloc, queue, 3, b'b')?;
    commit_one(rt, queue, commit_row(None, 0));
    finish(rt, alloc, queue, 2, b'a')?;
    assert!(rt; queue.front_is_done(Pos(2)) && !queue.front_is_done(Pos(3)));
    Ok(())
}

fn commit_all(rt: &impl Abort, queue: &mut Queue) {
    let rows = [
        commit_row(Some(Pos(2)), 0),
        commit_row(Some(Pos(3)), 2),
        commit_row(Some(Pos(3)), 0),
        commit_row(None, 3),
        commit_row(None, 5),
        commit_row(None, 0),
    ];
    commit_rows(rt, queue, &rows);
}

#[test]
fn places_are_committed_in_order(rt: HostRuntime) -> Result<(), Fail> {
    let alloc = rt.alloc();
    let mut queue = Queue::new(alloc);
    queue_three(&rt, alloc, &mut queue)?;
    finish_last(&rt, alloc, &mut queue)?;
    finish_others(&rt, alloc, &mut queue)?;
    commit_all(&rt, &mut queue);
    Ok(())
}

fn answer_one<R: Abort>(
    rt: &R,
    alloc: Global,
    queue: &mut Queue,
    row: ResultRow,
) -> Result<(), Fail> {
    let done = done(rt, alloc, row.place, row.key)?;
    assert_eq!(rt; queue.accepts(&done).err(), row.refused);
    assert_eq!(rt; queue.done(done).err(), row.refused);
    Ok(())
}

fn answer_rows<R: Abort>(
    rt: &R,
    alloc: Global,
    queue: &mut Queue,
    rows: &[ResultRow],
) -> Result<(), Fail> {
    for row in rows {
        answer_one(rt, alloc, queue, *row)?;
    }
    Ok(())
}

fn answer_all<R: Abort>(rt: &R, alloc: Global, queue: &mut Queue) -> Result<(), Fail> {
    let rows = [
        result_row(2, b'a', None),
        result_row(2, b'a', Some(QueueFault::AlreadyDone { pos: Pos(2) })),
        result_row(2, b'b', Some(QueueFault::NotQueued { pos: Pos(2) })),
        result_row(3, b'a', Some(QueueFault::NotQueued { pos: Pos(3) })),
        result_row(4, b'a', Some(QueueFault::NotQueued { pos: Pos(4) })),
        result_row(4, b'b', None),
    ];
    answer_rows(rt, alloc, queue, &rows)
}

fn check_places(rt: &impl Abort, alloc: Global, queue: &Queue) -> Result<(), Fail> {
    let shown = queue.places(alloc)?;
    assert_eq!(rt; shown.as_slice().len(), 2);
    assert!(rt; shown.as_slice().iter().all(|queued| queued.done));
    Ok(())
}

#[test]
fn results_of_other_places_are_refused(rt: HostRuntime) -> Result<(), Fail> {
    let alloc = rt.alloc();
    let mut queue = Queue::new(alloc);
    queue_two(&rt, alloc, &mut queue)?;
    answer_all(&rt, alloc, &mut queue)?;
    assert!(rt; queue.work(Pos(3)).is_none());
    assert!(rt; queue.work(Pos(4)).is_some());
    check_places(&rt, alloc, &queue)
}
