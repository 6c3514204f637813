use gr_ids::Memory;
use group_rules::Step;
use script_text::{Line, LineFault, make_script, parse_line, parse_scene, read_number};
use std::alloc::Global;

const GOOD: &str = "
   
#server 1
server 1 aaaaaaaa-aaaa-aaaa-aaaa-aaaaaaaaaaa1 8.0.36 50
  server  32 AAAAAAAA-aaaa-aaaa-aaaa-aaaaaaaaaaa1 8.0.17 100 
block 1
block 1000000
found aaaaaaaa-aaaa-aaaa-aaaa-aaaaaaaaaaaa multi 10 5 0 1 2 3
found aaaaaaaa-aaaa-aaaa-aaaa-aaaaaaaaaaaa single 200 3600 1000000 9 8 7 6 5 4 3 2 1
begin 1 1 EVENTUAL 1
begin 1 999999999 BEFORE_ON_PRIMARY_FAILOVER 1000000
begin 1 2 BEFORE 9
begin 1 2 AFTER 9
begin 1 2 BEFORE_AND_AFTER 9
get 1 2 t k
insert 1 2 t_1 # ~!
update 1 2 t k v
delete 1 2 t k
commit 1 2
rollback 1 2
once 1 insert t k v
once 1 update t k v
once 1 delete t k
deliver 1
deliver 18446744073709551615
lose 2
settle
settle 1 1 32
work 1
work 1 1
drain
tick 1
tick 1 10000
campaign 1
tell 1
leave 1
primary 1 2.4294967295
single 1
single 1 2.1
multi 1
start 1 2
stop 1
offline 1 t k v
donor 1 2.1
nodonor 1
show members 1
show slots 1
show config 1 1
show gtids 1
show rows 1
show queue 1
show certifier 1
show kept 1
show wire
once 32 insert abcdefghijabcdefghijabcdefghijabcdefghijabcdefghijabcdefghijabcd k v
work 1 18446744073709551615
show config 1 18446744073709551615
tick 32 1
found aaaaaaaa-aaaa-aaaa-aaaa-aaaaaaaaaaaa single 10 0 0 32";

const BAD: &str = " # 1
dance
begin 1 x
server 0 aaaaaaaa-aaaa-aaaa-aaaa-aaaaaaaaaaa1 8.0.36 50
server 33 aaaaaaaa-aaaa-aaaa-aaaa-aaaaaaaaaaa1 8.0.36 50
server 1 aaaaaaaaaaaaaaaaaaaaaaaaaaaaaaa1 8.0.36 50
server 1 aaaaaaaa-aaaa-aaaa-aaaa-aaaaaaaaaaa1 8.0.16 50
server 1 aaaaaaaa-aaaa-aaaa-aaaa-aaaaaaaaaaa1 8.0.36-rc 50
server 1 aaaaaaaa-aaaa-aaaa-aaaa-aaaaaaaaaaa1 8.0.36 101
server 1 aaaaaaaa-aaaa-aaaa-aaaa-aaaaaaaaaaa1 8.0.36
server 1 aaaaaaaa-aaaa-aaaa-aaaa-aaaaaaaaaaa1 8.0.36 50 1
block 0
block 1000001
block
found aaaaaaaa-aaaa-aaaa-aaaa-aaaaaaaaaaaa multi 9 5 0 1
found aaaaaaaa-aaaa-aaaa-aaaa-aaaaaaaaaaaa multi 201 5 0 1
found aaaaaaaa-aaaa-aaaa-aaaa-aaaaaaaaaaaa multi 10 3601 0 1
found aaaaaaaa-aaaa-aaaa-aaaa-aaaaaaaaaaaa multi 10 5 1000001 1
found aaaaaaaa-aaaa-aaaa-aaaa-aaaaaaaaaaaa multi 10 5 0
found aaaaaaaa-aaaa-aaaa-aaaa-aaaaaaaaaaaa multi 10 5 0 1 2 1
found aaaaaaaa-aaaa-aaaa-aaaa-aaaaaaaaaaaa multi 10 5 0 1 2 3 4 5 6 7 8 9 10
found aaaaaaaa-aaaa-aaaa-aaaa-aaaaaaaaaaaa both 10 5 0 1
begin 1 0 EVENTUAL 1
begin 1 1000000000 EVENTUAL 1
begin 1 1 eventual 1
begin 1 1 EVENTUAL 0
begin 1 1 EVENTUAL 1000001
begin 1 1 EVENTUAL
get 1 2 t
get 1 2 T k
get 1 2 1t k
get 1 2 t k v
insert 1 2 t k
update 1 2 t k v v
update 1 2 t \u{7f} v
delete 1 2 t k v
commit 1
commit 1 2 3
rollback 1 2 3
once 1 get t k
once 1 insert t k
once 1 delete t k v
once insert t k v
deliver 0
deliver 01
deliver +1
deliver 18446744073709551616
lose
settle 1 33
work
work 1 0
drain 1
tick 1 0
tick 1 10001
campaign
tell 1 2
leave 1 2
primary 1
primary 1 2
primary 1 2.0
primary 1 2.1.1
single 1 33.1
multi 1 2.1
start 1
stop 1 2
offline 1 t k
donor 1
nodonor 1 2.1
show members
show config 1
show config 1 0
show wire 1";

const GOOD_SCENES: &str = "
# 1 commit
server 1 aaaaaaaa-aaaa-aaaa-aaaa-aaaaaaaaaaa1 8.0.36 50
found aaaaaaaa-aaaa-aaaa-aaaa-aaaaaaaaaaaa multi 10 5 0 1 2 3
session 1 3
session 999999999 32
1 begin EVENTUAL 100
1 get t k
1 insert t k v
1 update t k v
1 delete t k
1 commit
1 rollback
2 campaign
2 tell
2 leave
2 primary 2.1
2 single
2 single 2.1
2 multi";

const BAD_SCENES: &str = "block 1
session 1
session 0 1
session 1 33
session 1 2 3
begin 1 1 EVENTUAL 100
0 commit
1 commit 1
1 once insert t k v
1 donor 2.1
1 nodonor
tick 1
drain
settle
01 commit";

fn line_fault(alloc: Global, line: &str) -> Option<LineFault> {
    parse_line(alloc, line.as_bytes(), 7).err()
}

fn scene_fault(alloc: Global, line: &str) -> Option<LineFault> {
    parse_scene(alloc, line.as_bytes(), 7).err()
}

#[test]
fn good_lines_are_read(rt: HostRuntime) {
    for line in GOOD.lines() {
        assert_eq!(rt; line_fault(rt.alloc(), line), None, "{line}");
    }
    for line in GOOD_SCENES.lines() {
        assert_eq!(rt; scene_fault(rt.alloc(), line), None, "{line}");
    }
}

#[test]
fn bad_lines_are_refused(rt: HostRuntime) {
    let bad = Some(LineFault::BadLine);
    for line in BAD.lines() {
        assert_eq!(rt; line_fault(rt.alloc(), line), bad, "{line}");
    }
    for line in BAD_SCENES.lines() {
        assert_eq!(rt; scene_fault(rt.alloc(), line), bad, "{line}");
    }
}

#[test]
fn numbers_end_at_64_bits(rt: HostRuntime) {
    assert_eq!(rt; read_number(b"0"), Some(0));
    assert_eq!(rt;
        read_number(b"18446744073709551615"),
        Some(18446744073709551615)
    );
    assert_eq!(rt; read_number(b"18446744073709551616"), None);
}

fn kind(line: &Line) -> &'static str {
    match &line.step {
        Some(Step::Operate { .. }) => "operate",
        Some(Step::Tick { .. }) => "tick",
        _ => "other",
    }
}

fn second_kind(lines: &[Line]) -> &'static str {
    match lines.get(1) {
        Some(line) => kind(line),
        None => "none",
    }
}

fn last_number(lines: &[Line]) -> u64 {
    match lines.last() {
        Some(line) => line.number,
        None => 0,
    }
}

// The first kind drawn from 7 is 6, and from 0 it is 7.
#[test]
fn scripts_are_made(rt: HostRuntime) -> Result<(), Memory> {
    let lines = make_script(rt.alloc(), 2, 7)?;
    assert_eq!(rt; lines.len(), 4);
    assert_eq!(rt; last_number(&lines), 4);
    assert_eq!(rt; second_kind(&lines), "tick");
    let lines = make_script(rt.alloc(), 1, 0)?;
    assert_eq!(rt; lines.len(), 3);
    assert_eq!(rt; second_kind(&lines), "operate");
    Ok(())
}
