// Scripts with their texts and statuses. In a script or a text `~` stands for 65,535 letters.
use crate::run::run_script;
use gr_io::{MemSink, MemSource};
use std::alloc::Global;
use std::test::Fail;

#[derive(Clone, Copy)]
struct Case {
    words: &'static str,
    script: &'static str,
    text: &'static str,
    status: u8,
}

fn play(script: &'static str, text: &'static str, status: u8) -> Case {
    Case {
        words: "play",
        script,
        text,
        status,
    }
}

fn refused(words: &'static str) -> Case {
    Case {
        words,
        script: BAD_BEHIND_COMMENTS,
        text: "",
        status: 2,
    }
}

/// The number of the pull or the push that fails, and of the push that takes nothing; 0 for none.
#[derive(Clone, Copy)]
struct Faults {
    pull: u64,
    push: u64,
    idle: u64,
}

const NO_FAULTS: Faults = Faults {
    pull: 0,
    push: 0,
    idle: 0,
};

/// A script that no member takes part in.
const BAD_BEHIND_COMMENTS: &str = "# a comment\n\nfound\n";

/// The first commit of a group.
const FIRST_COMMIT: &str = "found aaaaaaaa-aaaa-aaaa-aaaa-aaaaaaaaaaaa multi 10 5 0 1 2 3\n\
    once 1 insert t a 1\n\
    settle\n\
    work 2\n\
    work 3\n\
    show gtids 3\n";

const ITS_TEXT: &str = "1 1.1 state ONLINE\n\
    1 2.1 state ONLINE\n\
    1 3.1 state ONLINE\n\
    2 1.1 answer o2 begun -\n\
    2 1.1 answer o2 changed\n\
    2 1.1 answer o2 sent 1.1#1\n\
    3 1.1 took 1 1.1#1 txn positive aaaaaaaa-aaaa-aaaa-aaaa-aaaaaaaaaaaa:1\n\
    3 1.1 committed aaaaaaaa-aaaa-aaaa-aaaa-aaaaaaaaaaaa:1\n\
    3 1.1 answer o2 committed aaaaaaaa-aaaa-aaaa-aaaa-aaaaaaaaaaaa:1\n\
    3 2.1 took 1 1.1#1 txn positive aaaaaaaa-aaaa-aaaa-aaaa-aaaaaaaaaaaa:1\n\
    3 3.1 took 1 1.1#1 txn positive aaaaaaaa-aaaa-aaaa-aaaa-aaaaaaaaaaaa:1\n\
    4 2.1 done 1\n\
    4 2.1 committed aaaaaaaa-aaaa-aaaa-aaaa-aaaaaaaaaaaa:1\n\
    5 3.1 done 1\n\
    5 3.1 committed aaaaaaaa-aaaa-aaaa-aaaa-aaaaaaaaaaaa:1\n\
    6 3.1 gtids aaaaaaaa-aaaa-aaaa-aaaa-aaaaaaaaaaaa:1\n";

/// How many bytes of it, and of its text, there are up to the end of each line.
const ITS_LINES: [(usize, usize); 6] = [
    (62, 57),
    (82, 132),
    (89, 465),
    (96, 533),
    (103, 601),
    (116, 652),
];

// The text of the whole lines among so many bytes of the first commit.
fn text_behind(alloc: Global, pulled: usize) -> Result<Vec<u8>, Fail> {
    let mut count = 0usize;
    for (read, written) in ITS_LINES.iter() {
        if *read <= pulled {
            count = *written;
        }
    }
    let mut text = Vec::new(alloc);
    for (at, byte) in ITS_TEXT.as_bytes().iter().enumerate() {
        if at < count {
            text.push(*byte)?;
        }
    }
    Ok(text)
}

fn expanded(alloc: Global, text: &str) -> Result<Vec<u8>, Fail> {
    let mut bytes = Vec::new(alloc);
    for byte in text.as_bytes().iter() {
        match *byte {
            b'~' => bytes.extend_from_slice(&[b'x'; 65_535])?,
            byte => bytes.push(byte)?,
        }
    }
    Ok(bytes)
}

// The status and what was written, of a script that is pulled `most` bytes at a time.
fn outcome(alloc: Global, case: &Case, most: usize, faults: Faults) -> Result<(u8, Vec<u8>), Fail> {
    let mut words = Vec::new(alloc);
    for word in case.words.split(' ') {
        words.push(String::from_str(alloc, word)?)?;
    }
    let script = expanded(alloc, case.script)?;
    let mut source = MemSource::new(script, most.max(1), [faults.pull].to_vec(alloc)?);
    let mut sink = MemSink::new(
        alloc,
        1_000_000,
        [faults.push].to_vec(alloc)?,
        [faults.idle].to_vec(alloc)?,
    );
    let status = run_script(alloc, &words, &mut source, &mut sink);
    Ok((status.code(), sink.bytes().to_vec(alloc)?))
}

#[test]
fn scripts_have_their_texts_and_statuses(rt: HostRuntime) -> Result<(), Fail> {
    let cases = [
        play("", "", 0),
        play(FIRST_COMMIT, ITS_TEXT, 0),
        play("# x\n   \n\n # y", "4 bad line\n", 5),
        play("# x\n   \n\n# y", "", 0),
        play("begin 1 x\n", "1 bad line\n", 5),
        play("drain\r", "1 bad line\n", 5),
        play("#\r\nblock 0\r\n", "2 bad line\n", 5),
        play("#~", "", 0),
        play("#~\n#~\r\nx\n", "3 bad line\n", 5),
        play("#~x", "1 limit line 65536\n", 7),
        play("\n#~x\r\nsettle\n", "2 limit line 65536\n", 7),
        refused("dance"),
        refused("--help"),
        refused("play play"),
        refused("play --"),
        refused("play --report --report"),
        refused("make 5"),
        refused("make +5 1"),
        refused("make 20001 1"),
        refused("make 000000000000000000005 1"),
        refused("make 5 18446744073709551616"),
    ];
    for case in cases.iter() {
        for most in [7usize, 100_000] {
            let (status, text) = outcome(rt.alloc(), case, most, NO_FAULTS)?;
            assert_eq!(rt;
                (status, text.as_slice()),
                (case.status, case.text.as_bytes())
            );
        }
    }
    Ok(())
}

// Each pull fails in turn, the last one at the end: what was written is the text of the lines pulled before.
#[test]
fn sources_fail(rt: HostRuntime) -> Result<(), Fail> {
    let case = play(FIRST_COMMIT, ITS_TEXT, 0);
    let mut pulled = 0usize;
    for pull in 1..19u64 {
        let faults = Faults { pull, ..NO_FAULTS };
        let (status, text) = outcome(rt.alloc(), &case, 7, faults)?;
        let wanted = text_behind(rt.alloc(), pulled)?;
        assert_eq!(rt; (status, text.as_slice()), (3, wanted.as_slice()));
        pulled = pulled.saturating_add(7);
    }
    Ok(())
}

// Each push fails in turn, and takes nothing in turn: what was written is the text of the lines before.
#[test]
fn sinks_fail(rt: HostRuntime) -> Result<(), Fail> {
    let case = play(FIRST_COMMIT, ITS_TEXT, 0);
    let mut push = 1u64;
    let mut pulled = 0usize;
    for (read, _) in ITS_LINES.iter() {
        let wanted = text_behind(rt.alloc(), pulled)?;
        let faults = Faults { push, ..NO_FAULTS };
        let (status, text) = outcome(rt.alloc(), &case, 7, faults)?;
        assert_eq!(rt; (status, text.as_slice()), (4, wanted.as_slice()));
        let faults = Faults {
            idle: push,
            ..NO_FAULTS
        };
        let (status, text) = outcome(rt.alloc(), &case, 7, faults)?;
        assert_eq!(rt; (status, text.as_slice()), (4, wanted.as_slice()));
        push = push.saturating_add(1);
        pulled = *read;
    }
    Ok(())
}
