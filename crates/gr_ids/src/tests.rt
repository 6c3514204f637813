use crate::{BadUuid, Blob, Sequence, majority, read_uuid, write_uuid};
use std::test::Fail;

#[derive(Clone, Copy)]
struct Case {
    text: &'static [u8],
    written: Option<&'static [u8]>,
}

#[test]
fn uuids_are_read_and_written(rt: HostRuntime) -> Result<(), Fail> {
    let cases = [
        Case {
            text: b"3E11FA47-71ca-11e1-9E33-c80aa9429562",
            written: Some(b"3e11fa47-71ca-11e1-9e33-c80aa9429562"),
        },
        Case {
            text: b"3E11FA47-71CA-11E1-9E33-C80AA942956",
            written: None,
        },
        Case {
            text: b"3E11FA47-71CA-11E1-9E33-C80AA94295622",
            written: None,
        },
        Case {
            text: b"3E11FA4771CA11E19E33C80AA9429562",
            written: None,
        },
        Case {
            text: b"3E11FA47-71CA-11E1-9E33-C80AA942956g",
            written: None,
        },
        Case {
            text: b"",
            written: None,
        },
    ];
    for case in cases.iter() {
        match (read_uuid(case.text), case.written) {
            (Ok(id), Some(text)) => assert_eq!(rt; write_uuid(id).as_slice(), text),
            (read, written) => assert!(rt; read == Err(BadUuid) && written.is_none()),
        }
    }
    Ok(())
}

#[test]
fn lists_hold_what_they_are_given(rt: HostRuntime) -> Result<(), Fail> {
    let blob = Blob::of(rt.alloc(), b"abc")?;
    assert_eq!(rt; (blob.as_slice(), blob.len()), (b"abc".as_slice(), 3));
    let list = Sequence::from_vec(b"xy".to_vec(rt.alloc())?);
    assert_eq!(rt; list.as_slice(), b"xy".as_slice());
    let needed = [1, 2, 2, 3, 3, 4, 4, 5, 5];
    for (i, least) in needed.iter().enumerate() {
        assert_eq!(rt; majority(i + 1), *least);
    }
    Ok(())
}
