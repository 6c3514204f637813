use crate::{MemSink, PutFault, Sink, Source, StdSink, StdSource, SureSink, SureSource, put_all};
use std::io::Cursor;
use std::test::Fail;

#[test]
fn std_source_pulls_to_the_end(rt: HostRuntime) -> Result<(), Fail> {
    let bytes = b"abcde".to_vec(rt.alloc())?;
    let mut source = StdSource::new(Cursor::new(bytes));
    let mut piece = [0u8; 4];
    assert!(rt; source.pull(&mut piece) == Ok(4));
    assert_eq!(rt; piece.as_slice(), b"abcd".as_slice());
    assert!(rt; source.pull(&mut piece) == Ok(1));
    assert_eq!(rt; piece[0], b'e');
    assert!(rt; source.pull(&mut piece) == Ok(0));
    Ok(())
}

#[test]
fn std_sink_takes_all(rt: HostRuntime) -> Result<(), Fail> {
    let mut written = Vec::new(rt.alloc());
    let put = put_all(&mut StdSink::new(&mut written), b"abc");
    assert!(rt; put == Ok(()));
    assert_eq!(rt; written.as_slice(), b"abc".as_slice());
    Ok(())
}

#[test]
fn puts_stop_where_they_are_told(rt: HostRuntime) -> Result<(), Fail> {
    let mut calls = Vec::new(rt.alloc());
    calls.push(3)?;
    let mut sink = MemSink::new(rt.alloc(), 2, calls, Vec::new(rt.alloc()));
    assert!(rt; put_all(&mut sink, b"abcdef") == Err(PutFault::Failed { taken: 4 }));
    assert_eq!(rt; sink.bytes(), b"abcd".as_slice());
    let mut calls = Vec::new(rt.alloc());
    calls.push(2)?;
    let mut idle = MemSink::new(rt.alloc(), 3, Vec::new(rt.alloc()), calls);
    assert!(rt; put_all(&mut idle, b"abcdef") == Err(PutFault::TookNothing { taken: 3 }));
    let mut sure = SureSink::new(rt.alloc());
    assert!(rt; sure.push(b"xy") == Ok(2));
    assert_eq!(rt; sure.bytes(), b"xy".as_slice());
    let mut source = SureSource::new(b"z".to_vec(rt.alloc())?, 1);
    let mut piece = [0u8; 2];
    assert!(rt; source.pull(&mut piece) == Ok(1));
    Ok(())
}
