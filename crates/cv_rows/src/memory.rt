//! Sources and sinks in memory, and failures in mid-stream.

use cv_io::{MemSink, MemSource, ReadErr, SinkErr, SureSink, SureSource, put, read_all};
use std::alloc::{AllocError, Global};
use std::test::Fail;

fn bytes(alloc: Global, text: &str) -> Result<Vec<u8>, AllocError> {
    Vec::from_slice(alloc, text.as_bytes())
}

#[test]
fn all_bytes_are_read(rt: HostRuntime) -> Result<(), Fail> {
    let alloc = rt.alloc();
    let mut exact = SureSource::new(bytes(alloc, "abc")?, 2);
    assert_eq!(rt;
        read_all(alloc, &mut exact, 3)?.as_slice(),
        b"abc".as_slice()
    );
    let mut long = SureSource::new(bytes(alloc, "abc")?, 2);
    assert_eq!(rt; read_all(alloc, &mut long, 2).err(), Some(ReadErr::TooLong));
    Ok(())
}

#[test]
fn a_source_fails_in_mid_stream(rt: HostRuntime) -> Result<(), Fail> {
    let alloc = rt.alloc();
    let fails = vec![in alloc; 1]?;
    let mut source = MemSource::new(bytes(alloc, "abcde")?, 2, fails);
    assert_eq!(rt;
        read_all(alloc, &mut source, 5).err(),
        Some(ReadErr::Failed)
    );
    assert_eq!(rt;
        read_all(alloc, &mut source, 5)?.as_slice(),
        b"cde".as_slice()
    );
    Ok(())
}

#[test]
fn a_piece_is_taken(rt: HostRuntime) -> Result<(), Fail> {
    let mut sink = SureSink::new(rt.alloc());
    put(&mut sink, b"abc")?;
    assert_eq!(rt; sink.taken(), b"abc".as_slice());
    Ok(())
}

#[test]
fn a_sink_fails_in_mid_stream(rt: HostRuntime) -> Result<(), Fail> {
    let alloc = rt.alloc();
    let fails = vec![in alloc; 1]?;
    let mut sink = MemSink::new(alloc, 7, fails);
    assert_eq!(rt; put(&mut sink, b"0 --a = 1px"), Err(SinkErr::Failed));
    assert_eq!(rt; sink.taken(), b"0 --a =".as_slice());
    put(&mut sink, b" 1px")?;
    assert_eq!(rt; sink.taken(), b"0 --a = 1px".as_slice());
    Ok(())
}
