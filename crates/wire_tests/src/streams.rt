//! Bytes go through where memory is there, and listed faults come at their calls.
use dcp_io::*;
use std::test::Fail;

/// Whether the second of four takes alone fails, and the others give three bytes and the end.
fn second_take_fails(source: &mut MemSource) -> bool {
    let mut room = [0; 2];
    matches!(source.take(&mut room), Took::Bytes(2))
        && matches!(source.take(&mut room), Took::Failed)
        && matches!(source.take(&mut room), Took::Bytes(1))
        && matches!(source.take(&mut room), Took::End)
        && source.faults() == 1
}

#[test]
fn listed_takes_fail(rt: HostRuntime) -> Result<(), Fail> {
    let mut source = MemSource::new(rt.alloc(), b"abc", &[2])?;
    assert!(rt; second_take_fails(&mut source));
    Ok(())
}

/// Whether the third of three puts alone fails.
fn third_put_fails(sink: &mut MemSink) -> bool {
    matches!(sink.put(b"ab"), Put::Done)
        && matches!(sink.put(b"c"), Put::Done)
        && matches!(sink.put(b"d"), Put::Failed)
        && sink.bytes() == b"abc".as_slice()
        && sink.faults() == 1
}

#[test]
fn listed_puts_fail(rt: HostRuntime) -> Result<(), Fail> {
    let mut sink = MemSink::new(rt.alloc(), &[3])?;
    assert!(rt; third_put_fails(&mut sink));
    Ok(())
}

/// Whether a source gives three bytes at once, and then the end.
fn gives_three_bytes<I: Source>(source: &mut I) -> bool {
    let mut room = [0; 4];
    matches!(source.take(&mut room), Took::Bytes(3)) && matches!(source.take(&mut room), Took::End)
}

#[test]
fn sources_give_all_bytes(rt: HostRuntime) -> Result<(), Fail> {
    assert!(rt; gives_three_bytes(&mut Reading::new(b"abc".as_slice())));
    assert!(rt; gives_three_bytes(&mut SliceSource::new(b"abc")));
    Ok(())
}

#[test]
fn an_adapter_writes_all_bytes(rt: HostRuntime) -> Result<(), Fail> {
    let mut text = Vec::new(rt.alloc());
    let put = Writing::new(&mut text).put(b"abc");
    assert!(rt; matches!(put, Put::Done));
    assert_eq!(rt; text.as_slice(), b"abc".as_slice());
    Ok(())
}

#[test]
fn memory_holds_all_bytes(rt: HostRuntime) -> Result<(), Fail> {
    let mut sink = VecSink::new(rt.alloc());
    let put = sink.put(b"abc");
    assert!(rt; matches!(put, Put::Done));
    assert_eq!(rt; sink.bytes(), b"abc".as_slice());
    Ok(())
}
