use host_io::{StdSink, StdSource};
use io_core::{Failed, Sink, Source};
use std::test::Fail;

#[test]
fn host_streams_move_what_the_host_moves(rt: HostRuntime) -> Result<(), Fail> {
    let mut source = StdSource::new(b"arcs".as_slice());
    let mut buf = [0u8; 3];
    assert!(rt; source.read(&mut buf) == Ok(3));
    assert_eq!(rt; buf.as_slice(), b"arc".as_slice());
    assert!(rt; source.read(&mut buf) == Ok(1));
    assert!(rt; source.read(&mut buf) == Ok(0));

    let mut held = Vec::new(rt.alloc());
    let mut sink = StdSink::new(&mut held);
    assert!(rt; sink.write(b"faces") == Ok(5));
    assert_eq!(rt; held.as_slice(), b"faces".as_slice());

    // A writer that takes nothing of a piece has failed.
    let mut room = [0u8; 2];
    let mut full = StdSink::new(room.as_mut_slice());
    assert!(rt; full.write(b"face") == Ok(2));
    assert!(rt; full.write(b"ce") == Err(Failed));
    Ok(())
}
