//! Tests of `io_edge`, over readers and writers of std.

use io_edge::{StdIn, StdOut, WriteFault, read_all, write_all};
use std::test::Fail;

#[test]
fn real_readers_and_writers_pass_bytes_on(rt: HostRuntime) -> Result<(), Fail> {
    let mut input = StdIn::new(b"hello".as_slice());
    assert!(rt; read_all(rt.alloc(), &mut input, 5)?.as_slice() == b"hello".as_slice());

    let mut held = Vec::new(rt.alloc());
    let mut output = StdOut::new(&mut held);
    assert!(rt; write_all(&mut output, b"hello") == Ok(()));
    drop(output);
    assert!(rt; held.as_slice() == b"hello".as_slice());

    let mut narrow = [0; 3];
    let mut output = StdOut::new(narrow.as_mut_slice());
    assert!(rt; write_all(&mut output, b"hello") == Err(WriteFault));
    drop(output);
    assert!(rt; narrow == *b"hel");
    Ok(())
}
