//! Tests of what a sink holds that fails: of the text of a run, which the one writer of all texts hands on.

use io_edge::MemSink;
use std::alloc::{AllocError, Global};
use std::test::Fail;
use trace_text::write_trace;

// The text of a run of so many events of process 0.
fn text_of(alloc: Global, events: u32) -> Result<Vec<u8>, AllocError> {
    let mut text = Vec::from_slice(alloc, b"trace 1\n")?;
    for _ in 0..events {
        text.extend_from_slice(b"0\n")?;
    }
    text.extend_from_slice(b"end\n")?;
    Ok(text)
}

// The room of the sink, the most bytes of a call, the call that fails, and how many bytes it holds then: a call is made for
// 4,096 bytes, and a last one for what is left.
static FAULTS: [(usize, usize, u32, usize); 6] = [
    (20_000, 20_000, 3, 10_012),
    (20_000, 20_000, 0, 0),
    (20_000, 20_000, 1, 4_096),
    (20_000, 20_000, 2, 8_192),
    (20_000, 100, 50, 4_996),
    (5_000, 20_000, 9, 5_000),
];

#[test]
fn a_sink_that_fails_holds_a_front(rt: HostRuntime) -> Result<(), Fail> {
    let text = text_of(rt.alloc(), 5_000)?;
    let run = vec![in rt.alloc(); 0u32; 5_000]?;
    for (room, most, failing, held) in &FAULTS {
        let mut sink = MemSink::new(rt.alloc(), *room, *most, &[*failing])?;
        let wrote = write_trace(run.as_slice(), &mut sink);
        assert!(rt; wrote.is_ok() == (*held == text.len()));
        assert!(rt; sink.held().len() == *held && text.as_slice().starts_with(sink.held()));
    }
    Ok(())
}
