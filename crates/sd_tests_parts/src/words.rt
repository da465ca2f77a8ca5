//! Words and streams in memory find memory where there is some.

use sd_base::{Duplicate, Failed, MemSink, Sink, Word};
use std::test::Fail;

#[test]
fn a_copy_and_a_sink_find_memory(rt: HostRuntime) -> Result<(), Fail> {
    let alloc = rt.alloc();
    // The first in place, the second in memory of its own.
    for bytes in [b"red".as_slice(), b"red and green, and blue"] {
        let word = Word::copy_of(alloc, bytes)?;
        assert_eq!(rt; word.copy()?.items(), bytes);
    }
    let mut sink = MemSink::new(alloc, 4, vec![in alloc; 1]?)?;
    assert_eq!(rt; sink.put(b"red"), Err(Failed));
    assert_eq!(rt; sink.put(b"redder"), Ok(4));
    assert_eq!(rt; sink.text(), b"redd".as_slice());
    Ok(())
}
