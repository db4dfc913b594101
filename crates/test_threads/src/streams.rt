//! What a sink holds after each of the first steps of a stream.

use com_io::MemorySink;
use com_replay::{ReplayError, Step, Stream, fresh_row};
use com_scenario::parse;
use std::sync::Arc;
use std::test::*;

const ONE_COUNTER: &[u8] = b"scenario 1\n\
      native Cnt {5C0B00C1-0000-4000-8000-000000000001} Both counter\n\
      thread\n\
      init sta\n\
      create s0 Cnt ICounter\n\
      call s0 ICounter.add 5 -> r1\n\
      release s0\n\
      uninit\n\
      end\n";

const ONE_LINE: &[u8] = b"1 L1 init sta a3 S_OK\n";

const TWO_LINES: &[u8] = b"1 L1 init sta a3 S_OK\n\
      2 L1 made o1 a3 C1 I1 S_OK\n";

const THREE_LINES: &[u8] = b"1 L1 init sta a3 S_OK\n\
      2 L1 made o1 a3 C1 I1 S_OK\n\
      3 L1 out c1 o1 I1.0 direct cause1 -\n";

// The stream behind a step that made an entry, and none behind any other.
fn behind(step: Result<Step, ReplayError>) -> Option<Stream> {
    match step {
        Ok(Step::More { stream, entry: _ }) => Some(stream),
        _ => None,
    }
}

#[test]
fn each_step_writes_its_line(rt: HostRuntime) -> Result<(), Fail> {
    let alloc = rt.alloc();
    let scenario = parse(alloc, ONE_COUNTER).expect(&rt, "it is a scenario");
    let mut servants = fresh_row!(alloc);
    let mut sink = MemorySink::new(alloc, 10_000, 7, Vec::new(alloc))?;
    let shared = Arc::new(alloc, scenario)?;
    let stream = Stream::new(alloc, shared).expect(&rt, "there is memory");
    let stream = behind(stream.step(alloc, &mut servants, &mut sink)).expect(&rt, "one entry");
    assert_eq!(rt; sink.held(), ONE_LINE);
    let stream = behind(stream.step(alloc, &mut servants, &mut sink)).expect(&rt, "two entries");
    assert_eq!(rt; sink.held(), TWO_LINES);
    let _stream = behind(stream.step(alloc, &mut servants, &mut sink)).expect(&rt, "three entries");
    assert_eq!(rt; sink.held(), THREE_LINES);
    Ok(())
}
