//! The two lanes of a run are at work at the same time, by the servants of its crew.

use crate::counted::{Counted, Steps};
use crate::meeting::Meeting;
use com_base::ByteList;
use com_command_run::run_main;
use com_io::{MemorySink, MemorySource};
use com_replay::{box_of, row_of};
use com_servant::{Counter, Interpreter, Latch, Memory, ROWS, Relay, Servant, is_manned};
use std::alloc::{AllocError, Global};
use std::sync::{Arc, Wait};
use std::test::*;
use std::thread::Threads;

const TWO_COUNTERS: &[u8] = b"scenario 1\n\
      native Cnt {5C0B00C1-0000-4000-8000-000000000001} Both counter\n\
      thread\n\
      init sta\n\
      create s0 Cnt ICounter\n\
      call s0 ICounter.add 1 -> r1\n\
      end\n\
      thread\n\
      init sta\n\
      create s0 Cnt ICounter\n\
      call s0 ICounter.add 1 -> r1\n\
      call s0 ICounter.add 1 -> r1\n\
      end\n";

// How many of the lines are entries of a lane.
fn entries_of(lines: &[u8], lane: u8) -> usize {
    let mut count = 0usize;
    for line in lines.split(|byte| *byte == b'\n') {
        if let Some(at) = line.iter().position(|byte| *byte == b'L') {
            if line.get(at + 1) == Some(&lane) {
                count = count.saturating_add(1);
            }
        }
    }
    count
}

// What a run answers for the two counters, and what it writes, with a crew whose steps are counted. The
// counters of the first row may refuse each step.
fn answer_of<R: Threads + Wait + Sync>(
    rt: &R,
    alloc: Global,
    gate: &Meeting,
    steps: &Arc<Steps, Global>,
    refuses: bool,
) -> Result<(u8, ByteList), Memory> {
    let mut crew: Vec<Vec<Box<dyn Servant + Send>>> = Vec::new(alloc);
    for at in 0..ROWS {
        let bodies = Counted::new(Interpreter::new(), at, false, steps.clone()?);
        let counter = Counted::new(Counter::new(), at, refuses && at == 0, steps.clone()?);
        let relay = Counted::new(Relay::new(), at, false, steps.clone()?);
        let latch = Counted::new(Latch::new(), at, false, steps.clone()?);
        crew.push(row_of(
            alloc,
            box_of(alloc, bodies)?,
            box_of(alloc, counter)?,
            box_of(alloc, relay)?,
            box_of(alloc, latch)?,
        )?)?;
    }
    // The loop has no invariant that names the kinds of boxes, so they are looked at once.
    if !is_manned(&crew) {
        return Err(AllocError);
    }
    let bytes = ByteList::from_slice(alloc, TWO_COUNTERS)?;
    let mut source = MemorySource::new(bytes, 1000, Vec::new(alloc));
    let mut sink = MemorySink::new(alloc, 10_000, 1000, Vec::new(alloc))?;
    let status = run_main(rt, alloc, crew, gate, &mut source, &mut sink);
    Ok((status, ByteList::from_slice(alloc, sink.held())?))
}

#[test]
fn two_lanes_meet_between_step_and_commit(rt: HostRuntime) -> Result<(), Fail> {
    let steps = Arc::new(rt.alloc(), Steps::new())?;
    let gate = Meeting::new();
    let (status, text) = answer_of(&rt, rt.alloc(), &gate, &steps, false)?;
    assert_eq!(rt; status, 0);
    assert!(rt; gate.is_met());
    assert_eq!(rt; steps.of(0), 1);
    assert_eq!(rt; steps.of(1), 2);
    for row in 2..ROWS {
        assert_eq!(rt; steps.of(row), 0);
    }
    assert_eq!(rt; entries_of(text.as_slice(), b'1'), 9);
    assert_eq!(rt; entries_of(text.as_slice(), b'2'), 13);
    assert!(rt; text.as_slice().ends_with(b"entries 22 clock 0\nend ok\n"));
    Ok(())
}

#[test]
fn want_of_memory_in_a_worker_is_answered_when_all_were_joined(
    rt: HostRuntime,
) -> Result<(), Fail> {
    let steps = Arc::new(rt.alloc(), Steps::new())?;
    let gate = Meeting::new();
    let (status, text) = answer_of(&rt, rt.alloc(), &gate, &steps, true)?;
    assert_eq!(rt; status, 9);
    assert_eq!(rt; text.as_slice(), b"".as_slice());
    assert!(rt; gate.is_met());
    assert!(rt; gate.is_left());
    assert_eq!(rt; steps.of(0), 0);
    // Lane 2 may make its second step before it learns of the want.
    assert!(rt; steps.of(1) == 1 || steps.of(1) == 2);
    Ok(())
}
