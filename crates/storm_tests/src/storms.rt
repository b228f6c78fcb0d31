//! Storms, small ones and one that a body on one thread never ends in time.
use dcp_io::{MemSink, Status, Writing};
use node_threads::{Open, SeatSlot};
use std::sync::Arc;
use std::sync::atomic::AtomicU64;
use std::sync::atomic::Ordering::SeqCst;
use std::test::Fail;
use std::thread;
use storm::{Plan, open_all, run_clients, storm, storm_main};
use vb_turn::{ALL_PARTS, Gate};

/// What `storm 0 1 1` writes.
const ONE_WRITE: &str =
    "vb 0 high 0 docs 0 sum 0 saved 0 read 0 0\nvb 1 high 0 docs 0 sum 0 saved 0 read 0 0\nvb 2 high 0 docs 0 sum 0 saved 0 read 0 0\nvb 3 high 1 docs 1 sum 1 saved 1 read 1 1\n";

#[test]
fn one_write_is_told(rt: HostRuntime) -> Result<(), Fail> {
    let plan = Plan::new(0, 1, 1).ok_or("plan")?;
    let mut sink = MemSink::new(rt.alloc(), &[])?;
    let status = storm_main(&rt, rt.alloc(), &plan, &mut sink);
    assert!(rt; matches!(status, Status::Ok));
    assert!(rt; sink.bytes() == ONE_WRITE.as_bytes());
    Ok(())
}

#[test]
fn a_sink_that_fails_has_a_front_part(rt: HostRuntime) -> Result<(), Fail> {
    let plan = Plan::new(0, 1, 1).ok_or("plan")?;
    let mut room = [0u8; 100];
    let mut sink = Writing::new(room.as_mut_slice());
    let status = storm_main(&rt, rt.alloc(), &plan, &mut sink);
    drop(sink);
    assert!(rt; matches!(status, Status::WriteFault));
    assert!(rt; ONE_WRITE.as_bytes().starts_with(room.as_slice()));
    let mut sink = MemSink::new(rt.alloc(), &[1])?;
    let status = storm_main(&rt, rt.alloc(), &plan, &mut sink);
    assert!(rt; matches!(status, Status::WriteFault));
    assert!(rt; sink.bytes().is_empty());
    Ok(())
}

#[test]
fn clients_on_threads_write_all(rt: HostRuntime) -> Result<(), Fail> {
    let plan = Plan::new(7, 4, 10_000).ok_or("plan")?;
    let lines = storm(&rt, rt.alloc(), &Open, &plan)?;
    let mut highs = 0u64;
    for line in &lines {
        highs = highs.wrapping_add(line.high);
        assert_eq!(rt; line.saved, line.high);
        assert_eq!(rt; line.read_first, line.sum);
        assert_eq!(rt; line.read_second, line.sum);
    }
    assert_eq!(rt; lines.len(), 4);
    assert_eq!(rt; highs, 40_000);
    Ok(())
}

/// The last seqno of the vBucket of this seat, which has to have all parts, and no other beside it.
fn closed_high(slot: SeatSlot) -> Result<u64, Fail> {
    let SeatSlot { turn, seat, .. } = slot;
    if seat.parts() != ALL_PARTS {
        return Err("a part that is missing".into());
    }
    let turn = Arc::try_unwrap(turn).ok().ok_or("a turn that is held")?;
    let vb = turn.close(seat).ok_or("a seat that closes nothing")?;
    Ok(vb.high())
}

#[test]
fn seats_come_back_with_all_parts(rt: HostRuntime) -> Result<(), Fail> {
    let plan = Plan::new(7, 4, 100).ok_or("plan")?;
    let mut slots = open_all(&rt, rt.alloc())?;
    run_clients(&rt, rt.alloc(), &Open, &plan, &mut slots)?;
    let mut highs = [0u64; 4];
    for slot in slots {
        let v = usize::from(slot.number % 4);
        highs[v] = closed_high(slot)?;
    }
    assert_eq!(rt; highs, [112, 100, 84, 104]);
    Ok(())
}

/// How often the one at the gate looks for the other before it goes on alone.
const LOOKS: u64 = 100_000_000;

/// The first passes of the vBuckets 0 and 1 meet here: each waits for the other, but only so long.
#[derive(Drop)]
struct Meeting {
    passes: [AtomicU64; 2],
    met: AtomicU64,
}

impl Gate for Meeting {
    fn pass(&self, v: u16) {
        if v > 1 {
            return;
        }
        let me = usize::from(v);
        if self.passes[me].fetch_add(1, SeqCst) > 0 {
            return;
        }
        for _ in 0..LOOKS {
            if self.passes[1 - me].load(SeqCst) > 0 {
                self.met.fetch_add(1, SeqCst);
                return;
            }
            thread::yield_now();
        }
    }
}

#[test]
fn two_clients_write_at_once(rt: HostRuntime) -> Result<(), Fail> {
    let plan = Plan::new(7, 2, 100).ok_or("plan")?;
    let gate = Meeting {
        passes: [AtomicU64::new(0), AtomicU64::new(0)],
        met: AtomicU64::new(0),
    };
    storm(&rt, rt.alloc(), &gate, &plan)?;
    assert_eq!(rt; gate.met.load(SeqCst), 2);
    Ok(())
}
