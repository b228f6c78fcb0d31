//! Two threads over seats of the same vBuckets.
use crate::dealt::{deal, last_of};
use node_threads::{Open, SeatSlot, VbSeats};
use std::alloc::{AllocError, Global};
use std::sync::atomic::AtomicU64;
use std::sync::atomic::Ordering::SeqCst;
use std::sync::{Arc, Wait};
use std::test::Fail;
use std::thread;
use std::thread::join;
use vb_calls::{VbAccess, VbAnswer, VbCall, VbReply};
use vb_turn::Gate;
use vb_types::{Key, Op, Role, Value, Write};

/// A write of a client under its own key, which its flags number.
fn write(alloc: Global, client: u8, number: u64) -> Result<Option<Write>, AllocError> {
    let Some(key) = Key::new(alloc, &[client])? else {
        return Ok(None);
    };
    let Some(value) = Value::new(alloc, b"v")? else {
        return Ok(None);
    };
    Ok(Some(Write {
        op: Op::Set,
        key,
        value,
        flags: (number % 100_000) as u32,
        expiry: 0,
        datatype: 0,
        cas: 0,
    }))
}

fn is_stored(reply: &Option<VbReply>) -> bool {
    let Some(reply) = reply else {
        return false;
    };
    matches!(&reply.answer, VbAnswer::Stored { .. })
}

/// Stores so many writes of a client, to the vBuckets 0 to 3 in turn, and counts those that are stored.
fn store_all<W: Wait, G: Gate>(
    alloc: Global,
    seats: &mut VbSeats<'_, W, G>,
    client: u8,
    count: u64,
) -> Result<u64, AllocError> {
    let mut stored = 0u64;
    for i in 0..count {
        let Some(write) = write(alloc, client, i)? else {
            return Ok(stored);
        };
        let reply = seats.call((i % 4) as u16, VbCall::Store { write, clock: 0 })?;
        if is_stored(&reply) {
            stored = stored.wrapping_add(1);
        }
    }
    Ok(stored)
}

#[test]
fn two_threads_store_each_write_once(rt: HostRuntime) -> Result<(), Fail> {
    let alloc = rt.alloc();
    let gate = Open;
    let mut main = VbSeats::new(alloc, &rt, &gate);
    let mut one = VbSeats::new(alloc, &rt, &gate);
    let mut two = VbSeats::new(alloc, &rt, &gate);
    for v in 0..4u16 {
        deal(alloc, v, &mut main, &mut one, &mut two)?;
    }
    let (first, second) = join(
        &rt,
        || -> Result<u64, AllocError> { store_all(alloc, &mut one, b'a', 2000) },
        || -> Result<u64, AllocError> { store_all(alloc, &mut two, b'b', 2000) },
    );
    assert_eq!(rt; first?, 2000);
    assert_eq!(rt; second?, 2000);
    for v in 0..4u16 {
        let last = 1996 + u32::from(v);
        assert_eq!(rt; last_of(alloc, &mut main, v, b'a')?, (Some(last), 1000));
        assert_eq!(rt; last_of(alloc, &mut main, v, b'b')?, (Some(last), 1000));
    }
    Ok(())
}

#[test]
fn a_vbucket_that_is_made_is_closed(rt: HostRuntime) -> Result<(), Fail> {
    let alloc = rt.alloc();
    let gate = Open;
    let mut seats = VbSeats::new(alloc, &rt, &gate);
    assert!(rt; seats.make(0, 1, Role::Active, 7)?);
    assert!(rt; !seats.make(0, 1, Role::Active, 8)?);
    assert_eq!(rt; store_all(alloc, &mut seats, b'a', 9)?, 3);
    let mut slots = seats.into_seats();
    assert_eq!(rt; slots.len(), 1);
    let Some(SeatSlot { number, turn, seat }) = slots.pop() else {
        panic!(rt; "one was made")
    };
    assert_eq!(rt; number, 0);
    let Ok(turn) = Arc::try_unwrap(turn) else {
        panic!(rt; "nobody else has it")
    };
    let Some(vb) = turn.close(seat) else {
        panic!(rt; "all parts are here")
    };
    assert_eq!(rt; vb.high(), 3);
    Ok(())
}

/// How often the one at the gate looks for the other before it goes on alone.
const LOOKS: u64 = 10_000_000;

/// Two that pass meet here, if they are of two vBuckets: each waits for the other, but only so long.
#[derive(Drop)]
struct Meeting {
    arrived: [AtomicU64; 2],
    met: AtomicU64,
}

impl Gate for Meeting {
    fn pass(&self, v: u16) {
        let me = usize::from(v % 2);
        self.arrived[me].store(1, SeqCst);
        for _ in 0..LOOKS {
            if self.arrived[1 - me].load(SeqCst) == 1 {
                self.met.fetch_add(1, SeqCst);
                break;
            }
            thread::yield_now();
        }
    }
}

fn stat<W: Wait, G: Gate>(seats: &mut VbSeats<'_, W, G>, v: u16) -> Result<bool, AllocError> {
    Ok(seats.call(v, VbCall::Stat)?.is_some())
}

#[test]
fn two_vbuckets_are_called_at_once(rt: HostRuntime) -> Result<(), Fail> {
    let alloc = rt.alloc();
    let gate = Meeting {
        arrived: [AtomicU64::new(0), AtomicU64::new(0)],
        met: AtomicU64::new(0),
    };
    let mut main = VbSeats::new(alloc, &rt, &gate);
    let mut one = VbSeats::new(alloc, &rt, &gate);
    let mut two = VbSeats::new(alloc, &rt, &gate);
    for v in 0..2u16 {
        deal(alloc, v, &mut main, &mut one, &mut two)?;
    }
    let (first, second) = join(
        &rt,
        || -> Result<bool, AllocError> { stat(&mut one, 0) },
        || -> Result<bool, AllocError> { stat(&mut two, 1) },
    );
    assert!(rt; first? && second?);
    assert_eq!(rt; gate.met.load(SeqCst), 2);
    Ok(())
}
