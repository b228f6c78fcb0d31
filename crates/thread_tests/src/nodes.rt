//! Two nodes, each on a thread of its own, over seats of the same vBuckets.
ghost use Rattle.std.specs.Prelude.{ℕ, List, IfOk, OnOk};
ghost use Rattle.node_threads.specs.Seats.{Row, rows_of};
ghost use Rattle.thread_tests.specs.Tables.{AreShared, StayOf};

use crate::dealt::{deal, join_last};
use disk_journals::DiskJournals;
use node_core::{ConnKind, Node};
use node_threads::{Open, SeatSlot, VbSeats};
use std::alloc::{AllocError, Global};
use std::sync::{Arc, Wait};
use std::test::Fail;
use std::thread::{Threads, join};
use vb_calls::{VbAnswer, VbCall, VbReply};
use vb_disk::MemDisk;
use vb_events::Event;
use vb_types::Key;
use vbucket::VBucket;

/// A SET of one byte under a key of one byte.
const SET: [u8; 34] = [
    0x80, 1, 0, 1, 8, 0, 0, 0, 0, 0, 0, 10, 0, 0, 0, 1, 0, 0, 0, 0, 0, 0, 0, 0, 0, 0, 0, 0, 0, 0,
    0, 0, b'k', b'v',
];

/// How many keys a client has.
const KEYS: u8 = 5;

/// The SET of one of a client's own keys, to the vBuckets 0 to 3 in turn; its flags are its number.
fn set_frame(client: u8, number: u64) -> [u8; 34] {
    let mut frame = SET;
    frame[7] = (number % 4) as u8;
    frame[26] = (number / 256 % 256) as u8;
    frame[27] = (number % 256) as u8;
    frame[32] = client.wrapping_add((number / 4 % u64::from(KEYS)) as u8);
    frame
}

/// Whether a line is an answer that says Success.
fn is_success(event: &Event) -> bool {
    match event {
        Event::Reply { bytes, .. } => {
            let bytes = bytes.as_slice();
            bytes.first() == Some(&0x81) && bytes.get(6) == Some(&0) && bytes.get(7) == Some(&0)
        }
        _ => false,
    }
}

/// A node over seats, whose journals nobody asks for.
type Worker<'a, W> = Node<VbSeats<'a, W, Open>, DiskJournals<MemDisk>>;

/// How many of these lines are answers that say Success.
fn successes(events: &[Event]) -> u64 {
    let mut count = 0u64;
    for event in events {
        if is_success(event) {
            count = count.wrapping_add(1);
        }
    }
    count
}

/// Feeds so many SETs of a client to its connection, and counts the answers that say Success.
fn feed_all<W: Wait>(
    node: &mut Worker<'_, W>,
    key: usize,
    client: u8,
    count: u64,
) -> Result<u64, AllocError>
    ensures { OnOk result (StayOf node.old.vbs node.new.vbs) }
{
    let mut answered = 0u64;
    for i in 0..count {
        let frame = set_frame(client, i);
        let out = node.feed(key, frame.as_slice(), 0)?;
        answered = answered.wrapping_add(successes(out.events.as_slice()));
        drop(out);
    }
    Ok(answered)
}

/// A node over these seats with one client's connection, which is fed so many SETs: how many were
/// answered with Success, and the seats.
fn serve<W: Wait>(
    alloc: Global,
    seats: VbSeats<'_, W, Open>,
    client: u8,
    count: u64,
) -> Result<(u64, Vec<SeatSlot>), AllocError>
    ensures { IfOk result (λ done. StayOf seats.entry (rows_of done.1.items)) }
{
    let mut node = Node::over(alloc, 1, seats, DiskJournals::new(alloc));
    let key = node.open(ConnKind::Client { client: 5, base: 1 })?;
    let answered = feed_all(&mut node, key, client, count)?;
    Ok((answered, node.into_vbs().into_seats()))
}

/// As `serve`; where memory was short, no seats.
#[tactic(auto, using(crate::proofs::Tables::none_stay))]
fn served<W: Wait>(
    alloc: Global,
    seats: VbSeats<'_, W, Open>,
    client: u8,
    count: u64,
) -> (u64, Vec<SeatSlot>)
    ensures { StayOf seats.entry (rows_of result.1.items) }
{
    match serve(alloc, seats, client, count) {
        Ok(done) => done,
        Err(_) => (0, Vec::new(alloc)),
    }
}

/// Work for a thread: of what a closure holds `join` tells only where it is of a type parameter.
trait Task {
    ghost gives: { Self → ℕ × List Row → Type 0 };

    fn run(self) -> (u64, Vec<SeatSlot>)
        ensures { gives self (result.0, rows_of result.1.items) };
}

/// The seats of a client's node.
#[derive(Drop)]
struct Serving<'a, W> {
    alloc: Global,
    seats: VbSeats<'a, W, Open>,
    client: u8,
}

impl<'a, W: Wait> Task for Serving<'a, W> {
    ghost gives = { λ t r. StayOf t.seats r.1 };

    fn run(self) -> (u64, Vec<SeatSlot>) {
        let Serving {
            alloc,
            seats,
            client,
        } = self;
        served(alloc, seats, client, 1000)
    }
}

/// What two threads gave.
type Both = ((u64, Vec<SeatSlot>), (u64, Vec<SeatSlot>));

/// Does both, each on a thread of its own.
fn run_both<R: Threads, S: Task + Send + Drop, T: Task + Drop>(rt: &R, s: S, t: T) -> Both
    ensures first { S.gives s (result.0.0, rows_of result.0.1.items) }
    ensures second { T.gives t (result.1.0, rows_of result.1.1.items) }
{
    join(
        rt,
        move || -> (u64, Vec<SeatSlot>)
            ensures { S.gives s (result.0, rows_of result.1.items) }
        { s.run() },
        move || -> (u64, Vec<SeatSlot>)
            ensures { T.gives t (result.0, rows_of result.1.items) }
        { t.run() },
    )
}

/// The vBucket of this seat, and its number.
fn close(slot: SeatSlot) -> Result<(u16, VBucket), Fail> {
    let SeatSlot { number, turn, seat } = slot;
    let turn = Arc::try_unwrap(turn).ok().ok_or("a turn that is held")?;
    let vb = turn.close(seat).ok_or("a part that is missing")?;
    Ok((number, vb))
}

/// The flags of a key's document, which are the number of its last write.
fn last_of(alloc: Global, vb: &mut VBucket, key: u8) -> Result<Option<u32>, Fail> {
    let key = Key::new(alloc, &[key])?.ok_or("key")?;
    let VbReply { answer, .. } = vb.step(VbCall::Get { key })?;
    match &answer {
        VbAnswer::Found(doc) => Ok(Some(doc.flags)),
        _ => Ok(None),
    }
}

/// Whether each key of both clients has its last write of a thousand.
fn has_last_writes(alloc: Global, vb: &mut VBucket, number: u16) -> Result<bool, Fail> {
    for k in 0..KEYS {
        let last = Some(980 + 4 * u32::from(k) + u32::from(number));
        for client in [b'a', b'k'] {
            if last_of(alloc, vb, client.wrapping_add(k))? != last {
                return Ok(false);
            }
        }
    }
    Ok(true)
}

/// Three lists of seats.
type Three<'a, W> = (
    VbSeats<'a, W, Open>,
    VbSeats<'a, W, Open>,
    VbSeats<'a, W, Open>,
);

/// Three lists of seats of the same four new vBuckets.
fn deal_four<'a, W>(alloc: Global, rt: &'a W, gate: &'a Open) -> Result<Three<'a, W>, AllocError>
    ensures { IfOk result (λ t. AreShared t.0 t.1 t.2) }
{
    let mut main = VbSeats::new(alloc, rt, gate);
    let mut one = VbSeats::new(alloc, rt, gate);
    let mut two = VbSeats::new(alloc, rt, gate);
    for v in 0..4u16 {
        deal(alloc, v, &mut main, &mut one, &mut two)?;
    }
    Ok((main, one, two))
}

/// Joins and closes the last vBucket of three lists: its number, how many writes it has seen, and
/// whether it has the last one of each key.
fn close_last(
    alloc: Global,
    main: &mut Vec<SeatSlot>,
    one: &mut Vec<SeatSlot>,
    two: &mut Vec<SeatSlot>,
) -> Result<(u16, u64, bool), Fail>
    requires { AreShared (rows_of main.old.items) (rows_of one.old.items) (rows_of two.old.items) }
    ensures { AreShared (rows_of main.new.items) (rows_of one.new.items) (rows_of two.new.items) }
{
    let slot = join_last(main, one, two).ok_or("three seats")?;
    let (number, mut vb) = close(slot)?;
    let high = vb.high();
    Ok((number, high, has_last_writes(alloc, &mut vb, number)?))
}

#[test]
fn two_nodes_answer_each_frame(rt: HostRuntime) -> Result<(), Fail> {
    let alloc = rt.alloc();
    let gate = Open;
    let (main, one, two) = deal_four(alloc, &rt, &gate)?;
    let left = Serving {
        alloc,
        seats: one,
        client: b'a',
    };
    let right = Serving {
        alloc,
        seats: two,
        client: b'k',
    };
    let (first, second) = run_both(&rt, left, right);
    let (left, mut firsts) = first;
    let (right, mut seconds) = second;
    assert_eq!(rt; (left, right), (1000, 1000));
    let mut mains = main.into_seats();
    for v in 0..4u16 {
        let last = close_last(alloc, &mut mains, &mut firsts, &mut seconds)?;
        assert_eq!(rt; last, (3 - v, 500, true));
    }
    Ok(())
}
