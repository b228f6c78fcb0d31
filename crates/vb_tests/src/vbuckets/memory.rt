//! What a vBucket gives up of its memory.
use super::calls::{At, Do, Step, Talk, Told, first_other_of};
use std::test::Fail;
use vb_types::{Op, Place};

const GO: Told = Told::Opened(1, 1, Place::Memory);

// The open span stays, and a sealed one that a cursor stands in. Behind the trim the stream waits, and so
// does one that is opened there.
const ONE: [Step; 22] = [
    (Do::Store(Op::Set, 1), Told::Stored(1, 1)),
    (Do::Trim, Told::Num(0)),
    (Do::Flush, Told::Num(1)),
    (Do::Trim, Told::Num(0)),
    (Do::Open(3, 0, 0), GO),
    (Do::Seal, Told::Flag(true)),
    (Do::Trim, Told::Num(0)),
    (Do::Drop(4), Told::Flag(false)),
    (Do::Drop(0), Told::Flag(false)),
    (Do::Drop(3), Told::Flag(true)),
    (Do::Drop(3), Told::Flag(false)),
    (Do::Stat, Told::Stat(1, 1, 1, 1, 1)),
    (Do::Trim, Told::Num(1)),
    (Do::Stat, Told::Stat(0, 0, 1, 1, 1)),
    (Do::Trim, Told::Num(0)),
    (Do::Place(3), Told::Placed(Place::WaitSaved)),
    (Do::Take(3), Told::Nothing),
    (Do::Get, Told::Found(1, 1)),
    (Do::Close(3), Told::Flag(true)),
    (Do::Open(3, 0, 0), Told::Opened(1, 1, Place::WaitSaved)),
    (Do::Open(4, 5, 1), GO),
    (Do::Stat, Told::Stat(0, 0, 2, 1, 1)),
];

// A span goes once it is saved; what was only taken to be stays.
const SAVED: [Step; 14] = [
    (Do::Store(Op::Set, 1), Told::Stored(1, 1)),
    (Do::Seal, Told::Flag(true)),
    (Do::Store(Op::Set, 1), Told::Stored(2, 2)),
    (Do::Seal, Told::Flag(true)),
    (Do::Store(Op::Set, 1), Told::Stored(3, 3)),
    (Do::Seal, Told::Flag(true)),
    (Do::Flush, Told::Num(1)),
    (Do::Flush, Told::Num(2)),
    (Do::FlushTake, Told::Batch(3, 3, 3, 1)),
    (Do::Trim, Told::Num(2)),
    (Do::Stat, Told::Stat(1, 1, 1, 2, 3)),
    (Do::Trim, Told::Num(0)),
    (Do::Get, Told::Found(3, 3)),
    (Do::Flush, Told::Nothing),
];

// A cursor that was taken away above the floor comes back; one that is opened above it is there.
const BACK: [Step; 12] = [
    (Do::Store(Op::Set, 1), Told::Stored(1, 1)),
    (Do::Open(3, 0, 0), GO),
    (Do::Open(4, 5, 1), GO),
    (Do::Stat, Told::Stat(1, 1, 3, 0, 1)),
    (Do::Drop(3), Told::Flag(true)),
    (Do::Take(3), Told::Nothing),
    (Do::Stat, Told::Stat(1, 1, 2, 0, 1)),
    (Do::Place(3), Told::Placed(Place::Memory)),
    (Do::Stat, Told::Stat(1, 1, 3, 0, 1)),
    (Do::Take(3), Told::Taken(0, 1, 1)),
    (Do::Drop(4), Told::Flag(true)),
    (Do::Stat, Told::Stat(1, 1, 2, 0, 1)),
];

const TALKS: [Talk; 3] = [
    (At::Active, &ONE),
    (At::Active, &SAVED),
    (At::Active, &BACK),
];

#[test]
fn memory_is_given_up(rt: HostRuntime) -> Result<(), Fail> {
    assert_eq!(rt; first_other_of(rt.alloc(), &TALKS)?, None);
    Ok(())
}
