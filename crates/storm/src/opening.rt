//! The vBuckets of a storm, as it begins.
ghost use Rattle.std.specs.Prelude.{◌≡◌, IfOk};
ghost use Rattle.node_threads.specs.Seats.{row_of, rows_of};
ghost use Rattle.storm_seats.specs.Views.{reader_opens};
ghost use Rattle.storm.specs.Rows.{AreOpened, IsOpened};

use node_threads::SeatSlot;
use std::alloc::{AllocError, Global};
use std::sync::{Arc, Wait};
use vb_calls::VbCall;
use vb_types::{Role, StreamAsk};
use vbucket::{TurnVb, VBucket};

/// How many vBuckets there are.
pub(crate) const VBUCKETS: u16 = 4;

/// The streams of the two readers.
pub(crate) const FIRST: u64 = 1;

pub(crate) const SECOND: u64 = 2;

/// A reader asks for all, from 0.
fn opens(id: u64) -> VbCall
    ensures { result ≡ reader_opens id }
{
    let ask = StreamAsk {
        flags: 0,
        start: 0,
        end: u64::MAX,
        uuid: 0,
        ss: 0,
        se: 0,
    };
    VbCall::OpenStream {
        id,
        ask,
        sync: false,
    }
}

/// vBucket `v`, active, with both readers' streams; its seat has all parts. The gate is for who calls behind
/// that: here nobody else is there yet.
fn open_vb<W: Wait>(rt: &W, alloc: Global, v: u16) -> Result<SeatSlot, AllocError>
    ensures { IfOk result (λ slot. IsOpened v (row_of slot)) }
{
    let vb = VBucket::new(alloc, 0, Role::Active, u64::from(v) + 1)?;
    let (turn, mut seat) = TurnVb::new(alloc, vb)?;
    turn.call(rt, &mut seat, opens(FIRST))?;
    turn.call(rt, &mut seat, opens(SECOND))?;
    let turn = Arc::new(alloc, turn)?;
    Ok(SeatSlot {
        number: v,
        turn,
        seat,
    })
}

/// The four vBuckets, by rising number, each with a seat that has all parts.
pub fn open_all<W: Wait>(rt: &W, alloc: Global) -> Result<Vec<SeatSlot>, AllocError>
    ensures { IfOk result (λ slots. AreOpened (rows_of slots.items)) }
{
    let mut slots = Vec::new(alloc);
    for v in 0..VBUCKETS {
        slots.push(open_vb(rt, alloc, v)?)?;
    }
    Ok(slots)
}
