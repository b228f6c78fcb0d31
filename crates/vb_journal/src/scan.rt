//! Reading the records of a disk.
ghost use Rattle.std.specs.Prelude.{◌≡◌, ◌+◌, ◌^◌, ◌<◌, ◌≤◌, length, slice_range, true, IfOk, IfSome};
ghost use Rattle.std.specs.Bool.{OnTrue, OnFalse};
ghost use Rattle.{vb_disk.specs.Counts.{Rose}, vb_disk.specs.Crashes.{LeavesNoMore}, vb_disk.specs.Disks.{Stays}, vb_disk.specs.Outcomes.{LeftAlike}, vb_journal.specs.UnderArms.{GivesUnder}};
ghost use Rattle.vb_journal.specs.Books.{Taken, Found, IsWithin, Scanned, EndsWithin};

use crate::payload::{MAX_PAYLOAD, read_payload};
use bytes::Bytes;
use std::alloc::{AllocError, Global};
use vb_disk::{Disk, Put};
use vb_types::{Listed, Record};

/// Records, in the order in which they stand.
pub type Records = Listed<Record>;

/// The byte of an open gate. A gate of any other byte is closed.
pub const OPEN: u8 = 1;

/// How many bytes a gate and the length behind it are.
pub const HEAD_LEN: u64 = 5;

/// What bytes begin with.
#[derive(Drop)]
pub enum Front {
    /// A closed gate.
    Closed,
    /// An open gate, and behind it a record with a payload of so many bytes.
    Holds { record: Record, len: u64 },
    /// Nothing that a journal writes.
    Outside,
}

/// What the bytes of a disk read as.
#[derive(Drop)]
pub enum Scan {
    /// Records, and then a closed gate at this place.
    Whole { records: Records, end: u64 },
    /// Something outside the format at this place, behind whole records.
    Damaged { place: u64 },
}

/// Whether the room was filled with the disk's bytes at a place. It was not where the disk failed.
fn fills<D: Disk>(disk: &mut D, place: u64, room: &mut [u8]) -> bool
    requires { place + length room.old ≤ (D.storage disk.old).size }
    ensures stays { Stays (D.storage disk.old) (D.storage disk.new) }
    ensures later { (D.storage disk.old).failures ≤ (D.storage disk.new).failures }
    ensures crash { LeavesNoMore (D.crashes disk.old) (D.crashes disk.new) }
    ensures arm { D.armed disk.new ≡ D.armed disk.old }
    ensures left { LeftAlike (D.left_by disk.old) (D.left_by disk.new) }
    ensures long { length room.new ≡ length room.old }
    ensures filled { OnTrue result (IfSome (D.storage disk.old).held
        (λ bytes. room.new ≡ slice_range bytes place (place + length room.new))) }
    ensures given { IfSome (D.armed disk.old) (λ _. result ≡ true) }
    ensures failed { OnFalse result (Rose (D.storage disk.old).failures (D.storage disk.new).failures) }
{
    match disk.read(place, room) {
        Put::Done => true,
        Put::Failed => false,
    }
}

/// So many bytes of the disk at a place; none where the disk failed.
#[tactic(auto, using(vb_disk::proofs::Moments::no_more_none, vb_disk::proofs::Moments::no_more_twice))]
fn payload_at<D: Disk>(
    alloc: Global,
    disk: &mut D,
    place: u64,
    len: usize,
) -> Result<Option<Bytes>, AllocError>
    requires { place + len ≤ (D.storage disk.old).size }
    ensures stays { Stays (D.storage disk.old) (D.storage disk.new) }
    ensures later { (D.storage disk.old).failures ≤ (D.storage disk.new).failures }
    ensures crash { LeavesNoMore (D.crashes disk.old) (D.crashes disk.new) }
    ensures arm { D.armed disk.new ≡ D.armed disk.old }
    ensures left { LeftAlike (D.left_by disk.old) (D.left_by disk.new) }
    ensures given { IfOk result (GivesUnder (D.armed disk.old)) }
    ensures taken { IfOk result (Taken (D.storage disk.old) (D.storage disk.new) place len) }
{
    let mut payload = vec![in alloc; 0; len]?;
    if !fills(disk, place, &mut payload) {
        return Ok(None);
    }
    Ok(Some(Bytes::from_vec(payload)?))
}

/// What stands at a place of the disk; none where the disk failed.
#[tactic(auto, using(vb_disk::proofs::Moments::no_more_none, vb_disk::proofs::Moments::no_more_twice))]
fn front_at<D: Disk>(alloc: Global, disk: &mut D, place: u64) -> Result<Option<Front>, AllocError>
    ensures stays { Stays (D.storage disk.old) (D.storage disk.new) }
    ensures later { (D.storage disk.old).failures ≤ (D.storage disk.new).failures }
    ensures crash { LeavesNoMore (D.crashes disk.old) (D.crashes disk.new) }
    ensures arm { D.armed disk.new ≡ D.armed disk.old }
    ensures left { LeftAlike (D.left_by disk.old) (D.left_by disk.new) }
    ensures few { (D.storage disk.old).size < 2 ^ 62 }
    ensures given { IfOk result (GivesUnder (D.armed disk.old)) }
    ensures found { IfOk result (λ begins. Found (D.storage disk.old) (D.storage disk.new) place begins) }
    ensures within { IfOk result (λ begins. IfSome begins (IsWithin (D.storage disk.old).size place)) }
{
    let size = disk.len();
    if size <= place {
        return Ok(Some(Front::Outside));
    }
    let mut gate = [0];
    if !fills(disk, place, &mut gate) {
        return Ok(None);
    }
    if gate[0] != OPEN {
        return Ok(Some(Front::Closed));
    }
    if size - place < HEAD_LEN {
        return Ok(Some(Front::Outside));
    }
    let mut len = [0; 4];
    if !fills(disk, place + 1, &mut len) {
        return Ok(None);
    }
    let len = u64::from(u32::from_be_bytes(len));
    if len > MAX_PAYLOAD as u64 || size - place < HEAD_LEN + len {
        return Ok(Some(Front::Outside));
    }
    let Some(payload) = payload_at(alloc, disk, place + HEAD_LEN, len as usize)? else {
        return Ok(None);
    };
    match read_payload(alloc, payload)? {
        Some(record) => Ok(Some(Front::Holds { record, len })),
        None => Ok(Some(Front::Outside)),
    }
}

/// What the disk reads as; nothing where it failed. The disk is read once, from its start on, and
/// each record's payload is decoded once.
#[tactic(auto, using(vb_disk::proofs::Moments::no_more_none, vb_disk::proofs::Moments::no_more_twice))]
pub fn scan_disk<D: Disk>(alloc: Global, disk: &mut D) -> Result<Option<Scan>, AllocError>
    ensures stays { Stays (D.storage disk.old) (D.storage disk.new) }
    ensures later { (D.storage disk.old).failures ≤ (D.storage disk.new).failures }
    ensures crash { LeavesNoMore (D.crashes disk.old) (D.crashes disk.new) }
    ensures arm { D.armed disk.new ≡ D.armed disk.old }
    ensures left { LeftAlike (D.left_by disk.old) (D.left_by disk.new) }
    ensures few { (D.storage disk.old).size < 2 ^ 62 }
    ensures given { IfOk result (GivesUnder (D.armed disk.old)) }
    ensures scanned { IfOk result (Scanned (D.storage disk.old) (D.storage disk.new)) }
    ensures within { IfOk result (λ found. IfSome found (EndsWithin (D.storage disk.old).size)) }
{
    let mut records = Listed::new(alloc);
    let mut place = 0;
    loop {
        match front_at(alloc, disk, place)? {
            Some(Front::Closed) => return Ok(Some(Scan::Whole {
                records,
                end: place,
            })),
            Some(Front::Holds { record, len }) => {
                records.push(record)?;
                place += HEAD_LEN + len;
            }
            Some(Front::Outside) => return Ok(Some(Scan::Damaged { place })),
            None => return Ok(None),
        }
    }
}
