//! What the journal's own reader says of bytes on a disk in memory, as the second reader says it.
use crate::reader::{Book, summed};
use std::alloc::Global;
use std::test::Fail;
use vb_disk::{Disk, MemDisk, Put};
use vb_journal::{Journal, OpenFault};
use vb_types::{Act, Change, Doc, LogEntry, Record, Role};

fn summed_bytes(sum: u64, bytes: &[u8]) -> u64 {
    let mut sum = summed(sum, bytes.len() as u64);
    for byte in bytes {
        sum = summed(sum, u64::from(*byte));
    }
    sum
}

fn summed_log(sum: u64, log: &[LogEntry]) -> u64 {
    let mut sum = summed(sum, log.len() as u64);
    for entry in log {
        sum = summed(summed(sum, entry.uuid), entry.seq);
    }
    sum
}

fn summed_doc(sum: u64, doc: &Doc) -> u64 {
    let sum = summed(summed(sum, doc.cas), doc.rev);
    let sum = summed(summed(sum, u64::from(doc.flags)), u64::from(doc.expiry));
    summed_bytes(summed(sum, u64::from(doc.datatype)), doc.value.as_slice())
}

fn act_number(act: &Act) -> u64 {
    match act {
        Act::Set(_) => 1,
        Act::Remove { .. } => 2,
        Act::Prepare { .. } => 3,
        Act::Commit { .. } => 4,
        Act::Abort { .. } => 5,
    }
}

fn summed_change(sum: u64, change: &Change) -> u64 {
    let sum = summed(summed(sum, change.seq), act_number(&change.act));
    let sum = summed_bytes(sum, change.key.as_slice());
    match &change.act {
        Act::Set(doc) => summed_doc(sum, doc),
        Act::Remove { cas, rev } => summed(summed(sum, *cas), *rev),
        Act::Prepare {
            level,
            doc,
            deleted,
        } => {
            let sum = summed(sum, u64::from(level.number()));
            summed_doc(summed(sum, u64::from(*deleted)), doc)
        }
        Act::Commit {
            prepared,
            doc,
            deleted,
        } => summed_doc(summed(summed(sum, *prepared), u64::from(*deleted)), doc),
        Act::Abort { prepared } => summed(sum, *prepared),
    }
}

fn role_number(role: Role) -> u64 {
    match role {
        Role::Active => 1,
        Role::Replica => 2,
        Role::Pending => 3,
        Role::Dead => 4,
    }
}

fn summed_record(sum: u64, record: &Record) -> u64 {
    let sum = summed(sum, 1);
    match record {
        Record::State { role, log } => {
            summed_log(summed(summed(sum, 1), role_number(*role)), log.as_slice())
        }
        Record::Rows(batch) => {
            let at = batch.position;
            let sum = summed(summed(summed(sum, 2), at.ss), at.se);
            let mut sum = summed_log(summed(summed(sum, at.at), batch.cas), batch.log.as_slice());
            sum = summed(sum, batch.items.as_slice().len() as u64);
            for change in batch.items.as_slice() {
                sum = summed_change(sum, change);
            }
            sum
        }
        Record::Roll { to } => summed(summed(sum, 3), *to),
    }
}

/// A disk with these bytes; none where it failed.
pub fn disk_of(alloc: Global, bytes: &[u8]) -> Result<Option<MemDisk>, Fail> {
    let mut disk = MemDisk::new(alloc)?;
    disk.reserve(0, bytes.len() as u64)?;
    match disk.write_at(0, bytes) {
        Put::Done => Ok(Some(disk)),
        Put::Failed => Ok(None),
    }
}

/// What opening a disk with these bytes says of them; none where the disk failed.
pub fn opened(alloc: Global, bytes: &[u8]) -> Result<Option<Book>, Fail> {
    match disk_of(alloc, bytes)? {
        Some(disk) => book_of(alloc, disk),
        None => Ok(None),
    }
}

/// What opening a disk says of its bytes; none where it failed.
pub fn book_of(alloc: Global, disk: MemDisk) -> Result<Option<Book>, Fail> {
    match Journal::open(alloc, disk) {
        Ok((_, read)) => {
            let mut sum = 0;
            for record in read.as_slice() {
                sum = summed_record(sum, record);
            }
            let records = read.as_slice().len();
            Ok(Some(Book::Whole { records, sum }))
        }
        Err(OpenFault::Damaged { place, .. }) => Ok(Some(Book::Damaged { place })),
        Err(OpenFault::DiskFailed { .. }) => Ok(None),
        Err(OpenFault::NoMemory { .. }) => Err(Fail::from(std::alloc::AllocError)),
    }
}
