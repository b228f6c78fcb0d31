//! A journal on a disk of which chosen calls fail: what is answered, what stands behind it, and what a crash leaves.
use crate::bytes::THREE;
use crate::opened::{book_of, disk_of};
use crate::reader::{Book, judge};
use std::alloc::Global;
use std::test::Fail;
use vb_disk::{Disk, ListedDisk, MemDisk, Outcome};
use vb_journal::{AppendFault, Journal, OpenFault, Receipt};
use vb_types::Record;

/// An opening of `THREE` syncs once, and reads a gate, a length and a payload of each of its three records, and the last gate.
const OPENING: u64 = 11;

/// The calls of an append.
const APPEND: u64 = 4;

const OUTCOMES: [Outcome; 5] = [
    Outcome::Old,
    Outcome::New,
    Outcome::Fill(0),
    Outcome::Fill(1),
    Outcome::Fill(7),
];

/// What becomes of an append of a Roll.
#[tactic(auto, using(crate::proofs::Writable::writable_roll))]
fn note(journal: &mut Journal<ListedDisk>, to: u64) -> Result<Result<Receipt, AppendFault>, Fail> {
    Ok(journal.append(&Record::Roll { to })?)
}

/// How many records bytes on a disk have, as both readers say; none where they do not say the same, or find damage.
fn records_on(alloc: Global, disk: MemDisk) -> Result<Option<usize>, Fail> {
    let judged = judge(disk.bytes());
    if book_of(alloc, disk)? != Some(judged) {
        return Ok(None);
    }
    Ok(match judged {
        Book::Whole { records, .. } => Some(records),
        Book::Damaged { .. } => None,
    })
}

fn three(alloc: Global, fail: &[u64]) -> Result<ListedDisk, Fail> {
    let disk = disk_of(alloc, &THREE)?.ok_or("a disk in memory failed")?;
    Ok(ListedDisk::new(alloc, disk, fail)?)
}

/// The disk that an opening hands back, where it answers that the disk failed.
fn failed_disk(alloc: Global, disk: ListedDisk) -> Option<ListedDisk> {
    match Journal::open(alloc, disk) {
        Ok((_journal, _records)) => None,
        Err(fault) => match fault {
            OpenFault::DiskFailed { disk } => Some(disk),
            OpenFault::Damaged { disk: _disk, .. } => None,
            OpenFault::NoMemory { disk: _disk } => None,
        },
    }
}

#[test]
fn no_call_of_an_opening_fails_that_is_not_listed(rt: HostRuntime) -> Result<(), Fail> {
    for fail in [0, OPENING + 1] {
        let Ok((journal, records)) = Journal::open(rt.alloc(), three(rt.alloc(), &[fail])?) else {
            assert!(rt; false, "call {fail}");
            return Ok(());
        };
        assert_eq!(rt; records.as_slice().len(), 3);
        assert_eq!(rt; journal.faults(), 0);
        assert_eq!(rt; journal.into_disk().calls(), OPENING);
    }
    Ok(())
}

#[test]
fn each_call_of_an_opening_fails(rt: HostRuntime) -> Result<(), Fail> {
    for fail in 1..=OPENING {
        let Some(disk) = failed_disk(rt.alloc(), three(rt.alloc(), &[fail])?) else {
            assert!(rt; false, "call {fail}");
            return Ok(());
        };
        assert_eq!(rt; disk.calls(), fail);
        assert_eq!(rt; disk.faults(), 1);
        // The disk that was handed back has all that it had.
        let Ok((_journal, records)) = Journal::open(rt.alloc(), disk) else {
            assert!(rt; false, "again, behind call {fail}");
            return Ok(());
        };
        assert_eq!(rt; records.as_slice().len(), 3);
    }
    Ok(())
}

#[test]
fn each_read_of_the_records_fails(rt: HostRuntime) -> Result<(), Fail> {
    for fail in OPENING + 1..2 * OPENING {
        let Ok((mut journal, _)) = Journal::open(rt.alloc(), three(rt.alloc(), &[fail])?) else {
            assert!(rt; false, "call {fail}");
            return Ok(());
        };
        let failed = journal.records()?;
        assert!(rt;
            matches!(failed, Err(AppendFault::DiskFailed)),
            "call {fail}"
        );
        assert!(rt; !journal.is_closed());
        match journal.records()? {
            Ok(records) => assert_eq!(rt; records.as_slice().len(), 3),
            Err(_) => assert!(rt; false, "again, behind call {fail}"),
        }
    }
    Ok(())
}

/// The disk of a journal of one record whose second append failed, at this call of the disk; none where a call answered
/// something else, or the disk was called behind that.
fn broken(alloc: Global, fail: u64) -> Result<Option<ListedDisk>, Fail> {
    let disk = ListedDisk::new(alloc, MemDisk::new(alloc)?, &[fail])?;
    let mut journal = Journal::create(alloc, disk);
    let first = note(&mut journal, 1)?;
    let second = note(&mut journal, 2)?;
    let failed = matches!(second, Err(AppendFault::DiskFailed)) && journal.faults() == 1;
    let third = note(&mut journal, 3)?;
    let read = journal.records()?;
    let shut = matches!(third, Err(AppendFault::Closed))
        && matches!(read, Err(AppendFault::Closed));
    if first.is_err() || !failed || !shut || !journal.is_closed() {
        return Ok(None);
    }
    let disk = journal.into_disk();
    let is_called_no_more = disk.calls() == fail && disk.faults() == 1;
    Ok(if is_called_no_more { Some(disk) } else { None })
}

#[test]
fn an_append_whose_call_fails_closes_its_journal(rt: HostRuntime) -> Result<(), Fail> {
    // Only where its last call failed, the sync behind the gate, was the gate opened.
    for (fail, wanted) in [(5, 1), (6, 1), (7, 1), (8, 2)] {
        let Some(disk) = broken(rt.alloc(), fail)? else {
            assert!(rt; false, "call {fail}");
            return Ok(());
        };
        assert_eq!(rt;
            records_on(rt.alloc(), disk.into_disk())?,
            Some(wanted),
            "call {fail}"
        );
    }
    Ok(())
}

#[test]
fn a_crash_behind_a_call_that_failed_leaves_the_record_or_not(rt: HostRuntime) -> Result<(), Fail> {
    for fail in APPEND + 1..=2 * APPEND {
        for out in OUTCOMES {
            let Some(mut disk) = broken(rt.alloc(), fail)? else {
                assert!(rt; false, "call {fail}");
                return Ok(());
            };
            disk.crash(out);
            let stands = fail == 2 * APPEND && matches!(out, Outcome::New | Outcome::Fill(1));
            let wanted = if stands { 2 } else { 1 };
            assert_eq!(rt;
                records_on(rt.alloc(), disk.into_disk())?,
                Some(wanted),
                "call {fail}"
            );
        }
    }
    Ok(())
}
