//! What a stream is given of a vBucket's journal on a disk, where there is memory enough.
use crate::tables::key;
use backfill::{Backfilled, backfill};
use disk_journals::DiskJournals;
use std::alloc::{AllocError, Global};
use std::test::Fail;
use vb_calls::{Journals, VbAccess, VbCall};
use vb_disk::{Fuse, FuseDisk, MemDisk};
use vb_types::{FlushPart, Op, Role, Value, Write};
use vbucket::VbMap;

/// What a backfill gives: a snapshot by its end and how many items it has.
#[derive(Clone, Copy, Debug, PartialEq, Eq)]
enum Told {
    Snapshot(u64, usize),
    Nothing,
    Disk,
}

/// The vBucket 3 and its journal.
#[derive(Drop)]
struct Kept {
    alloc: Global,
    vbs: VbMap,
    journals: DiskJournals<FuseDisk>,
}

impl Kept {
    fn new(alloc: Global) -> Result<Kept, AllocError> {
        let mut vbs = VbMap::new(alloc);
        vbs.make(3, 0, Role::Active, 11)?;
        let mut journals = DiskJournals::new(alloc);
        journals.add(3, FuseDisk::new(MemDisk::new(alloc)?))?;
        Ok(Kept {
            alloc,
            vbs,
            journals,
        })
    }

    /// A document of this name is set, and all is to be written down.
    fn set(&mut self, name: &[u8]) -> Result<(), Fail> {
        let write = Write {
            op: Op::Set,
            key: key(self.alloc, name)?,
            value: Value::new(self.alloc, b"v")?.ok_or("value")?,
            flags: 0,
            expiry: 0,
            datatype: 0,
            cas: 0,
        };
        drop(self.vbs.call(3, VbCall::Store { write, clock: 0 })?);
        drop(self.journals.flush(3, FlushPart::All, &mut self.vbs)?);
        Ok(())
    }

    /// What a sync stream at this place is given.
    fn told(&mut self, v: u16, start: u64) -> Result<Told, AllocError> {
        let came = backfill(self.alloc, &mut self.journals, v, start, 9, true)?;
        Ok(match came {
            Backfilled::Snapshot(snapshot) => {
                Told::Snapshot(snapshot.end, snapshot.items.as_slice().len())
            }
            Backfilled::Nothing => Told::Nothing,
            Backfilled::Disk => Told::Disk,
        })
    }
}

#[test]
fn a_backfill_reads_a_journal_that_is_open(rt: HostRuntime) -> Result<(), Fail> {
    let mut kept = Kept::new(rt.alloc())?;
    kept.set(b"a")?;
    kept.set(b"b")?;
    kept.set(b"a")?;
    let all = kept.told(3, 0)?;
    let later = kept.told(3, 2)?;
    let nothing = kept.told(3, 3)?;
    let none = kept.told(4, 0)?;
    let before = kept.journals.faults(3);
    kept.journals.arm(3, Fuse::Fail(1));
    kept.set(b"c")?;
    let closed = kept.told(3, 0)?;
    let after = kept.journals.faults(3);
    drop(kept);
    assert_eq!(rt; all, Told::Snapshot(3, 2));
    assert_eq!(rt; later, Told::Snapshot(3, 1));
    assert_eq!(rt; nothing, Told::Nothing);
    assert_eq!(rt; none, Told::Disk);
    assert_eq!(rt; before, 0);
    assert_eq!(rt; closed, Told::Disk);
    assert_eq!(rt; after, 1);
    Ok(())
}
