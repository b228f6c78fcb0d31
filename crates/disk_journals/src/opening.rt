//! Opening the journals of many disks.
ghost use Rattle.std.specs.Prelude.{◌≡◌, ◌+◌, ◌≤◌, ◌++◌, [], map, length, IfOk, IfErr, OnOk};
ghost use Rattle.std.specs.VecDeque.{deque_len, deque_capacity};
ghost use Rattle.disk_journals.specs.Devices.{device};
ghost use Rattle.disk_journals.specs.Opening.{AreOpened, FaultedBy, disk_of, fault_of};

use std::alloc::{AllocError, Global};
use std::collections::VecDeque;
use vb_disk::Disk;
use vb_journal::{Journal, OpenFault, Records};

/// The disk of a vBucket, with its number.
#[derive(Drop)]
pub struct VbDisk<D> {
    pub number: u16,
    pub disk: D,
}

/// Disks with the numbers of their vBuckets.
pub type Disks<D> = VecDeque<VbDisk<D>>;

/// A journal that was opened, with the number of its vBucket, and its records in the order in which
/// they were appended.
#[derive(Drop)]
pub struct OpenJournal<D: Disk> {
    pub number: u16,
    pub journal: Journal<D>,
    pub records: Records,
}

/// Why journals were not opened.
#[derive(Clone, Copy, Debug, PartialEq, Eq)]
pub enum OpenCause {
    /// Memory was short.
    NoMemory,
    /// A disk failed.
    DiskFailed,
    /// The bytes of a disk from the gate at this place on are no journal's.
    Damaged { place: u64 },
}

/// Why a journal was not opened, and its disk.
fn cause_of<D>(fault: OpenFault<D>) -> (OpenCause, D)
    ensures { fault_of result.0 result.1 ≡ fault }
{
    match fault {
        OpenFault::NoMemory { disk } => (OpenCause::NoMemory, disk),
        OpenFault::DiskFailed { disk } => (OpenCause::DiskFailed, disk),
        OpenFault::Damaged { place, disk } => (OpenCause::Damaged { place }, disk),
    }
}

/// Opens the journal of each disk, in their order. Where one can't be opened, all disks are put
/// back, in their order: the one that was not opened as its opening left it, and those behind it as
/// they were.
pub fn open_journals<D: Disk + Drop>(
    alloc: Global,
    disks: &mut Disks<D>,
) -> Result<VecDeque<OpenJournal<D>>, OpenCause>
    ensures ok { IfOk result (λ opened. AreOpened (device D.storage D.crashes D.armed D.left_by) disks.old.items opened.items) }
    ensures taken { OnOk result (disks.new.items ≡ []) }
    ensures room { IfOk result (λ opened. deque_len opened + deque_len disks.new ≤ deque_capacity disks.new) }
    ensures err { IfErr result (λ cause. FaultedBy (device D.storage D.crashes D.armed D.left_by) disks.old.items cause disks.new.items) }
{
    if let Err(_) = disks.reserve(1) {
        return Err(OpenCause::NoMemory);
    }
    let mut opened = match VecDeque::with_capacity(alloc, disks.len()) {
        Ok(opened) => opened,
        Err(_) => return Err(OpenCause::NoMemory),
    };
    while let Some(VbDisk { number, disk }) = disks.pop_front() {
        match Journal::open(alloc, disk) {
            Ok((journal, records)) => opened.push_back_reserved(OpenJournal {
                number,
                journal,
                records,
            }),
            Err(fault) => {
                let (cause, disk) = cause_of(fault);
                disks.push_front_reserved(VbDisk { number, disk });
                close_journals(opened, disks);
                return Err(cause);
            }
        }
    }
    Ok(opened)
}

/// Ends journals that were opened, and puts their disks in front of the others, in their order.
pub fn close_journals<D: Disk + Drop>(mut opened: VecDeque<OpenJournal<D>>, disks: &mut Disks<D>)
    requires { deque_len opened + deque_len disks.old ≤ deque_capacity disks.old }
    ensures disks { disks.new.items ≡ map disk_of opened.items ++ disks.old.items }
    ensures capacity { deque_capacity disks.new ≡ deque_capacity disks.old }
{
    while let Some(
        OpenJournal {
            number,
            journal,
            ..
        },
    ) = opened.pop_back()
    {
        let disk = journal.into_disk();
        disks.push_front_reserved(VbDisk { number, disk });
    }
}
