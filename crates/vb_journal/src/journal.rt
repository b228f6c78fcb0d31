//! A journal on a disk.
ghost use Rattle.std.specs.Prelude.{◌≡◌, ◌+◌, ◌^◌, ◌<◌, ◌≤◌, ◌++◌, [], false, length, drop, vec_len, IsTrue, IfOk, OnErr, OnOk};
ghost use Rattle.std.specs.{Int.{w32, to_be_bytes}, Option.{option_map}};
ghost use Rattle.vb_disk.specs.{declared.fuse.Fuse.TheVariants.{Off}, Counts.{Counted}, Disks.{IsAsMade, IsReady, without}, Outcomes.{LeftAlike}};
ghost use Rattle.vb_disk.specs.Crashes.{AtEachMoment, IsSettled, LeavesNoMore, SettledBy, TornFrom};
ghost use Rattle.vb_journal.specs.{Payloads.{is_writable}, Reading.{behind_gate, IsReadBack}};
ghost use Rattle.vb_journal.specs.Books.{Keeps, Noted, Appended, IsUncalled, Rests, ReadBack, Opened, Bears, failures_of};
ghost use Rattle.vb_journal.specs.Surviving.{IsNeverDamaged, IsUndamaged, KeptOnceDone, NotesAtEachMoment, OldOrNewAtEachMoment, OpenedSafely};
ghost use Rattle.vb_journal.specs.UnderArms.{BurnsBoth, BurnsNoting, EachSettled, LeavesUnder, left_noting, left_writing};
ghost use Rattle.vb_journal.specs.UnderArms.{ArmedBy, KeptByEach, OpensUnder, ReadsUnder, StandsUnder};

use crate::payload::write_payload;
use crate::scan::{OPEN, Records, Scan, scan_disk};
use crate::{AppendFault, OpenFault, Receipt};
use std::alloc::{AllocError, Global};
use std::marker::Model;
use vb_disk::{Disk, Fuse, FuseDisk, Put};
use vb_types::Record;

/// Writes a length over the first four bytes.
fn set_len(bytes: &mut [u8], len: u32)
    requires { 4 ≤ length bytes.old }
    ensures { bytes.new ≡ to_be_bytes w32 len ++ drop 4 bytes.old }
{
    bytes[..4].copy_from_slice(&len.to_be_bytes());
}

/// What is written behind a closed gate: the record's length and payload, and a closed gate.
fn bytes_behind(alloc: Global, noted: &Record) -> Result<Vec<u8>, AllocError>
    requires { IsTrue (is_writable noted.now) }
    ensures bytes { IfOk result (λ bytes. bytes.items ≡ behind_gate noted.now) }
    ensures back { OnOk result (IsReadBack noted.now) }
{
    let mut bytes = vec![in alloc; 0; 4]?;
    write_payload(noted, &mut bytes)?;
    let len = (bytes.len() - 4) as u32;
    set_len(&mut bytes, len);
    bytes.push(0)?;
    Ok(bytes)
}

/// Writes, and syncs.
fn write_kept<D: Disk>(disk: &mut D, at: u64, bytes: &[u8]) -> Put
    requires within { at ≤ (D.storage disk.old).size }
    requires end { at + length bytes.now < 2 ^ 62 }
    requires ready { IsReady at (length bytes.now) (D.storage disk.old).ready }
    ensures kept { Keeps (D.storage disk.old) (D.storage disk.new) at bytes.now result }
    ensures ready { (D.storage disk.new).ready ≡ without at (length bytes.now) (D.storage disk.old).ready }
    ensures counted { Counted (D.storage disk.old).failures (D.storage disk.new).failures result }
    ensures moments { AtEachMoment (D.crashes disk.old) (D.crashes disk.new) (TornFrom (D.crashes disk.old).leaves at (length bytes.now)) }
    ensures settled { SettledBy result (D.storage disk.new).held (D.crashes disk.new) }
    ensures arm { BurnsBoth (D.armed disk.old) (D.armed disk.new) result }
    ensures each { EachSettled result (D.armed disk.old) (D.storage disk.new).held (D.left_by disk.new) }
    ensures left { LeavesUnder (D.armed disk.old) (D.storage disk.old).held (D.left_by disk.old) (D.left_by disk.new)
        (λ f out held. left_writing f out at bytes.now held) }
{
    match disk.write_at(at, bytes) {
        Put::Done => disk.sync(),
        Put::Failed => Put::Failed,
    }
}

/// Writes a record behind a closed gate, and opens the gate once that is kept.
#[tactic(auto, using(crate::proofs::Bearing::gate_stays_ready, crate::proofs::UnderArms::left_by_noting))]
fn note<D: Disk>(disk: &mut D, gate: u64, behind: &[u8]) -> Put
    requires within { gate < (D.storage disk.old).size }
    requires end { gate + 1 + length behind.now < 2 ^ 62 }
    requires ready { IsReady (gate + 1) (length behind.now) (D.storage disk.old).ready }
    requires opens { IsReady gate 1 (D.storage disk.old).ready }
    ensures noted { Noted (D.storage disk.old) (D.storage disk.new) gate behind.now result }
    ensures counted { Counted (D.storage disk.old).failures (D.storage disk.new).failures result }
    ensures moments { IsSettled (D.storage disk.old).held (D.crashes disk.old)
        → NotesAtEachMoment (D.storage disk.old).held (D.crashes disk.old) (D.crashes disk.new) gate behind.now }
    ensures settled { SettledBy result (D.storage disk.new).held (D.crashes disk.new) }
    ensures arm { BurnsNoting (D.armed disk.old) (D.armed disk.new) result }
    ensures each { EachSettled result (D.armed disk.old) (D.storage disk.new).held (D.left_by disk.new) }
    ensures left { LeavesUnder (D.armed disk.old) (D.storage disk.old).held (D.left_by disk.old) (D.left_by disk.new)
        (λ f out held. left_noting f out gate behind.now held) }
{
    match write_kept(disk, gate + 1, behind) {
        Put::Done => write_kept(disk, gate, &[OPEN]),
        Put::Failed => Put::Failed,
    }
}

/// A vBucket's records on a disk. It is closed from the first append on that fails; until then a
/// crash leaves what a read gives.
#[derive(Drop)]
pub struct Journal<D: Disk> {
    alloc: Global,
    disk: D,
    /// The place of the closed gate behind the records.
    end: u64,
    closed: bool,
}

impl<D: Disk> Model for Journal<D> {
    ghost use Rattle.vb_journal.specs.{Books.{JournalState, state_code, book_of}, Surviving.{IsHeld}};

    ghost Value = { JournalState D };

    ghost coded = { state_code D.code };

    ghost view = { λ j. record { disk = j.disk; book = book_of (D.storage j.disk).held; closed = j.closed } };

    ghost invariant = { λ j. IsHeld (D.storage j.disk) (D.crashes j.disk) j.end j.closed };
}

impl<D: Disk> Journal<D> {
    /// The journal of no record on a disk as it is made, which a crash would leave so. It calls no
    /// device.
    pub fn create(alloc: Global, disk: D) -> Journal<D>
        requires made { IsAsMade (D.storage disk) }
        requires settled { IsSettled (D.storage disk).held (D.crashes disk) }
        ensures disk { result.disk ≡ disk }
        ensures book { result.book ≡ option_map (λ _. []) (D.storage disk).held }
        ensures is_open { result.closed ≡ false }
    {
        Journal {
            alloc,
            disk,
            end: 0,
            closed: false,
        }
    }

    /// The journal on a disk, and its records, in the order in which they were appended. It syncs
    /// the disk, and reads it once. An error hands the disk back. A crash meanwhile leaves nothing
    /// that one could not have left before, and once it is done a crash leaves these records. It
    /// finds damage on no disk that tells its bytes and journals alone wrote, through any crash.
    pub fn open(alloc: Global, mut disk: D) -> Result<(Journal<D>, Records), OpenFault<D>>
        ensures opened { Opened D.storage disk result }
        ensures crash { OpenedSafely D.storage D.crashes disk result }
        ensures undamaged { IsNeverDamaged D.storage D.crashes disk result }
        ensures arm { OpensUnder D.storage D.armed D.left_by disk result }
    {
        match disk.sync() {
            Put::Done => {}
            Put::Failed => return Err(OpenFault::DiskFailed { disk }),
        }
        match scan_disk(alloc, &mut disk) {
            Ok(Some(Scan::Whole { records, end })) => {
                let journal = Journal {
                    alloc,
                    disk,
                    end,
                    closed: false,
                };
                Ok((journal, records))
            }
            Ok(Some(Scan::Damaged { place })) => Err(OpenFault::Damaged { place, disk }),
            Ok(None) => Err(OpenFault::DiskFailed { disk }),
            Err(AllocError) => Err(OpenFault::NoMemory { disk }),
        }
    }

    /// Appends a record, which is kept from then on. All memory is taken before the disk is
    /// called, so an `Err` of memory changes no byte. Where the disk fails, the journal is closed
    /// from then on, and the record may be kept or not. While the journal is open, a crash at any
    /// moment of it leaves the records from before, or them and this one, and once it is done them
    /// and this one.
    pub fn append(&mut self, noted: &Record) -> Result<Result<Receipt, AppendFault>, AllocError>
        requires { IsTrue (is_writable noted.now) }
        ensures ok { IfOk result (Appended D.storage self.old self.new noted.now) }
        ensures err { OnErr result (IsUncalled D.storage self.old self.new) }
        ensures any_moment { OldOrNewAtEachMoment D.crashes self.old self.new noted.now }
        ensures kept { IfOk result (KeptOnceDone D.storage D.crashes self.new) }
        ensures arm { IfOk result (ArmedBy (D.armed self.old.disk) (D.armed self.new.disk)) }
        ensures arm_err { OnErr result (D.armed self.new.disk ≡ D.armed self.old.disk) }
        ensures left_err { OnErr result (LeftAlike (D.left_by self.old.disk) (D.left_by self.new.disk)) }
        ensures stands { OnOk result (StandsUnder D.storage D.armed D.left_by self.old self.new noted.now) }
        ensures kept_by_each { IfOk result (KeptByEach (D.armed self.old.disk) (D.storage self.new.disk).held (D.left_by self.new.disk)) }
    {
        if self.closed {
            return Ok(Err(AppendFault::Closed));
        }
        let behind = bytes_behind(self.alloc, noted)?;
        let gate = self.end;
        self.disk.reserve(gate + 1, behind.len() as u64)?;
        self.disk.reserve(gate, 1)?;
        match note(&mut self.disk, gate, &behind) {
            Put::Done => {
                self.end = gate + behind.len() as u64;
                Ok(Ok(Receipt::of(noted)))
            }
            Put::Failed => {
                self.closed = true;
                Ok(Err(AppendFault::DiskFailed))
            }
        }
    }

    /// The records, in the order in which they were appended, read from the disk anew. An `Err` of
    /// memory changes nothing.
    pub fn records(&mut self) -> Result<Result<Records, AppendFault>, AllocError>
        ensures ok { IfOk result (ReadBack D.storage self.old self.new) }
        ensures err { OnErr result (Rests D.storage self.old self.new) }
        ensures crash { LeavesNoMore (D.crashes self.old.disk) (D.crashes self.new.disk) }
        ensures arm { D.armed self.new.disk ≡ D.armed self.old.disk }
        ensures left { LeftAlike (D.left_by self.old.disk) (D.left_by self.new.disk) }
        ensures given { IfOk result (ReadsUnder (D.armed self.old.disk)) }
    {
        if self.closed {
            return Ok(Err(AppendFault::Closed));
        }
        match scan_disk(self.alloc, &mut self.disk)? {
            Some(Scan::Whole { records, .. }) => Ok(Ok(records)),
            Some(Scan::Damaged { place }) => Ok(Err(AppendFault::Damaged { place })),
            None => Ok(Err(AppendFault::DiskFailed)),
        }
    }

    /// How often calls of its disk have failed. The count never falls, and stands still at `u64::MAX`.
    pub fn faults(&self) -> u64
        ensures { result ≡ failures_of D.storage self.now }
    {
        self.disk.faults()
    }

    /// Whether an append failed.
    pub fn is_closed(&self) -> bool
        ensures { result ≡ self.now.closed }
    {
        self.closed
    }

    /// Ends the journal, and gives its disk back, whose bytes read as its records. Whatever became
    /// of its appends, an opening finds no damage there, also behind a crash.
    pub fn into_disk(self) -> D
        ensures disk { result ≡ self.disk }
        ensures book { Bears (D.storage result).held self.book }
        ensures undamaged { IsUndamaged (D.storage result) (D.crashes result) }
    {
        self.disk
    }
}

impl Journal<FuseDisk> {
    /// Puts this arm over its disk.
    pub fn arm(&mut self, fuse: Fuse)
        ensures { self.new ≡ record self.old { disk = record self.old.disk { fuse = fuse } } }
    {
        self.disk.arm(fuse);
    }

    /// Takes what is left of the arm off its disk, to put it over another.
    pub fn disarm(&mut self) -> Fuse
        ensures left { result ≡ self.old.disk.fuse }
        ensures off { self.new ≡ record self.old { disk = record self.old.disk { fuse = Off } } }
    {
        self.disk.disarm()
    }
}
