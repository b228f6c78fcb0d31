//! One journal, and the batch on its way to it.
ghost use Rattle.std.specs.Prelude.{◌≡◌, true, false, [], IfOk, OnErr};
ghost use Rattle.std.specs.Option.{option_map};
ghost use Rattle.{disk_journals.specs.Opening.{IsEnded}, disk_journals.specs.Seen.{flush_of, stage_of}, disk_journals.specs.Asking.{SlotAnswers, SlotUnasked, fate_by, fate_of_wrote}};
ghost use Rattle.disk_journals.specs.{Arms.{seen_under}, Devices.{device}, Saving.{SavesSlot}};
ghost use Rattle.vb_disk.specs.declared.fuse.Fuse.TheVariants.{Off};
ghost use Rattle.{flusher.specs.Turns.{receipt_in, without_receipt}, flusher.specs.declared.flusher.Flusher.TheVariants.{Idle, Out}};
ghost use Rattle.vb_types.specs.declared.journal.Record.TheVariants.{Rows};
ghost use Rattle.{vb_calls.specs.Flushes.{wrote_of}, vb_calls.specs.Shelves.{Append, Read, reading_by}};
ghost use Rattle.{vb_disk.specs.{Crashes.{IsSettled}, Disks.{IsAsMade}}, vb_journal.specs.{Books.{failures_of}, Payloads.{is_writable}}};

use crate::opening::VbDisk;
use flusher::Flusher;
use std::alloc::{AllocError, Global};
use std::marker::Model;
use vb_calls::Wrote;
use vb_disk::{Disk, Fuse, FuseDisk};
use vb_journal::{AppendFault, Batch, Journal, Receipt, Record, Records};

/// How far a batch is.
#[derive(Clone, Copy, Debug, PartialEq, Eq)]
pub enum Stage {
    /// None is on its way.
    Idle,
    /// It was taken.
    Out,
    /// It was appended.
    Written,
}

/// A vBucket's journal, with the batch on its way to it.
#[derive(Drop)]
pub struct JournalSlot<D: Disk> {
    number: u16,
    journal: Journal<D>,
    flusher: Flusher,
}

impl<D: Disk> Model for JournalSlot<D> {
    ghost use Rattle.disk_journals.specs.Seen.{Seen, seen_code, IsSendable};

    ghost Value = { Seen D };

    ghost coded = { seen_code D.code };

    ghost view = { λ s. record { number = s.number; journal = s.journal; flusher = s.flusher } };

    ghost invariant = { λ s. IsSendable s.flusher };
}

/// What an append came to.
fn wrote_by<T>(came: &Result<T, AppendFault>) -> Wrote
    ensures { result ≡ wrote_of (fate_by came.now) }
{
    match came {
        Ok(_) => Wrote::Stood,
        Err(AppendFault::Closed) => Wrote::Closed,
        Err(AppendFault::DiskFailed | AppendFault::Damaged { .. }) => Wrote::DiskFailed,
    }
}

impl<D: Disk> JournalSlot<D> {
    /// A blank journal on a disk as it was made, which a crash would leave so.
    pub fn new(alloc: Global, number: u16, disk: D) -> JournalSlot<D>
        requires made { IsAsMade (D.storage disk) }
        requires settled { IsSettled (D.storage disk).held (D.crashes disk) }
        ensures { result ≡ record { number = number; journal = record { disk = disk; book = option_map (λ _. []) (D.storage disk).held; closed = false }; flusher = Idle } }
    {
        JournalSlot {
            number,
            journal: Journal::create(alloc, disk),
            flusher: Flusher::Idle,
        }
    }

    /// A journal that was opened.
    pub fn opened(number: u16, journal: Journal<D>) -> JournalSlot<D>
        ensures { result ≡ record { number = number; journal = journal; flusher = Idle } }
    {
        JournalSlot {
            number,
            journal,
            flusher: Flusher::Idle,
        }
    }

    /// Ends the journal, and gives its disk back.
    pub fn into_disk(self) -> VbDisk<D>
        ensures { IsEnded D.storage self result }
    {
        let JournalSlot {
            number,
            journal,
            ..
        } = self;
        VbDisk {
            number,
            disk: journal.into_disk(),
        }
    }

    /// The number of its vBucket.
    pub fn number(&self) -> u16
        ensures { result ≡ self.now.number }
    {
        self.number
    }

    /// How often calls of its disk have failed.
    pub fn faults(&self) -> u64
        ensures { result ≡ failures_of D.storage self.now.journal }
    {
        self.journal.faults()
    }

    /// How far the batch on its way is.
    pub fn stage(&self) -> Stage
        ensures { result ≡ stage_of (flush_of self.now.flusher) }
    {
        match self.flusher {
            Flusher::Idle => Stage::Idle,
            Flusher::Out(_) => Stage::Out,
            Flusher::Written(_) => Stage::Written,
        }
    }

    /// Appends a record. An `Err` changes nothing but what memory is ready for.
    pub fn append(&mut self, what: &Record) -> Result<Wrote, AllocError>
        requires { is_writable what.now ≡ true }
        ensures ok { IfOk result (λ wrote. SlotAnswers (device D.storage D.crashes D.armed D.left_by) self.old (Append what.now) (fate_of_wrote wrote) self.new) }
        ensures said { IfOk result (λ wrote. wrote ≡ wrote_of (fate_of_wrote wrote)) }
        ensures number { self.new.number ≡ self.old.number }
        ensures flusher { self.new.flusher ≡ self.old.flusher }
        ensures err { OnErr result (SlotUnasked (device D.storage D.crashes D.armed D.left_by) self.old self.new) }
    {
        let came = self.journal.append(what)?;
        Ok(wrote_by(&came))
    }

    /// Appends the batch that was taken. Where that fails, no batch is on its way any more. An `Err`
    /// changes nothing but what memory is ready for.
    pub fn save(&mut self) -> Result<Wrote, AllocError>
        requires { stage_of (flush_of self.old.flusher) ≡ Stage.Out }
        ensures ok { IfOk result (λ wrote. SavesSlot (device D.storage D.crashes D.armed D.left_by) self.old.flusher self.old self.new (fate_of_wrote wrote)) }
        ensures number { self.new.number ≡ self.old.number }
        ensures err { OnErr result (SlotUnasked (device D.storage D.crashes D.armed D.left_by) self.old self.new) }
    {
        let came = self.flusher.save(&mut self.journal)?;
        Ok(wrote_by(&came))
    }

    /// The records, in their order, read from the disk. An `Err` changes nothing but how often the
    /// disk failed.
    pub fn records(&mut self) -> Result<Result<Records, AppendFault>, AllocError>
        ensures ok { IfOk result (λ came. SlotAnswers (device D.storage D.crashes D.armed D.left_by) self.old Read (reading_by came) self.new) }
        ensures err { OnErr result (SlotUnasked (device D.storage D.crashes D.armed D.left_by) self.old self.new) }
        ensures number { self.new.number ≡ self.old.number }
    {
        self.journal.records()
    }

    /// Takes a batch over.
    pub fn put(&mut self, batch: Batch)
        requires idle { self.old.flusher ≡ Idle }
        requires writable { is_writable (Rows batch) ≡ true }
        ensures { self.new ≡ record self.old { flusher = Out batch } }
    {
        self.flusher = Flusher::Out(batch);
    }

    /// The receipt of the batch that was appended, which is done from then on.
    pub fn done(&mut self) -> Option<Receipt>
        ensures receipt { result ≡ receipt_in self.old.flusher }
        ensures rest { self.new ≡ record self.old { flusher = without_receipt self.old.flusher } }
    {
        self.flusher.done()
    }

    /// Forgets the batch that is on its way.
    pub fn discard(&mut self)
        ensures { self.new ≡ record self.old { flusher = Idle } }
    {
        self.flusher.discard();
    }
}

impl JournalSlot<FuseDisk> {
    /// Puts this arm over its disk.
    pub fn arm(&mut self, fuse: Fuse)
        ensures { self.new ≡ seen_under fuse self.old }
    {
        self.journal.arm(fuse);
    }

    /// Takes what is left of the arm off its disk.
    pub fn disarm(&mut self) -> Fuse
        ensures left { result ≡ self.old.journal.disk.fuse }
        ensures off { self.new ≡ seen_under Off self.old }
    {
        self.journal.disarm()
    }
}
