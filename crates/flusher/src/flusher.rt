//! A batch on its way to a journal.
ghost use Rattle.std.specs.Prelude.{◌≡◌, true, IfOk, OnErr};
ghost use Rattle.{flusher.specs.Turns.{put_in, handed_back, receipt_in, without_receipt}, flusher.specs.Saves.{AppendedUnder, IsSavable, IsUncalledUnder, Saved, SavedBy, SavedUnder, append_of, out_again}};
ghost use Rattle.{flusher.specs.declared.flusher.Flusher.TheVariants.{Idle}, vb_journal.specs.Payloads.{is_writable}};

use std::alloc::AllocError;
use std::mem::replace;
use vb_disk::Disk;
use vb_journal::{AppendFault, Batch, Journal, Receipt, Record};

/// One batch at a time, from its take up to where its vBucket counts it as saved.
#[derive(Drop)]
pub enum Flusher {
    /// No batch is on its way.
    Idle,
    /// A batch was taken.
    Out(Batch),
    /// It was appended.
    Written(Receipt),
}

impl Flusher {
    /// Takes a batch. An `Err` hands it back, exactly where another one is on its way, and changes
    /// nothing.
    pub fn put(&mut self, batch: Batch) -> Result<(), Batch>
        ensures state { self.new ≡ put_in self.old batch }
        ensures answer { result ≡ handed_back self.old batch }
    {
        match self {
            Flusher::Idle => {
                *self = Flusher::Out(batch);
                Ok(())
            }
            Flusher::Out(_) | Flusher::Written(_) => Err(batch),
        }
    }

    /// Appends the batch that was taken. After a fault none is on its way any more. Where memory is
    /// short, it is as before.
    pub fn save<D: Disk>(
        &mut self,
        journal: &mut Journal<D>,
    ) -> Result<Result<(), AppendFault>, AllocError>
        requires savable { IsSavable self.old }
        ensures ok { IfOk result (λ saved. Saved D.storage self.old self.new journal.old journal.new saved) }
        ensures under { IfOk result (λ saved. SavedUnder D.storage D.armed D.left_by self.old journal.old journal.new saved) }
        ensures err { OnErr result (self.new ≡ self.old) }
        ensures rest { OnErr result (IsUncalledUnder D.storage D.armed D.left_by journal.old journal.new) }
    {
        match replace(self, Flusher::Idle) {
            Flusher::Out(batch) => self.append(journal, Record::Rows(batch)),
            Flusher::Idle | Flusher::Written(_) => unreachable!(),
        }
    }

    /// The receipt of a batch that was appended; none exactly where no such one is on its way.
    pub fn done(&mut self) -> Option<Receipt>
        ensures receipt { result ≡ receipt_in self.old }
        ensures state { self.new ≡ without_receipt self.old }
    {
        match replace(self, Flusher::Idle) {
            Flusher::Written(receipt) => Some(receipt),
            other => {
                *self = other;
                None
            }
        }
    }

    /// Forgets the batch that is on its way, if there is one. What was appended stands.
    pub fn discard(&mut self)
        ensures { self.new ≡ Idle }
    {
        *self = Flusher::Idle;
    }

    /// Appends a record. The batch that is on its way then is the one that stands, none after a
    /// fault, and where memory is short the one that the record is of.
    fn append<D: Disk>(
        &mut self,
        journal: &mut Journal<D>,
        what: Record,
    ) -> Result<Result<(), AppendFault>, AllocError>
        requires writable { is_writable what ≡ true }
        requires idle { self.old ≡ Idle }
        ensures ok { IfOk result (λ saved. SavedBy D.storage what self.new journal.old journal.new saved) }
        ensures under { IfOk result (λ saved. AppendedUnder D.storage D.armed D.left_by what journal.old journal.new (append_of what saved)) }
        ensures err { OnErr result (self.new ≡ out_again what) }
        ensures rest { OnErr result (IsUncalledUnder D.storage D.armed D.left_by journal.old journal.new) }
    {
        match journal.append(&what) {
            Ok(Ok(receipt)) => {
                *self = Flusher::Written(receipt);
                Ok(Ok(()))
            }
            Ok(Err(fault)) => Ok(Err(fault)),
            Err(stop) => {
                *self = Flusher::out_again(what);
                Err(stop)
            }
        }
    }

    /// The batch of a record is on its way.
    fn out_again(what: Record) -> Flusher
        ensures { result ≡ out_again what }
    {
        match what {
            Record::Rows(batch) => Flusher::Out(batch),
            Record::State { .. } | Record::Roll { .. } => Flusher::Idle,
        }
    }
}
