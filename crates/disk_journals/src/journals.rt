//! Journals by numbers, and what is asked of one.
ghost use Rattle.std.specs.Prelude.{◌≡◌, ◌==◌, ◌||◌, ◌<◌, ◌+◌, ◌≤◌, ℕ, length, map, [], true, None, IsSome, IfSome, IfOk, IfErr, OnErr, OnOk, OnSome, IfNone};
ghost use Rattle.std.specs.VecDeque.{deque_len, deque_capacity};
ghost use Rattle.disk_journals.specs.Opening.{AreEnded, seen_opened};
ghost use Rattle.std.specs.Bool.{OnTrue, OnFalse};
ghost use Rattle.{disk_journals.specs.Seen.{seen_at, has_seen, place_in, flush_at, stage_of}, disk_journals.specs.{Devices.{device, fuse_over}, Stands.{IsBlank, ShelvesStand, blank_under}}};
ghost use Rattle.disk_journals.specs.{Anyhow.{failures_at}, Asking.{disk_asks, fate_of_wrote}};
ghost use Rattle.disk_journals.specs.Saving.{SavedAt, UnsavedAt, written_in};
ghost use Rattle.{vb_calls.specs.Flushes.{wrote_of}, vb_calls.specs.Jobs.{IsUnasked}, vb_calls.specs.Shelves.{Append, Read, Keep, Idle, Out, Got, Shelves, reading_by, with_shelf_at}};
ghost use Rattle.{vb_disk.specs.{Crashes.{IsSettled}, Disks.{IsAsMade}}, vb_journal.specs.Payloads.{is_writable}, vb_types.specs.declared.journal.Record.TheVariants.{Rows}};

use crate::opening::{Disks, OpenJournal};
use crate::slot::{JournalSlot, Stage};
use std::alloc::{AllocError, Global};
use std::collections::VecDeque;
use std::marker::Model;
use vb_calls::Wrote;
use vb_disk::Disk;
use vb_journal::{AppendFault, Batch, Receipt, Record, Records};

/// Journals by the numbers of their vBuckets, each with the batch on its way to it.
#[derive(Drop)]
pub struct DiskJournals<D: Disk> {
    pub(crate) alloc: Global,
    pub(crate) slots: Vec<JournalSlot<D>>,
    /// No disk, and the memory to hand all disks back.
    pub(crate) room: Disks<D>,
}

impl<D: Disk> Model for DiskJournals<D> {
    ghost use Rattle.std.specs.Prelude.{◌≡◌, ◌+◌, ◌≤◌, [], List, vec_len};
    ghost use Rattle.std.specs.Coded.{coded_list};
    ghost use Rattle.std.specs.VecDeque.{deque_len, deque_capacity};
    ghost use Rattle.disk_journals.specs.Seen.{Seen, seen_code};

    ghost Value = { List (Seen D) };

    ghost coded = { coded_list (seen_code D.code) };

    ghost view = { λ m. m.slots.items };

    ghost invariant = { λ m. (m.room.items ≡ []) × (vec_len m.slots + deque_len m.room ≤ deque_capacity m.room) };
}

/// Where the journal of a number stands.
#[tactic(auto, unfolding(crate::specs::Seen::place_in))]
pub(crate) fn place_of<D: Disk>(slots: &[JournalSlot<D>], v: u16) -> Option<usize>
    ensures first { result ≡ place_in slots.now v }
    ensures within { IfSome result (λ at. at < length slots.now) }
{
    slots.iter().position(|slot| slot.number() == v)
}

impl<D: Disk> DiskJournals<D> {
    /// No journals.
    pub fn new(alloc: Global) -> DiskJournals<D>
        ensures { result ≡ [] }
    {
        DiskJournals {
            alloc,
            slots: Vec::new(alloc),
            room: VecDeque::new(alloc),
        }
    }

    /// Where the journal of a number stands.
    pub(crate) fn place(&self, v: u16) -> Option<usize>
        ensures first { result ≡ place_in self.now v }
        ensures within { IfSome result (λ at. at < length self.now) }
    {
        place_of(&self.slots, v)
    }

    /// Whether there is one of that number.
    #[tactic(auto, using(crate::proofs::Places::placed))]
    pub fn has(&self, v: u16) -> bool
        ensures { result ≡ has_seen self.now v }
    {
        self.place(v).is_some()
    }

    /// Appends a record. `Closed` where there is no such journal.
    #[tactic(auto, using(crate::proofs::Asked::asked))]
    pub(crate) fn note(&mut self, v: u16, what: &Record) -> Result<Wrote, AllocError>
        requires { is_writable what.now ≡ true }
        ensures ok { IfOk result (λ wrote. disk_asks (device D.storage D.crashes D.armed D.left_by) self.old v (Append what.now) (fate_of_wrote wrote) self.new) }
        ensures said { IfOk result (λ wrote. wrote ≡ wrote_of (fate_of_wrote wrote)) }
        ensures err { OnErr result (IsUnasked (disk_asks (device D.storage D.crashes D.armed D.left_by)) v self.old self.new) }
    {
        match self.place(v) {
            None => Ok(Wrote::Closed),
            Some(at) => self.slots[at].append(what),
        }
    }

    /// How far the batch on its way is; none is where there is no such journal.
    #[tactic(auto, using(crate::proofs::Asked::asked))]
    pub(crate) fn stage(&self, v: u16) -> Stage
        ensures { result ≡ stage_of (flush_at self.now v) }
    {
        match self.place(v) {
            None => Stage::Idle,
            Some(at) => self.slots[at].stage(),
        }
    }

    /// How often calls of a journal's disk have failed; 0 where there is no such journal.
    pub(crate) fn count_faults(&self, v: u16) -> u64
        ensures { result ≡ failures_at (device D.storage D.crashes D.armed D.left_by) self.now v }
    {
        match self.place(v) {
            None => 0,
            Some(at) => self.slots[at].faults(),
        }
    }

    /// The records. `Closed` where there is no such journal.
    #[tactic(auto, using(crate::proofs::Asked::asked))]
    pub(crate) fn read(&mut self, v: u16) -> Result<Result<Records, AppendFault>, AllocError>
        ensures ok { IfOk result (λ came. disk_asks (device D.storage D.crashes D.armed D.left_by) self.old v Read (reading_by came) self.new) }
        ensures err { OnErr result (IsUnasked (disk_asks (device D.storage D.crashes D.armed D.left_by)) v self.old self.new) }
    {
        match self.place(v) {
            None => Ok(Err(AppendFault::Closed)),
            Some(at) => self.slots[at].records(),
        }
    }

    /// Takes a batch over, and whether there is a journal for it.
    #[tactic(auto, using(crate::proofs::Asked::asked))]
    pub(crate) fn put(&mut self, v: u16, batch: Batch) -> bool
        requires idle { flush_at self.old v ≡ Idle }
        requires writable { is_writable (Rows batch) ≡ true }
        ensures kept { disk_asks (device D.storage D.crashes D.armed D.left_by) self.old v (Keep (Out batch)) tt self.new }
        ensures there { OnTrue result (flush_at self.new v ≡ Out batch) }
        ensures none { OnFalse result ((seen_at self.old v ≡ None) × (self.new ≡ self.old)) }
    {
        match self.place(v) {
            None => false,
            Some(at) => {
                self.slots[at].put(batch);
                true
            }
        }
    }

    /// Appends the batch that was taken, if there is one. Where that fails, none is on its way any
    /// more. An `Err` changes nothing but what memory is ready for.
    #[tactic(auto, using(crate::proofs::Asked::asked))]
    pub(crate) fn save(&mut self, v: u16) -> Result<Option<Wrote>, AllocError>
        ensures ok { IfOk result (λ saved. SavedAt (device D.storage D.crashes D.armed D.left_by) (flush_at self.old v) self.old v saved self.new) }
        ensures err { OnErr result (UnsavedAt (device D.storage D.crashes D.armed D.left_by) (flush_at self.old v) self.old v self.new) }
    {
        match self.place(v) {
            None => Ok(None),
            Some(at) => match self.slots[at].stage() {
                Stage::Out => Ok(Some(self.slots[at].save()?)),
                Stage::Idle | Stage::Written => Ok(None),
            },
        }
    }

    /// The receipt of the batch that was appended, if there is one, which is done from then on.
    #[tactic(auto, using(crate::proofs::Asked::asked))]
    pub(crate) fn done(&mut self, v: u16) -> Option<Receipt>
        ensures receipt { result ≡ written_in (flush_at self.old v) }
        ensures kept { OnSome result (disk_asks (device D.storage D.crashes D.armed D.left_by) self.old v (Keep Idle) tt self.new) }
        ensures none { IfNone result (self.new ≡ self.old) }
    {
        match self.place(v) {
            None => None,
            Some(at) => self.slots[at].done(),
        }
    }

    /// Forgets the batch that is on its way.
    #[tactic(auto, using(crate::proofs::Asked::asked))]
    pub(crate) fn discard(&mut self, v: u16)
        ensures { disk_asks (device D.storage D.crashes D.armed D.left_by) self.old v (Keep Idle) tt self.new }
    {
        match self.place(v) {
            None => {}
            Some(at) => self.slots[at].discard(),
        }
    }
}

impl<D: Disk + Drop> DiskJournals<D> {
    /// Adds a blank journal, on a disk as it was made, which a crash would leave so. An `Err`
    /// changes nothing.
    pub fn add(&mut self, v: u16, disk: D) -> Result<(), AllocError>
        requires fresh { seen_at self.old v ≡ None }
        requires made { IsAsMade (D.storage disk) }
        requires settled { IsSettled (D.storage disk).held (D.crashes disk) }
        ensures ok { OnOk result (IsBlank (device D.storage D.crashes D.armed D.left_by) disk → (shelves : Shelves) → ShelvesStand (device D.storage D.crashes D.armed D.left_by) self.old shelves →
            ShelvesStand (device D.storage D.crashes D.armed D.left_by) self.new (with_shelf_at shelves v (blank_under (fuse_over (D.armed disk))))) }
        ensures more { OnOk result ((w : ℕ) → has_seen self.new w ≡ ((w == v) || has_seen self.old w)) }
        ensures err { OnErr result (self.new ≡ self.old) }
    {
        self.room.reserve(self.slots.len() + 1)?;
        let slot = JournalSlot::new(self.alloc, v, disk);
        self.slots.push(slot)?;
        Ok(())
    }

    /// The journals that were opened, with no batch on its way. `room` is what their disks were taken
    /// out of. Where memory is short, both are handed back.
    pub fn opened(
        alloc: Global,
        mut opened: VecDeque<OpenJournal<D>>,
        room: Disks<D>,
    ) -> Result<DiskJournals<D>, (VecDeque<OpenJournal<D>>, Disks<D>)>
        requires none { room.items ≡ [] }
        requires room { deque_len opened + deque_len room ≤ deque_capacity room }
        ensures ok { IfOk result (λ journals. journals ≡ map seen_opened opened.items) }
        ensures err { IfErr result (λ back. back ≡ (opened, room)) }
    {
        let mut slots = match Vec::with_capacity(alloc, opened.len()) {
            Ok(slots) => slots,
            Err(_) => return Err((opened, room)),
        };
        while let Some(
            OpenJournal {
                number,
                journal,
                ..
            },
        ) = opened.pop_front()
        {
            slots.push_reserved(JournalSlot::opened(number, journal));
        }
        Ok(DiskJournals { alloc, slots, room })
    }

    /// Ends the journals, and gives their disks back, each with its number, in their order.
    pub fn into_disks(self) -> Disks<D>
        ensures { AreEnded D.storage self result.items }
    {
        let DiskJournals {
            mut slots,
            room: mut disks,
            ..
        } = self;
        while let Some(slot) = slots.pop() {
            disks.push_front_reserved(slot.into_disk());
        }
        disks
    }
}
