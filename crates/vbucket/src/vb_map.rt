//! The vBuckets of one node.
ghost use Rattle.std.specs.Prelude.{◌≡◌, ◌==◌, ◌||◌, ℕ, IfOk, OnErr, OnOk, [], None, Some, is_some, true};
ghost use Rattle.std.specs.List.{position};
ghost use Rattle.vb_calls.specs.Plain.{Plain, plain_step};
ghost use Rattle.vb_calls.specs.Forms.{TakesMemory};
ghost use Rattle.vbucket.specs.Rows.{row_at};
ghost use Rattle.vb_calls.specs.Programs.{IsReply, alone_step, alone_made};
ghost use Rattle.vb_calls.specs.States.{States, with_vb_at};
ghost use Rattle.vbucket.specs.Stands.{StandsFor, slot_number, has_slot, SlotsStand};

use crate::vbucket::VBucket;
use std::alloc::{AllocError, Global};
use std::marker::Model;
use vb_calls::{VbAccess, VbCall, VbReply};
use vb_types::Role;

/// A vBucket with its number.
#[derive(Drop)]
pub struct VbSlot {
    pub number: u16,
    pub vb: VBucket,
}

/// The vBuckets of a node, which nobody else calls.
#[derive(Drop)]
pub struct VbMap {
    alloc: Global,
    slots: Vec<VbSlot>,
}

impl Model for VbMap {
    ghost use Rattle.std.specs.Prelude.{List};
    ghost use Rattle.std.specs.Coded.{coded_list};
    ghost use Rattle.vbucket.specs.declared.vb_map.VbSlot.{VbSlot};
    ghost use Rattle.vbucket.specs.contracts.vb_map.VbSlot as slot_row;

    ghost Value = { List VbSlot };

    ghost coded = { coded_list slot_row.the_row.coded };

    ghost view = { λ m. m.slots.items };
}

/// Where the vBucket stands.
fn slot_place(slots: &[VbSlot], v: u16) -> Option<usize>
    ensures { result ≡ position (λ slot. slot.number == v) slots.now }
{
    slots.iter().position(|slot| slot.number == v)
}

/// What a vBucket that is there replies.
fn step_slot(slot: &mut VbSlot, call: VbCall) -> Result<Option<VbReply>, AllocError>
    ensures ok { IfOk result (λ reply. (s : Plain) → StandsFor slot.old.vb s →
        StandsFor slot.new.vb (plain_step s call).0 × (reply ≡ Some (plain_step s call).1)) }
    ensures form { IfOk result (IsReply call) }
    ensures there { IfOk result (λ reply. is_some reply ≡ true) }
    ensures number { slot.new.number ≡ slot.old.number }
    ensures sure { OnErr result (TakesMemory call) }
    ensures err { OnErr result (slot.new ≡ slot.old) }
{
    let reply = slot.vb.step(call)?;
    Ok(Some(reply))
}

impl VbMap {
    /// No vBuckets.
    pub fn new(alloc: Global) -> VbMap
        ensures { result ≡ [] }
    {
        VbMap {
            alloc,
            slots: Vec::new(alloc),
        }
    }

    /// Whether there is one of that number.
    pub fn has(&self, v: u16) -> bool
        ensures { result ≡ has_slot self.now v }
    {
        slot_place(&self.slots, v).is_some()
    }

    /// Adds a vBucket. An `Err` changes nothing.
    pub fn add(&mut self, v: u16, vb: VBucket) -> Result<(), AllocError>
        requires { row_at slot_number v self.old ≡ None }
        ensures ok { OnOk result ((states : States) (plain : Plain) → SlotsStand self.old states → StandsFor vb plain →
            SlotsStand self.new (with_vb_at states v plain)) }
        ensures more { OnOk result ((w : ℕ) → has_slot self.new w ≡ ((w == v) || has_slot self.old w)) }
        ensures err { OnErr result (self.new ≡ self.old) }
    {
        self.slots.push(VbSlot { number: v, vb })?;
        Ok(())
    }
}

impl VbAccess for VbMap {
    ghost has = { has_slot };

    fn is_there(&self, v: u16) -> bool {
        self.has(v)
    }

    ghost step = { alone_step SlotsStand };

    fn call(&mut self, v: u16, call: VbCall) -> Result<Option<VbReply>, AllocError> {
        match slot_place(&self.slots, v) {
            None => {
                // Handed on whole: what lets a call go here, variant by variant, is longer than all else.
                drop(call);
                Ok(None)
            }
            Some(at) => step_slot(&mut self.slots[at], call),
        }
    }

    ghost made = { alone_made SlotsStand };

    fn make(&mut self, v: u16, node: u8, role: Role, uuid: u64) -> Result<bool, AllocError> {
        if self.has(v) {
            return Ok(false);
        }
        let vb = VBucket::new(self.alloc, node, role, uuid)?;
        self.add(v, vb)?;
        Ok(true)
    }
}
