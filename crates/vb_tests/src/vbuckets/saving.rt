//! How a batch is written down.
ghost use Rattle.std.specs.Prelude.{◌≡◌, true, IfSome};
ghost use Rattle.vb_types.specs.declared.journal.Record.TheVariants.{Rows};
ghost use Rattle.vb_journal.specs.Payloads.{is_writable};
ghost use Rattle.vb_calls.specs.Forms.{HasForm};
ghost use Rattle.vb_calls.specs.declared.calls.VbCall.TheVariants.{FlushTake};

use super::calls::{Told, outline};
use std::test::Fail;
use vb_calls::{VbAnswer, VbCall, VbReply};
use vb_disk::MemDisk;
use vb_journal::{Journal, Receipt};
use vb_types::{Batch, Record};
use vbucket::VBucket;

/// A journal in memory.
pub type Pages = Journal<MemDisk>;

/// The batch of a reply, if it has one.
fn batch_of(reply: VbReply) -> Option<Batch>
    requires { HasForm FlushTake reply.answer }
    ensures { IfSome result (λ batch. is_writable (Rows batch) ≡ true) }
{
    let VbReply { answer, .. } = reply;
    match answer {
        VbAnswer::Rows(batch) => Some(batch),
        _ => None,
    }
}

/// Tells a vBucket what was written down.
fn tell(vb: &mut VBucket, receipt: Receipt) -> Result<Told, Fail> {
    let reply = vb.step(VbCall::FlushDone { receipt })?;
    Ok(outline(&reply))
}

/// Takes the next batch, writes it down, and tells the vBucket so.
pub fn flush(vb: &mut VBucket, pages: &mut Pages) -> Result<Told, Fail> {
    let Some(batch) = batch_of(vb.step(VbCall::FlushTake)?) else {
        return Ok(Told::Nothing);
    };
    match pages.append(&Record::Rows(batch))? {
        Ok(receipt) => tell(vb, receipt),
        Err(_) => Ok(Told::Absent),
    }
}
