//! The payload of a record. Each function appends bytes; of an `Err` nothing is said.
ghost use Rattle.std.specs.Prelude.{◌≡◌, ◌≤◌, ◌<◌, ◌^◌, ◌++◌, length, OnOk, IsTrue};
ghost use Rattle.{std.specs.Int.{w64, to_be_bytes}, std.specs.List.{flat_map, All}};
ghost use Rattle.vb_types.specs.declared.change.Act.TheVariants as act;
ghost use Rattle.vb_journal.specs.declared.payload.TheConstants.{MAX_LOG};
ghost use Rattle.vb_journal.specs.Payloads.{role_byte, flag_byte, act_byte, entry_bytes, log_bytes, doc_head, doc_bytes, act_bytes, item_bytes, batch_bytes, payload_of, is_writable};
ghost use Rattle.vb_journal.specs.Fitting.{EntryFits, DocFits, ActFits, ItemFits, BatchFits, Fits};

use super::{ROLL, ROWS, STATE, VERSION};
use std::alloc::AllocError;
use vb_types::{Act, Batch, Change, Doc, Level, LogEntry, Record, Role};

/// The byte of a role. That of `Pending` is not written.
fn byte_of_role(role: Role) -> u8
    ensures { result ≡ role_byte role }
{
    match role {
        Role::Active => 1,
        Role::Replica => 2,
        Role::Pending => 3,
        Role::Dead => 4,
    }
}

fn byte_of_flag(flag: bool) -> u8
    ensures { result ≡ flag_byte flag }
{
    if flag { 1 } else { 0 }
}

fn byte_of_act(act: &Act) -> u8
    ensures { result ≡ act_byte act.now }
{
    match act {
        Act::Set(_) => 1,
        Act::Remove { .. } => 2,
        Act::Prepare { .. } => 3,
        Act::Commit { .. } => 4,
        Act::Abort { .. } => 5,
    }
}

/// Appends these parts.
fn put(out: &mut Vec<u8>, parts: &[&[u8]]) -> Result<(), AllocError>
    ensures { OnOk result (out.new.items ≡ out.old.items ++ flat_map (λ part. part.now) parts.now) }
{
    for part in parts {
        out.extend_from_slice(part)?;
    }
    Ok(())
}

/// Appends these numbers.
fn put_words(out: &mut Vec<u8>, words: &[u64]) -> Result<(), AllocError>
    ensures { OnOk result (out.new.items ≡ out.old.items ++ flat_map (to_be_bytes w64) words.now) }
{
    for word in words {
        out.extend_from_slice(&word.to_be_bytes())?;
    }
    Ok(())
}

fn put_entry(out: &mut Vec<u8>, entry: LogEntry) -> Result<(), AllocError>
    ensures bytes { OnOk result (out.new.items ≡ out.old.items ++ entry_bytes entry) }
    ensures fits { OnOk result (EntryFits entry) }
{
    put_words(out, &[entry.uuid, entry.seq])?;
    Ok(())
}

/// Appends a document's numbers and its value's length.
#[tactic(auto, unfolding(crate::specs::Payloads::doc_head))]
fn put_doc_head(out: &mut Vec<u8>, doc: &Doc) -> Result<(), AllocError>
    ensures bytes { OnOk result (out.new.items ≡ out.old.items ++ doc_head doc.now) }
    ensures fits { OnOk result (DocFits doc.now) }
{
    let (cas, rev, flags) = (doc.cas, doc.rev, doc.flags);
    let (expiry, datatype) = (doc.expiry, doc.datatype);
    let len = doc.value.as_slice().len() as u32;
    put(
        out,
        &[
            &cas.to_be_bytes(),
            &rev.to_be_bytes(),
            &flags.to_be_bytes(),
            &expiry.to_be_bytes(),
            &[datatype],
            &len.to_be_bytes(),
        ],
    )?;
    Ok(())
}

#[tactic(auto, unfolding(crate::specs::Payloads::doc_bytes))]
fn put_doc(out: &mut Vec<u8>, doc: &Doc) -> Result<(), AllocError>
    ensures bytes { OnOk result (out.new.items ≡ out.old.items ++ doc_bytes doc.now) }
    ensures fits { OnOk result (DocFits doc.now) }
{
    put_doc_head(out, doc)?;
    out.extend_from_slice(doc.value.as_slice())?;
    Ok(())
}

/// Appends what a prepare says.
#[tactic(auto, unfolding(crate::specs::Payloads::act_bytes))]
fn put_prepare(out: &mut Vec<u8>, level: Level, doc: &Doc, deleted: bool) -> Result<(), AllocError>
    ensures bytes { OnOk result (out.new.items ≡ out.old.items ++ act_bytes (act.Prepare level doc.now deleted)) }
    ensures fits { OnOk result (ActFits (act.Prepare level doc.now deleted)) }
{
    put(out, &[&[level.number(), byte_of_flag(deleted)]])?;
    put_doc(out, doc)
}

/// Appends what a commit says.
#[tactic(auto, unfolding(crate::specs::Payloads::act_bytes))]
fn put_commit(out: &mut Vec<u8>, prepared: u64, doc: &Doc, deleted: bool) -> Result<(), AllocError>
    ensures bytes { OnOk result (out.new.items ≡ out.old.items ++ act_bytes (act.Commit prepared doc.now deleted)) }
    ensures fits { OnOk result (ActFits (act.Commit prepared doc.now deleted)) }
{
    put(out, &[&prepared.to_be_bytes(), &[byte_of_flag(deleted)]])?;
    put_doc(out, doc)
}

#[tactic(auto, unfolding(crate::specs::Payloads::act_bytes))]
fn put_act(out: &mut Vec<u8>, act: &Act) -> Result<(), AllocError>
    ensures bytes { OnOk result (out.new.items ≡ out.old.items ++ act_bytes act.now) }
    ensures fits { OnOk result (ActFits act.now) }
{
    match act {
        Act::Set(doc) => put_doc(out, doc),
        Act::Remove { cas, rev } => {
            put_words(out, &[*cas, *rev])?;
            Ok(())
        }
        Act::Prepare {
            level,
            doc,
            deleted,
        } => put_prepare(out, *level, doc, *deleted),
        Act::Commit {
            prepared,
            doc,
            deleted,
        } => put_commit(out, *prepared, doc, *deleted),
        Act::Abort { prepared } => {
            put_words(out, &[*prepared])?;
            Ok(())
        }
    }
}

#[tactic(auto, unfolding(crate::specs::Payloads::item_bytes))]
fn write_item(out: &mut Vec<u8>, item: &Change) -> Result<(), AllocError>
    ensures bytes { OnOk result (out.new.items ≡ out.old.items ++ item_bytes item.now) }
    ensures fits { OnOk result (ItemFits item.now) }
{
    let seq = item.seq;
    let key = item.key.as_slice();
    let len = key.len() as u8;
    put(
        out,
        &[&seq.to_be_bytes(), &[byte_of_act(&item.act), len], key],
    )?;
    put_act(out, &item.act)
}

fn put_items(out: &mut Vec<u8>, items: &[Change]) -> Result<(), AllocError>
    ensures bytes { OnOk result (out.new.items ≡ out.old.items ++ flat_map item_bytes items.now) }
    ensures fits { OnOk result (All ItemFits items.now) }
{
    for item in items {
        write_item(out, item)?;
    }
    Ok(())
}

#[tactic(auto, unfolding(crate::specs::Payloads::log_bytes))]
fn put_log(out: &mut Vec<u8>, log: &[LogEntry]) -> Result<(), AllocError>
    requires { length log.now ≤ MAX_LOG }
    ensures bytes { OnOk result (out.new.items ≡ out.old.items ++ log_bytes log.now) }
    ensures fits { OnOk result (All EntryFits log.now) }
{
    put(out, &[&[log.len() as u8]])?;
    for entry in log {
        put_entry(out, *entry)?;
    }
    Ok(())
}

/// Appends a batch, which has as many changes as a count of four bytes says at most.
#[tactic(auto, unfolding(crate::specs::Payloads::batch_bytes))]
fn put_batch(out: &mut Vec<u8>, batch: &Batch) -> Result<(), AllocError>
    requires log { length batch.now.log ≤ MAX_LOG }
    requires items { length batch.now.items < 2 ^ 32 }
    ensures bytes { OnOk result (out.new.items ≡ out.old.items ++ batch_bytes batch.now) }
    ensures fits { OnOk result (BatchFits batch.now) }
{
    let (ss, se) = (batch.position.ss, batch.position.se);
    let (at, cas) = (batch.position.at, batch.cas);
    put_words(out, &[ss, se, at, cas])?;
    put_log(out, batch.log.as_slice())?;
    let items = batch.items.as_slice();
    let count = items.len() as u32;
    put(out, &[&count.to_be_bytes()])?;
    put_items(out, items)?;
    Ok(())
}

/// Appends the payload of a record, with its values as they are: the one copy of them that is made.
/// An `Err` may leave a part of it.
#[tactic(auto, unfolding(crate::specs::Payloads::payload_of))]
pub(crate) fn write_payload(noted: &Record, out: &mut Vec<u8>) -> Result<(), AllocError>
    requires { IsTrue (is_writable noted.now) }
    ensures ok { OnOk result (out.new.items ≡ out.old.items ++ payload_of noted.now) }
    ensures fits { OnOk result (Fits noted.now) }
{
    match noted {
        Record::State { role, log } => {
            put(out, &[&[VERSION, STATE, byte_of_role(*role)]])?;
            put_log(out, log.as_slice())
        }
        Record::Rows(batch) => {
            put(out, &[&[VERSION, ROWS]])?;
            put_batch(out, batch)
        }
        Record::Roll { to } => {
            put(out, &[&[VERSION, ROLL]])?;
            put_words(out, &[*to])
        }
    }
}
