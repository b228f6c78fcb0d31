//! What bytes are as a record. Each function takes what it reads off the front of the bytes; where
//! it reads nothing it may take a part.
ghost use Rattle.std.specs.Prelude.{◌≡◌, ◌≤◌, length, IfOk, option_map};
ghost use Rattle.{vb_journal.specs.declared.payload.TheConstants.{DOC_HEAD, ROWS_HEAD}, vb_journal.specs.Payloads.{number_64, role_by_byte, flag_in, entry_in, entries_in, log_in, doc_with, doc_in, remove_in, prepare_in, commit_in, abort_in, act_in, item_in, items_in, is_below, rise, changes_in, batch_in, state_in, roll_in, record_in}};

use super::{
    DOC_HEAD, ENTRY_LEN, ITEM_HEAD, LEAST_ITEM, MAX_LOG, MAX_PAYLOAD, ROLL, ROWS, ROWS_HEAD, STATE,
    VERSION,
};
use byteorder::{BigEndian, ByteOrder};
use bytes::Bytes;
use std::alloc::{AllocError, Global};
use vb_types::{
    Act, Batch, Change, Doc, Key, Level, Listed, LogEntry, Position, Record, Role, Value,
};

fn role_of(byte: u8) -> Option<Role>
    ensures { result ≡ role_by_byte byte }
{
    match byte {
        1 => Some(Role::Active),
        2 => Some(Role::Replica),
        4 => Some(Role::Dead),
        _ => None,
    }
}

fn flag_of(byte: u8) -> Option<bool>
    ensures { result ≡ flag_in byte }
{
    match byte {
        0 => Some(false),
        1 => Some(true),
        _ => None,
    }
}

fn entry_of(bytes: &[u8; 16]) -> LogEntry
    ensures { result ≡ entry_in bytes.now }
{
    LogEntry {
        uuid: BigEndian::read_u64(&bytes[0..8]),
        seq: BigEndian::read_u64(&bytes[8..16]),
    }
}

/// The entries that bytes are.
#[tactic(auto, unfolding(crate::specs::Payloads::entries_in))]
fn entries_of(alloc: Global, bytes: &[u8]) -> Result<Listed<LogEntry>, AllocError>
    ensures { IfOk result (λ log. log ≡ entries_in bytes.now) }
{
    let (entries, _) = bytes.as_chunks::<ENTRY_LEN>();
    let mut log = Vec::with_capacity(alloc, entries.len())?;
    for entry in entries {
        log.push(entry_of(entry))?;
    }
    Ok(Listed::from_vec(log))
}

/// Takes a log.
#[tactic(auto, unfolding(crate::specs::Payloads::log_in))]
fn take_log(alloc: Global, rest: &mut Bytes) -> Result<Option<Listed<LogEntry>>, AllocError>
    ensures { IfOk result (λ log. option_map (λ l. (l, rest.new)) log ≡ log_in rest.old) }
{
    let bytes = rest.as_slice();
    if bytes.is_empty() {
        return Ok(None);
    }
    let count = bytes[0] as usize;
    let end = 1 + ENTRY_LEN * count;
    if count > MAX_LOG || bytes.len() < end {
        return Ok(None);
    }
    let log = entries_of(alloc, &bytes[1..end])?;
    rest.advance(end);
    Ok(Some(log))
}

/// The document of these numbers, with this value.
#[tactic(auto, unfolding(crate::specs::Payloads::doc_with))]
fn doc_of(bytes: &[u8], value: Value) -> Doc
    requires { DOC_HEAD ≤ length bytes.now }
    ensures { result ≡ doc_with bytes.now value }
{
    Doc {
        value,
        cas: BigEndian::read_u64(&bytes[0..8]),
        rev: BigEndian::read_u64(&bytes[8..16]),
        flags: BigEndian::read_u32(&bytes[16..20]),
        expiry: BigEndian::read_u32(&bytes[20..24]),
        datatype: bytes[24],
    }
}

/// Takes a document, whose value shares the bytes' memory.
#[tactic(auto, unfolding(crate::specs::Payloads::doc_in))]
fn take_doc(rest: &mut Bytes) -> Result<Option<Doc>, AllocError>
    ensures { IfOk result (λ doc. option_map (λ d. (d, rest.new)) doc ≡ doc_in rest.old) }
{
    let bytes = rest.as_slice();
    if bytes.len() < DOC_HEAD {
        return Ok(None);
    }
    let end = DOC_HEAD + BigEndian::read_u32(&bytes[25..29]) as usize;
    if bytes.len() < end {
        return Ok(None);
    }
    let Some(value) = Value::from_bytes(rest.slice(DOC_HEAD..end)?) else {
        return Ok(None);
    };
    let doc = doc_of(bytes, value);
    rest.advance(end);
    Ok(Some(doc))
}

fn take_remove(rest: &mut Bytes) -> Option<Act>
    ensures { option_map (λ a. (a, rest.new)) result ≡ remove_in rest.old }
{
    let bytes = rest.as_slice();
    if bytes.len() < 16 {
        return None;
    }
    let cas = BigEndian::read_u64(&bytes[0..8]);
    let rev = BigEndian::read_u64(&bytes[8..16]);
    rest.advance(16);
    Some(Act::Remove { cas, rev })
}

fn take_prepare(rest: &mut Bytes) -> Result<Option<Act>, AllocError>
    ensures { IfOk result (λ act. option_map (λ a. (a, rest.new)) act ≡ prepare_in rest.old) }
{
    let bytes = rest.as_slice();
    if bytes.len() < 2 {
        return Ok(None);
    }
    let (Some(level), Some(deleted)) = (Level::of(bytes[0]), flag_of(bytes[1])) else {
        return Ok(None);
    };
    rest.advance(2);
    let Some(doc) = take_doc(rest)? else {
        return Ok(None);
    };
    Ok(Some(Act::Prepare {
        level,
        doc,
        deleted,
    }))
}

fn take_commit(rest: &mut Bytes) -> Result<Option<Act>, AllocError>
    ensures { IfOk result (λ act. option_map (λ a. (a, rest.new)) act ≡ commit_in rest.old) }
{
    let bytes = rest.as_slice();
    if bytes.len() < 9 {
        return Ok(None);
    }
    let prepared = BigEndian::read_u64(&bytes[0..8]);
    let Some(deleted) = flag_of(bytes[8]) else {
        return Ok(None);
    };
    rest.advance(9);
    let Some(doc) = take_doc(rest)? else {
        return Ok(None);
    };
    Ok(Some(Act::Commit {
        prepared,
        doc,
        deleted,
    }))
}

fn take_abort(rest: &mut Bytes) -> Option<Act>
    ensures { option_map (λ a. (a, rest.new)) result ≡ abort_in rest.old }
{
    let bytes = rest.as_slice();
    if bytes.len() < 8 {
        return None;
    }
    let prepared = BigEndian::read_u64(&bytes[0..8]);
    rest.advance(8);
    Some(Act::Abort { prepared })
}

/// Takes what an act of this byte says.
#[tactic(auto, unfolding(crate::specs::Payloads::act_in))]
fn take_act(byte: u8, rest: &mut Bytes) -> Result<Option<Act>, AllocError>
    ensures { IfOk result (λ act. option_map (λ a. (a, rest.new)) act ≡ act_in byte rest.old) }
{
    match byte {
        1 => Ok(take_doc(rest)?.map(|doc| Act::Set(doc))),
        2 => Ok(take_remove(rest)),
        3 => take_prepare(rest),
        4 => take_commit(rest),
        5 => Ok(take_abort(rest)),
        _ => Ok(None),
    }
}

/// Takes a change, whose value shares the bytes' memory.
#[tactic(auto, unfolding(crate::specs::Payloads::item_in))]
fn take_item(alloc: Global, rest: &mut Bytes) -> Result<Option<Change>, AllocError>
    ensures { IfOk result (λ item. option_map (λ c. (c, rest.new)) item ≡ item_in rest.old) }
{
    let bytes = rest.as_slice();
    if bytes.len() < ITEM_HEAD {
        return Ok(None);
    }
    let seq = BigEndian::read_u64(&bytes[0..8]);
    let byte = bytes[8];
    let end = ITEM_HEAD + bytes[9] as usize;
    if bytes.len() < end {
        return Ok(None);
    }
    let Some(key) = Key::new(alloc, &bytes[ITEM_HEAD..end])? else {
        return Ok(None);
    };
    rest.advance(end);
    let Some(act) = take_act(byte, rest)? else {
        return Ok(None);
    };
    Ok(Some(Change { seq, key, act }))
}

/// Whether the first change, if there is one, has a greater seqno.
fn stands_below(seq: u64, items: &[Change]) -> bool
    ensures { result ≡ is_below seq items.now }
{
    match items.first() {
        Some(first) => seq < first.seq,
        None => true,
    }
}

/// Whether each change has a greater seqno than the one before.
fn do_rise(items: &[Change]) -> bool
    ensures { result ≡ rise items.now }
{
    let mut rest = items;
    while let Some((first, behind)) = rest.split_first() {
        if !stands_below(first.seq, behind) {
            return false;
        }
        rest = behind;
    }
    true
}

/// Takes so many changes. What is kept of a batch is no larger than it has to be, as an opening keeps
/// all; and no count that is not the bytes' makes room for more changes than they can be.
fn take_items(
    alloc: Global,
    count: u32,
    rest: &mut Bytes,
) -> Result<Option<Listed<Change>>, AllocError>
    ensures { IfOk result (λ items. option_map (λ cs. (cs, rest.new)) items ≡ items_in count rest.old) }
{
    let most = rest.len() / LEAST_ITEM;
    let mut items = Vec::with_capacity(alloc, most.min(count as usize))?;
    for _ in 0..count {
        let Some(item) = take_item(alloc, rest)? else {
            return Ok(None);
        };
        items.push(item)?;
    }
    Ok(Some(Listed::from_vec(items)))
}

/// The changes that the bytes are, behind their count.
#[tactic(auto, unfolding(crate::specs::Payloads::changes_in))]
fn changes_of(alloc: Global, rest: &mut Bytes) -> Result<Option<Listed<Change>>, AllocError>
    ensures { IfOk result (λ items. items ≡ changes_in rest.old) }
{
    if rest.len() < 4 {
        return Ok(None);
    }
    let count = BigEndian::read_u32(&rest.as_slice()[0..4]);
    rest.advance(4);
    let Some(items) = take_items(alloc, count, rest)? else {
        return Ok(None);
    };
    if rest.is_empty() && do_rise(items.as_slice()) {
        Ok(Some(items))
    } else {
        Ok(None)
    }
}

/// The position that the bytes begin with.
fn position_of(bytes: &[u8]) -> Position
    requires { ROWS_HEAD ≤ length bytes.now }
    ensures { result ≡ record { ss = number_64 bytes.now 0; se = number_64 bytes.now 8; at = number_64 bytes.now 16 } }
{
    Position {
        ss: BigEndian::read_u64(&bytes[0..8]),
        se: BigEndian::read_u64(&bytes[8..16]),
        at: BigEndian::read_u64(&bytes[16..24]),
    }
}

/// The batch that the bytes are.
#[tactic(auto, unfolding(crate::specs::Payloads::batch_in))]
fn batch_of(alloc: Global, rest: &mut Bytes) -> Result<Option<Record>, AllocError>
    ensures { IfOk result (λ batch. batch ≡ batch_in rest.old) }
{
    let bytes = rest.as_slice();
    if bytes.len() < ROWS_HEAD {
        return Ok(None);
    }
    let (position, cas) = (position_of(bytes), BigEndian::read_u64(&bytes[24..32]));
    rest.advance(ROWS_HEAD);
    let Some(log) = take_log(alloc, rest)? else {
        return Ok(None);
    };
    let Some(items) = changes_of(alloc, rest)? else {
        return Ok(None);
    };
    Ok(Some(Record::Rows(Batch {
        position,
        cas,
        log,
        items,
    })))
}

/// The State that the bytes are.
#[tactic(auto, unfolding(crate::specs::Payloads::state_in))]
fn state_of(alloc: Global, rest: &mut Bytes) -> Result<Option<Record>, AllocError>
    ensures { IfOk result (λ state. state ≡ state_in rest.old) }
{
    if rest.is_empty() {
        return Ok(None);
    }
    let Some(role) = role_of(rest.as_slice()[0]) else {
        return Ok(None);
    };
    rest.advance(1);
    match take_log(alloc, rest)? {
        Some(log) if rest.is_empty() => Ok(Some(Record::State { role, log })),
        _ => Ok(None),
    }
}

/// The Roll that the bytes are.
fn roll_of(bytes: &[u8]) -> Option<Record>
    ensures { result ≡ roll_in bytes.now }
{
    if bytes.len() != 8 {
        return None;
    }
    Some(Record::Roll {
        to: BigEndian::read_u64(bytes),
    })
}

/// The record of a payload, whose values share the payload's memory; none where the bytes are no
/// payload.
#[tactic(auto, unfolding(crate::specs::Payloads::record_in))]
pub(crate) fn read_payload(alloc: Global, bytes: Bytes) -> Result<Option<Record>, AllocError>
    ensures { IfOk result (λ read. read ≡ record_in bytes) }
{
    let mut rest = bytes;
    if rest.len() > MAX_PAYLOAD || rest.len() < 2 {
        return Ok(None);
    }
    let [version, kind] = [rest.as_slice()[0], rest.as_slice()[1]];
    if version != VERSION {
        return Ok(None);
    }
    rest.advance(2);
    match kind {
        STATE => state_of(alloc, &mut rest),
        ROWS => batch_of(alloc, &mut rest),
        ROLL => Ok(roll_of(rest.as_slice())),
        _ => Ok(None),
    }
}
