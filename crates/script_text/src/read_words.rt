//! The words of a transcript's line, each taken for what it would say. No word is refused here: the
//! reader of a line spells what it took, and compares.
ghost use Rattle.std.specs.Prelude.{◌≡◌, ◌==◌, ◌≤◌, IfOk, map, position};
ghost use Rattle.std.specs.List.{slice_split};
ghost use Rattle.vb_types.specs.Limits.{key_of};
ghost use Rattle.script_text.specs.Numbers.{number_of};
ghost use Rattle.script_text.specs.Taken.{word_at, as_long, as_int, as_short, as_byte, as_link, as_client, as_stream, as_bytes, as_flag, as_role, as_level, as_sent, as_reason, as_why, as_cause, as_later_cause, as_entry, as_log, as_doc, as_prepare, as_commit, as_act, as_change, as_ask, as_verdict};

use crate::line::{hex_bytes, says};
use crate::numbers::number;
use bytes::Bytes;
use std::alloc::{AllocError, Global};
use vb_events::{Cause, EndReason, ItemAct, StreamName, Why};
use vb_types::{Act, AskAnswer, Change, Doc, Key, Level, Listed, LogEntry, Role, StreamAsk, Value};

/// A word of a line, and no bytes behind the last one.
pub fn word_at<'a>(words: &[&'a [u8]], at: usize) -> &'a [u8]
    ensures { result.now ≡ word_at (map (λ word. word.now) words.now) at }
{
    match words.get(at) {
        Some(word) => word,
        None => &[],
    }
}

/// A number of 64 bits.
pub fn long(word: &[u8]) -> u64
    ensures { result ≡ as_long word.now }
{
    number(word).unwrap_or(0)
}

/// A number of 32 bits.
pub fn int(word: &[u8]) -> u32
    ensures { result ≡ as_int word.now }
{
    (long(word) % (1 << 32)) as u32
}

/// A number of 16 bits.
pub fn short(word: &[u8]) -> u16
    ensures { result ≡ as_short word.now }
{
    (long(word) % (1 << 16)) as u16
}

/// A number of 8 bits.
pub fn byte(word: &[u8]) -> u8
    ensures { result ≡ as_byte word.now }
{
    (long(word) % (1 << 8)) as u8
}

/// A link's number, behind its `L`.
pub fn link(word: &[u8]) -> u32
    ensures { result ≡ as_link word.now }
{
    match word {
        [_, digits @ ..] => int(digits),
        [] => 0,
    }
}

/// Where the first dot stands.
fn dot(text: &[u8]) -> Option<usize>
    ensures { result ≡ position (λ b. b == 46) text.now }
{
    text.iter().position(|b| *b == b'.')
}

/// A client's connection, behind its `C`: the node's number, a dot, and the connection's.
fn client(text: &[u8]) -> StreamName
    ensures { result ≡ as_client text.now }
{
    match dot(text) {
        Some(at) => StreamName::Client(byte(&text[..at]), int(&text[at + 1..])),
        None => StreamName::Client(0, 0),
    }
}

/// A stream's connection.
pub fn stream(word: &[u8]) -> StreamName
    ensures { result ≡ as_stream word.now }
{
    match word {
        [b'C', rest @ ..] => client(rest),
        _ => StreamName::Link(link(word)),
    }
}

/// Bytes in hexadecimal digits.
#[tactic(auto, unfolding(crate::specs::Taken::as_bytes))]
pub fn bytes(alloc: Global, word: &[u8]) -> Result<Bytes, AllocError>
    ensures { IfOk result (λ bytes. bytes ≡ as_bytes word.now) }
{
    match hex_bytes(alloc, word)? {
        Some(bytes) => Ok(bytes),
        None => Ok(Bytes::new()),
    }
}

/// A key, if it has as many bytes as a key has.
pub fn key(alloc: Global, word: &[u8]) -> Result<Option<Key>, AllocError>
    ensures { IfOk result (λ key. key ≡ key_of (as_bytes word.now)) }
{
    let bytes = bytes(alloc, word)?;
    Key::new(alloc, bytes.as_slice())
}

/// Whether a document is deleted.
fn flag(word: &[u8]) -> bool
    ensures { result ≡ as_flag word.now }
{
    says(word, b"1")
}

pub fn role(word: &[u8]) -> Role
    ensures { result ≡ as_role word.now }
{
    if says(word, b"active") {
        Role::Active
    } else if says(word, b"replica") {
        Role::Replica
    } else if says(word, b"pending") {
        Role::Pending
    } else {
        Role::Dead
    }
}

pub fn level(word: &[u8]) -> Level
    ensures { result ≡ as_level word.now }
{
    if says(word, b"1") {
        Level::Majority
    } else if says(word, b"2") {
        Level::MajorityPersistActive
    } else {
        Level::PersistMajority
    }
}

pub fn sent(word: &[u8]) -> ItemAct
    ensures { result ≡ as_sent word.now }
{
    if says(word, b"set") {
        ItemAct::Set
    } else if says(word, b"remove") {
        ItemAct::Remove
    } else if says(word, b"prepare") {
        ItemAct::Prepare
    } else if says(word, b"commit") {
        ItemAct::Commit
    } else {
        ItemAct::Abort
    }
}

pub fn reason(word: &[u8]) -> EndReason
    ensures { result ≡ as_reason word.now }
{
    if says(word, b"cut") {
        EndReason::Cut
    } else if says(word, b"refused") {
        EndReason::Refused
    } else if says(word, b"protocol") {
        EndReason::Protocol
    } else if says(word, b"done") {
        EndReason::Done
    } else if says(word, b"state") {
        EndReason::State
    } else {
        EndReason::Disk
    }
}

pub fn why(word: &[u8]) -> Why
    ensures { result ≡ as_why word.now }
{
    if says(word, b"-") {
        Why::All
    } else if says(word, b"idle") {
        Why::Idle
    } else if says(word, b"full") {
        Why::Full
    } else if says(word, b"wait-state") {
        Why::WaitState
    } else if says(word, b"wait-saved") {
        Why::WaitSaved
    } else {
        Why::Disk
    }
}

pub fn cause(word: &[u8]) -> Cause
    ensures { result ≡ as_cause word.now }
{
    if says(word, b"unknown-node") {
        Cause::UnknownNode
    } else if says(word, b"node-exists") {
        Cause::NodeExists
    } else if says(word, b"node-up") {
        Cause::NodeUp
    } else if says(word, b"node-down") {
        Cause::NodeDown
    } else if says(word, b"unknown-vb") {
        Cause::UnknownVb
    } else if says(word, b"vb-exists") {
        Cause::VbExists
    } else if says(word, b"limit") {
        Cause::Limit
    } else if says(word, b"uuid-zero") {
        Cause::UuidZero
    } else if says(word, b"uuid-used") {
        Cause::UuidUsed
    } else {
        later_cause(word)
    }
}

fn later_cause(word: &[u8]) -> Cause
    ensures { result ≡ as_later_cause word.now }
{
    if says(word, b"ids-short") {
        Cause::IdsShort
    } else if says(word, b"wrong-role") {
        Cause::WrongRole
    } else if says(word, b"chain-bad") {
        Cause::ChainBad
    } else if says(word, b"link-open") {
        Cause::LinkOpen
    } else if says(word, b"link-closed") {
        Cause::LinkClosed
    } else if says(word, b"batch-out") {
        Cause::BatchOut
    } else if says(word, b"nothing-taken") {
        Cause::NothingTaken
    } else if says(word, b"closed") {
        Cause::Closed
    } else if says(word, b"disk") {
        Cause::Disk
    } else {
        Cause::Stopped
    }
}

/// What stands between the colons of a text.
fn colon_parts(alloc: Global, text: &[u8]) -> Result<Vec<&[u8]>, AllocError>
    ensures { IfOk result (λ parts. map (λ part. part.now) parts.items ≡ slice_split (λ b. b == 58) text.now) }
{
    text.split(|b| *b == b':').collect(alloc)
}

/// What stands between the commas of a text.
fn comma_parts(alloc: Global, text: &[u8]) -> Result<Vec<&[u8]>, AllocError>
    ensures { IfOk result (λ parts. map (λ part. part.now) parts.items ≡ slice_split (λ b. b == 44) text.now) }
{
    text.split(|b| *b == b',').collect(alloc)
}

/// An entry of a failover log.
fn entry(alloc: Global, text: &[u8]) -> Result<LogEntry, AllocError>
    ensures { IfOk result (λ entry. entry ≡ as_entry text.now) }
{
    let parts = colon_parts(alloc, text)?;
    Ok(LogEntry {
        uuid: long(word_at(&parts, 0)),
        seq: long(word_at(&parts, 1)),
    })
}

/// A failover log.
#[tactic(auto, unfolding(crate::specs::Taken::as_log))]
pub fn log(alloc: Global, word: &[u8]) -> Result<Listed<LogEntry>, AllocError>
    ensures { IfOk result (λ log. log ≡ as_log word.now) }
{
    let mut log = Listed::new(alloc);
    if says(word, b"-") {
        return Ok(log);
    }
    let parts = comma_parts(alloc, word)?;
    for part in &parts {
        log.push(entry(alloc, part)?)?;
    }
    Ok(log)
}

/// A document, from this word on, unless its value is too long.
pub fn doc(alloc: Global, words: &[&[u8]], at: usize) -> Result<Option<Doc>, AllocError>
    requires { at ≤ 64 }
    ensures { IfOk result (λ doc. doc ≡ as_doc (map (λ word. word.now) words.now) at) }
{
    let Some(value) = Value::from_bytes(bytes(alloc, word_at(words, at + 5))?) else {
        return Ok(None);
    };
    Ok(Some(Doc {
        value,
        cas: long(word_at(words, at)),
        rev: long(word_at(words, at + 1)),
        flags: int(word_at(words, at + 2)),
        expiry: int(word_at(words, at + 3)),
        datatype: byte(word_at(words, at + 4)),
    }))
}

/// What a change does, from its word on; its key stands behind that.
fn act(alloc: Global, words: &[&[u8]], at: usize) -> Result<Option<Act>, AllocError>
    requires { at ≤ 32 }
    ensures { IfOk result (λ act. act ≡ as_act (map (λ word. word.now) words.now) at) }
{
    let word = word_at(words, at);
    if says(word, b"set") {
        match doc(alloc, words, at + 2)? {
            Some(doc) => Ok(Some(Act::Set(doc))),
            None => Ok(None),
        }
    } else if says(word, b"remove") {
        let cas = long(word_at(words, at + 2));
        let rev = long(word_at(words, at + 3));
        Ok(Some(Act::Remove { cas, rev }))
    } else if says(word, b"prepare") {
        prepare(alloc, words, at)
    } else if says(word, b"commit") {
        commit(alloc, words, at)
    } else {
        let prepared = long(word_at(words, at + 2));
        Ok(Some(Act::Abort { prepared }))
    }
}

/// A durable write that is announced.
fn prepare(alloc: Global, words: &[&[u8]], at: usize) -> Result<Option<Act>, AllocError>
    requires { at ≤ 32 }
    ensures { IfOk result (λ act. act ≡ as_prepare (map (λ word. word.now) words.now) at) }
{
    let Some(doc) = doc(alloc, words, at + 2)? else {
        return Ok(None);
    };
    Ok(Some(Act::Prepare {
        level: level(word_at(words, at + 8)),
        doc,
        deleted: flag(word_at(words, at + 9)),
    }))
}

/// A durable write that is made visible.
fn commit(alloc: Global, words: &[&[u8]], at: usize) -> Result<Option<Act>, AllocError>
    requires { at ≤ 32 }
    ensures { IfOk result (λ act. act ≡ as_commit (map (λ word. word.now) words.now) at) }
{
    let Some(doc) = doc(alloc, words, at + 2)? else {
        return Ok(None);
    };
    Ok(Some(Act::Commit {
        prepared: long(word_at(words, at + 8)),
        doc,
        deleted: flag(word_at(words, at + 9)),
    }))
}

/// A change, from its seqno on.
#[tactic(auto, unfolding(crate::specs::Taken::as_change))]
pub fn change(alloc: Global, words: &[&[u8]], at: usize) -> Result<Option<Change>, AllocError>
    requires { at ≤ 16 }
    ensures { IfOk result (λ change. change ≡ as_change (map (λ word. word.now) words.now) at) }
{
    let Some(key) = key(alloc, word_at(words, at + 2))? else {
        return Ok(None);
    };
    let Some(act) = act(alloc, words, at + 1)? else {
        return Ok(None);
    };
    let seq = long(word_at(words, at));
    Ok(Some(Change { seq, key, act }))
}

/// What a stream request asks for, from its branch on.
pub fn ask(words: &[&[u8]], at: usize) -> StreamAsk
    requires { at ≤ 16 }
    ensures { result ≡ as_ask (map (λ word. word.now) words.now) at }
{
    StreamAsk {
        flags: int(word_at(words, at + 5)),
        start: long(word_at(words, at + 1)),
        end: long(word_at(words, at + 2)),
        uuid: long(word_at(words, at)),
        ss: long(word_at(words, at + 3)),
        se: long(word_at(words, at + 4)),
    }
}

/// How a stream request was answered.
pub fn verdict(words: &[&[u8]], at: usize) -> AskAnswer
    requires { at ≤ 16 }
    ensures { result ≡ as_verdict (map (λ word. word.now) words.now) at }
{
    let word = word_at(words, at);
    if says(word, b"go") {
        AskAnswer::Go
    } else if says(word, b"roll") {
        AskAnswer::Roll(long(word_at(words, at + 1)))
    } else {
        AskAnswer::Refuse(short(word_at(words, at + 1)))
    }
}
