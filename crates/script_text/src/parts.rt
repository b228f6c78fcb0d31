//! The words of a transcript's lines. What appends words puts a space in front of each, and an
//! `Err` of it may have appended a part.
ghost use Rattle.std.specs.Prelude.{◌≡◌, ◌++◌, ◌∷◌, [], OnOk, OnErr, decimal};
ghost use Rattle.std.specs.List.{flat_map};
ghost use Rattle.hex.specs.Hex.{encode_lower};
ghost use Rattle.vb_types.specs.declared.change.Act.TheVariants as act;
ghost use Rattle.script_text.specs.Transcript.{StartsWith, spaced, place_text, stream_text, hex_text, parent_text, flag_text, role_text, level_text, doc_text, act_text, entry_text, log_text, ask_text, verdict_text, sent_text, reason_text, cause_text, why_text};

use crate::digits::encode_into;
use bytes::BytesMut;
use std::alloc::AllocError;
use vb_events::{Cause, EndReason, ItemAct, StreamName, Why};
use vb_types::{Act, AskAnswer, Change, Doc, Level, LogEntry, Role, StreamAsk};

/// A number has at most 20 digits, and a sign in front.
const SIGNED: usize = 21;

/// A sign, and a number in decimal digits.
#[inline]
#[tactic(auto, using(std::proofs::lemmas::Fmt::decimal_digit))]
pub fn push_number(text: &mut BytesMut, sign: u8, number: u64) -> Result<(), AllocError>
    ensures ok { OnOk result (text.new.items ≡ text.old.items ++ sign ∷ decimal number) }
    ensures err { OnErr result (text.new.items ≡ text.old.items) }
{
    if number < 10 {
        return text.extend_from_slice(&[sign, b'0' + number as u8]);
    }
    push_long(text, sign, number)
}

/// The same of a number of any length. It stands apart, so that one of a single digit takes no call.
#[inline(never)]
fn push_long(text: &mut BytesMut, sign: u8, number: u64) -> Result<(), AllocError>
    ensures ok { OnOk result (text.new.items ≡ text.old.items ++ sign ∷ decimal number) }
    ensures err { OnErr result (text.new.items ≡ text.old.items) }
{
    let mut room = [sign; SIGNED];
    let start = itoa::write_digits(number, &mut room, SIGNED);
    text.extend_from_slice(&room[start - 1..])
}

/// Bytes in hexadecimal digits.
fn push_digits(text: &mut BytesMut, bytes: &[u8]) -> Result<(), AllocError>
    ensures ok { OnOk result (text.new.items ≡ text.old.items ++ encode_lower bytes.now) }
    ensures err { OnErr result (text.new.items ≡ text.old.items) }
{
    let start = text.len();
    let digits = 2 * bytes.len();
    text.reserve(digits)?;
    text.advance_mut(digits);
    encode_into(bytes, &mut text.as_mut_slice()[start..]);
    Ok(())
}

/// Bytes in hexadecimal digits, or a dash for none.
#[tactic(auto, unfolding(crate::specs::Transcript::hex_text))]
pub fn push_hex(text: &mut BytesMut, bytes: &[u8]) -> Result<(), AllocError>
    ensures ok { OnOk result (text.new.items ≡ text.old.items ++ 32 ∷ hex_text bytes.now) }
    ensures err { OnErr result (StartsWith text.new.items text.old.items) }
{
    if bytes.is_empty() {
        return text.extend_from_slice(b" -");
    }
    text.extend_from_slice(b" ")?;
    push_digits(text, bytes)
}

/// A word, and a key in hexadecimal digits.
#[inline]
pub fn push_key(text: &mut BytesMut, word: &[u8], key: &[u8]) -> Result<(), AllocError>
    ensures ok { OnOk result (text.new.items ≡ text.old.items ++ word.now ++ 32 ∷ hex_text key.now) }
    ensures err { OnErr result (StartsWith text.new.items text.old.items) }
{
    text.extend_from_slice(word)?;
    push_hex(text, key)
}

/// A word, and a vBucket of a node.
#[inline]
#[tactic(auto, unfolding(crate::specs::Transcript::place_text))]
pub fn push_at(text: &mut BytesMut, word: &[u8], node: u8, vb: u16) -> Result<(), AllocError>
    ensures ok { OnOk result (text.new.items ≡ text.old.items ++ word.now ++ 32 ∷ place_text node vb) }
    ensures err { OnErr result (StartsWith text.new.items text.old.items) }
{
    text.extend_from_slice(word)?;
    push_numbers(text, &[u64::from(node), u64::from(vb)])
}

/// A word.
pub fn push_word(text: &mut BytesMut, word: &str) -> Result<(), AllocError>
    ensures ok { OnOk result (text.new.items ≡ text.old.items ++ 32 ∷ word.now) }
    ensures err { OnErr result (StartsWith text.new.items text.old.items) }
{
    text.extend_from_slice(b" ")?;
    text.extend_from_slice(word.as_bytes())
}

/// A word, and a number.
#[inline]
pub fn push_count(text: &mut BytesMut, word: &[u8], number: u64) -> Result<(), AllocError>
    ensures ok { OnOk result (text.new.items ≡ text.old.items ++ word.now ++ 32 ∷ decimal number) }
    ensures err { OnErr result (StartsWith text.new.items text.old.items) }
{
    text.extend_from_slice(word)?;
    push_number(text, b' ', number)
}

/// Numbers.
pub fn push_numbers(text: &mut BytesMut, numbers: &[u64]) -> Result<(), AllocError>
    ensures ok { OnOk result (text.new.items ≡ text.old.items ++ flat_map (λ n. 32 ∷ decimal n) numbers.now) }
    ensures err { OnErr result (StartsWith text.new.items text.old.items) }
{
    for number in numbers {
        push_number(text, b' ', *number)?;
    }
    Ok(())
}

/// A word, a vBucket of a node, and numbers.
#[inline]
pub fn push_counts(
    text: &mut BytesMut,
    word: &[u8],
    node: u8,
    vb: u16,
    numbers: &[u64],
) -> Result<(), AllocError>
    ensures ok { OnOk result (text.new.items ≡ text.old.items ++ word.now ++ 32 ∷ place_text node vb ++ flat_map (λ n. 32 ∷ decimal n) numbers.now) }
    ensures err { OnErr result (StartsWith text.new.items text.old.items) }
{
    push_at(text, word, node, vb)?;
    push_numbers(text, numbers)
}

/// A stream's connection.
#[tactic(auto, unfolding(crate::specs::Transcript::link_text, crate::specs::Transcript::client_text))]
pub fn push_name(text: &mut BytesMut, stream: StreamName) -> Result<(), AllocError>
    ensures ok { OnOk result (text.new.items ≡ text.old.items ++ 32 ∷ stream_text stream) }
    ensures err { OnErr result (StartsWith text.new.items text.old.items) }
{
    text.extend_from_slice(b" ")?;
    match stream {
        StreamName::Link(link) => push_number(text, b'L', u64::from(link)),
        StreamName::Client(node, client) => {
            push_number(text, b'C', u64::from(node))?;
            push_number(text, b'.', u64::from(client))
        }
    }
}

/// A word, and a stream's connection.
#[inline]
pub fn push_named(text: &mut BytesMut, word: &[u8], stream: StreamName) -> Result<(), AllocError>
    ensures ok { OnOk result (text.new.items ≡ text.old.items ++ word.now ++ 32 ∷ stream_text stream) }
    ensures err { OnErr result (StartsWith text.new.items text.old.items) }
{
    text.extend_from_slice(word)?;
    push_name(text, stream)
}

/// A word, a stream's connection, and a vBucket of a node.
#[tactic(auto, unfolding(crate::specs::Transcript::place_text))]
pub fn push_stream(
    text: &mut BytesMut,
    word: &[u8],
    stream: StreamName,
    node: u8,
    vb: u16,
) -> Result<(), AllocError>
    ensures ok { OnOk result (text.new.items ≡ text.old.items ++ word.now ++ 32 ∷ spaced (stream_text stream ∷ place_text node vb ∷ [])) }
    ensures err { OnErr result (StartsWith text.new.items text.old.items) }
{
    push_named(text, word, stream)?;
    push_numbers(text, &[u64::from(node), u64::from(vb)])
}

/// The branch that a branch comes from, or a dash for none.
pub fn push_parent(text: &mut BytesMut, parent: Option<u64>) -> Result<(), AllocError>
    ensures ok { OnOk result (text.new.items ≡ text.old.items ++ 32 ∷ parent_text parent) }
    ensures err { OnErr result (StartsWith text.new.items text.old.items) }
{
    match parent {
        None => text.extend_from_slice(b" -"),
        Some(uuid) => push_number(text, b' ', uuid),
    }
}

/// A document.
#[tactic(auto, unfolding(crate::specs::Transcript::doc_text))]
pub fn push_doc(text: &mut BytesMut, doc: &Doc) -> Result<(), AllocError>
    ensures ok { OnOk result (text.new.items ≡ text.old.items ++ 32 ∷ doc_text doc.now) }
    ensures err { OnErr result (StartsWith text.new.items text.old.items) }
{
    let (flags, expiry) = (u64::from(doc.flags), u64::from(doc.expiry));
    let datatype = u64::from(doc.datatype);
    push_numbers(text, &[doc.cas, doc.rev, flags, expiry, datatype])?;
    push_hex(text, doc.value.as_slice())
}

/// What stands of a change behind its seqno.
pub fn push_act(text: &mut BytesMut, change: &Change) -> Result<(), AllocError>
    ensures ok { OnOk result (text.new.items ≡ text.old.items ++ 32 ∷ act_text change.now.key change.now.act) }
    ensures err { OnErr result (StartsWith text.new.items text.old.items) }
{
    let key = change.key.as_slice();
    match &change.act {
        Act::Set(doc) => push_set(text, key, doc),
        Act::Remove { cas, rev } => push_remove(text, key, *cas, *rev),
        Act::Prepare {
            level,
            doc,
            deleted,
        } => push_prepare(text, key, *level, doc, *deleted),
        Act::Commit {
            prepared,
            doc,
            deleted,
        } => push_commit(text, key, *prepared, doc, *deleted),
        Act::Abort { prepared } => push_abort(text, key, *prepared),
    }
}

#[tactic(auto, unfolding(crate::specs::Transcript::act_text))]
fn push_set(text: &mut BytesMut, key: &[u8], doc: &Doc) -> Result<(), AllocError>
    ensures ok { OnOk result (text.new.items ≡ text.old.items ++ 32 ∷ act_text key.now (act.Set doc.now)) }
    ensures err { OnErr result (StartsWith text.new.items text.old.items) }
{
    push_key(text, b" set", key)?;
    push_doc(text, doc)
}

#[tactic(auto, unfolding(crate::specs::Transcript::act_text))]
fn push_remove(text: &mut BytesMut, key: &[u8], cas: u64, rev: u64) -> Result<(), AllocError>
    ensures ok { OnOk result (text.new.items ≡ text.old.items ++ 32 ∷ act_text key.now (act.Remove cas rev)) }
    ensures err { OnErr result (StartsWith text.new.items text.old.items) }
{
    push_key(text, b" remove", key)?;
    push_numbers(text, &[cas, rev])
}

#[tactic(auto, unfolding(crate::specs::Transcript::act_text))]
fn push_prepare(
    text: &mut BytesMut,
    key: &[u8],
    level: Level,
    doc: &Doc,
    deleted: bool,
) -> Result<(), AllocError>
    ensures ok { OnOk result (text.new.items ≡ text.old.items ++ 32 ∷ act_text key.now (act.Prepare level doc.now deleted)) }
    ensures err { OnErr result (StartsWith text.new.items text.old.items) }
{
    push_key(text, b" prepare", key)?;
    push_doc(text, doc)?;
    push_word(text, level_word(level))?;
    push_word(text, flag_word(deleted))
}

#[tactic(auto, unfolding(crate::specs::Transcript::act_text))]
fn push_commit(
    text: &mut BytesMut,
    key: &[u8],
    prepared: u64,
    doc: &Doc,
    deleted: bool,
) -> Result<(), AllocError>
    ensures ok { OnOk result (text.new.items ≡ text.old.items ++ 32 ∷ act_text key.now (act.Commit prepared doc.now deleted)) }
    ensures err { OnErr result (StartsWith text.new.items text.old.items) }
{
    push_key(text, b" commit", key)?;
    push_doc(text, doc)?;
    push_number(text, b' ', prepared)?;
    push_word(text, flag_word(deleted))
}

#[tactic(auto, unfolding(crate::specs::Transcript::act_text))]
fn push_abort(text: &mut BytesMut, key: &[u8], prepared: u64) -> Result<(), AllocError>
    ensures ok { OnOk result (text.new.items ≡ text.old.items ++ 32 ∷ act_text key.now (act.Abort prepared)) }
    ensures err { OnErr result (StartsWith text.new.items text.old.items) }
{
    push_key(text, b" abort", key)?;
    push_number(text, b' ', prepared)
}

pub fn flag_word(flag: bool) -> &'static str
    ensures { result.now ≡ flag_text flag }
{
    if flag { "1" } else { "0" }
}

pub fn role_word(role: Role) -> &'static str
    ensures { result.now ≡ role_text role }
{
    match role {
        Role::Active => "active",
        Role::Replica => "replica",
        Role::Pending => "pending",
        Role::Dead => "dead",
    }
}

pub fn level_word(level: Level) -> &'static str
    ensures { result.now ≡ level_text level }
{
    match level {
        Level::Majority => "1",
        Level::MajorityPersistActive => "2",
        Level::PersistMajority => "3",
    }
}

/// A sign, and an entry of a failover log.
#[tactic(auto, unfolding(crate::specs::Transcript::entry_text))]
fn push_entry(text: &mut BytesMut, sign: u8, entry: LogEntry) -> Result<(), AllocError>
    ensures ok { OnOk result (text.new.items ≡ text.old.items ++ sign ∷ entry_text entry) }
    ensures err { OnErr result (StartsWith text.new.items text.old.items) }
{
    push_number(text, sign, entry.uuid)?;
    push_number(text, b':', entry.seq)
}

/// A failover log, the newest entry first, or a dash for an empty one.
pub fn push_log(text: &mut BytesMut, log: &[LogEntry]) -> Result<(), AllocError>
    ensures ok { OnOk result (text.new.items ≡ text.old.items ++ 32 ∷ log_text log.now) }
    ensures err { OnErr result (StartsWith text.new.items text.old.items) }
{
    let Some((newest, older)) = log.split_first() else {
        return text.extend_from_slice(b" -");
    };
    push_entry(text, b' ', *newest)?;
    for entry in older {
        push_entry(text, b',', *entry)?;
    }
    Ok(())
}

/// What a stream request asks for.
#[tactic(auto, unfolding(crate::specs::Transcript::ask_text))]
pub fn push_ask(text: &mut BytesMut, ask: StreamAsk) -> Result<(), AllocError>
    ensures ok { OnOk result (text.new.items ≡ text.old.items ++ 32 ∷ ask_text ask) }
    ensures err { OnErr result (StartsWith text.new.items text.old.items) }
{
    let flags = u64::from(ask.flags);
    push_numbers(text, &[ask.uuid, ask.start, ask.end, ask.ss, ask.se, flags])
}

/// How a stream request was answered.
pub fn push_verdict(text: &mut BytesMut, answer: AskAnswer) -> Result<(), AllocError>
    ensures ok { OnOk result (text.new.items ≡ text.old.items ++ 32 ∷ verdict_text answer) }
    ensures err { OnErr result (StartsWith text.new.items text.old.items) }
{
    match answer {
        AskAnswer::Go => text.extend_from_slice(b" go"),
        AskAnswer::Roll(seq) => push_count(text, b" roll", seq),
        AskAnswer::Refuse(status) => push_count(text, b" refuse", u64::from(status)),
    }
}

pub fn sent_word(act: ItemAct) -> &'static str
    ensures { result.now ≡ sent_text act }
{
    match act {
        ItemAct::Set => "set",
        ItemAct::Remove => "remove",
        ItemAct::Prepare => "prepare",
        ItemAct::Commit => "commit",
        ItemAct::Abort => "abort",
    }
}

pub fn reason_word(reason: EndReason) -> &'static str
    ensures { result.now ≡ reason_text reason }
{
    match reason {
        EndReason::Cut => "cut",
        EndReason::Refused => "refused",
        EndReason::Protocol => "protocol",
        EndReason::Done => "done",
        EndReason::State => "state",
        EndReason::Disk => "disk",
    }
}

pub fn why_word(why: Why) -> &'static str
    ensures { result.now ≡ why_text why }
{
    match why {
        Why::All => "-",
        Why::Idle => "idle",
        Why::Full => "full",
        Why::WaitState => "wait-state",
        Why::WaitSaved => "wait-saved",
        Why::Disk => "disk",
    }
}

pub fn cause_word(cause: Cause) -> &'static str
    ensures { result.now ≡ cause_text cause }
{
    match cause {
        Cause::UnknownNode => "unknown-node",
        Cause::NodeExists => "node-exists",
        Cause::NodeUp => "node-up",
        Cause::NodeDown => "node-down",
        Cause::UnknownVb => "unknown-vb",
        Cause::VbExists => "vb-exists",
        Cause::Limit => "limit",
        Cause::UuidZero => "uuid-zero",
        Cause::UuidUsed => "uuid-used",
        Cause::IdsShort => "ids-short",
        Cause::WrongRole => "wrong-role",
        Cause::ChainBad => "chain-bad",
        Cause::LinkOpen => "link-open",
        Cause::LinkClosed => "link-closed",
        Cause::BatchOut => "batch-out",
        Cause::NothingTaken => "nothing-taken",
        Cause::Closed => "closed",
        Cause::Disk => "disk",
        Cause::Stopped => "stopped",
    }
}
