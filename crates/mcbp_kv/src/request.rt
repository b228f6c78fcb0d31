//! What a client's frame asks.
ghost use Rattle.std.specs.Prelude.{◌≡◌, ◌+◌, ◌<◌, ◌^◌, ◌++◌, length, IfOk, IfErr, OnOk, None, Some, Ok, true};
ghost use Rattle.{mcbp_kv.specs.Fitting.{AsksFew}, mcbp_kv.specs.Requests.{code_of, required_of, durable_of, has_shape, first_of, refusals, written, request_by, request_of}, vb_types.specs.Limits.{IsKey, IsValue}};
ghost use Rattle.mcbp_kv.specs.declared.opcodes.Command.TheVariants as command;

use crate::durable::Durability;
use crate::feature::{Feature, accept};
use crate::framing::{Requirement, read_requirement};
use crate::opcodes::Command;
use bytes::Bytes;
use mcbp_frame::{CUT, Frame};
use std::alloc::{AllocError, Global};
use vb_types::{Key, Listed, MAX_KEY, MAX_VALUE, Op, Status, Value, Write};

/// What a client asks.
#[derive(Drop)]
pub enum KvRequest {
    /// The document of a key.
    Get {
        key: Key,
    },
    /// That a document be written, and be durable where that is required.
    Write {
        write: Write,
        durable: Option<Durability>,
    },
    /// An answer.
    Noop,
    /// These features, and no others.
    Hello {
        features: Listed<Feature>,
    },
}

/// A frame's command, and what is required of it.
#[derive(Clone, Copy)]
struct Called {
    command: Command,
    durable: Option<Durability>,
}

/// What is required of a command, or why that cannot be.
fn required(
    command: Command,
    framing: Result<Option<Requirement>, Status>,
) -> Result<Option<Durability>, Status>
    ensures { result ≡ required_of (code_of command) framing }
{
    let writes = matches!(command, Command::Write(_));
    match framing {
        Err(status) => Err(status),
        Ok(None) => Ok(None),
        Ok(Some(_)) if !writes => Err(Status::NotSupported),
        Ok(Some(requirement)) => match Durability::of(requirement) {
            None => Err(Status::DurabilityInvalidLevel),
            durable => Ok(durable),
        },
    }
}

/// Whether extras, key and value are those of the command, and an ADD has no CAS.
fn is_formed(f: &Frame, command: Command) -> bool
    ensures { result ≡ has_shape (code_of command) f.now }
{
    let (extras, key, value) = (f.extras.len(), f.key.len(), f.value.len());
    let keyed = 1 <= key && key <= MAX_KEY;
    match command {
        Command::Get | Command::Write(Op::Delete) => extras == 0 && keyed && value == 0,
        Command::Noop => extras == 0 && key == 0 && value == 0,
        Command::Hello => extras == 0 && key <= MAX_KEY && value % 2 == 0,
        Command::Write(Op::Add) => extras == 8 && keyed && f.cas == 0,
        Command::Write(_) => extras == 8 && keyed,
    }
}

/// The command of a frame and what is required of it, or the first reason to refuse the frame.
fn command_of(f: &Frame, json: bool) -> Result<Called, Status>
    ensures refused { IfErr result (λ status. first_of (refusals json f.now) ≡ Some status) }
    ensures passed { OnOk result (first_of (refusals json f.now) ≡ None) }
    ensures opcode { IfOk result (λ called. code_of called.command ≡ f.now.opcode) }
    ensures durable { IfOk result (λ called. durable_of f.now ≡ Ok called.durable) }
    ensures shape { OnOk result (has_shape f.now.opcode f.now ≡ true) }
    ensures value { OnOk result (IsValue f.now.value) }
{
    let Some(command) = Command::of(f.opcode) else {
        return Err(Status::UnknownCommand);
    };
    if f.datatype != 0 && !(json && f.datatype == 1) {
        return Err(Status::Einval);
    }
    let durable = match required(command, read_requirement(f.framing.as_slice())) {
        Ok(durable) => durable,
        Err(status) => return Err(status),
    };
    if !is_formed(f, command) {
        return Err(Status::Einval);
    }
    if f.value.len() > MAX_VALUE {
        return Err(Status::E2big);
    }
    Ok(Called { command, durable })
}

/// The write of a frame. A removal has neither flags nor an expiration.
fn write_of(f: &Frame, op: Op, key: Key, value: Value) -> Write
    requires opcode { code_of (command.Write op) ≡ f.now.opcode }
    requires shape { has_shape f.now.opcode f.now ≡ true }
    requires key { key ≡ f.now.key }
    requires value { value ≡ f.now.value }
    ensures { result ≡ written op f.now }
{
    let extras = f.extras.as_slice();
    let (flags, expiry) = match op {
        Op::Delete => (0, 0),
        _ => (
            u32::from_be_bytes([extras[0], extras[1], extras[2], extras[3]]),
            u32::from_be_bytes([extras[4], extras[5], extras[6], extras[7]]),
        ),
    };
    Write {
        op,
        key,
        value,
        flags,
        expiry,
        datatype: f.datatype,
        cas: f.cas,
    }
}

/// A key and a value in a list that never grows.
fn listed(alloc: Global, key: &[u8], value: &[u8]) -> Result<Vec<u8>, AllocError>
    requires { length key.now + length value.now < 2 ^ 32 }
    ensures { IfOk result (λ bytes. bytes.items ≡ key.now ++ value.now) }
{
    let mut bytes = Vec::with_capacity(alloc, key.len() + value.len())?;
    bytes.extend_from_slice(key)?;
    bytes.extend_from_slice(value)?;
    Ok(bytes)
}

/// A key and a value as two parts of one block.
#[tactic(auto, using(crate::proofs::Parts::front, crate::proofs::Parts::back))]
fn parted(alloc: Global, key: &[u8], value: &[u8]) -> Result<(Bytes, Bytes), AllocError>
    requires { length key.now + length value.now < 2 ^ 32 }
    ensures { IfOk result (λ parts. parts ≡ (key.now, value.now)) }
{
    let mut behind = Bytes::from_vec(listed(alloc, key, value)?)?;
    let front = behind.split_to(key.len())?;
    Ok((front, behind))
}

/// The key and the value of a frame as two parts of one block.
fn copied(alloc: Global, f: &Frame) -> Result<(Key, Value), AllocError>
    requires key { IsKey f.now.key }
    requires value { IsValue f.now.value }
    ensures { IfOk result (λ parts. parts ≡ (f.now.key, f.now.value)) }
{
    let (key, value) = parted(alloc, f.key.as_slice(), f.value.as_slice())?;
    let key = Key::from_bytes(key).unwrap();
    Ok((key, Value::from_bytes(value).unwrap()))
}

/// The key and the value of a frame. A short value stands beside its key in a block of their own, as a
/// table keeps its first key, and with it what stands beside that. A long one keeps its frame's copy of
/// the body, in which little else stands.
fn parts_of(alloc: Global, f: &Frame) -> Result<(Key, Value), AllocError>
    requires key { IsKey f.now.key }
    requires value { IsValue f.now.value }
    ensures { IfOk result (λ parts. parts ≡ (f.now.key, f.now.value)) }
{
    if f.value.len() < CUT {
        return copied(alloc, f);
    }
    let key = Key::new(alloc, f.key.as_slice())?.unwrap();
    Ok((key, Value::from_bytes(f.value.clone()?).unwrap()))
}

/// The write that a frame asks for.
fn write_asked(alloc: Global, f: &Frame, op: Op) -> Result<Write, AllocError>
    requires opcode { code_of (command.Write op) ≡ f.now.opcode }
    requires shape { has_shape f.now.opcode f.now ≡ true }
    requires value { IsValue f.now.value }
    ensures { IfOk result (λ write. write ≡ written op f.now) }
{
    let (key, value) = parts_of(alloc, f)?;
    Ok(write_of(f, op, key, value))
}

/// What a frame in which nothing is wrong asks.
#[tactic(auto, using(crate::proofs::Chosen::accepts_few))]
fn asked(alloc: Global, f: &Frame, called: Called) -> Result<KvRequest, AllocError>
    requires opcode { code_of called.command ≡ f.now.opcode }
    requires shape { has_shape f.now.opcode f.now ≡ true }
    requires value { IsValue f.now.value }
    ensures request { IfOk result (λ request. request ≡ request_by f.now.opcode called.durable f.now) }
    ensures few { IfOk result AsksFew }
{
    match called.command {
        Command::Get => Ok(KvRequest::Get {
            key: Key::from_bytes(f.key.clone()?).unwrap(),
        }),
        Command::Noop => Ok(KvRequest::Noop),
        Command::Hello => Ok(KvRequest::Hello {
            features: accept(alloc, f.value.as_slice())?,
        }),
        Command::Write(op) => {
            let write = write_asked(alloc, f, op)?;
            Ok(KvRequest::Write {
                write,
                durable: called.durable,
            })
        }
    }
}

/// What a client's frame asks, or why it is refused. With `json` its connection has the feature.
#[tactic(auto, unfolding(crate::specs::Requests::request_of))]
pub fn read_request(
    alloc: Global,
    f: &Frame,
    json: bool,
) -> Result<Result<KvRequest, Status>, AllocError>
    ensures read { IfOk result (λ read. read ≡ request_of json f.now) }
    ensures few { IfOk result (λ read. IfOk read AsksFew) }
{
    match command_of(f, json) {
        Err(status) => Ok(Err(status)),
        Ok(called) => Ok(Ok(asked(alloc, f, called)?)),
    }
}
