//! The writes of one client of a storm.
ghost use Rattle.std.specs.Prelude.{◌≡◌, ◌+◌, ◌<◌, ◌%◌, ◌/◌, ◌^◌, decimal, IfOk, OnErr};
ghost use Rattle.vb_types.specs.Limits.{IsKey, IsValue};
ghost use Rattle.storm_model.specs.Writes.{aimed, all_writes, client_key, stepped, vb_of_word, Gives};

use std::alloc::{AllocError, Global};
use std::marker::Model;
use vb_types::{Key, Op, Value, Write};

/// A write, and the vBucket that it is for.
#[derive(Drop)]
pub struct Aimed {
    pub vb: u16,
    pub write: Write,
}

/// The word behind a word.
fn stepped(word: u64) -> u64
    ensures { result ≡ stepped word }
{
    word.wrapping_mul(6_364_136_223_846_793_005)
        .wrapping_add(1_442_695_040_888_963_407)
}

/// The vBucket that a word's write is for.
fn vb_of(word: u64) -> u16
    ensures { result ≡ vb_of_word word }
{
    ((word >> 33) % 4) as u16
}

/// The key of these bytes, which are not too many.
fn key_of_bytes(alloc: Global, bytes: &[u8]) -> Result<Key, AllocError>
    requires { IsKey bytes.now }
    ensures { IfOk result (λ key. key ≡ bytes.now) }
{
    let Some(key) = Key::new(alloc, bytes)? else {
        unreachable!()
    };
    Ok(key)
}

/// The value of these bytes, which are not too many.
fn value_of_bytes(alloc: Global, bytes: &[u8]) -> Result<Value, AllocError>
    requires { IsValue bytes.now }
    ensures { IfOk result (λ value. value ≡ bytes.now) }
{
    let Some(value) = Value::new(alloc, bytes)? else {
        unreachable!()
    };
    Ok(value)
}

/// The key of a client's write of this word.
fn key_of(alloc: Global, client: u32, word: u64) -> Result<Key, AllocError>
    ensures { IfOk result (λ key. key ≡ client_key client (word / 2 ^ 40 % 100)) }
{
    let number = (word >> 40) % 100;
    let text = format!(in alloc; "c{client}k{number}")?;
    key_of_bytes(alloc, text.as_bytes())
}

/// The value of write i.
#[tactic(auto, using(crate::proofs::Lengths::short_value))]
fn value_of(alloc: Global, i: u32) -> Result<Value, AllocError>
    ensures { IfOk result (λ value. value ≡ decimal i) }
{
    let text = format!(in alloc; "{i}")?;
    value_of_bytes(alloc, text.as_bytes())
}

/// Write i of a client, of this word.
fn write_of(alloc: Global, client: u32, word: u64, i: u32) -> Result<Aimed, AllocError>
    ensures { IfOk result (λ made. made ≡ aimed client word i) }
{
    let key = key_of(alloc, client, word)?;
    let value = value_of(alloc, i)?;
    Ok(Aimed {
        vb: vb_of(word),
        write: Write {
            op: Op::Set,
            key,
            value,
            flags: 0,
            expiry: 0,
            datatype: 0,
            cas: 0,
        },
    })
}

/// A client's writes, one at a time. A contract sees those that are still to come.
#[derive(Drop)]
pub struct Writes {
    alloc: Global,
    client: u32,
    /// The word of the last write, or what stands before the first.
    word: u64,
    /// How many writes were made, and how many are left.
    made: u32,
    left: u32,
}

impl Model for Writes {
    ghost use Rattle.std.specs.Prelude.{List, ◌+◌, ◌<◌, ◌^◌};
    ghost use Rattle.std.specs.Coded.{coded_list};
    ghost use Rattle.storm_model.specs.declared.writes.Aimed.{Aimed};
    ghost use Rattle.storm_model.specs.contracts.writes.Aimed as aimed_row;
    ghost use Rattle.storm_model.specs.Writes.{writes_left};

    ghost Value = { List Aimed };

    ghost coded = { coded_list aimed_row.the_row.coded };

    ghost view = { λ w. writes_left w.client w.word w.made w.left };

    ghost invariant = { λ w. w.made + w.left < 2 ^ 32 };
}

impl Writes {
    /// The writes of this client, so many.
    #[tactic(auto, using(crate::proofs::Coming::all_to_come))]
    pub fn new(alloc: Global, seed: u64, client: u32, writes: u32) -> Writes
        ensures { result ≡ all_writes seed client writes }
    {
        Writes {
            alloc,
            client,
            word: seed.wrapping_add(u64::from(client)),
            made: 0,
            left: writes,
        }
    }

    /// The next write, if one is to come. An `Err` changes nothing.
    #[tactic(auto, using(crate::proofs::Coming::next_to_come))]
    pub fn next(&mut self) -> Result<Option<Aimed>, AllocError>
        ensures given { IfOk result (λ next. Gives self.old next self.new) }
        ensures err { OnErr result (self.new ≡ self.old) }
    {
        if self.left == 0 {
            return Ok(None);
        }
        let word = stepped(self.word);
        let made = self.made + 1;
        let next = write_of(self.alloc, self.client, word, made)?;
        self.word = word;
        self.made = made;
        self.left -= 1;
        Ok(Some(next))
    }
}
